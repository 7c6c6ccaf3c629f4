//! The memory of lines that a taker gives back, which later lines use.
use cadence_errors::MetricResult;
use cadence_queue::{SharedQueue, Taker};
use std::alloc::Global;
use std::sync::Wait;
use std::test::Fail;
use test_tools::{RefusingAllocator, each_refused};

type Line = String<RefusingAllocator<Global>>;

type Lines = SharedQueue<Line, RefusingAllocator<Global>>;

type LinesTaker<'a> = Taker<'a, Line, RefusingAllocator<Global>>;

// Puts a line into the queue, in the memory of a line that was handed on if there is one. Returns whether there was
// memory for it.
fn accepts<R: Wait>(rt: &R, heap: &RefusingAllocator<Global>, queue: &Lines, line: &str) -> bool {
    let (answer, _step) = queue.offer(rt, |older| match older {
        Some(mut text) => {
            text.clear();
            text.push_str(line)?;
            Ok(text)
        }
        None => String::from_str(heap.clone()?, line),
    });
    answer.is_ok()
}

// Takes the next line, and gives its memory back. Returns whether it is this line.
fn gives_back_next<R: Wait>(rt: &R, taker: &mut LinesTaker<'_>, line: &str) -> bool {
    match taker.next(rt) {
        Some(text) if text.as_str() == line => {
            taker.give_back(text);
            true
        }
        _ => false,
    }
}

// Lines. One uses the memory of the second line before it, and asks for memory only if there is none, or if it is
// longer than that line: the first, the second and the fourth line do.
const LINES: &[&str] = &[
    "a:1|c",
    "b:2|c",
    "c:3|c",
    "longer:4444|c",
    "e:5|c",
    "longer:6666|c",
];

// Puts each line into a queue of two, and takes it. Returns how many lines were refused at first because memory ran out,
// and accepted at the next try. Returns `None` if another line came, or if a line was refused twice.
fn refused_once<R: Wait>(
    rt: &R,
    heap: &RefusingAllocator<Global>,
    queue: &Lines,
    taker: &mut LinesTaker<'_>,
) -> Option<u64> {
    let mut refused = 0u64;
    for line in LINES {
        if !accepts(rt, heap, queue, line) {
            refused = refused.wrapping_add(1);
            if !accepts(rt, heap, queue, line) {
                return None;
            }
        }
        if !gives_back_next(rt, taker, line) {
            return None;
        }
    }
    Some(refused)
}

// Finishes a taker of a queue that is stopped, and returns whether no line was left.
fn finish<R: Wait>(rt: &R, mut taker: LinesTaker<'_>) -> bool {
    let mut is_empty = true;
    for _ in rt.forever() {
        if taker.next(rt).is_none() {
            let _ = taker.finish();
            return is_empty;
        }
        is_empty = false;
    }
    unreachable!()
}

// Makes a queue of two and its taker, and returns what `refused_once` returns of them.
fn refused_in_a_queue<R: Wait>(
    rt: &R,
    heap: RefusingAllocator<Global>,
) -> MetricResult<Option<u64>> {
    let queue = SharedQueue::new(heap.clone()?, Some(2))?;
    let room = queue.room_of_taker(heap.clone()?)?;
    let mut taker = queue.taker(rt, room);
    let refused = refused_once(rt, &heap, &queue, &mut taker);
    queue.stop(rt);
    Ok(if finish(rt, taker) { refused } else { None })
}

// The requests of the queue's ring (1), of the taker (3), and of the lines that ask for memory (3).
const REQUESTS: u64 = 1 + 3 + 3;

// Returns whether the heap had memory for the queue, the taker and all lines.
fn has_all_memory<R: Wait>(rt: &R, heap: RefusingAllocator<Global>) -> Result<bool, Fail> {
    match refused_in_a_queue(rt, heap) {
        Ok(Some(refused)) => Ok(refused == 0),
        Ok(None) => Err(Fail::new("another line, or a line that is refused twice")),
        Err(_) => Ok(false),
    }
}

#[test]
fn a_line_is_made_in_the_memory_of_another(rt: HostRuntime) -> Result<(), Fail> {
    let granted = each_refused(rt.alloc(), |heap| has_all_memory(&rt, heap))?;
    assert_eq!(rt; granted, Some(REQUESTS));
    Ok(())
}
