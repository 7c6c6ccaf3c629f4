//! The audited queue: its history, a seat of another queue, each request for memory refused in turn, and callers in
//! threads. A contract says what a history agrees with. The tests show that it is the history of these calls.
use cadence_audit::{AuditError, AuditedQueue, Event, Seat, SubmitReply};
use cadence_queue::Taken;
use std::alloc::{AllocError, Global};
use std::sync::Wait;
use std::sync::atomic::{AtomicU64, Ordering};
use std::test::Fail;
use std::thread::{self, Threads};
use test_tools::{RefusingAllocator, each_refused};

fn new_text(alloc: Global, characters: &str) -> Result<String, Fail> {
    Ok(String::from_str(alloc, characters)?)
}

// Submits a text, and returns whether the queue replies with `wanted`.
fn replies<R: Wait>(
    rt: &R,
    queue: &AuditedQueue,
    seat: &mut Seat,
    text: String,
    wanted: SubmitReply,
) -> bool {
    matches!(queue.submit(rt, seat, text), Ok(reply) if reply == wanted)
}

// Makes each kind of call of a queue with room for one text. Returns whether submits get each of their replies, and a
// take gets the text.
fn makes_each_call<R: Wait>(
    rt: &R,
    queue: &AuditedQueue,
    (zero, one): (&mut Seat, &mut Seat),
    [a, b, c]: [String; 3],
) -> bool {
    let is_accepted = replies(rt, queue, zero, a, SubmitReply::Accepted);
    let is_full = replies(rt, queue, one, b, SubmitReply::Full);
    let is_taken = matches!(queue.take(rt, one), Ok(Taken::Text(text)) if text.as_str() == "a");
    let is_stopped = queue.stop(rt, zero).is_ok();
    is_accepted
        && is_full
        && is_taken
        && is_stopped
        && replies(rt, queue, one, c, SubmitReply::Stopped)
}

// Returns whether the event has this seat and this count, and is equal to its copy.
fn is_event_of(event: &Event, place: (usize, usize)) -> Result<bool, AllocError> {
    Ok((event.seat, event.count) == place && event.clone()? == *event)
}

// The seats in the order of the calls, each with how many calls it made before.
const PLACES: [(usize, usize); 5] = [(0, 0), (1, 0), (1, 1), (0, 1), (1, 2)];

#[test]
fn events_are_in_the_order_of_the_calls(rt: HostRuntime) -> Result<(), Fail> {
    let (queue, mut seats) = AuditedQueue::new(rt.alloc(), Some(1), 2)?;
    let (mut one, mut zero) = (seats.pop().ok_or("no seat")?, seats.pop().ok_or("no seat")?);
    let texts = [
        new_text(rt.alloc(), "a")?,
        new_text(rt.alloc(), "b")?,
        new_text(rt.alloc(), "c")?,
    ];
    assert!(rt; makes_each_call(&rt, &queue, (&mut zero, &mut one), texts));
    let history = queue
        .end(vec![in rt.alloc(); zero, one]?)
        .ok()
        .ok_or("differs")?;
    assert!(rt; history.events().len() == PLACES.len() && !history.agrees(&[]));
    for (event, place) in history.events().iter().zip(PLACES) {
        assert!(rt; is_event_of(event, place)?);
    }
    Ok(())
}

#[test]
fn a_seat_past_the_last_is_a_stranger(rt: HostRuntime) -> Result<(), Fail> {
    let (_other, mut seats) = AuditedQueue::new(rt.alloc(), None, 3)?;
    let (queue, _mine) = AuditedQueue::new(rt.alloc(), None, 2)?;
    let (mut two, text) = (seats.pop().ok_or("no seat")?, new_text(rt.alloc(), "x")?);
    assert!(rt;
        matches!(
            queue.submit(&rt, &mut two, text),
            Err((AuditError::Stranger, _))
        )
    );
    Ok(())
}

type Heap = RefusingAllocator<Global>;

type RefusingQueue = AuditedQueue<Heap>;

// A queue with one seat, and a text.
type Parts = (RefusingQueue, Vec<Seat<Heap>, Heap>, String<Heap>);

// Makes a queue with one seat, and a text. Returns `None` if there is no memory.
fn make_queue(heap: Heap) -> Option<Parts> {
    let (queue, seats) = AuditedQueue::new(heap.clone().ok()?, None, 1).ok()?;
    let text = String::from_str(heap, "a").ok()?;
    Some((queue, seats, text))
}

// Submits a text, and once more if memory runs out. Returns whether it ran out.
fn is_submit_refused<R: Wait>(
    rt: &R,
    queue: &RefusingQueue,
    seat: &mut Seat<Heap>,
    text: String<Heap>,
) -> Result<bool, Fail> {
    let text = match queue.submit(rt, seat, text) {
        Ok(_) => return Ok(false),
        Err((AuditError::OutOfMemory, text)) => text,
        Err(_) => return Err(Fail::new("another error")),
    };
    match queue.submit(rt, seat, text) {
        Ok(_) => Ok(true),
        Err(_) => Err(Fail::new("refused again")),
    }
}

// Takes the text `a`, and once more if memory runs out. Returns whether it ran out.
fn is_take_refused<R: Wait>(
    rt: &R,
    queue: &RefusingQueue,
    seat: &mut Seat<Heap>,
) -> Result<bool, Fail> {
    for is_refused in [false, true] {
        match queue.take(rt, seat) {
            Ok(Taken::Text(text)) if text.as_str() == "a" => return Ok(is_refused),
            Err(AuditError::OutOfMemory) => {}
            _ => return Err(Fail::new("another text or error")),
        }
    }
    Err(Fail::new("refused again"))
}

// Stops the queue, and once more if memory runs out. Returns whether it ran out.
fn is_stop_refused<R: Wait>(
    rt: &R,
    queue: &RefusingQueue,
    seat: &mut Seat<Heap>,
) -> Result<bool, Fail> {
    match queue.stop(rt, seat) {
        Ok(()) => Ok(false),
        Err(AuditError::OutOfMemory) if queue.stop(rt, seat).is_ok() => Ok(true),
        Err(_) => Err(Fail::new("another error, or refused again")),
    }
}

// Returns whether the heap had all the memory for a stop, or else for a submit and a take. A call that is refused is
// counted. At the end the history has to agree with the receipts.
fn has_all_memory<R: Wait>(
    rt: &R,
    heap: Heap,
    refusals: &AtomicU64,
    is_stop: bool,
) -> Result<bool, Fail> {
    let Some((queue, mut seats, text)) = make_queue(heap) else {
        return Ok(false);
    };
    let seat = seats.get_mut(0).ok_or("no seat")?;
    let is_refused = if is_stop {
        is_stop_refused(rt, &queue, seat)?
    } else {
        let is_submit_refused = is_submit_refused(rt, &queue, seat, text)?;
        is_take_refused(rt, &queue, seat)? || is_submit_refused
    };
    if queue.end(seats).is_err() {
        return Err(Fail::new("another history"));
    }
    refusals.fetch_add(u64::from(is_refused), Ordering::SeqCst);
    Ok(!is_refused)
}

#[test]
fn each_request_of_a_call_may_be_refused(rt: HostRuntime) -> Result<(), Fail> {
    // A submit makes two copies of the text, and makes room in the queue, in the history and among the receipts. A take
    // makes a copy at least, and a stop makes room in the history and among the receipts.
    for (is_stop, least) in [(false, 5 + 1), (true, 2)] {
        let refusals = AtomicU64::new(0);
        let granted: Result<Option<u64>, Fail> = each_refused(
            rt.alloc(),
            |heap| has_all_memory(&rt, heap, &refusals, is_stop),
        );
        assert!(rt; granted?.is_some() && refusals.load(Ordering::SeqCst) >= least);
    }
    Ok(())
}

// How many callers submit texts, and how many each of them. One more caller takes, more often than there are texts.
const SUBMITTERS: usize = 3;

const TEXTS: u32 = 50;

const TAKES: u32 = 300;

// Makes the calls of the caller with this seat, and returns the seat.
fn call_all<R: Wait>(
    rt: &R,
    alloc: Global,
    queue: &AuditedQueue,
    mut seat: Seat,
) -> Result<Seat, &'static str> {
    let is_taker = seat.number() == SUBMITTERS;
    for number in 0..if is_taker { TAKES } else { TEXTS } {
        let is_made = if is_taker {
            queue.take(rt, &mut seat).is_ok()
        } else {
            let text = format!(in alloc; "{number}").map_err(|_| "memory")?;
            queue.submit(rt, &mut seat, text).is_ok()
        };
        if !is_made {
            return Err("refused");
        }
    }
    Ok(seat)
}

// Runs the callers, each in a thread. Returns how many events the history has, if it agrees with the receipts.
fn events_of_callers<R: Wait + Threads + Sync>(
    rt: &R,
    alloc: Global,
    capacity: Option<usize>,
) -> Result<usize, Fail> {
    let (queue, seats) = AuditedQueue::new(alloc, capacity, SUBMITTERS + 1)?;
    let all = thread::map_vec(rt, seats, &|seat| call_all(rt, alloc, &queue, seat))?;
    let mut seats = Vec::new(alloc);
    for seat in all {
        seats.push(seat?)?;
    }
    let history = queue.end(seats).ok().ok_or("differs")?;
    Ok(history.events().len())
}

#[test]
fn threads_share_a_queue(rt: HostRuntime) -> Result<(), Fail> {
    for capacity in [None, Some(8)] {
        assert_eq!(rt; events_of_callers(&rt, rt.alloc(), capacity)?, 3 * 50 + 300);
    }
    Ok(())
}
