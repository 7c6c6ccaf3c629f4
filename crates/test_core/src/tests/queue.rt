//! The shared queue: that its calls take the steps of the queue under its lock, which no clause says, and the end mark
//! of a worker. Threads that wait for each other show that a waiting thread is woken. No result depends on when it is
//! woken.
//!
//! The contracts of `QueueCore` say what each of its calls does, and the program `test_scripts` refuses its memory.
use cadence_errors::SinkError;
use cadence_queue::{QueuePolicy, SharedQueue, Taken};
use cadence_stage::Latch;
use std::sync::Wait;
use std::sync::atomic::{AtomicBool, Ordering};
use std::test::Fail;
use std::thread::{self, Threads};
use std::time::{Clock, Duration};

// Sleeps for a time in which another thread most likely begins to wait. No result depends on that.
fn sleep_a_while<R: Clock>(rt: &R) {
    thread::sleep(rt, Duration::from_millis(20));
}

// Returns the text that was taken, if one was.
fn text_of(taken: Taken<char>) -> Option<char> {
    match taken {
        Taken::Text(text) => Some(text),
        Taken::Empty | Taken::Ended => None,
    }
}

// What wakes a thread that waits for a text.
#[derive(Clone, Copy)]
enum Wake {
    Text,
    Stop,
    LastHandle,
}

// Waits for a text in one thread, and wakes this thread by another one. Returns the text that came, if one came.
fn wake_a_taker<R: Wait + Clock + Threads + Sync>(
    rt: &R,
    queue: &SharedQueue<char>,
    wake: Wake,
) -> Option<char> {
    let (got, _) = thread::join(
        rt,
        || text_of(queue.take_wait(rt).0),
        || {
            sleep_a_while(rt);
            match wake {
                Wake::Text => {
                    let _ = queue.submit(rt, 'A');
                }
                Wake::Stop => drop(queue.stop(rt)),
                Wake::LastHandle => drop(queue.drop_handle(rt)),
            }
        },
    );
    got
}

#[test]
fn a_waiting_taker_is_woken(rt: HostRuntime) -> Result<(), Fail> {
    let wakes = [
        (Wake::Text, Some('A')),
        (Wake::Stop, None),
        (Wake::LastHandle, None),
    ];
    for (wake, wanted) in wakes {
        let queue = SharedQueue::new(rt.alloc(), Some(1))?;
        assert!(rt; wake_a_taker(&rt, &queue, wake) == wanted);
        assert!(rt; matches!(queue.try_take(&rt).0, Taken::Ended) == wanted.is_none());
    }
    Ok(())
}

// Adds a text by `offer`, and returns whether it is accepted.
fn accepts<R: Wait>(rt: &R, queue: &SharedQueue<char>, text: char) -> bool {
    queue.offer(rt, |_older| Ok(text)).0.is_ok()
}

// Returns how many texts the queue has accepted, drained and dropped, and how many wait.
fn counts_of<R: Wait>(rt: &R, queue: &SharedQueue<char>) -> [u64; 4] {
    [
        queue.submitted(rt),
        queue.drained(rt),
        queue.dropped(rt),
        queue.waiting(rt) as u64,
    ]
}

// Submits A and B to a queue with room for one text. Returns whether a queue of this policy has to answer so.
fn answers_by_policy<R: Wait>(rt: &R, queue: &SharedQueue<char>, policy: QueuePolicy) -> bool {
    let is_accepted = matches!(queue.submit(rt, 'A'), Ok(None));
    let answer = queue.submit(rt, 'B');
    is_accepted
        && match policy {
            QueuePolicy::Refuse => matches!(answer, Err((SinkError::ChannelFull, 'B'))),
            QueuePolicy::DropOldest => matches!(answer, Ok(Some('A'))),
        }
}

// What a queue with room for one text does with A, B and C: how many it has accepted, drained and dropped, how many
// wait, and the one that is taken then.
const BY_POLICY: [(QueuePolicy, [u64; 4], char); 2] = [
    (QueuePolicy::Refuse, [1, 0, 0, 1], 'A'),
    (QueuePolicy::DropOldest, [3, 0, 2, 1], 'C'),
];

#[test]
fn a_full_queue_does_as_its_policy_says(rt: HostRuntime) -> Result<(), Fail> {
    for (policy, counts, left) in BY_POLICY {
        let queue = SharedQueue::with_policy(rt.alloc(), Some(1), policy)?;
        assert!(rt; answers_by_policy(&rt, &queue, policy));
        assert!(rt; accepts(&rt, &queue, 'C') == (policy == QueuePolicy::DropOldest));
        assert!(rt; counts_of(&rt, &queue) == counts);
        assert!(rt; matches!(queue.try_take(&rt).0, Taken::Text(text) if text == left));
        assert!(rt; matches!(queue.try_take(&rt).0, Taken::Empty));
        assert!(rt; queue.drained(&rt) == 1 && queue.waiting(&rt) == 0);
    }
    Ok(())
}

#[test]
fn the_last_handle_stops_a_queue(rt: HostRuntime) -> Result<(), Fail> {
    let queue = SharedQueue::new(rt.alloc(), None)?;
    queue.add_handle(&rt);
    queue.drop_handle(&rt);
    assert!(rt; accepts(&rt, &queue, 'A'));
    queue.drop_handle(&rt);
    assert!(rt;
        matches!(
            queue.submit(&rt, 'B'),
            Err((SinkError::ChannelDisconnected, 'B'))
        )
    );
    assert!(rt;
        queue.take_wait(&rt).0 == Taken::Text('A') && queue.take_wait(&rt).0 == Taken::Ended
    );
    Ok(())
}

// Waits for an end mark, at most for this time if there is one. Returns whether it is set.
fn is_set<R: Wait + Clock>(rt: &R, end: &Latch, most: Option<Duration>) -> bool {
    match most {
        Some(time) => end.wait_within(rt, time),
        None => {
            end.wait(rt);
            true
        }
    }
}

#[test]
fn an_end_mark_is_waited_for(rt: HostRuntime) -> Result<(), Fail> {
    let moment = Duration::from_millis(2);
    for most in [None, Some(Duration::from_secs(3600))] {
        let (end, is_marked) = (Latch::new(), AtomicBool::new(false));
        assert!(rt; !end.wait_within(&rt, moment));
        let (was_marked, _) = thread::join(
            &rt,
            || is_set(&rt, &end, most) && is_marked.load(Ordering::SeqCst),
            || {
                sleep_a_while(&rt);
                is_marked.store(true, Ordering::SeqCst);
                end.mark(&rt, ());
            },
        );
        assert!(rt; was_marked && end.wait_within(&rt, moment));
    }
    Ok(())
}
