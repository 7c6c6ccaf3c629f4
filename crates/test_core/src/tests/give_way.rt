//! A caller that finds a queue full gives way to the worker for a moment: it releases the lock, spins, and looks whether
//! texts are taken. So a refusal by a full queue takes longer than one by a queue that is stopped, which is the same call
//! without that. Callers that find the queue full after many others spin for a shorter time, until texts are taken.
use cadence_queue::SharedQueue;
use std::io;
use std::sync::Wait;
use std::test::Fail;
use std::time::{Clock, Duration, Instant};

// Other work of the machine can slow down some rounds, but hardly all of them, so the fastest one counts.
const ROUNDS: u32 = 50;

const CALLS: u32 = 200;

// Returns how long a round of calls takes that the queue refuses.
fn time_of_round<R: Wait + Clock>(rt: &R, queue: &SharedQueue<char>) -> io::Result<Duration> {
    let begun = Instant::now(rt)?;
    for _ in 0..CALLS {
        let _ = queue.submit(rt, 'a');
    }
    begun.elapsed(rt)
}

// Asserts that the first time is longer than the second one, by a sixth at least.
fn assert_is_longer(one: Duration, other: Duration) -> Result<(), Fail> {
    let (one, other) = (one.as_nanos(), other.as_nanos());
    if one.wrapping_mul(6) <= other.wrapping_mul(7) {
        return Err(Fail::new(format_args!("{one} and {other} nanoseconds")));
    }
    Ok(())
}

#[test]
fn a_caller_gives_way_at_a_full_queue(rt: HostRuntime) -> Result<(), Fail> {
    let full = SharedQueue::new(rt.alloc(), Some(0))?;
    let stopped = SharedQueue::new(rt.alloc(), Some(0))?;
    stopped.stop(&rt);
    let (mut at_full, mut at_stopped) = (Duration::MAX, Duration::MAX);
    for _ in 0..ROUNDS {
        let _ = full.try_take(&rt);
        at_full = at_full.min(time_of_round(&rt, &full)?);
        at_stopped = at_stopped.min(time_of_round(&rt, &stopped)?);
    }
    assert_is_longer(at_full, at_stopped)
}

#[test]
fn a_take_lets_callers_wait_longer_again(rt: HostRuntime) -> Result<(), Fail> {
    let queue = SharedQueue::new(rt.alloc(), Some(0))?;
    let (mut after_a_take, mut after_many) = (Duration::MAX, Duration::MAX);
    for _ in 0..ROUNDS {
        let _ = queue.try_take(&rt);
        after_a_take = after_a_take.min(time_of_round(&rt, &queue)?);
        let _ = time_of_round(&rt, &queue)?;
        after_many = after_many.min(time_of_round(&rt, &queue)?);
    }
    assert_is_longer(after_a_take, after_many)
}
