//! A taker of a shared queue: how many texts it moves at once, and how long it waits for one. It moves at most as many
//! texts at once as fit a 32nd of the queue's capacity, at least 1 and at most 32; the numbers below follow from that.
use cadence_queue::{SharedQueue, Taker};
use std::sync::Wait;
use std::test::Fail;
use std::time::Duration;

// Submits the numbers below `end`, and returns whether each is accepted without a drop.
fn submit_all<R: Wait>(rt: &R, queue: &SharedQueue<u64>, end: u64) -> bool {
    for number in 0..end {
        if !matches!(queue.submit(rt, number), Ok(None)) {
            return false;
        }
    }
    true
}

// Takes the texts that are left in a queue that is stopped. Returns whether they are the numbers from `first` to the
// one before `end`, in order.
fn are_left<R: Wait>(rt: &R, mut taker: Taker<'_, u64>, first: u64, end: u64) -> bool {
    let (mut wanted, mut is_same) = (first, true);
    for _ in rt.forever() {
        match taker.next(rt) {
            Some(number) => {
                is_same = number == wanted && is_same;
                wanted = wanted.wrapping_add(1);
            }
            None => {
                let _ = taker.finish();
                return is_same && wanted == end;
            }
        }
    }
    unreachable!()
}

// A capacity, how many texts are submitted, and how many of them the taker moves with the first one.
const MOVED: [(Option<usize>, u64, u64); 4] = [
    (Some(3), 3, 1),
    (Some(20), 12, 10),
    (Some(80), 36, 32),
    (None, 36, 32),
];

#[test]
fn a_taker_moves_a_part_of_the_queue(rt: HostRuntime) -> Result<(), Fail> {
    for (capacity, end, moved) in MOVED {
        let queue = SharedQueue::new(rt.alloc(), capacity)?;
        let room = queue.room_of_taker(rt.alloc())?;
        let mut taker = queue.taker(&rt, room);
        assert!(rt; submit_all(&rt, &queue, end));
        assert!(rt; taker.next(&rt) == Some(0));
        assert!(rt;
            queue.drained(&rt) == moved && queue.waiting(&rt) as u64 == end.wrapping_sub(moved)
        );
        queue.stop(&rt);
        assert!(rt; are_left(&rt, taker, 1, end));
    }
    Ok(())
}

#[test]
fn a_fetch_waits_for_a_time(rt: HostRuntime) -> Result<(), Fail> {
    let (moment, hour) = (Duration::from_millis(2), Duration::from_secs(3600));
    let queue = SharedQueue::new(rt.alloc(), Some(2))?;
    let room = queue.room_of_taker(rt.alloc())?;
    let mut taker = queue.taker(&rt, room);
    assert!(rt; !taker.fetch_within(&rt, moment) && taker.is_empty());
    assert!(rt; submit_all(&rt, &queue, 2));
    // a text that it has already ends the wait, and no other one is moved
    for _ in 0..2 {
        assert!(rt; taker.fetch_within(&rt, hour) && !taker.is_empty());
        assert!(rt; queue.drained(&rt) == 1);
    }
    assert!(rt; taker.next(&rt) == Some(0) && taker.next(&rt) == Some(1));
    queue.stop(&rt);
    assert!(rt; taker.fetch_within(&rt, hour) && taker.is_empty());
    assert!(rt; are_left(&rt, taker, 2, 2));
    Ok(())
}
