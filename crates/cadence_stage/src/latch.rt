//! A mark that one thread sets and that others wait for.
ghost use Rattle.std.specs.Prelude.{◌≡◌, Some};

use std::sync::{Condvar, Mutex, MutexGuard, Wait};
use std::time::{Clock, Duration};

/// A mark that one thread sets once and that other threads can wait for. It has a lock of its own. The thread leaves a
/// value there, which may exist in proofs only. The worker of a queue sets a mark at its end, and the owner of a
/// `Repeater` sets one to end the thread.
#[derive(Drop)]
pub struct Latch<P: Drop = ()> {
    left: Mutex<Option<P>>,
    marked: Condvar,
}

// Sets the mark. It is a function of its own, because the contract of `mark` can't name the value under the lock.
fn set<P: Drop>(mark: &mut Option<P>, left: P)
    ensures { mark.new ≡ Some left }
{
    *mark = Some(left);
}

impl<P: Drop> Latch<P> {
    ghost use Rattle.std.specs.Prelude.{IsSome};
    ghost use Rattle.std.specs.Sync.Mutex.{mutex_guard_value};

    /// Makes a mark that is not set yet.
    pub fn new() -> Latch<P> {
        Latch {
            left: Mutex::new(None),
            marked: Condvar::new(),
        }
    }

    /// Sets the mark, leaves this value there, and wakes the threads that wait for the mark.
    pub fn mark(&self, rt: &impl Wait, left: P) {
        set(&mut self.left.lock(rt), left);
        self.marked.notify_all();
    }

    /// Waits until the mark is set, and returns what was left there.
    pub fn wait(&self, rt: &impl Wait) -> MutexGuard<'_, Option<P>>
        ensures { IsSome (mutex_guard_value result) }
    {
        self.marked
            .wait_while(rt, self.left.lock(rt), |left| left.is_none())
    }

    /// Waits until the mark is set, but at most for this time. Returns whether the mark is set. If the clock can't be
    /// read, it doesn't wait.
    pub fn wait_within<R: Wait + Clock>(&self, rt: &R, time: Duration) -> bool {
        let (_left, outcome) = self
            .marked
            .wait_timeout_while(rt, self.left.lock(rt), time, |left| left.is_none());
        !outcome.timed_out()
    }
}
