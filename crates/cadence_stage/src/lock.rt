//! How a lock is taken.
//!
//! Each thread that takes the lock of a queue or of counts releases it soon, after one step. The lock of a packer is held
//! while a packet is sent, which may take long. There are three ways to take a lock:
//!
//! - `acquire` tries the lock, and spins and tries again, before it sleeps. The calls that a service makes for each
//!   metric take the lock in this way (the `emit` of a buffered sink over a socket, the queue's `submit`, `offer` and
//!   `try_take`, and the counts of a socket), because a sleeper has to be woken by the thread that has the lock, which
//!   costs both of them more than a short wait.
//! - `lock.lock(rt)` spins for about a microsecond and then sleeps, if another thread has the lock. The calls that are
//!   not in a hurry take it in this way: a flush, a stop, a change of the handles, a reading of the queue's counts, a
//!   worker that is about to sleep anyway, and the buffered sink for tests.
//! - `lock.try_lock()` alone is how the worker looks for texts: it never sleeps for the lock (`SharedQueue::look`).
//!
//! The numbers here were chosen by measurement, and no contract speaks of them.

use std::hint;
use std::sync::{Mutex, MutexGuard, Wait};

/// How often a caller that finds a lock held tries it again before it sleeps.
const TRIES: u32 = 16;

/// How many turns of an empty loop a caller waits between two tries of a lock that is held.
const TURNS_BETWEEN_TRIES: u32 = 200;

/// Spins for this many turns of an empty loop.
pub fn spin(turns: u32) {
    for _ in 0..turns {
        hint::spin_loop();
    }
}

/// Takes a lock that threads mostly release soon. If another thread has it, this call spins and tries again several
/// times, and only then sleeps.
pub fn acquire<'a, T>(lock: &'a Mutex<T>, rt: &impl Wait) -> MutexGuard<'a, T> {
    match lock.try_lock() {
        Some(guard) => guard,
        None => acquire_late(lock, rt),
    }
}

// Takes a lock that another thread held a moment ago. It is a function of its own, so that `acquire` is short enough to
// be inlined.
#[cold]
fn acquire_late<'a, T>(lock: &'a Mutex<T>, rt: &impl Wait) -> MutexGuard<'a, T> {
    for _ in 0..TRIES {
        spin(TURNS_BETWEEN_TRIES);
        if let Some(guard) = lock.try_lock() {
            return guard;
        }
    }
    lock.lock(rt)
}
