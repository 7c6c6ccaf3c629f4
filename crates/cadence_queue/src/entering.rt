//! How a caller that adds a text enters a shared queue. If the queue is full, the caller gives way to the worker for a
//! moment, because a caller that asks a full queue again and again would otherwise keep the lock from the worker, which has
//! to empty the queue.
ghost use Rattle.std.specs.Option.{ForSome};
ghost use Rattle.std.specs.Prelude.{◌≡◌, IfErr, false};
ghost use Rattle.cadence_queue.specs.Queue.{is_open};
ghost use Rattle.cadence_queue.specs.Shown.{IsRefused, before_of, log_after};
ghost use Rattle.cadence_queue.specs.declared.queue_error.QueueError.TheVariants.{Full};

use super::shared_queue::SharedQueue;
use super::under_lock::{QueueStep, UnderLock};
use cadence_stage::{Logs, acquire, spin};
use std::alloc::Allocator;
use std::sync::atomic::{AtomicBool, Ordering};
use std::sync::{MutexGuard, Wait};
use std::thread;

// The numbers here were chosen by measurement. They decide how fast a caller is, and nothing else: no contract speaks of
// them.

/// How often a caller that finds the queue full looks whether texts are taken, before it is refused. With more looks the
/// queue accepts more lines, but a burst takes longer.
const LOOKS: u32 = 6;

/// How many turns of an empty loop a caller waits after each look. With a look after each turn a refusal takes longer.
const TURNS_AFTER_A_LOOK: u32 = 5;

/// How many callers in a row find the queue full until the next ones look only once. The worker is away then, so that a
/// longer wait would bring nothing.
const LATE_FOR_ONE_LOOK: u32 = 256;

/// How many callers in a row find the queue full until one of them yields, which lets other threads run. If none yielded,
/// the worker might get no processor while as many callers as there are processors keep calling, and the queue would stay
/// full. Not each caller yields, because on a busy machine a yield takes milliseconds.
const LATE_FOR_A_YIELD: u32 = 16;

/// Says, outside the lock of a queue, whether a caller has found the queue full since texts were last taken. It is changed
/// under the lock. It is only a hint: a caller that gives way reads it, and takes the lock again only if it was cleared.
#[derive(Drop)]
pub struct FullMark {
    is_set: AtomicBool,
}

impl FullMark {
    /// Makes a mark that is not set.
    pub(super) fn new() -> FullMark {
        FullMark {
            is_set: AtomicBool::new(false),
        }
    }

    fn is_set(&self) -> bool {
        self.is_set.load(Ordering::SeqCst)
    }

    // Sets or clears the mark. It is written only if it changes, because callers that give way are reading it.
    fn put(&self, is_set: bool) {
        if self.is_set() != is_set {
            self.is_set.store(is_set, Ordering::SeqCst);
        }
    }

    // Gives way to the worker for a moment, as the caller of this number that finds the queue full. Returns whether the
    // mark was cleared.
    fn give_way(&self, late: u32) -> bool {
        if late % LATE_FOR_A_YIELD == 0 {
            thread::yield_now();
            return !self.is_set();
        }
        let looks = if late < LATE_FOR_ONE_LOOK { LOOKS } else { 1 };
        for _ in 0..looks {
            spin(TURNS_AFTER_A_LOOK);
            if !self.is_set() {
                return true;
            }
        }
        false
    }
}

impl<T, A: Allocator, M, N: Logs> SharedQueue<T, A, M, N> {
    /// Takes the lock for a caller that adds a text. Returns the refusal instead, and no lock, if the queue was full, drops
    /// no text for another, and stayed full while the caller gave way.
    pub(super) fn enter(
        &self,
        rt: &impl Wait,
    ) -> Result<MutexGuard<'_, UnderLock<T, A, M, N>>, QueueStep<T, A>>
        ensures refused { IfErr result (λ step.
            IsRefused step Full × (is_open (before_of step) ≡ false)) }
        ensures named { IfErr result (λ step.
            ForSome N.logs (λ names. log_after step ≡ names.accepted)) }
    {
        let state = acquire(&self.state, rt);
        if !state.queue.core().is_full() {
            return Ok(state);
        }
        self.enter_late(rt, state)
    }

    // Releases the lock of a full queue for a moment, so that the worker can take it. If texts are taken meanwhile, or if
    // the queue makes room by itself, it takes the lock again. Otherwise the caller is refused for the state in which it
    // found the queue, and the lock is taken once. It is a function of its own, so that `enter` is short enough to be
    // inlined.
    #[cold]
    fn enter_late<'a>(
        &'a self,
        rt: &impl Wait,
        mut state: MutexGuard<'a, UnderLock<T, A, M, N>>,
    ) -> Result<MutexGuard<'a, UnderLock<T, A, M, N>>, QueueStep<T, A>>
        ensures refused { IfErr result (λ step.
            IsRefused step Full × (is_open (before_of step) ≡ false)) }
        ensures named { IfErr result (λ step.
            ForSome N.logs (λ names. log_after step ≡ names.accepted)) }
    {
        if state.queue.core().is_stopped() {
            return Ok(state);
        }
        let refusal = state.refusal();
        state.late = state.late.wrapping_add(1);
        let late = state.late;
        self.full.put(true);
        drop(state);
        let is_cleared = self.full.give_way(late);
        match refusal {
            Some(step) if !is_cleared => Err(step),
            _ => Ok(acquire(&self.state, rt)),
        }
    }

    /// Notes, under the lock, that texts are taken now: no caller counts as late any more, and those that give way may try
    /// again.
    pub(super) fn begin_take(&self, state: &mut UnderLock<T, A, M, N>)
        ensures { state.new.queue ≡ state.old.queue }
    {
        state.late = 0;
        self.full.put(false);
    }
}
