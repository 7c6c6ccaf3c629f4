//! A thread that does the same work again and again, and the owner that shares the work with it.
ghost use Rattle.std.specs.Prelude.{◌≡◌, IfErr, IfOk};
ghost use Rattle.cadence_queuing.specs.Queuing.{IsQueuingRefusal, repeated_work};

use cadence_errors::{MetricResult, SinkError};
use cadence_flow::Handler;
use cadence_flow::thread::{Job, start};
use cadence_stage::Latch;
use std::alloc::{Allocator, Global};
use std::sync::{Arc, Mutex, Wait};
use std::thread::{self, Threads};
use std::time::{Clock, Duration, Instant};

// The shortest period, in milliseconds, so that the thread also sleeps if the period is 0.
const SHORTEST_PERIOD: u64 = 1;

/// Work that a thread does again and again.
pub trait PeriodicWork: Drop {
    /// Does the work once.
    fn do_once<R: Wait>(&self, rt: &R) -> Result<(), SinkError>;
}

// What the owner and the thread share: a share of the work, and the mark that is set when the thread has to end. The
// thread clones the share for each turn, and the owner takes it back at its drop. So the owner is the last one that has
// the work, and drops it itself, unless the thread is in a turn.
#[derive(Drop)]
struct SharedWork<W: PeriodicWork, A: Allocator> {
    share: Mutex<Option<Arc<W, A>>>,
    end: Latch,
}

impl<W: PeriodicWork, A: Allocator + Clone> SharedWork<W, A> {
    // Does the work once, if the owner still shares it.
    fn take_turn<R: Wait>(&self, rt: &R) -> Result<(), SinkError> {
        let work = match &*self.share.lock(rt) {
            Some(work) => work.clone()?,
            None => return Ok(()),
        };
        work.do_once(rt)
    }

    // Does the work after each period, until the mark is set. An error goes to the handler.
    fn run<R: Wait + Clock>(&self, rt: &R, period: Duration, handler: &Option<Handler<A>>) {
        for _ in rt.forever() {
            if self.end.wait_within(rt, period) {
                return;
            }
            // the wait is over at once if the clock can't be read
            if Instant::now(rt).is_err() {
                thread::sleep(rt, period);
            }
            if let (Err(fault), Some(handler)) = (self.take_turn(rt), handler) {
                handler.handle(fault);
            }
        }
    }
}

// What the thread needs besides the handler.
#[derive(Drop)]
struct Thread<W: PeriodicWork, R: Wait + Clock + Drop, A: Allocator> {
    rt: R,
    shared: Arc<SharedWork<W, A>, A>,
    period: Duration,
}

impl<W: PeriodicWork, R: Wait + Clock + Drop, A: Allocator + Clone> Job<Option<Handler<A>>>
    for Thread<W, R, A> {
    fn run(self, handler: Option<Handler<A>>) {
        self.shared.run(&self.rt, self.period, &handler)
    }
}

/// Owns work, and shares it with a thread that does it after each period.
///
/// The drop stops the thread and doesn't wait for it. Then it does the work once more, drops the error of this, and drops
/// the work. If the thread is doing the work at that time, the thread drops it when this turn ends. It keeps the runtime
/// `R`, whose locks it takes.
pub struct Repeater<W: PeriodicWork, R: Wait + Drop, A: Allocator = Global> {
    rt: R,
    work: Arc<W, A>,
    shared: Arc<SharedWork<W, A>, A>,
}

impl<
    W: PeriodicWork + Send + Sync + 'static,
    R: Wait + Clock + Threads + Clone + Drop + Send + Sync + 'static,
    A: Allocator + Clone + Send + Sync + 'static,
> Repeater<W, R, A> {
    /// Starts the thread. A period below one millisecond counts as one millisecond. The handler receives the errors of
    /// the work in the thread, while no lock is held. This call returns `OutOfMemory`, or `Io` if the thread can't be
    /// started. The work is dropped then.
    pub fn start(
        rt: R,
        alloc: A,
        work: W,
        period: Duration,
        handler: Option<Handler<A>>,
    ) -> MetricResult<Self>
        ensures work { IfOk result (λ r. repeated_work r ≡ work) }
        ensures refused { IfErr result IsQueuingRefusal }
    {
        let end = Latch::new();
        let shortest = Duration::from_millis(SHORTEST_PERIOD);
        let work = Arc::new(alloc.clone()?, work)?;
        let share = Mutex::new(Some(work.clone()?));
        let shared = Arc::new(alloc, SharedWork { share, end })?;
        let thread = Thread {
            rt: rt.clone()?,
            shared: shared.clone()?,
            period: if period < shortest { shortest } else { period },
        };
        start(&rt, thread, handler)?;
        Ok(Repeater { rt, work, shared })
    }
}

impl<W: PeriodicWork, R: Wait + Drop, A: Allocator> Repeater<W, R, A> {
    /// Returns the work.
    pub fn work(&self) -> &W
        ensures { result.now ≡ repeated_work self.now }
    {
        &self.work
    }

    /// Returns the runtime.
    pub fn runtime(&self) -> &R {
        &self.rt
    }
}

impl<W: PeriodicWork, R: Wait + Drop, A: Allocator> Drop for Repeater<W, R, A> {
    fn drop(self) {
        self.shared.end.mark(&self.rt, ());
        let _ = self.work.do_once(&self.rt);
        let share = self.shared.share.lock(&self.rt).take();
        drop(share);
        let Repeater {
            rt: _,
            work: _,
            shared: _,
        } = self;
    }
}
