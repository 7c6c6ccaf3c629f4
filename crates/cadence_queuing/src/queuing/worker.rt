//! The worker thread of a queue, and what it shares with the handles: it hands the lines of the queue to the wrapped sink,
//! and flushes that one if the queue has a period.
ghost use Rattle.std.specs.Option.{ForSome};
ghost use Rattle.std.specs.Prelude.{◌≡◌, [], false, map, string_bytes, true, IfErr, IfOk};
ghost use Rattle.cadence_queuing.specs.FlushTimes.{CountsAsIfAny};
ghost use Rattle.cadence_queue.specs.End.{texts_of};
ghost use Rattle.cadence_queue.specs.Taker.{given_by, has_ended};
ghost use Rattle.cadence_stage.specs.Call.{call_of};
ghost use Rattle.cadence_stage.specs.Past.{lines_in};
ghost use Rattle.cadence_stage.specs.OwnLog.{items_of};

use super::long_texts::LongTexts;
use crate::feeds::Feeds;
use crate::flush_timer::FlushTimer;
use crate::worklist::{Worklist, work};
use cadence_errors::SinkError;
use cadence_flow::Handler;
use cadence_flow::thread::Job;
use cadence_queue::{SharedQueue, Taker, TakerEnd, TakerRoom};
use cadence_stage::{Entry, Latch, Logs, OwnLog, Right, Seen};
use std::alloc::Allocator;
use std::marker::PhantomData;
use std::sync::{Arc, Wait};
use std::thread;
use std::time::{Clock, Duration, Instant};

/// The largest capacity in bytes of a line whose memory goes back to the queue, for a later line to be copied into. The
/// memory of longer lines goes to the `LongTexts`.
pub(super) const WIDEST_KEPT: usize = 512;

/// What the handles and the worker share. The lock of the queue is free while the sink works.
#[derive(Drop)]
pub struct Shared<S: Drop, A: Allocator, N: Logs> {
    pub sink: S,
    pub queue: SharedQueue<String<A>, A, String<A>, N>,
    /// The texts of lines longer than `WIDEST_KEPT` that were handed on.
    pub long_texts: LongTexts<A>,
    /// After which time the worker flushes the sink. `None` means that it never does.
    pub period: Option<Duration>,
}

/// The worker's part of what it shares with the handles. The mark of its end is on its own, because the worker sets it
/// after it has let go of the sink.
#[derive(Drop)]
pub struct Part<S: Drop, R: Wait + Drop, A: Allocator, N: Logs> {
    pub rt: R,
    pub shared: Arc<Shared<S, A, N>, A>,
    pub end: Arc<Latch<Passed<A, N>>, A>,
}

impl<S: Drop, R: Wait + Drop, A: Allocator, N: Logs> Part<S, R, A, N> {
    // Ends the worker: it lets go of the sink and of the handler, and then sets the mark, where it leaves what it passed
    // on. So after the mark the drop of the last handle drops the sink, in the thread of that handle.
    fn end(self, handler: Option<Handler<A>>, passed: Passed<A, N>) {
        let Part { rt, shared, end } = self;
        drop(shared);
        drop(handler);
        end.mark(&rt, passed);
    }
}

/// What a worker begins with: the memory of its taker, and for proofs alone the rights to note what it takes and to feed
/// its sink, and what it has handed on, which is nothing yet.
#[derive(Drop)]
pub struct Start<S, A: Allocator, N: Feeds<S, A>> {
    pub room: TakerRoom<String<A>, A>,
    pub take: Right<String<A>>,
    pub seen: Seen<String<A>>,
    pub feed: Right<Entry>,
    pub fed: N::Fed,
    pub of: PhantomData<S>,
    pub ghost named: { ForSome N.logs (λ names. (take.name ≡ names.taken)
        × (seen.name ≡ names.taken) × (feed.name ≡ names.fed)) },
    pub ghost none: { (take.items ≡ []) × (seen.items ≡ []) × (feed.items ≡ []) },
    pub ghost nothing: { N.handed fed ≡ [] },
}

/// What a worker leaves at its end, for proofs alone: the texts that it took, and its right to feed the sink. If the queue
/// has names, these are all texts that were ever taken, and the sink was given the same lines in the same order.
#[derive(Drop)]
pub struct Passed<A: Allocator, N: Logs> {
    pub taken: TakerEnd<String<A>, N>,
    pub feed: Right<Entry>,
    pub ghost handed: { ForSome N.logs (λ names. (feed.name ≡ names.fed)
        × (lines_in (map call_of feed.items) ≡ map string_bytes (texts_of taken))) },
}

// Receives the errors of the sink. It is a trait, because a type that holds a `Handed`, whose fact names the bound of its
// sink, can't hold a handler, which has a `dyn`.
trait Report {
    fn report(&self, fault: SinkError);
}

// Gives an error to the handler, if there is one.
impl<A: Allocator> Report for Option<Handler<A>> {
    fn report(&self, fault: SinkError) {
        if let Some(handler) = self {
            handler.handle(fault);
        }
    }
}

// The list that `work` goes through: its texts are the lines of the queue, and `hand` hands a line to the sink. If the
// queue has a period and a flush is due, the sink is flushed before the next look at the queue. The clock is read once for
// the lines that a look brings, at most 32.
struct QueueWorklist<'a, S: Drop, R: Wait + Clock + Drop, A: Allocator, N: Feeds<S, A>, H: Report> {
    rt: &'a R,
    sink: &'a S,
    handler: &'a H,
    long_texts: &'a LongTexts<A>,
    taker: Taker<'a, String<A>, A, String<A>, N>,
    handed: OwnLog<String<A>>,
    fed: N::Fed,
    feed: Right<Entry>,
    timer: FlushTimer,
    ghost same: { N.handed fed ≡ map string_bytes (items_of handed) },
    ghost given: { ForSome N.logs (λ names. (feed.name ≡ names.fed)
        × (lines_in (map call_of feed.items) ≡ map string_bytes (items_of handed))) },
}

impl<
    'a,
    S: Drop,
    R: Wait + Clock + Drop,
    A: Allocator + Clone,
    N: Feeds<S, A>,
    H: Report,
> QueueWorklist<'a, S, R, A, N, H> {
    // Makes a list that has given no text yet. Its timer has the period of the queue.
    fn new(rt: &'a R, shared: &'a Shared<S, A, N>, handler: &'a H, start: Start<S, A, N>) -> Self
        ensures given { given_by result.taker ≡ [] }
        ensures handed { items_of result.handed ≡ [] }
        ensures ended { has_ended result.taker ≡ false }
        ensures period { CountsAsIfAny shared.now.period result.timer.period }
    {
        let Start {
            room,
            take,
            seen,
            feed,
            fed,
            of: _,
        } = start;
        QueueWorklist {
            rt,
            sink: &shared.sink,
            handler,
            long_texts: &shared.long_texts,
            taker: shared.queue.taker_by(rt, room, take, seen),
            handed: OwnLog::new(),
            fed,
            feed,
            timer: FlushTimer::start(shared.period, Instant::now(rt).ok()),
        }
    }

    // Notes the result of a flush, and gives an error to the handler. After an error the flush is still owed.
    fn note_flush(&mut self, answer: Result<(), SinkError>)
        ensures given { given_by self.new.taker ≡ given_by self.old.taker }
        ensures ended { has_ended self.new.taker ≡ has_ended self.old.taker }
        ensures handed { self.new.handed ≡ self.old.handed }
        ensures done { IfOk answer (λ _. self.new.timer.owes_flush ≡ false) }
        ensures failed { IfErr answer (λ _.
            self.new.timer.owes_flush ≡ self.old.timer.owes_flush) }
    {
        let has_succeeded = answer.is_ok();
        if let Err(fault) = answer {
            self.handler.report(fault);
        }
        let now = Instant::now(self.rt).ok();
        self.timer.note_flush(now, has_succeeded);
    }

    // Flushes the sink. After an error the held text stays in the sink.
    fn flush(&mut self)
        ensures given { given_by self.new.taker ≡ given_by self.old.taker }
        ensures ended { has_ended self.new.taker ≡ has_ended self.old.taker }
        ensures handed { self.new.handed ≡ self.old.handed }
    {
        let answer = N::flush(self.sink);
        self.note_flush(answer);
    }

    // Waits for a text until the next flush is due. Returns false if it is due.
    fn fetch_until_due(&mut self) -> bool
        ensures given { given_by self.new.taker ≡ given_by self.old.taker }
        ensures ended { has_ended self.new.taker ≡ has_ended self.old.taker }
        ensures handed { self.new.handed ≡ self.old.handed }
        ensures timer { self.new.timer ≡ self.old.timer }
    {
        let rt = self.rt;
        match self.timer.left(Instant::now(rt).ok()) {
            Some(left) => self.taker.fetch_within(rt, left),
            None => false,
        }
    }

    // Looks at the queue after a failed flush, and waits there for a text until the flush is tried again. Returns false
    // if it is time for that. If the clock can't be read, it looks at the queue and then sleeps.
    fn fetch_before_retry(&mut self) -> bool
        ensures given { given_by self.new.taker ≡ given_by self.old.taker }
        ensures ended { has_ended self.new.taker ≡ has_ended self.old.taker }
        ensures handed { self.new.handed ≡ self.old.handed }
        ensures timer { self.new.timer ≡ self.old.timer }
    {
        let rt = self.rt;
        let wait = self.timer.wait_before_retry(Instant::now(rt).ok());
        if self.taker.fetch_within(rt, wait) {
            return true;
        }
        if Instant::now(rt).is_err() {
            thread::sleep(rt, wait);
        }
        false
    }

    // Waits for a text, and flushes the sink whenever a flush is due. It looks at the queue between two tries of a flush,
    // so it returns with a text, or at a stop, even if each flush fails. Once no flush is owed, it returns without a
    // text.
    fn fetch_and_flush(&mut self)
        ensures given { given_by self.new.taker ≡ given_by self.old.taker }
        ensures ended { has_ended self.new.taker ≡ has_ended self.old.taker }
        ensures handed { self.new.handed ≡ self.old.handed }
    {
        if self.fetch_until_due() {
            return;
        }
        let rt = self.rt;
        for _ in rt.forever() {
            self.flush();
            if !self.timer.owes_flush || self.fetch_before_retry() {
                return;
            }
        }
        unreachable!()
    }

    // Ends the list, after all its texts have been handed on.
    fn finish(self) -> Passed<A, N>
        requires ended { has_ended self.taker ≡ true }
        requires all { items_of self.handed ≡ given_by self.taker }
    {
        let QueueWorklist {
            rt: _,
            sink: _,
            handler: _,
            long_texts: _,
            taker,
            handed: _,
            fed: _,
            feed,
            timer: _,
        } = self;
        Passed {
            taken: taker.finish(),
            feed,
        }
    }
}

impl<S: Drop, R: Wait + Clock + Drop, A: Allocator + Clone, N: Feeds<S, A>, H: Report> Worklist
    for QueueWorklist<'_, S, R, A, N, H> {
    type Text = String<A>;

    ghost given = { λ w. given_by w.taker };

    ghost handed = { λ w. items_of w.handed };

    ghost ended = { λ w. has_ended w.taker };

    ghost promises = { λ _. true };

    fn next(&mut self) -> Option<String<A>> {
        if self.timer.owes_flush && self.taker.is_empty() {
            self.fetch_and_flush();
        }
        self.taker.next(self.rt)
    }

    fn hand(&mut self, text: String<A>) {
        let mut from = self.taker.seen();
        let answer = N::hand(self.sink, &mut self.fed, &mut self.feed, &text, &mut from);
        self.handed.note(&text);
        if let Err(fault) = answer {
            self.handler.report(fault);
        }
        if text.capacity() <= WIDEST_KEPT {
            self.taker.give_back(text);
        } else {
            self.long_texts.keep(text);
        }
        self.timer.note_line();
    }
}

// Goes through the queue to its end, and hands on each line that it takes, in order. If the queue has a period, it
// flushes the sink whenever a flush is due, and at the end if one is owed.
fn pass_on<S: Drop, R: Wait + Clock + Drop, A: Allocator + Clone, N: Feeds<S, A>, H: Report>(
    rt: &R,
    shared: &Shared<S, A, N>,
    handler: &H,
    start: Start<S, A, N>,
) -> Passed<A, N> {
    let mut list = QueueWorklist::new(rt, shared, handler, start);
    work(rt, &mut list);
    if list.timer.owes_flush {
        list.flush();
    }
    list.finish()
}

/// What the worker thread needs besides the handler.
#[derive(Drop)]
pub struct Worker<S: Drop, R: Wait + Drop, A: Allocator, N: Feeds<S, A>> {
    pub part: Part<S, R, A, N>,
    pub start: Start<S, A, N>,
}

impl<S: Drop, R: Wait + Clock + Drop, A: Allocator + Clone, N: Feeds<S, A>> Job<Option<Handler<A>>>
    for Worker<S, R, A, N> {
    fn run(self, handler: Option<Handler<A>>) {
        let Worker { part, start } = self;
        let passed = pass_on(&part.rt, &part.shared, &handler, start);
        part.end(handler, passed);
    }
}
