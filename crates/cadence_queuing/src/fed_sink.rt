//! A stage that one worker feeds, under a lock.
ghost use Rattle.std.specs.Option.{ok_or};
ghost use Rattle.std.specs.Prelude.{◌≡◌, [], ◌∷◌, ◌++◌, map, string_bytes};
ghost use mathlib.Core.List.{IsPrefix};
ghost use Rattle.cadence_stage.specs.Call.{Flush, Line, call_of};
ghost use Rattle.cadence_queuing.specs.Fed.{calls_of, fed_stage, texts_seen};
ghost use Rattle.cadence_stage.specs.Kept.{IsStep};
ghost use Rattle.cadence_stage.specs.Past.{lines_in};

use crate::fed::{FedLogs, FedStage};
use cadence_errors::SinkError;
use cadence_flow::SocketStats;
use cadence_flow::stats::SinkStats;
use cadence_stage::{Entry, Names, Right, Seen, Stage, acquire};
use std::alloc::Allocator;
use std::snapshot::Snapshot;
use std::sync::{Mutex, Wait};

/// A stage under a lock that the worker of one queue feeds. It is no `MetricSink`: a line reaches it by the right of that
/// worker alone. It stores the runtime `R`, which taking the lock needs. Its drop flushes the stage, and drops the error.
pub struct FedSink<S: Stage, R: Wait + Drop, A: Allocator, J: Names> {
    rt: R,
    stage: Mutex<FedStage<S, A, J>>,
    counts: Option<SocketStats<R, A>>,
}

impl<S: Stage, R: Wait + Drop, A: Allocator, J: Names> FedSink<S, R, A, J> {
    /// Puts a stage that took no line yet under a lock.
    pub fn new(rt: R, stage: S, logs: FedLogs<A>) -> Self
        requires names { (logs.fed.name ≡ J.names.fed) × (logs.from.name ≡ J.names.taken) }
        requires none { S.taken stage ≡ [] }
    {
        FedSink {
            rt,
            stage: Mutex::new(FedStage::new(stage, logs)),
            counts: None,
        }
    }

    /// Lets `stats` return the counts of the socket below the stage.
    pub fn with_counts(mut self, counts: SocketStats<R, A>) -> Self {
        self.counts = Some(counts);
        self
    }

    /// Returns the counts of the socket below the stage, or zeros if there is none.
    pub fn stats(&self) -> SinkStats {
        match &self.counts {
            Some(counts) => SinkStats::from(counts),
            None => SinkStats::default(),
        }
    }

    /// Gives the stage a line, by the right of its worker. It has to be the next one of those that were taken from the
    /// queue (`next`). Returns how many bytes of the line the stage took; `None` after an error, which is in `fault`.
    pub fn feed(
        &self,
        feed: &mut Right<Entry>,
        line: &str,
        from: Seen<String<A>>,
        fault: &mut SinkError,
    ) -> Option<usize>
        requires names { (feed.old.name ≡ J.names.fed) × (from.name ≡ J.names.taken) }
        requires next { ∥ IsPrefix (lines_in (map call_of feed.old.items) ++ line.now ∷ [])
            (map string_bytes from.items) ∥₁ }
        ensures name { feed.new.name ≡ J.names.fed }
        ensures fed { map call_of feed.new.items
            ≡ map call_of feed.old.items ++ Line line.now (ok_or result fault.new) ∷ [] }
    {
        acquire(&self.stage, &self.rt).take_line(feed, line, from, fault)
    }

    /// Flushes the stage, as any handle of the queue may.
    pub fn flush(&self) -> Result<(), SinkError>
        ensures { IsStep S.step (Flush result) }
    {
        let mut fault = SinkError::NothingWritten;
        self.stage.lock(&self.rt).empty(&mut fault).ok_or(fault)
    }

    /// Looks at the stage, and returns, for proofs alone, the stage of this moment and what it knows of the queue.
    pub fn look(&self) -> (Snapshot<FedStage<S, A, J>>, Seen<String<A>>)
        ensures name { result.1.name ≡ J.names.taken }
        ensures items { result.1.items ≡ texts_seen result.0.value }
    {
        let mut stage = self.stage.lock(&self.rt);
        let seen = stage.seen();
        (Snapshot::of(&*stage), seen)
    }

    /// Flushes the stage, and looks at it with the right of a worker that has ended: it was given just the lines of the
    /// right.
    pub fn flush_by(
        &self,
        feed: &mut Right<Entry>,
    ) -> (Snapshot<FedStage<S, A, J>>, Result<(), SinkError>)
        requires { feed.old.name ≡ J.names.fed }
        ensures fed { calls_of result.0.value ≡ map call_of feed.old.items }
        ensures step { (before : S) × S.step before (fed_stage result.0.value) (Flush result.1) }
        ensures same { feed.new ≡ feed.old }
    {
        let mut fault = SinkError::NothingWritten;
        let mut stage = self.stage.lock(&self.rt);
        stage.meets(feed);
        let done = stage.empty(&mut fault);
        (Snapshot::of(&*stage), done.ok_or(fault))
    }
}

impl<S: Stage, R: Wait + Drop, A: Allocator, J: Names> Drop for FedSink<S, R, A, J> {
    fn drop(self) {
        let FedSink {
            rt: _rt,
            stage,
            counts: _counts,
        } = self;
        let _ = stage.into_inner().finish();
    }
}
