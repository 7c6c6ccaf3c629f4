//! How the worker of a queue hands a line to its sink.
ghost use Rattle.std.specs.Option.{ForSome};
ghost use Rattle.std.proofs.Common.{inr};
ghost use Rattle.std.specs.Prelude.{◌≡◌, [], ◌∷◌, ◌++◌, ◌⊎◌, List, ℕ, Result, Ok, Some, map, string_bytes};
ghost use mathlib.Core.List.{IsPrefix};
ghost use Rattle.cadence_errors.specs.declared.SinkError.{SinkError};
ghost use Rattle.cadence_queuing.specs.Handed.{handed_line};
ghost use Rattle.cadence_stage.specs.Call.{Flush, call_of};
ghost use Rattle.cadence_stage.specs.Held.{NothingIsHeld};
ghost use Rattle.cadence_stage.specs.Kept.{IsStep};
ghost use Rattle.cadence_stage.specs.Past.{lines_in};
ghost use Rattle.cadence_stage.specs.OwnLog.{items_of};

use crate::fed_sink::FedSink;
use crate::handed::Handed;
use cadence_errors::SinkError;
use cadence_flow::MetricSink;
use cadence_flow::stats::SinkStats;
use cadence_stage::{Entry, Logs, Named, Names, OwnLog, Right, Seen, Stage, Unnamed};
use std::alloc::Allocator;
use std::snapshot::Snapshot;
use std::sync::Wait;

/// How a worker hands a line to a sink `S`. A worker of a queue without names calls `emit` of a `MetricSink`. A worker of
/// a queue with names gives the line to a `FedSink`, by its right.
pub trait Feeds<S, A: Allocator>: Logs {
    /// What was handed on, for proofs alone.
    type Fed: Drop;

    /// The lines that were handed on, the oldest first.
    ghost handed: { Self.Fed → List (List ℕ) };

    /// The results that `flush` may return.
    ghost may_flush: { S → Result (Unit {0}) SinkError → Type 0 };

    /// A flush may return `Ok(())` if the sink holds no text.
    ghost flush_may_succeed: { (s : S) → NothingIsHeld → may_flush s (Ok tt) };

    /// Hands on a line. If the queue has names, the line is the next one of those that were taken from the queue, and the
    /// sink is fed by the right `feed`. Otherwise this right is of no use.
    fn hand(
        sink: &S,
        fed: &mut Self::Fed,
        feed: &mut Right<Entry>,
        line: &String<A>,
        from: &mut Seen<String<A>>,
    ) -> Result<(), SinkError>
        requires next { ForSome Self.logs (λ names. (feed.old.name ≡ names.fed)
            × (from.old.name ≡ names.taken)
            × ∥ IsPrefix (lines_in (map call_of feed.old.items) ++ string_bytes line.now ∷ [])
            (map string_bytes from.old.items) ∥₁) }
        ensures handed { handed fed.new ≡ handed fed.old ++ string_bytes line.now ∷ [] }
        ensures fed { ForSome Self.logs (λ names. (feed.new.name ≡ names.fed)
            × (lines_in (map call_of feed.new.items)
            ≡ lines_in (map call_of feed.old.items) ++ string_bytes line.now ∷ [])) };

    /// Flushes the sink.
    fn flush(sink: &S) -> Result<(), SinkError>
        ensures { may_flush sink.now result };

    /// Returns the counts of the sink.
    fn stats(sink: &S) -> SinkStats;

    /// Returns how many lines the queues below dropped.
    fn dropped_lines(sink: &S) -> u64;
}

impl<S: MetricSink, A: Allocator> Feeds<S, A> for Unnamed {
    type Fed = OwnLog<Handed<S, A>>;

    ghost handed = { λ fed. map handed_line (items_of fed) };

    ghost may_flush = { S.may_flush };

    ghost flush_may_succeed = { S.flush_may_succeed };

    fn hand(
        sink: &S,
        fed: &mut OwnLog<Handed<S, A>>,
        _feed: &mut Right<Entry>,
        line: &String<A>,
        _from: &mut Seen<String<A>>,
    ) -> Result<(), SinkError>
        ensures handed { map handed_line (items_of fed.new)
            ≡ map handed_line (items_of fed.old) ++ string_bytes line.now ∷ [] }
    {
        let answer = sink.emit(line.as_str());
        fed.note(&Handed {
            sink: Snapshot::of(sink),
            line: Snapshot::of(line),
            answer: Snapshot::of(&answer),
        });
        match answer {
            Ok(_) => Ok(()),
            Err(fault) => Err(fault),
        }
    }

    fn flush(sink: &S) -> Result<(), SinkError> {
        sink.flush()
    }

    fn stats(sink: &S) -> SinkStats {
        sink.stats()
    }

    fn dropped_lines(sink: &S) -> u64 {
        sink.dropped_lines()
    }
}

impl<S: Stage, R: Wait + Drop, A: Allocator, J: Names> Feeds<FedSink<S, R, A, J>, A> for Named<J> {
    type Fed = OwnLog<String<A>>;

    ghost handed = { λ fed. map string_bytes (items_of fed) };

    ghost may_flush = { λ _ answer. IsStep S.step (Flush answer) ⊎ NothingIsHeld };

    ghost flush_may_succeed = { λ _ held. inr held };

    fn hand(
        sink: &FedSink<S, R, A, J>,
        fed: &mut OwnLog<String<A>>,
        feed: &mut Right<Entry>,
        line: &String<A>,
        from: &mut Seen<String<A>>,
    ) -> Result<(), SinkError>
        requires next { ForSome (Some J.names) (λ names. (feed.old.name ≡ names.fed)
            × (from.old.name ≡ names.taken)
            × ∥ IsPrefix (lines_in (map call_of feed.old.items) ++ string_bytes line.now ∷ [])
            (map string_bytes from.old.items) ∥₁) }
        ensures handed { map string_bytes (items_of fed.new)
            ≡ map string_bytes (items_of fed.old) ++ string_bytes line.now ∷ [] }
        ensures fed { ForSome (Some J.names) (λ names. (feed.new.name ≡ names.fed)
            × (lines_in (map call_of feed.new.items)
            ≡ lines_in (map call_of feed.old.items) ++ string_bytes line.now ∷ [])) }
    {
        let mut fault = SinkError::NothingWritten;
        let taken = sink.feed(feed, line.as_str(), from.again(), &mut fault);
        fed.note(line);
        match taken {
            Some(_) => Ok(()),
            None => Err(fault),
        }
    }

    fn flush(sink: &FedSink<S, R, A, J>) -> Result<(), SinkError> {
        sink.flush()
    }

    fn stats(sink: &FedSink<S, R, A, J>) -> SinkStats {
        sink.stats()
    }

    fn dropped_lines(_sink: &FedSink<S, R, A, J>) -> u64 {
        0
    }
}
