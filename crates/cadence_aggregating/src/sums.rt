//! Lines that are added up, over any sink of what they say. `called` has the calls that make no line.
mod called;

ghost use Rattle.std.specs.NonZero.{non_zero_usize_get};
ghost use Rattle.std.specs.Option.{ok_or};
ghost use Rattle.std.specs.Prelude.{◌≡◌, ◌++◌, ◌∷◌, [], IfOk, OnErr, OnOk, length, true};
ghost use Rattle.cadence_aggregate.specs.Aggregate.{CanHold, HasRoomForEach, held};
ghost use Rattle.cadence_aggregate.specs.Lines.{samples_of};
ghost use Rattle.cadence_aggregate.specs.Server.{IsSummary};
ghost use Rattle.cadence_aggregate.specs.Within.{StayWithin, if_ok};

use crate::accepted::Accepted;
use crate::limits::Limits;
use crate::said::read_said;
use cadence_aggregate::{Aggregator, Line, LineSink, out_of_memory};
use cadence_errors::SinkError;
use cadence_stage::OwnLog;
use std::alloc::{AllocError, Global};

/// Adds up lines. A caller gives the sink below to each call, and the call sends to it what can't be held. There is a
/// record of the accepted lines, which exists in proofs only. What the sink took and what is held are together a summary
/// of these lines (`HasSummary`), before each call and after it.
#[derive(Drop)]
pub struct Sums {
    limits: Limits,
    aggregator: Aggregator,
    context: String,
    accepted: OwnLog<Accepted>,
    pub ghost limit: { aggregator.most_bytes ≡ limits.most_bytes },
}

// Adds what a line says, or hands the line on.
fn add_or_pass<S: LineSink>(
    aggregator: &mut Aggregator,
    sink: &mut S,
    said: Line<'_>,
    is_held: bool,
    fault: &mut SinkError,
) -> Option<()>
    ensures ok { OnOk (ok_or result fault.new) (IsSummary
        ((S.sent sink.old ++ held aggregator.old) ++ samples_of said.entry)
        (S.sent sink.new ++ held aggregator.new)) }
    ensures err { OnErr (ok_or result fault.new) (IsSummary
        (S.sent sink.old ++ held aggregator.old) (S.sent sink.new ++ held aggregator.new)) }
    ensures quiet { is_held ≡ true → CanHold aggregator.old said.entry →
        S.sent sink.new ≡ S.sent sink.old }
    ensures leads { S.leads sink.old (ok_or result fault.new) sink.new }
    ensures limit { aggregator.new.most_bytes ≡ aggregator.old.most_bytes }
    ensures within { StayWithin aggregator.old.most_bytes
        ((S.sent sink.old ++ held aggregator.old)
        ++ if_ok (ok_or result fault.new) (samples_of said.entry))
        (S.sent sink.new ++ held aggregator.new) }
{
    if is_held {
        aggregator.add(sink, said, fault)
    } else {
        aggregator.pass(sink, said, fault)
    }
}

impl Sums {
    ghost use Rattle.cadence_aggregate.specs.Server.{Sample};
    ghost use Rattle.cadence_aggregating.specs.Quiet.{IsQuiet};
    ghost use Rattle.cadence_aggregating.specs.Says.{LineSays};
    ghost use Rattle.cadence_aggregating.specs.Sums.{HasSummary, KeepsSummary, accepted_by, aggregator_of, held_by, limits_of};

    /// Makes sums of no line. The only error is that memory ran out.
    pub fn new(alloc: Global, limits: Limits) -> Result<Sums, AllocError>
        ensures accepted { IfOk result (λ s. accepted_by s ≡ []) }
        ensures held { IfOk result (λ s. held_by s ≡ []) }
        ensures limits { IfOk result (λ s. limits_of s ≡ limits) }
        ensures caps { IfOk result (λ s.
            HasRoomForEach (non_zero_usize_get limits.most_contexts) (aggregator_of s)) }
        ensures summary { IfOk result (λ s. HasSummary s []) }
    {
        let aggregator = Aggregator::new(alloc, limits.most_contexts, limits.most_bytes)?;
        Ok(Sums {
            limits,
            aggregator,
            context: String::new(alloc),
            accepted: OwnLog::new(),
        })
    }

    /// Adds what a line says to what is held of its context, or hands the line on. A line that can't be added is handed
    /// on, and so is one that is longer than the limit.
    ///
    /// # Errors
    /// The error of the sink, if it refused a line that had to be sent, and `OutOfMemory`. After an error the result is
    /// `None` and `fault` has the error. The line is not added then, and what was held is sent or still held.
    pub fn add<S: LineSink>(
        &mut self,
        sink: &mut S,
        line: &str,
        fault: &mut SinkError,
    ) -> Option<()>
        ensures ok { OnOk (ok_or result fault.new)
            (accepted_by self.new ≡ accepted_by self.old ++ line.now ∷ []) }
        ensures err { OnErr (ok_or result fault.new) (accepted_by self.new ≡ accepted_by self.old) }
        ensures said { OnOk (ok_or result fault.new)
            ((said : Sample) × LineSays line.now said × IsSummary
            ((S.sent sink.old ++ held_by self.old) ++ said ∷ [])
            (S.sent sink.new ++ held_by self.new)) }
        ensures unsaid { OnErr (ok_or result fault.new) (IsSummary
            (S.sent sink.old ++ held_by self.old) (S.sent sink.new ++ held_by self.new)) }
        ensures summary { KeepsSummary self.old self.new (S.sent sink.old) (S.sent sink.new) }
        ensures quiet { OnOk (ok_or result fault.new) (∥ IsQuiet (limits_of self.old)
            (aggregator_of self.old) line.now (S.sent sink.old) (S.sent sink.new) ∥₁) }
        ensures leads { S.leads sink.old (ok_or result fault.new) sink.new }
        ensures limits { limits_of self.new ≡ limits_of self.old }
    {
        let Ok(said) = read_said(line, &mut self.context) else {
            return out_of_memory(fault);
        };
        let is_held = self.limits.holds(&said, line.len());
        add_or_pass(&mut self.aggregator, sink, said, is_held, fault)?;
        self.accepted.note(&Accepted::of(Line::Other(line)));
        Some(())
    }

    /// Sends one line for each context that is held, and forgets it.
    ///
    /// # Errors
    /// The error of the sink, if it refused a line, and `OutOfMemory`. The result is `None` then, and `fault` has the
    /// error. What was not sent is still held.
    pub fn flush<S: LineSink>(&mut self, sink: &mut S, fault: &mut SinkError) -> Option<()>
        ensures ok { OnOk (ok_or result fault.new) (held_by self.new ≡ []) }
        ensures same { S.sent sink.new ++ held_by self.new ≡ S.sent sink.old ++ held_by self.old }
        ensures accepted { accepted_by self.new ≡ accepted_by self.old }
        ensures summary { KeepsSummary self.old self.new (S.sent sink.old) (S.sent sink.new) }
        ensures leads { S.leads sink.old (ok_or result fault.new) sink.new }
        ensures limits { limits_of self.new ≡ limits_of self.old }
    {
        self.aggregator.flush(sink, fault)
    }

    /// Returns how many contexts are held.
    pub fn count_held(&self) -> u128
        ensures { result ≡ length (held_by self.now) }
    {
        self.aggregator.count_held()
    }

    /// Returns what is held, and forgets the rest.
    pub fn into_aggregator(self) -> Aggregator
        ensures { result ≡ aggregator_of self }
    {
        let Sums { aggregator, .. } = self;
        aggregator
    }
}
