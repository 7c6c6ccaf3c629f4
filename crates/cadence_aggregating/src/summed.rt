//! Lines that are added up for one thread. A line that is to be sent waits until its owner has sent it. `keyed` has the
//! calls that make no line.
mod keyed;

ghost use Rattle.std.specs.NonZero.{non_zero_usize_get};
ghost use Rattle.std.specs.Prelude.{◌≡◌, ◌++◌, ◌∷◌, [], IfNone, IfOk, IfSome, OnErr, OnOk, drop, map, take};
ghost use Rattle.cadence_aggregate.specs.Aggregate.{HasRoomForEach};
ghost use Rattle.cadence_aggregating.specs.Notes.{sample_of_note};
ghost use Rattle.cadence_aggregating.specs.Sums.{HasSummary};
ghost use Rattle.cadence_aggregating.specs.Waiting.{all_notes_of};

use crate::limits::Limits;
use crate::sums::Sums;
use crate::waiting::WaitingLines;
use cadence_errors::SinkError;
use std::alloc::{AllocError, Global};

/// Adds up lines. A line that is to be sent waits until its owner has sent it: `first` returns the first such line, and
/// `drop_first` drops it, so that it is gone.
///
/// The fact `past` is true of all `SummedLines`: the lines that are gone and those that wait, with what is held, are a
/// summary of the accepted lines, and packed values make no line longer than the limit.
#[derive(Drop)]
pub struct SummedLines {
    sums: Sums,
    waiting: WaitingLines,
    pub ghost past: { HasSummary sums (map sample_of_note (all_notes_of waiting)) },
}

impl SummedLines {
    ghost use Rattle.std.specs.Prelude.{All};
    ghost use Rattle.cadence_aggregating.specs.Origins.{ComesFrom};
    ghost use Rattle.cadence_aggregating.specs.Past.{Summarizes};
    ghost use Rattle.cadence_aggregating.specs.Printed.{line_saying};
    ghost use Rattle.cadence_aggregating.specs.Summed.{AddsQuietly, accepted_in, aggregator_in, gone_in, held_in, limits_in, waiting_in};

    /// Makes sums of no line. The only error is that memory ran out.
    pub fn new(alloc: Global, limits: Limits) -> Result<SummedLines, AllocError>
        ensures accepted { IfOk result (λ s. accepted_in s ≡ []) }
        ensures gone { IfOk result (λ s. gone_in s ≡ []) }
        ensures waiting { IfOk result (λ s. waiting_in s ≡ []) }
        ensures held { IfOk result (λ s. held_in s ≡ []) }
        ensures limits { IfOk result (λ s. limits_in s ≡ limits) }
        ensures caps { IfOk result (λ s.
            HasRoomForEach (non_zero_usize_get limits.most_contexts) (aggregator_in s)) }
    {
        let sums = Sums::new(alloc, limits)?;
        let waiting = WaitingLines::new(alloc);
        Ok(SummedLines { sums, waiting })
    }

    /// Adds what a line says to what is held of its context. A line that has to be sent first waits, and so does the
    /// line itself if it can't be added or is longer than the limit.
    ///
    /// # Errors
    /// Memory ran out. Then the line is not added, and what was held waits or is still held.
    pub fn add(&mut self, line: &str) -> Result<(), AllocError>
        ensures ok { OnOk result (accepted_in self.new ≡ accepted_in self.old ++ line.now ∷ []) }
        ensures err { OnErr result (accepted_in self.new ≡ accepted_in self.old) }
        ensures gone { gone_in self.new ≡ gone_in self.old }
        ensures limits { limits_in self.new ≡ limits_in self.old }
        ensures quiet { OnOk result
            (AddsQuietly self.old line.now (waiting_in self.old) (waiting_in self.new)) }
    {
        let mut fault = SinkError::NothingWritten;
        match self.sums.add(&mut self.waiting, line, &mut fault) {
            Some(()) => Ok(()),
            None => Err(AllocError),
        }
    }

    /// Forgets what is held, and lets one line wait for each context of it.
    ///
    /// # Errors
    /// Memory ran out. Then what was held waits or is still held.
    pub fn flush(&mut self) -> Result<(), AllocError>
        ensures ok { OnOk result (held_in self.new ≡ []) }
        ensures lines { OnOk result (waiting_in self.new
            ≡ waiting_in self.old ++ map line_saying (held_in self.old)) }
        ensures accepted { accepted_in self.new ≡ accepted_in self.old }
        ensures gone { gone_in self.new ≡ gone_in self.old }
        ensures limits { limits_in self.new ≡ limits_in self.old }
    {
        let mut fault = SinkError::NothingWritten;
        match self.sums.flush(&mut self.waiting, &mut fault) {
            Some(()) => Ok(()),
            None => Err(AllocError),
        }
    }

    /// Returns the first line that waits, if one waits.
    pub fn first(&self) -> Option<&str>
        ensures first { IfSome result (λ line. take 1 (waiting_in self.now) ≡ line.now ∷ []) }
        ensures none { IfNone result (waiting_in self.now ≡ []) }
    {
        self.waiting.first()
    }

    /// Drops the first line that waits, because its owner has sent it. If none waits, it does nothing.
    pub fn drop_first(&mut self)
        ensures gone { gone_in self.new ≡ gone_in self.old ++ take 1 (waiting_in self.old) }
        ensures rest { waiting_in self.new ≡ drop 1 (waiting_in self.old) }
        ensures accepted { accepted_in self.new ≡ accepted_in self.old }
        ensures held { held_in self.new ≡ held_in self.old }
        ensures limits { limits_in self.new ≡ limits_in self.old }
    {
        self.waiting.drop_first();
    }

    /// States that the lines that are gone and those that wait, with what is held, are a summary of the accepted lines:
    /// a server knows the same after both. States also where each of these lines comes from, and how long it may be. Does
    /// nothing when it is called.
    pub fn keeps_the_record(&self)
        ensures summary { ∥ Summarizes (accepted_in self.now)
            (gone_in self.now ++ waiting_in self.now) (held_in self.now) ∥₁ }
        ensures origins { ∥ All (ComesFrom (limits_in self.now).most_bytes (accepted_in self.now))
            (gone_in self.now ++ waiting_in self.now) ∥₁ }
    {}
}
