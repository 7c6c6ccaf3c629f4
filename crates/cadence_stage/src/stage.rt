//! What takes lines one after the other.
ghost use Rattle.std.specs.Option.{ok_or};
ghost use Rattle.std.specs.Prelude.{◌≡◌, ◌++◌, List, ℕ};
ghost use Rattle.cadence_stage.specs.Call.{Call, Flush, Line};
ghost use Rattle.cadence_stage.specs.Past.{taken_by};

use cadence_errors::SinkError;

/// What takes lines one after the other, for one thread: a packer, for example. Its calls return `None` after an error,
/// and leave the error in `fault`.
pub trait Stage: Drop {
    /// This call, with its answer, leads from the first state to the second.
    ghost step: { Self → Self → Call → Type 0 };

    /// The lines that the stage took, the oldest first, each with the number of bytes that it took.
    ghost taken: { Self → List (List ℕ × ℕ) };

    /// Takes a line, and returns how many of its bytes the stage took.
    fn take_line(&mut self, line: &str, fault: &mut SinkError) -> Option<usize>
        ensures step { step self.old self.new (Line line.now (ok_or result fault.new)) }
        ensures taken { taken self.new
            ≡ taken self.old ++ taken_by (Line line.now (ok_or result fault.new)) };

    /// Sends what the stage holds.
    fn empty(&mut self, fault: &mut SinkError) -> Option<()>
        ensures step { step self.old self.new (Flush (ok_or result fault.new)) }
        ensures taken { taken self.new ≡ taken self.old };

    /// Sends what the stage holds, before it is dropped. What it does last is a flush, which has this result. After an
    /// error, the rest is lost.
    fn send_rest(&mut self) -> Result<(), SinkError>
        ensures { (before : Self) × step before self.new (Flush result) }
    {
        let mut fault = SinkError::NothingWritten;
        self.empty(&mut fault).ok_or(fault)
    }
}

/// A call that makes no line, but counts as one.
pub trait LinelessCall<S: Stage>: Drop {
    /// The line that the call counts as.
    ghost counts_as: { Self → List ℕ };

    /// Makes the call of a stage. What it returns is as for a line.
    fn make(self, stage: &mut S, fault: &mut SinkError) -> Option<usize>
        ensures { S.step stage.old stage.new (Line (counts_as self) (ok_or result fault.new)) };
}
