//! The sinks of the library, which answer with a receipt.
ghost use Rattle.std.specs.Option.{ok_or};
ghost use Rattle.std.specs.Prelude.{List, ℕ, Result};
ghost use Rattle.cadence_errors.specs.declared.SinkError.{SinkError};

use crate::emit::closed::Closed;
use cadence_errors::SinkError;

/// A sink of the library, or the part of one that does its work. Only what takes the line can make its receipts: the
/// packer, the queue, the aggregator or the counts of a socket.
///
/// The error of a refused line is in `fault`, because a `Result` with an error in it is as wide as the widest error,
/// and each function that passes one on copies all of it.
pub trait AnsweringSink: Drop {
    /// What shows that a line was taken or refused.
    type Receipt: Closed;

    /// The results that `emit_by` may return for a line.
    ghost may_answer: { Self → List ℕ → Result ℕ SinkError → Type 0 };

    /// The receipt shows that the line got this result.
    ghost shows: { Self → Self.Receipt → List ℕ → Result ℕ SinkError → Type 0 };

    /// Takes a line, and returns how many of its bytes were taken; `None` after an error.
    fn emit_line(&self, line: &str, fault: &mut SinkError) -> (Option<usize>, Self::Receipt)
        ensures answer { may_answer self.now line.now (ok_or result.0 fault.new) }
        ensures shows { shows self.now result.1 line.now (ok_or result.0 fault.new) };
}
