//! Where lines go.
ghost use Rattle.std.specs.Option.{ok_or};
ghost use Rattle.std.specs.Prelude.{◌≡◌, ◌++◌, Err, List, Ok, OnErr, OnOk, Result};
ghost use Rattle.cadence_aggregate.specs.Lines.{samples_of};
ghost use Rattle.cadence_aggregate.specs.Server.{Sample};
ghost use Rattle.cadence_errors.specs.declared.SinkError.{SinkError};
ghost use Rattle.cadence_errors.specs.declared.SinkError.TheVariants.{OutOfMemory};

use crate::line::Line;
use cadence_errors::SinkError;

/// Takes lines, or refuses them. `send` returns `None` after an error, and leaves the error in `fault`.
pub trait LineSink {
    /// What the lines say that it took, in order.
    ghost sent: { Self → List Sample };

    /// What a sink promises of a call that gives it any number of lines: of its state before the call, of the call's
    /// result, and of its state after it. Such a call ends when the sink refuses a line, and its error is the sink's.
    ghost leads: { Self → Result (Unit {0}) SinkError → Self → Type 0 };

    /// Takes a line, or refuses it.
    fn send(&mut self, line: Line<'_>, fault: &mut SinkError) -> Option<()>
        ensures ok { OnOk (ok_or result fault.new)
            (sent self.new ≡ sent self.old ++ samples_of line.entry) }
        ensures err { OnErr (ok_or result fault.new) (sent self.new ≡ sent self.old) }
        ensures leads { leads self.old (ok_or result fault.new) self.new };

    /// A call may give the sink no line and succeed.
    ghost leads_to_itself: { (s : Self) → leads s (Ok tt) s };

    /// A call may give the sink no line because memory ran out.
    ghost leads_nowhere: { (s : Self) → leads s (Err OutOfMemory) s };

    /// A call may consist of a call that succeeds and of another one.
    ghost leads_further: { (a b c : Self) (result : Result (Unit {0}) SinkError) →
        leads a (Ok tt) b → leads b result c → leads a result c };
}
