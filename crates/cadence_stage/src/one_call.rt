//! One call of a sink that is still to be made.
ghost use Rattle.std.specs.Option.{ok_or};
ghost use Rattle.std.specs.Prelude.{◌≡◌};
ghost use Rattle.cadence_stage.specs.Call.{Flush};
ghost use Rattle.cadence_stage.specs.Kept.{Shows};
ghost use Rattle.cadence_stage.specs.OneCall.{sink_of};

use crate::answering_sink::AnsweringSink;
use crate::kept::Receipt;
use crate::locked::Locked;
use crate::stage::Stage;
use cadence_errors::SinkError;
use std::sync::Wait;

/// One call of a sink that is still to be made. `emit_by` and `flush_by`, which alone can let a receipt go, get it in
/// place of the sink. So they call the sink once. It can't be let go, because its type has no `Drop`.
pub struct OneCall<'a, S> {
    sink: &'a S,
}

impl<'a, S> OneCall<'a, S> {
    /// Lets one call of the sink be made.
    pub fn of(sink: &'a S) -> Self
        ensures { sink_of result ≡ sink.now }
    {
        OneCall { sink }
    }
}

impl<'a, S: AnsweringSink> OneCall<'a, S> {
    /// Gives the sink a line.
    #[inline(always)]
    pub(crate) fn emit_line(self, line: &str, fault: &mut SinkError) -> (Option<usize>, S::Receipt)
        ensures answer { S.may_answer (sink_of self.entry) line.now (ok_or result.0 fault.new) }
        ensures shows { S.shows (sink_of self.entry) result.1 line.now (ok_or result.0 fault.new) }
    {
        let OneCall { sink } = self;
        sink.emit_line(line, fault)
    }
}

impl<'a, S: Stage, R: Wait + Drop> OneCall<'a, Locked<S, R>> {
    /// Flushes the stage of the sink.
    pub(crate) fn empty(self, fault: &mut SinkError) -> (Option<()>, Receipt<S>)
        ensures { Shows S.step result.1 (Flush (ok_or result.0 fault.new)) }
    {
        let OneCall { sink } = self;
        sink.empty(fault)
    }
}
