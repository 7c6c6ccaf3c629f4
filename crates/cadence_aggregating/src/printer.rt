//! Prints the lines of an aggregator as text, for a sink of metrics.
ghost use Rattle.std.specs.Option.{ok_or};
ghost use Rattle.std.specs.Prelude.{◌≡◌, ◌++◌, [], OnErr, OnOk, map};
ghost use Rattle.cadence_aggregate.specs.Lines.{sample_of, samples_of};
ghost use Rattle.cadence_aggregating.specs.Notes.{sample_of_note};
ghost use Rattle.cadence_aggregating.specs.Printed.{line_saying};
ghost use Rattle.cadence_aggregating.specs.Causes.{HasCause, IsReplyFor};
ghost use Rattle.cadence_stage.specs.OwnLog.{items_of};

use crate::note::Note;
use crate::printed::note_line;
use cadence_aggregate::{Line, LineSink, out_of_memory};
use cadence_errors::SinkError;
use cadence_flow::MetricSink;
use cadence_stage::OwnLog;

/// An adapter between an aggregator and a [`MetricSink`]: it prints each line that the aggregator sends as text, and
/// gives the text to the sink. For proofs it also has records of what the sink took, and of the errors with which it
/// refused lines. They don't exist at run time.
#[derive(Drop)]
pub struct Printer<S: Drop> {
    sink: S,
    text: String,
    notes: OwnLog<Note>,
    refusals: OwnLog<SinkError>,
}

impl<S: MetricSink> Printer<S> {
    /// Makes a printer, over a sink that was given no line by it yet. It writes each line into `text`.
    pub(crate) fn new(sink: S, text: String) -> Printer<S>
        ensures none { items_of result.notes ≡ [] }
        ensures refused { items_of result.refusals ≡ [] }
        ensures sink { result.sink ≡ sink }
    {
        Printer {
            sink,
            text,
            notes: OwnLog::new(),
            refusals: OwnLog::new(),
        }
    }

    /// Returns the sink.
    pub(crate) fn sink(&self) -> &S
        ensures { result.now ≡ self.now.sink }
    {
        &self.sink
    }
}

impl<S: MetricSink> LineSink for Printer<S> {
    ghost use Rattle.std.specs.Prelude.{map, refl};
    ghost use Rattle.cadence_aggregating.specs.Causes.{HasCause, cause_further, cause_without_memory};
    ghost use Rattle.cadence_aggregating.specs.Notes.{sample_of_note};

    ghost sent = { λ p. map sample_of_note (items_of p.notes) };

    ghost leads = { λ old result new.
        HasCause (items_of old.refusals) result (items_of new.refusals) };

    ghost leads_to_itself = { λ _. refl };

    ghost leads_nowhere = { λ p. cause_without_memory (items_of p.refusals) };

    ghost leads_further = { λ a b c result none cause.
        cause_further (items_of a.refusals) (items_of b.refusals) (items_of c.refusals)
        result none cause };

    fn send(&mut self, line: Line<'_>, fault: &mut SinkError) -> Option<()>
        ensures ok { OnOk (ok_or result fault.new) (map sample_of_note (items_of self.new.notes)
            ≡ map sample_of_note (items_of self.old.notes) ++ samples_of line.entry) }
        ensures err { OnErr (ok_or result fault.new) (map sample_of_note (items_of self.new.notes)
            ≡ map sample_of_note (items_of self.old.notes)) }
        ensures leads { HasCause (items_of self.old.refusals) (ok_or result fault.new)
            (items_of self.new.refusals) }
        ensures asked { IsReplyFor S.may_answer self.old.sink (line_saying (sample_of line.entry))
            (items_of self.old.refusals) (ok_or result fault.new) (items_of self.new.refusals) }
    {
        let Ok(note) = note_line(&mut self.text, line) else {
            return out_of_memory(fault);
        };
        match self.sink.emit(&self.text) {
            Ok(_bytes) => {
                self.notes.note(&note);
                Some(())
            }
            Err(error) => {
                self.refusals.note(&error);
                *fault = error;
                None
            }
        }
    }
}
