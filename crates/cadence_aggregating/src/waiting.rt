//! Lines that wait until their owner has sent them.
ghost use Rattle.std.specs.Prelude.{◌≡◌, ◌++◌, ◌∷◌, [], IfNone, IfOk, IfSome, drop, map, string_bytes, take};
ghost use Rattle.cadence_aggregating.specs.Notes.{line_of_note};
ghost use Rattle.cadence_stage.specs.OwnLog.{items_of};

use crate::note::Note;
use crate::printed::note_line;
use cadence_aggregate::{Line, LineSink, out_of_memory};
use cadence_errors::SinkError;
use cadence_stage::OwnLog;
use std::alloc::{AllocError, Global};
use std::collections::VecDeque;

/// A line that waits, with a note of what it says.
#[derive(Drop)]
pub struct WaitingLine {
    text: String,
    pub(crate) note: Note,
    ghost same: { string_bytes text ≡ line_of_note note },
}

/// A sink that lets each line wait, in order. It refuses none. `gone` has what the lines say that its owner dropped, and
/// exists in proofs only.
#[derive(Drop)]
pub struct WaitingLines {
    alloc: Global,
    lines: VecDeque<WaitingLine>,
    gone: OwnLog<Note>,
}

impl WaitingLines {
    ghost use Rattle.cadence_aggregating.specs.Waiting.{all_notes_of, notes_of};

    /// Makes a sink in which no line waits, and from which none is gone.
    pub fn new(alloc: Global) -> WaitingLines
        ensures all { all_notes_of result ≡ [] }
        ensures waiting { notes_of result ≡ [] }
        ensures gone { items_of result.gone ≡ [] }
    {
        WaitingLines {
            alloc,
            lines: VecDeque::new(alloc),
            gone: OwnLog::new(),
        }
    }

    /// Returns the first line, if one waits.
    pub(crate) fn first(&self) -> Option<&str>
        ensures first { IfSome result (λ line.
            take 1 (map line_of_note (notes_of self.now)) ≡ line.now ∷ []) }
        ensures none { IfNone result (notes_of self.now ≡ []) }
    {
        match self.lines.front() {
            Some(line) => Some(line.text.as_str()),
            None => None,
        }
    }

    /// Drops the first line, so that it is gone. If none waits, it does nothing.
    pub(crate) fn drop_first(&mut self)
        ensures all { all_notes_of self.new ≡ all_notes_of self.old }
        ensures gone { items_of self.new.gone
            ≡ items_of self.old.gone ++ take 1 (notes_of self.old) }
        ensures rest { notes_of self.new ≡ drop 1 (notes_of self.old) }
    {
        if let Some(first) = self.lines.pop_front() {
            self.gone.note(&first.note);
        }
    }

    /// Returns the lines that wait, in order. The only error is that memory ran out, and then they are lost.
    pub fn into_texts(self) -> Result<Vec<String>, AllocError>
        ensures { IfOk result (λ texts.
            map string_bytes texts.items ≡ map line_of_note (notes_of self)) }
    {
        let WaitingLines {
            alloc,
            mut lines,
            gone: _,
        } = self;
        let mut texts = Vec::with_capacity(alloc, lines.len())?;
        while let Some(line) = lines.pop_front() {
            let WaitingLine { text, note: _ } = line;
            texts.push(text)?;
        }
        Ok(texts)
    }
}

impl LineSink for WaitingLines {
    ghost use Rattle.std.specs.Prelude.{map, refl};
    ghost use Rattle.cadence_aggregating.specs.Notes.{sample_of_note};
    ghost use Rattle.cadence_aggregating.specs.Waiting.{NoneWent, all_notes_of, none_went};

    ghost sent = { λ w. map sample_of_note (all_notes_of w) };

    ghost leads = { λ old result new. NoneWent old result new };

    ghost leads_to_itself = { λ _. (refl, tt) };

    ghost leads_nowhere = { λ _. (refl, refl) };

    ghost leads_further = { λ a b c result first more. none_went a b c result first more };

    fn send(&mut self, line: Line<'_>, fault: &mut SinkError) -> Option<()> {
        let mut text = String::new(self.alloc);
        let Ok(note) = note_line(&mut text, line) else {
            return out_of_memory(fault);
        };
        match self.lines.push_back(WaitingLine { text, note }) {
            Ok(()) => Some(()),
            Err(_) => out_of_memory(fault),
        }
    }
}
