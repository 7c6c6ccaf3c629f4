//! What the log of a stage keeps of a call.
ghost use Rattle.std.specs.Prelude.{◌≡◌};
ghost use Rattle.std.specs.Option.{ok_or};
ghost use Rattle.cadence_stage.specs.Call.{Flush, Line, call_of};

use crate::ghost_texts::GhostTexts;
use cadence_errors::SinkError;
use std::snapshot::Snapshot;

/// A call of a stage with its answer, in a log. What it says exists in proofs only.
#[derive(Drop)]
pub enum Entry {
    /// The stage was given a line.
    Line {
        /// The line, alone in its list.
        text: GhostTexts,
        /// How many bytes of the line the stage took; `None` after an error.
        taken: Snapshot<Option<usize>>,
        /// The error, if there was one.
        why: Snapshot<SinkError>,
    },
    /// The stage was flushed.
    Flush {
        /// Whether that succeeded; `None` after an error.
        done: Snapshot<Option<()>>,
        /// The error, if there was one.
        why: Snapshot<SinkError>,
    },
}

impl Entry {
    /// Makes the entry of a line, of which the stage took so many bytes, or which it refused with this error.
    pub fn of_line(line: &str, taken: Option<usize>, fault: &SinkError) -> Entry
        ensures { call_of result ≡ Line line.now (ok_or taken fault.now) }
    {
        Entry::Line {
            text: GhostTexts::of(line),
            taken: Snapshot::of(&taken),
            why: Snapshot::of(fault),
        }
    }

    /// Makes the entry of a flush, which succeeded or failed with this error.
    pub fn of_flush(done: Option<()>, fault: &SinkError) -> Entry
        ensures { call_of result ≡ Flush (ok_or done fault.now) }
    {
        Entry::Flush {
            done: Snapshot::of(&done),
            why: Snapshot::of(fault),
        }
    }
}
