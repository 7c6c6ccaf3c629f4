//! The settings of an aggregator.

use cadence_aggregate::Line;
use std::num::NonZeroUsize;

/// What an aggregator holds, and what it hands on.
#[derive(Clone, Copy, Debug)]
pub struct Limits {
    /// The most contexts of each kind that are held.
    pub most_contexts: NonZeroUsize,
    /// The most bytes of a line that is held. A longer line is handed on, and values are packed up to this length.
    pub most_bytes: usize,
    /// Whether the values of timers, histograms and distributions are packed into one line. Not every server reads such
    /// a line.
    pub packs_values: bool,
}

impl Limits {
    ghost use Rattle.std.specs.Prelude.{◌≡◌, true};
    ghost use Rattle.cadence_aggregating.specs.ToHold.{IsToHold};

    /// Returns whether a line of `len` bytes, which says this, is held.
    pub fn holds(&self, said: &Line<'_>, len: usize) -> bool
        ensures held { IsToHold self.now said.now len → result ≡ true }
        ensures passed { result ≡ true → IsToHold self.now said.now len }
    {
        if len > self.most_bytes {
            return false;
        }
        match said {
            Line::Timing(_, _) => self.packs_values,
            _ => true,
        }
    }
}
