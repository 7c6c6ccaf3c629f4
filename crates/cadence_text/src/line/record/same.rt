//! Compares the lines of two records without storing them.
ghost use Rattle.std.specs.Prelude.{◌≡◌, ◌↔◌, IsTrue, drop, take};
ghost use Rattle.cadence_text.specs.Line.{line_of};
ghost use Rattle.cadence_text.specs.OneReading.{IsClear};
ghost use Rattle.cadence_text.specs.MetricInMemory.{IsMetricInMemory};
ghost use Rattle.cadence_text.specs.PieceWriters.{window_text};

use super::Record;
use crate::line::window::{WINDOW, Window};
use std::alloc::Allocator;

// Returns the window on a record's line that skips this many bytes.
fn window_of<A: Allocator>(metric: &Record<'_, A>, skip: u128) -> Window
    ensures shown { window_text result ≡ take 512 (drop skip (line_of metric.now)) }
    ensures sized { IsMetricInMemory metric.now }
{
    let mut window = Window::after(skip);
    metric.push_line(&mut window);
    window
}

impl<'a, A: Allocator> Record<'a, A> {
    /// Returns whether both records have the same line. Takes no memory.
    ///
    /// Both lines are written into windows of 512 bytes. Lines of up to 511 bytes are written once, and longer ones
    /// once more for every further 512 bytes.
    pub fn same_line<B: Allocator>(&self, other: &Record<'_, B>) -> bool
        ensures lines { IsTrue result ↔ (line_of self.now ≡ line_of other.now) }
        ensures metrics { IsClear self.now → IsClear other.now →
            (IsTrue result ↔ (self.now ≡ other.now)) }
    {
        let mut skip = 0;
        loop {
            let ours = window_of(self, skip);
            let theirs = window_of(other, skip);
            if ours.shown() != theirs.shown() {
                return false;
            }
            if ours.shown().len() < WINDOW {
                return true;
            }
            skip += WINDOW as u128;
        }
    }
}
