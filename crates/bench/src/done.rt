//! What the work of a mode gave, and how it is printed.

use crate::arguments::Arguments;
use cadence::MetricResult;
use std::sync::atomic::{AtomicU64, Ordering};
use std::time::Duration;

/// What a mode prints besides its time.
#[derive(Clone, Copy)]
pub enum Note {
    /// Nothing.
    Nothing,
    /// The number of packets that were written or read.
    Packets(u64),
    /// The number of lines that a queue accepted, and the time until the last of them was taken.
    Accepted(u64, Duration),
}

/// What the measured part of a mode gave.
#[derive(Clone, Copy)]
pub struct Done {
    /// How long it took.
    pub time: Duration,
    /// A number that is the same for each implementation that did the same work.
    pub check: u64,
    /// What else is printed.
    pub note: Note,
}

/// What the emits into a queue gave.
#[derive(Clone, Copy)]
pub struct Accepted {
    /// The number of lines that were accepted.
    pub lines: u64,
    /// How long the emits took.
    pub time: Duration,
}

impl Accepted {
    /// Returns what a queue of this capacity gave, once its last line was taken after the time `drained`. How many
    /// lines a queue with a bound accepts depends on the threads' turns, so its check is 0.
    pub fn into_done(self, capacity: usize, drained: Duration) -> Done {
        Done {
            time: self.time,
            check: if capacity == 0 { self.lines } else { 0 },
            note: Note::Accepted(self.lines, drained),
        }
    }
}

/// Hides values from the compiler, so that it can't compute the result of a call when it compiles the call. The values
/// are hidden behind a test of an atomic number, whose value the compiler can't know.
#[derive(Drop)]
pub struct BlackBox {
    zero: AtomicU64,
}

impl BlackBox {
    /// Creates a `BlackBox`, which can hide any number of values.
    pub fn new() -> BlackBox {
        BlackBox {
            zero: AtomicU64::new(0),
        }
    }

    /// Returns `value`, and never `other`.
    pub fn hide<T: Copy>(&self, value: T, other: T) -> T {
        if self.zero.load(Ordering::SeqCst) == 0 {
            value
        } else {
            other
        }
    }

    /// Returns the text.
    pub fn text<'a>(&self, text: &'a str) -> &'a str {
        self.hide(text, "")
    }
}

// Returns the whole nanoseconds of a call, and the tenths of one.
fn per_call(time: Duration, calls: u64) -> (u128, u128) {
    let tenths = time.as_nanos().saturating_mul(10) / u128::from(calls).max(1);
    (tenths / 10, tenths % 10)
}

/// Prints the check on standard output, and the time of a call in nanoseconds on standard error.
pub fn report(rt: &HostRuntime, arguments: &Arguments, done: &Done) -> MetricResult<()> {
    let Arguments { name, calls, .. } = arguments;
    let check = done.check;
    println!(rt; "{name} n={calls} check={check}")?;
    match done.note {
        Note::Nothing => {}
        Note::Packets(packets) => eprint!(rt; "packets={packets} ")?,
        Note::Accepted(accepted, time) => {
            let (whole, tenth) = per_call(time, *calls);
            let per_ms = u128::from(accepted).saturating_mul(1_000_000) / time.as_nanos().max(1);
            eprint!(rt;
                "accepted={accepted} drained_ns_per={whole}.{tenth} lines_per_ms={per_ms} "
            )?;
        }
    }
    let (whole, tenth) = per_call(done.time, *calls);
    eprintln!(rt; "ns_per={whole}.{tenth}")?;
    Ok(())
}
