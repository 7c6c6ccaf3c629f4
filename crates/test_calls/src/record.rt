//! The wrapped sink. It records how many lines came from each caller, and in which order, and shares that with the
//! test.

use cadence::MetricSink;
use cadence::types::SinkError;
use std::alloc::{AllocError, Global};
use std::sync::atomic::{AtomicBool, Ordering};
use std::sync::{Arc, Mutex, Wait};

/// How many callers there are.
pub const CALLERS: usize = 4;

/// Returns the trace of a list of numbers, given the trace of the list before its last number. Equal lists have the
/// same trace, and lists that differ most likely have different ones.
pub fn next_trace(before: u64, number: u64) -> u64 {
    before
        .wrapping_mul(6_364_136_223_846_793_005)
        .wrapping_add(number)
}

/// What came from one caller.
#[derive(Clone, Copy, Drop)]
pub struct CallerRecord {
    /// How many lines came.
    pub lines: u64,
    /// The number in the last line, or 0.
    pub last: u64,
    /// Whether each line had a greater number than the line before.
    pub is_in_order: bool,
    /// The trace of the numbers in the lines.
    pub trace: u64,
}

impl CallerRecord {
    const NONE: CallerRecord = CallerRecord {
        lines: 0,
        last: 0,
        is_in_order: true,
        trace: 0,
    };

    // Notes a line with this number.
    fn note(&mut self, number: u64) {
        self.is_in_order = self.is_in_order && self.last < number;
        self.lines = self.lines.wrapping_add(1);
        self.last = number;
        self.trace = next_trace(self.trace, number);
    }
}

/// What came from all callers.
#[derive(Drop)]
pub struct Record {
    /// What came from each caller, by its number.
    pub callers: Vec<CallerRecord>,
    /// How many lines came that are no caller's.
    pub other_lines: u64,
}

// Returns the caller and the number in a line, or `None` if the line is no caller's.
fn parse(line: &str) -> Option<(usize, u64)> {
    let (caller, value) = line.strip_prefix("load.")?.split_once(':')?;
    let number = value.strip_suffix("|c")?.parse::<u64>().ok()?;
    Some((caller.parse::<usize>().ok()?, number))
}

impl Record {
    fn new(alloc: Global) -> Result<Record, AllocError> {
        let mut callers = Vec::new(alloc);
        for _ in 0..CALLERS {
            callers.push(CallerRecord::NONE)?;
        }
        Ok(Record {
            callers,
            other_lines: 0,
        })
    }

    // Notes a line.
    fn note(&mut self, line: &str) {
        if let Some((caller, number)) = parse(line) {
            if let Some(record) = self.callers.get_mut(caller) {
                record.note(number);
                return;
            }
        }
        self.other_lines = self.other_lines.wrapping_add(1);
    }

    /// Returns how many lines came.
    pub fn lines(&self) -> u64 {
        let mut lines = self.other_lines;
        for record in &self.callers {
            lines = lines.wrapping_add(record.lines);
        }
        lines
    }

    /// Returns whether each line of a caller had a greater number than the caller's line before.
    pub fn is_in_order(&self) -> bool {
        self.callers.iter().all(|record| record.is_in_order)
    }
}

/// What the wrapped sink shares with the test.
#[derive(Drop)]
pub struct SinkState {
    /// Whether it works on a line at this moment.
    pub has_line: AtomicBool,
    /// Whether it ever worked on two lines at once.
    pub had_two_lines: AtomicBool,
    /// Whether it has been dropped.
    pub is_gone: AtomicBool,
    /// The lines that came.
    pub record: Mutex<Record>,
}

impl SinkState {
    /// Creates the state of a sink to which no line has come.
    pub fn new(alloc: Global) -> Result<SinkState, AllocError> {
        Ok(SinkState {
            has_line: AtomicBool::new(false),
            had_two_lines: AtomicBool::new(false),
            is_gone: AtomicBool::new(false),
            record: Mutex::new(Record::new(alloc)?),
        })
    }
}

/// Returns whether a flag is set.
pub fn is_set(flag: &AtomicBool) -> bool {
    flag.load(Ordering::SeqCst)
}

/// Sets a flag.
pub fn set(flag: &AtomicBool) {
    flag.store(true, Ordering::SeqCst);
}

/// A sink that takes each line and notes it.
pub struct RecordingSink<R: Wait + Drop> {
    rt: R,
    state: Arc<SinkState>,
}

impl<R: Wait + Drop> RecordingSink<R> {
    /// Creates a sink that shares this state.
    pub fn new(rt: R, state: Arc<SinkState>) -> Self {
        RecordingSink { rt, state }
    }
}

impl<R: Wait + Drop> MetricSink for RecordingSink<R> {
    ghost may_answer = { λ _ _ _. Unit {0} };

    fn emit(&self, line: &str) -> Result<usize, SinkError> {
        let state = &self.state;
        if state.has_line.swap(true, Ordering::SeqCst) {
            set(&state.had_two_lines);
        }
        state.record.lock(&self.rt).note(line);
        state.has_line.store(false, Ordering::SeqCst);
        Ok(line.len())
    }

    ghost flush_may_succeed = { λ _ _. tt };
}

impl<R: Wait + Drop> Drop for RecordingSink<R> {
    fn drop(self) {
        let RecordingSink { rt: _, state } = self;
        set(&state.is_gone);
    }
}
