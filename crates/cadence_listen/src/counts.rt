//! Counts lines by what they are and by name.
use cadence_cli::push_bytes;
use cadence_read::AnyLine;
use std::alloc::{AllocError, AllocFailed, Global};
use std::cmp::Reverse;
use std::collections::BTreeMap;

// The most names that have a count of their own. The lines of all further names share one count, because a sender that
// makes up new names without end would otherwise use up the memory.
const MOST_NAMES: usize = 1 << 16;

/// How many lines there were of each name.
#[derive(Drop)]
pub struct Counts {
    // For each first two columns of a row, how many lines have them.
    lines: BTreeMap<String, u64>,
    // How many lines have another name than these.
    others: u64,
}

// Returns what a line is, and of a metric also the name, as `push_row` prints them.
fn heading_of(alloc: Global, line: AnyLine<'_>) -> Result<String, AllocError> {
    let mut heading = String::new(alloc);
    match line {
        AnyLine::MetricLine(parts) => {
            heading.push_str("metric\t")?;
            push_bytes(&mut heading, parts.name)?;
        }
        AnyLine::Event(_) => heading.push_str("event")?,
        AnyLine::ServiceCheck(_) => heading.push_str("check")?,
        AnyLine::Opaque(_) => heading.push_str("unreadable")?,
    }
    Ok(heading)
}

impl Counts {
    /// Returns counts of no lines.
    pub fn new(alloc: Global) -> Counts {
        Counts {
            lines: BTreeMap::new(alloc),
            others: 0,
        }
    }

    /// Counts a line.
    ///
    /// # Errors
    /// The only error is that memory ran out. The line isn't counted then.
    pub fn add(&mut self, alloc: Global, line: AnyLine<'_>) -> Result<(), AllocError> {
        let heading = heading_of(alloc, line)?;
        if let Some(count) = self.lines.get_mut(heading.as_str()) {
            *count = count.saturating_add(1);
            return Ok(());
        }
        if self.lines.len() >= MOST_NAMES {
            self.others = self.others.saturating_add(1);
            return Ok(());
        }
        match self.lines.insert(heading, 1) {
            Ok(_) => Ok(()),
            Err(AllocFailed { .. }) => Err(AllocError),
        }
    }

    /// Returns a row for each name, but for no more than `most`, with the count, a tab, what the lines are, a tab and the
    /// name. The greatest count comes first, and among equal ones the first name. If there are other names, their lines
    /// are counted in a last row.
    ///
    /// # Errors
    /// The only error is that memory ran out.
    pub fn table(&self, alloc: Global, most: usize) -> Result<String, AllocError> {
        let mut rows = Vec::new(alloc);
        for (heading, count) in &self.lines {
            rows.push((Reverse(*count), heading.as_str()))?;
        }
        rows.sort()?;
        let (first, rest) = rows.split_at(most.min(rows.len()));
        let (mut text, mut others) = (String::new(alloc), self.others);
        for (Reverse(count), heading) in first {
            writeln!(text, "{count}\t{heading}")?;
        }
        for (Reverse(count), _) in rest {
            others = others.saturating_add(*count);
        }
        if others > 0 {
            writeln!(text, "{others}\tof other names")?;
        }
        Ok(text)
    }
}
