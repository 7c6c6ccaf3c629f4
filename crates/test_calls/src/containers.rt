//! Finds the containers of rows, as the tests of C, Rust and Python do with the same file.
use crate::rows::{is_row, unescaped};
use cadence::MetricResult;
use cadence::types::MetricError;
use cadence_agent::container_id;
use std::alloc::Global;

// Returns the container that a row wants by the text of the file alone: none if it wants the number of a directory.
fn wanted_id(wanted: &str) -> &str {
    if wanted.starts_with("in-") {
        return "none";
    }
    wanted
}

/// Reads the rows, and returns how many there are, and each row in which another container is found.
pub fn report(alloc: Global, rows: &str) -> MetricResult<String> {
    let (mut text, mut count) = (String::new(alloc), 0u32);
    for row in rows.lines().filter(|line| is_row(line)) {
        let (wanted, given) = row.split_once(" <- ").unwrap_or((row, ""));
        let (_, groups) = given.split_once(' ').unwrap_or(("", ""));
        let groups = unescaped(alloc, groups)?;
        count = count.wrapping_add(1);
        if container_id(&groups).unwrap_or("none") != wanted_id(wanted) {
            writeln!(&mut text, "  another container: {row}")?;
        }
    }
    format!(in alloc; "{count} rows of containers\n{text}").map_err(MetricError::from)
}
