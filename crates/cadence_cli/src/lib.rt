//! What the programs of this repository share.
//!
//! - `escapes`: prints bytes as printable ASCII.
//! - `report`: prints a program's report, or why there is none, and returns the exit status.
//! - `streams`: reads a reader to its end, and writes a whole text.
#![tactic(auto)]

mod escapes;
mod report;
mod streams;

pub use escapes::{push_bytes, push_text};
pub use report::{ReportError, print_report};
pub use streams::{BrokenInput, print_all, read_all};
