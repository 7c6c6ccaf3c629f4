//! The engine of `statsd_schedule`: it reads a script, runs its schedule over a packet log, and prints the report.
//!
//! - `calls`: reads the calls of a script.
//! - `engine`: runs a script, over any reader and writers.
//! - `print`: prints the report of a run.
//! - `script`: reads the settings and the steps of a script.
//! - `words`: reads the words of a line.
#![tactic(auto)]

mod calls;
mod engine;
mod print;
mod script;
mod words;

pub use engine::run_script;
