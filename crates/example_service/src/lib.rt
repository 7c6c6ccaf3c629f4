//! The service of docs/rattle.md and its test. Each block of Rattle there is in a file here or in `example_guide`.
//!
//! - `runtime`: the bounds of a runtime that makes sinks.
//! - `service`: one whole service, and its test.
#![tactic(auto)]

pub mod service;
