//! Tests of the client, the metric types, plans and sums, through the public calls of `cadence` and of the crates beside
//! it.
//!
//! They test what no contract says: how often sinks and handlers are called, a caller's own types, sockets, waits, and
//! how often a call asks for memory. The rows of the program `test_calls` have the line or the error of every call for
//! every type.
#![tactic(auto)]

#[cfg(test)]
mod tests;
