//! Tests of what is below the sinks, through the public calls of `cadence_errors`, `cadence_value`, `cadence_text`,
//! `cadence_events`, `cadence_flow`, `cadence_queue` and `cadence_audit`.
//!
//! They test what no contract says: printed texts, hashes, that a waiting thread is woken, how often memory is asked
//! for and what stays after a refused request, and that the history of an audited queue is that of its calls. Contracts
//! say which line a metric has; the programs `test_scripts` and `test_calls` print lines of every kind.
#![tactic(auto)]

#[cfg(test)]
mod tests;
