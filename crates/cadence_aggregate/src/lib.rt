//! Adds up metrics before they are sent, and sends at each flush one line for each context.
//!
//! A context is a line without its values. The counters of a context are summed, of a gauge's values the last one is
//! kept, each member of a set is kept once, and the values of timers, histograms and distributions are packed into one
//! line. There is no lock and no thread here.
//!
//! - `line`: what a line says.
//! - `sink`: where lines go.
//! - `memory`: what a call does when memory runs out.
//! - `entries`: puts entries into the tables in which contexts are held.
//! - `sums`: the sums of counters.
//! - `levels`: the last values of gauges.
//! - `members`: the members of sets.
//! - `timings`: the values of timers, histograms and distributions.
//! - `due`: how many contexts the next flush sends before all others.
//! - `aggregator`: the aggregator, which holds all of these.
//! - `runs`: a run of lines and flushes.
#![tactic(auto)]

mod aggregator;
mod due;
mod entries;
mod levels;
mod line;
mod members;
mod memory;
mod runs;
mod sink;
mod sums;
mod timings;

pub use aggregator::Aggregator;
pub use due::Due;
pub use line::Line;
pub use memory::out_of_memory;
pub use runs::{Outcome, Step, run};
pub use sink::LineSink;
