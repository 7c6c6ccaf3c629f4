//! A sink that adds up lines before it sends them.
//!
//! - `said`: reads what a line says.
//! - `note`: a record of what a line says, for proofs.
//! - `printed`: writes the line that says something, and notes what it says.
//! - `printer`: prints the lines of an aggregator as text, for a sink of metrics.
//! - `limits`: the settings of an aggregator.
//! - `sums`: lines that are added up, over any sink of what they say.
//! - `recorded`: an aggregator of lines over a sink of metrics, with a record of its past, as a stage.
//! - `looks`: what a look at a queue says whose worker feeds an aggregator.
//! - `waiting`: lines that wait until their owner has sent them.
//! - `summed`: lines that are added up for one thread, and wait to be sent.
//! - `runs`: a run of lines and flushes.
//! - `handler`: receivers of the errors of flushes.
//! - `locked`: an aggregator of lines under a lock.
//! - `sink`: the aggregating sink, which may flush by time.
//! - `builder`: its settings.
//! - `accepted`: a record of a line that was accepted, for proofs.
//! - `keys`: the keys of calls that make no line.
//! - `call`: a call by a key, and what its line would say.
//! - `shared`: a sink that several owners share.
//! - `client`: a client whose calls make no line.
#![tactic(auto)]

mod accepted;
mod builder;
mod call;
mod client;
mod handler;
mod keys;
mod limits;
mod locked;
mod looks;
mod note;
mod printed;
mod printer;
mod recorded;
mod runs;
mod said;
mod shared;
mod sink;
mod summed;
mod sums;
mod waiting;

pub use builder::AggregatingMetricSinkBuilder;
pub use client::AggregatedClient;
pub use handler::{FlushErrorHandler, NopFlushErrorHandler};
pub use keys::{CounterKey, GaugeKey, LineKey};
pub use limits::Limits;
pub use looks::{holds_nothing, summary};
pub use note::{Kind, Note};
pub use printed::note_line;
pub use recorded::RecordedAggregator;
pub use runs::{Outcome, Step, run};
pub use sink::AggregatingMetricSink;
pub use summed::SummedLines;
pub use sums::Sums;
pub use waiting::WaitingLines;
