//! The engines of `statsd_listen` and `statsd_watch`, and runs of a schedule whose packets are read back. All read with
//! `cadence_read`.
//!
//! - `counts`: counts lines by what they are and by name.
//! - `engine`: prints the lines of one packet, over any reader and writers.
//! - `faults`: reports the lines of a packet that no server can read.
//! - `filter`: which lines are printed.
//! - `object`: prints what a line is, and its parts, as a JSON object.
//! - `pieces`: splits a text at a byte, and cuts a byte off its end.
//! - `place`: reads a line, or finds the place from which it can't be read.
//! - `remark`: what this library's own reader says of a line.
//! - `row`: prints what a line is, and its parts, as columns.
//! - `run`: runs a schedule over a packet log, and reads the packets back.
//! - `watch`: prints or counts the lines of packets as they come.
#![tactic(auto)]

mod counts;
mod engine;
mod faults;
mod filter;
mod object;
mod pieces;
mod place;
mod remark;
mod row;
mod run;
mod watch;

pub use cadence_read::{
    AnyLine, MetricParts, NotMetrics, ReadFault, cut_line, read_line, read_packet, read_run,
};
pub use counts::Counts;
pub use engine::run_listen;
pub use filter::Filter;
pub use place::{Reading, read_or_find};
pub use remark::remark_on;
pub use row::push_row;
pub use run::run_and_read;
pub use watch::{Origin, WatchError, WatchFormat, count_packet, print_packet};
