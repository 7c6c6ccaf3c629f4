//! What a service needs to reach the agent of its machine.
//!
//! - `environment`: a sink to the place that the environment says, and the builder of a client with its tags.
//! - `input`: waits for input at a file descriptor.
//! - `reporting`: a sink that sends its own counts as metrics after each period.
//! - `unix`: a Unix datagram socket that sends to a path, and sinks over it, ready made.
//!
//! Of all modules of the library, only `input` and the module `socket` of `unix` call the C library directly.
#![tactic(auto)]

mod environment;
mod input;
mod reporting;
mod unix;

pub use cadence_environment::{
    Destination, Environment, EnvironmentError, MAX_PATH, PathError, Variable, Variables,
    check_path, container_id,
};
pub use environment::{EnvironmentExt, EnvironmentSink, environment_sink, sink_to};
pub use input::wait_for_input;
pub use reporting::{Count, Growth, ReportingMetricSink, SinkCounts, growths_between};
pub use unix::{BufferedUnixSink, UnixSink, UnixSocket, buffered_unix_sink, unix_sink};
