//! A sink to the place that the environment says, ready made, and the builder of a client with its tags.

mod builder;
mod ready;
mod sink;

pub use builder::EnvironmentExt;
pub use ready::{environment_sink, sink_to};
pub use sink::EnvironmentSink;
