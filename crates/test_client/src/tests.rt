//! The tests: `client` for the client, `metrics` for the metric types, `plan` for plans, `unix` for clients over Unix
//! sockets, `environment` for what the environment says, `flushes` for queues that flush by time, `input` for waits,
//! `reporting` for a sink that sends its own counts, `aggregate` for metrics that are added up, and `shared` for sinks
//! that threads share. They have in common `own` (types of a caller's own) and `steps` (steps that assert their result).

mod aggregate;
mod client;
mod environment;
mod flushes;
mod input;
mod metrics;
mod own;
mod plan;
mod reporting;
mod shared;
mod steps;
mod unix;
