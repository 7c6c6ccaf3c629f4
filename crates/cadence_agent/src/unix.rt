//! Unix datagrams: a socket that sends to a path, and sinks over it, ready made.

mod address;
mod ready;
mod socket;

pub use ready::{BufferedUnixSink, UnixSink, buffered_unix_sink, unix_sink};
pub use socket::UnixSocket;
