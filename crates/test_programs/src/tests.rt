//! The tests: `listen` and `send` let each read, write and request for memory of the two engines fail in turn, and `run`
//! each request of a run whose packets are read back. `stream` has a writer that refuses packets of a stream, whose lines
//! are also added up. `number` has numbers as tools print them. `watch` prints and counts the lines of a packet.
//!
//! `.ci/programs` runs the programs themselves. It shows which packets `statsd_listen` prints and which it refuses, and
//! what `statsd_send` sends for words, options and texts.

mod listen;
mod number;
mod run;
mod send;
mod stream;
mod watch;
