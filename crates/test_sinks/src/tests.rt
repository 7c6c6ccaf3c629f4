//! The tests: `nop`, `spy`, `udp`, `unix` and `queuing` for the sinks of these names, `flushes` for sinks that are
//! flushed by time, `ends` for the end of a queue and for its shortest and longest periods, `long_lines` for lines that a
//! queue copies before it takes its lock, `named` for queues whose logs have names, `ready` for ready-made sinks over UDP,
//! and `resolve` and `resolver_thread` for the resolvers. They share `steps` (calls of a sink that assert their result),
//! `sockets` (sockets on this machine), `gate` (a sink at whose gate a worker waits) and `noting` (a sink that notes its
//! lines and flushes).

mod ends;
mod flushes;
mod gate;
mod long_lines;
mod named;
mod nop;
mod noting;
mod queuing;
mod ready;
mod resolve;
mod resolver_thread;
mod sockets;
mod spy;
mod steps;
mod udp;
mod unix;
