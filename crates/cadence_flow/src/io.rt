//! The packer, which puts lines into packets, and the writers that it writes packets to.
//!
//! - `held_lines`: lines that are held until they are a packet
//! - `line_buffer`: the packer, which writes the held lines to a writer
//! - `multi_line_writer`: the packer with the interface of the Rust crate, which flushes when it is dropped
//! - `writer`: the trait of a writer of packets
//! - `packet_log`: a writer that keeps its packets in memory
//! - `counting`: a writer that counts what another one took and refused
//! - `refusals`: how many packets a writer refused

mod counting;
mod held_lines;
mod line_buffer;
mod multi_line_writer;
mod packet_log;
mod refusals;
mod writer;

pub use counting::CountingWriter;
pub use held_lines::HeldLines;
pub use line_buffer::LineBuffer;
pub use multi_line_writer::MultiLineWriter;
pub use packet_log::{Answer, PacketLog};
pub use refusals::Refusals;
pub use writer::PacketWriter;

/// The capacity of a packer in bytes if none is chosen. A packet of this size passes every network unsplit.
pub const DEFAULT_CAPACITY: usize = 512;
