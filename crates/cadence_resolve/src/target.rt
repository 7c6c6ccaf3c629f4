//! The target of a UDP sink.
use std::alloc::{Allocator, Global};
use std::net::SocketAddr;

/// The server that a UDP sink sends to.
#[derive(Drop)]
pub enum Target<A: Allocator = Global> {
    /// An address. It needs no lookup.
    Addr(SocketAddr),
    /// A host's name, which has to be looked up, and a port.
    Name { host: String<A>, port: u16 },
}
