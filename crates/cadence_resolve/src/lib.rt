//! The address that a UDP sink sends to. It is looked up once, or by a thread again and again.
//!
//! - `lookup`: looks up the addresses of a name, and sleeps between two lookups
//! - `periodic`: a resolver that looks its name up again after each period
//! - `preferred`: the address of a host to which a socket sends: one of the socket's own family comes first
//! - `resolver`: the resolver of a UDP sink: a static one, which looks its target up once, or a periodic one
//! - `resolver_core`: the address of a name after each lookup, without a thread or a lock
//! - `runtime`: what a runtime has to offer to a sink that starts a thread
//! - `socket`: a socket that can send to an address
//! - `target`: an address, or a host's name and a port
#![tactic(auto)]

mod lookup;
mod periodic;
mod preferred;
mod resolver;
mod resolver_core;
mod runtime;
mod socket;
mod target;

pub use lookup::{Lookup, NameLookup, Sleeper};
pub use periodic::PeriodicResolver;
pub use preferred::{Family, address_of, find_address, find_address_of};
pub use resolver::{Resolver, StaticResolver};
pub use resolver_core::ResolverCore;
pub use runtime::{Runtime, RuntimeParts};
pub use socket::{bind_nonblocking, bind_socket};
pub use target::Target;

/// The UDP port on which Statsd servers listen.
pub const DEFAULT_PORT: u16 = 8125;

/// How many seconds the address of a name is used before the name is looked up again, unless a caller sets a period.
pub const DEFAULT_PERIOD: u64 = 60;

/// How many seconds after a lookup a refused packet lets the name be looked up again.
pub const PERIOD_AFTER_REFUSAL: u64 = 1;
