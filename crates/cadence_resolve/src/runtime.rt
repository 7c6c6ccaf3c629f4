//! What a runtime has to offer to a sink that starts a thread. A runtime, such as `HostRuntime`, is the value through
//! which code reaches the system.

use std::net::{Net, TcpListener, TcpStream};
use std::sync::Wait;
use std::thread::Threads;
use std::time::Clock;

/// Sockets, locks, threads and a clock. It stands apart from `Runtime` because otherwise the checker refuses a `main` that
/// calls a function with this bound, as docs/internals/checker.md says. Each type that meets these bounds implements this
/// trait.
pub trait RuntimeParts: Net + Wait + Threads + Clock + Clone + Drop + Send + Sync + 'static {}

impl<R: Net + Wait + Threads + Clock + Clone + Drop + Send + Sync + 'static> RuntimeParts for R {}

/// A runtime under which each sink can be made, also one whose name is looked up by a thread. A function that makes sinks
/// takes `rt: &R` with `R: Runtime`. Each type that meets these bounds implements this trait, as `HostRuntime` does.
pub trait Runtime: RuntimeParts + Net<Listener = TcpListener, Stream = TcpStream> {}

impl<R: RuntimeParts + Net<Listener = TcpListener, Stream = TcpStream>> Runtime for R {}
