//! Sinks over a Unix socket of their own, made from a runtime, an allocator and a path. Each function tests the path and
//! the capacity before it asks for memory. A queue or a period over such a sink is made by `QueuingMetricSinkBuilder`, and
//! a client over it by `StatsdClient::from_sink` or `StatsdClient::builder`.
ghost use Rattle.std.specs.Prelude.{◌≡◌, ◌≤◌, ◌<◌, IfOk, IfErr};
ghost use Rattle.cadence_errors.specs.Errors.{IsInvalid};
ghost use Rattle.cadence_sinks.specs.Buffers.{unix_buffer};
ghost use Rattle.cadence_sinks.specs.Unix.{unix_path};
ghost use Rattle.cadence_environment.specs.Paths.{IsPath};
ghost use Rattle.cadence_agent.specs.Refusals.{IsUnixRefusal};

use super::socket::UnixSocket;
use cadence_environment::check_path;
use cadence_errors::MetricResult;
use cadence_sinks::{BufferedUnixMetricSink, UnixMetricSink, check_capacity};
use std::alloc::{Allocator, Global};
use std::net::Net;
use std::sync::Wait;

/// The sink that `unix_sink` makes.
pub type UnixSink<R, A = Global> = UnixMetricSink<UnixSocket, R, A>;

/// The sink that `buffered_unix_sink` makes.
pub type BufferedUnixSink<R, A = Global> = BufferedUnixMetricSink<UnixSocket, R, A>;

/// Makes a `UnixMetricSink` with a socket of its own. Nobody has to listen at the path yet.
///
/// The errors are `Described` of the kind `InvalidInput` for a path that `check_path` refuses, `SinkError::Io` if the
/// socket can't be made, and `SinkError::OutOfMemory`.
///
/// ```text
/// let sink = unix_sink(rt, alloc, "/run/statsd.sock")?;
/// let client = StatsdClient::from_sink(alloc, "my.service", sink)?;
/// ```
pub fn unix_sink<R: Net + Wait + Clone + Drop, A: Allocator + Clone>(
    rt: &R,
    alloc: A,
    path: &str,
) -> MetricResult<UnixSink<R, A>>
    ensures path { IfOk result (λ s. unix_path s ≡ path.now) }
    ensures fits { IfOk result (λ _. IsPath path.now) }
    ensures refused { IfErr result (IsUnixRefusal path.now) }
{
    check_path(path)?;
    let socket = UnixSocket::new(rt)?;
    UnixMetricSink::from(rt.clone()?, alloc, path, socket)
}

/// Makes a `BufferedUnixMetricSink` with a socket of its own and a buffer of `capacity` bytes. The errors are those of
/// `unix_sink`, and that of `check_capacity` for a buffer of more than `MAX_PACKET` bytes. A Unix datagram may be larger,
/// but few agents read one that is.
pub fn buffered_unix_sink<R: Net + Wait + Clone + Drop, A: Allocator + Clone>(
    rt: &R,
    alloc: A,
    path: &str,
    capacity: usize,
) -> MetricResult<BufferedUnixSink<R, A>>
    ensures buffer { IfOk result (λ s. unix_buffer s ≡ capacity) }
    ensures fits { IfOk result (λ _. IsPath path.now) }
    ensures packet { IfOk result (λ _. capacity ≤ 65507) }
    ensures refused { capacity ≤ 65507 → IfErr result (IsUnixRefusal path.now) }
    ensures too_large { 65507 < capacity → IfErr result IsInvalid }
{
    check_path(path)?;
    check_capacity(capacity)?;
    let socket = UnixSocket::new(rt)?;
    BufferedUnixMetricSink::with_capacity(rt.clone()?, alloc, path, socket, capacity)
}
