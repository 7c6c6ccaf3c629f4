//! A sink to the place that the environment says, ready made.
ghost use Rattle.std.specs.Prelude.{◌≡◌, ◌≤◌, IfErr, IfOk};
ghost use Rattle.cadence_agent.specs.Shown.{GoesTo, HasAgentBuffer};
ghost use Rattle.cadence_agent.specs.Refusals.{IsEnvironmentRefusal, IsPlaceRefusal};
ghost use Rattle.cadence_resolve.specs.Refusals.{IsSocketRefusal};
ghost use Rattle.cadence_sinks.specs.Buffers.{udp_buffer};

use super::sink::EnvironmentSink;
use crate::unix::buffered_unix_sink;
use cadence::Runtime;
use cadence::ready::{buffered_udp_sink, host};
use cadence_environment::{Destination, Environment, look_up_host};
use cadence_errors::{ErrorKind, MetricError, MetricResult};
use cadence_flow::NopMetricSink;
use cadence_resolve::{DEFAULT_PERIOD, Target, bind_nonblocking};
use cadence_sinks::{BufferedUdpMetricSink, BufferedUdpMetricSinkBuilder, check_capacity};
use std::alloc::Allocator;
use std::env::Env;
use std::net::{IpAddr, Net, SocketAddr};
use std::time::Duration;

// Returns the first address of IPv6 that a host has.
fn ipv6_address(net: &impl Net, host: (&str, u16)) -> MetricResult<SocketAddr>
    ensures { IfErr result (λ e. IsSocketRefusal e) }
{
    match look_up_host(net, host, true)? {
        Some(address) => Ok(address),
        None => Err(MetricError::from((
            ErrorKind::InvalidInput,
            "No socket addresses of IPv6 yielded",
        ))),
    }
}

// Makes a buffered sink that sends to an address of IPv6, from a socket of this family. A host's name is looked up again.
fn ipv6_sink<R: Runtime, A: Allocator + Clone + Send + Sync + 'static>(
    rt: &R,
    alloc: A,
    name: (&str, u16),
    capacity: usize,
) -> MetricResult<BufferedUdpMetricSink<R, A>>
    ensures buffer { IfOk result (λ s. udp_buffer s ≡ capacity) }
    ensures fits { IfOk result (λ _. capacity ≤ 65507) }
    ensures refused { IfErr result (λ e. IsSocketRefusal e) }
{
    check_capacity(capacity)?;
    let address = ipv6_address(rt, name)?;
    let socket = bind_nonblocking(rt, address)?;
    let builder = BufferedUdpMetricSinkBuilder::new().with_capacity(capacity);
    if name.0.parse::<IpAddr>().is_ok() {
        return builder.build(rt.clone()?, alloc, Target::Addr(address), socket);
    }
    let target = host(alloc.clone()?, name.0, name.1)?;
    builder
        .with_resolver_period(Duration::from_secs(DEFAULT_PERIOD))
        .build(rt.clone()?, alloc, target, socket)
}

// Makes a buffered sink over UDP to a host and a port.
fn host_sink<R: Runtime, A: Allocator + Clone + Send + Sync + 'static>(
    rt: &R,
    alloc: A,
    name: (&str, u16),
    only_ipv6: bool,
    capacity: usize,
) -> MetricResult<BufferedUdpMetricSink<R, A>>
    ensures buffer { IfOk result (λ s. udp_buffer s ≡ capacity) }
    ensures fits { IfOk result (λ _. capacity ≤ 65507) }
    ensures refused { IfErr result (λ e. IsSocketRefusal e) }
{
    if only_ipv6 {
        return ipv6_sink(rt, alloc, name, capacity);
    }
    let target = host(alloc.clone()?, name.0, name.1)?;
    buffered_udp_sink(rt, alloc, target, capacity)
}

/// Makes a buffered sink with a socket of its own to this destination. Its buffer has as many bytes as
/// `Destination::capacity` says. A host's name is looked up again, as the head of `cadence::ready` says. A path is looked
/// up for each packet, so a packet goes to the socket that is bound to the path when it is sent. If the destination is
/// nowhere, the sink takes each line and sends nothing.
///
/// If the destination wants addresses of IPv6 alone, the first lookup finds one of them. A later lookup of a name prefers
/// them too, but takes an address of IPv4 if the name then has no other.
///
/// The errors are those of `buffered_udp_sink` or of `buffered_unix_sink`, and the kind `InvalidInput` if the destination
/// wants an address of IPv6 and the host has none.
pub fn sink_to<R: Runtime, A: Allocator + Clone + Send + Sync + 'static, B: Allocator>(
    rt: &R,
    alloc: A,
    destination: &Destination<B>,
) -> MetricResult<EnvironmentSink<R, A>>
    ensures place { IfOk result (GoesTo destination.now) }
    ensures buffer { IfOk result HasAgentBuffer }
    ensures refused { IfErr result (IsPlaceRefusal destination.now) }
{
    match destination {
        Destination::Nowhere => Ok(EnvironmentSink::Nowhere(NopMetricSink)),
        Destination::Udp {
            host: name,
            port,
            capacity,
            only_ipv6,
        } => {
            let name = (name.as_str(), *port);
            let sink = host_sink(rt, alloc, name, *only_ipv6, *capacity)?;
            Ok(EnvironmentSink::Udp(sink))
        }
        Destination::Unix { path } => {
            let sink = buffered_unix_sink(rt, alloc, path, destination.capacity())?;
            Ok(EnvironmentSink::Unix(sink))
        }
    }
}

/// Makes a buffered sink with a socket of its own to the place that the environment says. Its buffer is as large as that of
/// `sink_to`. A client over it has no tags of the environment; `EnvironmentExt::builder` adds them.
///
/// The errors are `Described` of the kind `InvalidInput` with the text of an `EnvironmentError` if a variable is
/// malformed, and those of `sink_to`.
pub fn environment_sink<R: Env + Runtime, A: Allocator + Clone + Send + Sync + 'static>(
    rt: &R,
    alloc: A,
) -> MetricResult<EnvironmentSink<R, A>>
    ensures buffer { IfOk result HasAgentBuffer }
    ensures refused { IfErr result IsEnvironmentRefusal }
{
    let environment = Environment::read(&(rt, &alloc))?;
    sink_to(rt, alloc.clone()?, environment.destination())
}
