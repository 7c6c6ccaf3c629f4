//! Sinks over UDP with sockets of their own, made from a runtime, an allocator and a target. The sockets never wait: if
//! the system can't take a packet at once, the error is `Io` of the kind `WouldBlock`.
//! A host's name is looked up again by a thread, as the head of `cadence::ready` says.
ghost use Rattle.std.specs.Prelude.{◌≡◌, ◌≤◌, false, IfOk, IfErr, is_some};
ghost use Rattle.cadence_resolve.specs.Refusals.{IsSocketRefusal};
ghost use Rattle.cadence_sinks.specs.Host.{IsHostTarget, is_name, IsSameUnlessNamed};
ghost use Rattle.cadence_sinks.specs.Buffers.{udp_buffer};
ghost use Rattle.cadence_sinks.specs.Udp.{SendsTo, looks_up_again, options_of};

use crate::{
    BufferedUdpMetricSink, BufferedUdpMetricSinkBuilder, UdpMetricSink, UdpMetricSinkBuilder,
    check_capacity,
};
use cadence_errors::MetricResult;
use cadence_resolve::{DEFAULT_PERIOD, Family, Runtime, Target, address_of, bind_nonblocking};
use std::alloc::{AllocError, Allocator};
use std::net::{IpAddr, Net, SocketAddr, UdpSocket};
use std::time::Duration;

/// Returns the target for a host's name, or for an address as text, and a port. The only error is that memory ran out.
pub fn host<A: Allocator>(alloc: A, name: &str, port: u16) -> Result<Target<A>, AllocError>
    ensures { IfOk result (IsHostTarget name.now port) }
{
    let host = String::from_str(alloc, name)?;
    Ok(Target::Name { host, port })
}

// Binds a socket that can send to the address that the target has now, at a port that the system picks.
fn socket_to<A: Allocator>(net: &impl Net, target: &Target<A>) -> MetricResult<UdpSocket>
    ensures { IfErr result (λ e. IsSocketRefusal e) }
{
    Ok(bind_nonblocking(net, address_of(net, target, Family::V4)?)?)
}

// Returns the target, or if it is the text of an address this address.
fn without_name<A: Allocator>(target: Target<A>) -> Target<A>
    ensures { IsSameUnlessNamed target result }
{
    let Target::Name { host, port } = target else {
        return target;
    };
    match host.parse::<IpAddr>() {
        Ok(address) => Target::Addr(SocketAddr::from((address, port))),
        Err(_) => Target::Name { host, port },
    }
}

// Returns the settings of the lookups of a target: only a name is looked up again.
fn lookups_for<A: Allocator>(target: &Target<A>) -> UdpMetricSinkBuilder
    ensures { is_some (options_of result).period ≡ is_name target.now }
{
    let builder = UdpMetricSinkBuilder::new();
    match target {
        Target::Addr(_) => builder,
        Target::Name { .. } => builder.with_resolver_period(Duration::from_secs(DEFAULT_PERIOD)),
    }
}

/// Makes a `UdpMetricSink` with a socket of its own. It sends to the first address of IPv4 that the target has, or to
/// its first address if it has none of IPv4. A name is looked up again, as the head of `cadence::ready` says.
///
/// The errors are `SinkError::Io` if the lookup fails, the socket can't be made or the thread can't be started, the
/// kind `InvalidInput` if the name has no address, and `SinkError::OutOfMemory`.
pub fn udp_sink<R: Runtime, A: Allocator + Clone + Send + Sync + 'static>(
    rt: &R,
    alloc: A,
    target: Target<A>,
) -> MetricResult<UdpMetricSink<R, A>>
    ensures address { is_name target ≡ false → IfOk result (λ s. SendsTo s target) }
    ensures once { is_name target ≡ false → IfOk result (λ s. looks_up_again s ≡ false) }
    ensures refused { IfErr result (λ e. IsSocketRefusal e) }
{
    let target = without_name(target);
    let socket = socket_to(rt, &target)?;
    lookups_for(&target).build(rt.clone()?, alloc, target, socket)
}

/// Makes a `BufferedUdpMetricSink` with a socket of its own and a buffer of `capacity` bytes. It sends to the address to
/// which `udp_sink` sends. The errors are those of `udp_sink`, and that of `check_capacity` for a buffer of more than
/// `MAX_PACKET` bytes.
pub fn buffered_udp_sink<R: Runtime, A: Allocator + Clone + Send + Sync + 'static>(
    rt: &R,
    alloc: A,
    target: Target<A>,
    capacity: usize,
) -> MetricResult<BufferedUdpMetricSink<R, A>>
    ensures buffer { IfOk result (λ s. udp_buffer s ≡ capacity) }
    ensures fits { IfOk result (λ _. capacity ≤ 65507) }
    ensures refused { IfErr result (λ e. IsSocketRefusal e) }
{
    check_capacity(capacity)?;
    let target = without_name(target);
    let socket = socket_to(rt, &target)?;
    let builder = BufferedUdpMetricSinkBuilder::of_lookups(lookups_for(&target));
    builder
        .with_capacity(capacity)
        .build(rt.clone()?, alloc, target, socket)
}
