//! Sinks over UDP with sockets of their own, and a client over one, ready made from a runtime, an allocator and a target.
//! A queue or a period over such a sink is made by `QueuingMetricSinkBuilder`, and a client over any sink by
//! `StatsdClient::from_sink` or `StatsdClient::builder`.
//!
//! A host's name is looked up when the sink is made, and an address of IPv4 is preferred. A thread looks it up again each
//! minute, and also after a refused packet, then at most once a second. If a lookup fails, the address stays. If the text
//! of the host is an address, nothing is looked up and there is no thread.
ghost use Rattle.std.specs.Prelude.{◌≡◌, ◌≤◌, IfOk, IfErr};
ghost use Rattle.cadence.specs.Shown.{settings_of_client, sink_of_client};
ghost use Rattle.cadence_resolve.specs.Refusals.{IsSocketRefusal};
ghost use Rattle.cadence_settings.specs.Settings.{settings_of};
ghost use Rattle.cadence_sinks.specs.Buffers.{udp_buffer};

use crate::client::StatsdClient;
use cadence_errors::MetricResult;
use cadence_resolve::{Runtime, Target};
use cadence_sinks::BufferedUdpMetricSink;
pub use cadence_sinks::ready::{buffered_udp_sink, host, udp_sink};
use std::alloc::Allocator;

/// Makes a client that packs its lines into datagrams of at most `capacity` bytes. A line that with its newline passes
/// the capacity is sent alone. The errors are those of `buffered_udp_sink`.
pub fn buffered_udp_client<R: Runtime, A: Allocator + Clone + Send + Sync + 'static>(
    rt: &R,
    alloc: A,
    prefix: &str,
    target: Target<A>,
    capacity: usize,
) -> MetricResult<StatsdClient<A, BufferedUdpMetricSink<R, A>>>
    ensures settings { IfOk result (λ c. settings_of_client c ≡ settings_of prefix.now) }
    ensures buffer { IfOk result (λ c. udp_buffer (sink_of_client c) ≡ capacity) }
    ensures fits { IfOk result (λ _. capacity ≤ 65507) }
    ensures refused { IfErr result (λ e. IsSocketRefusal e) }
{
    let sink = buffered_udp_sink(rt, alloc.clone()?, target, capacity)?;
    StatsdClient::from_sink(alloc, prefix, sink)
}
