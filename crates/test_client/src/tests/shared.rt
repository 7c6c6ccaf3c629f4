//! Every sink and client may be shared by threads, whatever the runtime.
use cadence::Runtime;
use cadence::client::StatsdClient;
use cadence::sinks::{
    BufferedSpyMetricSink, BufferedUdpMetricSink, BufferedUnixMetricSink, FlushingMetricSink,
    NopMetricSink, QueuingMetricSink, SpyMetricSink, SpyReceiver, UdpMetricSink, UnixMetricSink,
};
use cadence_agent::{EnvironmentSink, ReportingMetricSink, UnixSocket};
use cadence_aggregating::{AggregatedClient, AggregatingMetricSink};
use std::alloc::Global;

// Compiles only for a type whose values may be sent to a thread and shared with one.
fn require_shareable<T: Send + Sync>() {}

fn require_shareable_sinks<R: Runtime>(_rt: &R) {
    require_shareable::<NopMetricSink>();
    require_shareable::<UdpMetricSink<R>>();
    require_shareable::<BufferedUdpMetricSink<R>>();
    require_shareable::<UnixMetricSink<UnixSocket, R>>();
    require_shareable::<BufferedUnixMetricSink<UnixSocket, R>>();
    require_shareable::<SpyMetricSink<R>>();
    require_shareable::<BufferedSpyMetricSink<R>>();
    require_shareable::<SpyReceiver<R>>();
    require_shareable::<QueuingMetricSink<NopMetricSink, R>>();
    require_shareable::<FlushingMetricSink<NopMetricSink, R>>();
    require_shareable::<EnvironmentSink<R>>();
    require_shareable::<QueuingMetricSink<EnvironmentSink<R>, R>>();
    require_shareable::<ReportingMetricSink<NopMetricSink, R>>();
    require_shareable::<AggregatingMetricSink<NopMetricSink, R>>();
    require_shareable::<AggregatedClient<NopMetricSink, R>>();
    require_shareable::<StatsdClient<Global, NopMetricSink>>();
}

#[test]
fn each_sink_may_be_shared(rt: HostRuntime) {
    require_shareable_sinks(&rt);
}
