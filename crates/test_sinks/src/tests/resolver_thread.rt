//! The thread of a resolver ends with its sink.
use super::sockets::bind_to_loopback;
use super::steps::assert_reaches;
use cadence_errors::MetricResult;
use cadence_flow::SinkErrorHandler;
use cadence_resolve::{Runtime, Target};
use cadence_sinks::{UdpMetricSink, UdpMetricSinkBuilder};
use std::alloc::Global;
use std::net::SocketAddr;
use std::sync::Arc;
use std::sync::atomic::{AtomicU64, Ordering};
use std::test::Fail;
use std::thread;
use std::time::Duration;

// Counts its drop. The handler of a thread's resolver owns it, so it is dropped when the thread ends.
struct Owned {
    drops: Arc<AtomicU64>,
}

impl Drop for Owned {
    fn drop(self) {
        self.drops.fetch_add(1, Ordering::SeqCst);
        let Owned { drops: _ } = self;
    }
}

// Builds a sink whose resolver has this period. The handler of its resolver counts its drop.
fn build_sink<R: Runtime>(
    rt: &R,
    alloc: Global,
    (period, server): (Duration, SocketAddr),
    ends: Arc<AtomicU64>,
) -> MetricResult<UdpMetricSink<R>> {
    let (mine, socket) = (rt.clone()?, bind_to_loopback(rt)?);
    let owned = Owned { drops: ends };
    let handler: SinkErrorHandler = Box::new(alloc, move |_| {
        owned.drops.fetch_add(0, Ordering::SeqCst);
    })?;
    let builder = UdpMetricSinkBuilder::new()
        .with_resolver_period(period)
        .with_resolver_error_handler(handler);
    builder.build(mine, alloc, Target::Addr(server), socket)
}

// Without the wake a thread would sleep for an hour, or for ever.
#[test]
fn a_thread_ends_with_its_sink(rt: HostRuntime) -> Result<(), Fail> {
    let hour = Duration::from_secs(3600);
    let server = bind_to_loopback(&rt)?.local_addr()?;
    for period in [Duration::ZERO, Duration::from_nanos(1), hour, Duration::MAX] {
        let ends = Arc::new(rt.alloc(), AtomicU64::new(0))?;
        let sink = build_sink(&rt, rt.alloc(), (period, server), ends.clone()?)?;
        thread::sleep(&rt, Duration::from_millis(50));
        assert!(rt; ends.load(Ordering::SeqCst) == 0);
        drop(sink);
        assert_reaches(&rt, &ends, 1)?;
    }
    Ok(())
}
