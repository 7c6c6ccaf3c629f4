//! One whole service: two threads count over a client that they share, and a clean end sends every line.

use cadence::prelude::*;
use cadence::ready::buffered_udp_sink;
use cadence::{
    BufferedUdpMetricSink, MetricResult, MetricSink, QueuingMetricSink, QueuingMetricSinkBuilder,
    Runtime, StatsdClient, Target,
};
use std::alloc::Global;
use std::sync::Arc;
use std::sync::atomic::{AtomicU64, Ordering};
use std::thread;
use std::time::Duration;

// Makes a queue of at most 1000 lines, whose worker packs them into datagrams and sends what it has within a second.
fn make_sink<R: Runtime>(
    rt: &R,
    alloc: Global,
    server: Target,
    errors: Arc<AtomicU64>,
) -> MetricResult<QueuingMetricSink<BufferedUdpMetricSink<R>, R>> {
    let queue = QueuingMetricSinkBuilder::new()
        .with_capacity(1000)
        .with_error_handler(Box::new(alloc, move |_error| {
            errors.fetch_add(1, Ordering::SeqCst);
        })?)
        .with_flush_period(Duration::from_secs(1));
    let socket = buffered_udp_sink(rt, alloc, server, 1432)?;
    queue.build(rt.clone()?, alloc, socket)
}

// The work of one thread. A full queue refuses a line, and then this returns `ChannelFull`.
fn count_visits<S: MetricSink>(client: &StatsdClient<Global, S>, page: &str) -> MetricResult<()> {
    for _ in 0..3 {
        client
            .count_with_tags("visits", 1)
            .with_tag("page", page)
            .try_send()?;
    }
    Ok(())
}

/// Runs the service to its end, and returns how many errors the socket had.
pub fn run<R: Runtime>(rt: &R, alloc: Global, server: Target) -> MetricResult<u64> {
    let errors = Arc::new(alloc, AtomicU64::new(0))?;
    let sink = make_sink(rt, alloc, server, errors.clone()?)?;
    let client = StatsdClient::builder(alloc, "shop", sink)
        .with_tag("env", "prod")
        .build()?;
    let (home, cart) = thread::join(
        rt,
        || count_visits(&client, "home"),
        || count_visits(&client, "cart"),
    );
    client.sink().stop_and_wait();
    client.flush()?;
    home.and(cart)?;
    Ok(errors.load(Ordering::SeqCst))
}

#[cfg(test)]
mod tests {
    use super::count_visits;
    use cadence::{SpyMetricSink, StatsdClient};
    use std::test::Fail;

    #[test]
    fn each_visit_has_its_page(rt: HostRuntime) -> Result<(), Fail> {
        let (receiver, sink) = SpyMetricSink::new(rt.clone()?, rt.alloc())?;
        let client = StatsdClient::from_sink(rt.alloc(), "shop", sink)?;
        count_visits(&client, "home")?;
        for _ in 0..3 {
            let Some(line) = receiver.try_recv() else {
                return Err(Fail::new("a line is missing"));
            };
            assert_eq!(rt; str::from_utf8(&line)?, "shop.visits:1|c|#page:home");
        }
        assert!(rt; receiver.try_recv().is_none());
        Ok(())
    }
}
