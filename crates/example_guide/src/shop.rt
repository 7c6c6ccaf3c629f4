//! One whole service: two threads count by keys, and a queue sends the sums where the environment says.

use cadence::client::ClientSettings;
use cadence::line::{Tag, lend_tag};
use cadence::prelude::*;
use cadence::{MetricResult, MetricSink, QueuingMetricSink, QueuingMetricSinkBuilder, Runtime};
use cadence_agent::{Environment, EnvironmentSink, sink_to};
use cadence_aggregating::{AggregatedClient, AggregatingMetricSinkBuilder};
use std::alloc::Global;
use std::env::Env;
use std::thread;
use std::time::Duration;

// Makes a queue, whose worker packs lines and sends them where the environment says. It has room for the lines of a
// flush: the client holds at most 4096 counters.
fn make_queue<R: Runtime>(
    rt: &R,
    alloc: Global,
    environment: &Environment,
) -> MetricResult<QueuingMetricSink<EnvironmentSink<R>, R>> {
    let packed = sink_to(rt, alloc, environment.destination())?;
    QueuingMetricSinkBuilder::new()
        .with_capacity(5000)
        .with_flush_period(Duration::from_secs(1))
        .build(rt.clone()?, alloc, packed)
}

// Makes a client with the tags of the environment. It gives its sums to the sink every ten seconds.
fn make_client<S: MetricSink + Send + Sync + 'static, R: Runtime>(
    rt: &R,
    alloc: Global,
    environment: &Environment,
    sink: S,
) -> MetricResult<AggregatedClient<S, R>> {
    let mut settings = ClientSettings::new(alloc, "shop")?;
    for tag in environment.tags() {
        let tag = lend_tag(tag);
        settings.add_tag(tag.key, tag.text)?;
    }
    AggregatingMetricSinkBuilder::new()
        .with_flush_period(Duration::from_secs(10))
        .build_client(rt.clone()?, alloc, settings, sink)
}

// The work of one thread. It makes its key once, and its calls make no line.
fn count_visits<S: MetricSink, R: Runtime>(
    client: &AggregatedClient<S, R>,
    page: &str,
) -> MetricResult<()> {
    let tag = Tag {
        key: Some("page"),
        text: page,
    };
    let visits = client.counter_key("visits", &[tag])?;
    for _ in 0..3 {
        client.incr(&visits)?;
    }
    Ok(())
}

/// Runs the service to its end, and returns how many packets it sent.
pub fn run<R: Runtime + Env>(rt: &R, alloc: Global) -> MetricResult<u64> {
    let environment = Environment::read(&(rt, alloc))?;
    let queue = make_queue(rt, alloc, &environment)?;
    let client = make_client(rt, alloc, &environment, queue.clone()?)?;
    let (home, cart) = thread::join(
        rt,
        || count_visits(&client, "home"),
        || count_visits(&client, "cart"),
    );
    client.flush()?; // gives the sums to the queue
    queue.stop_and_wait(); // gives the queued lines to the buffer of the socket
    queue.flush()?; // sends the buffer
    home.and(cart)?;
    Ok(queue.stats().packets_sent)
}

/// Returns what a spy receives of the work of one thread, with a tag of the environment.
pub fn report<R: Runtime>(rt: &R, alloc: Global) -> MetricResult<String> {
    let mut variables = cadence_agent::Variables::none();
    variables.env = "prod";
    let environment = Environment::from_variables(alloc, &variables)?;
    let (receiver, spy) = cadence::SpyMetricSink::new(rt.clone()?, alloc)?;
    let client = make_client(rt, alloc, &environment, spy)?;
    count_visits(&client, "home")?;
    client.flush()?;
    let mut text = String::new(alloc);
    crate::clients::add_message(alloc, &mut text, receiver.try_recv())?;
    Ok(text)
}
