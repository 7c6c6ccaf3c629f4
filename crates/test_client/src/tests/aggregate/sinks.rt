//! The aggregating sink over a spy: what leaves at a flush, after a refusal, at a drop, after a period, with two
//! callers and below a client.
use crate::tests::steps::{assert_gets, assert_got, assert_takes};
use cadence::StatsdClient;
use cadence::client::BoxedSink;
use cadence::prelude::*;
use cadence::sinks::{MetricSink, SpyMetricSink};
use cadence_aggregating::{AggregatingMetricSink, AggregatingMetricSinkBuilder};
use std::test::Fail;
use std::thread;
use std::time::Duration;

#[test]
fn flushes_and_a_drop_send_what_is_held(rt: HostRuntime) -> Result<(), Fail> {
    let (receiver, spy) = SpyMetricSink::with_capacity(rt.clone()?, rt.alloc(), 2)?;
    let sink = AggregatingMetricSink::from(rt.clone()?, rt.alloc(), spy)?;
    assert_takes(&sink, "a:1|c a:2|c t:5|ms b:4|c c:5|c")?;
    if sink.flush().is_ok() {
        return Err(Fail::new("a full sink took a line"));
    }
    assert_got(&receiver, "t:5|ms a:3|c")?;
    sink.flush()?;
    assert_got(&receiver, "b:4|c c:5|c")?;
    assert_takes(&sink, "g:5|g")?;
    drop(sink);
    assert_got(&receiver, "g:5|g")
}

// The sink takes two lines at each flush, and each context is called again before it.
#[test]
fn no_context_waits_for_ever(rt: HostRuntime) -> Result<(), Fail> {
    let (receiver, spy) = SpyMetricSink::with_capacity(rt.clone()?, rt.alloc(), 2)?;
    let sink = AggregatingMetricSink::from(rt.clone()?, rt.alloc(), spy)?;
    for wanted in ["a:1|c b:1|c", "c:2|c d:2|c", "g:3|g u:4|s", "a:3|c b:3|c"] {
        assert_takes(&sink, "a:1|c b:1|c c:1|c d:1|c g:3|g u:4|s")?;
        if sink.flush().is_ok() {
            return Err(Fail::new("a full sink took a line"));
        }
        assert_got(&receiver, wanted)?;
    }
    Ok(())
}

#[test]
fn a_period_sends_what_is_held(rt: HostRuntime) -> Result<(), Fail> {
    let (receiver, spy) = SpyMetricSink::new(rt.clone()?, rt.alloc())?;
    let sink = AggregatingMetricSinkBuilder::new()
        .with_max_contexts(1)
        .with_max_line(8)
        .with_packed_values()
        .with_flush_period(Duration::from_millis(20))
        .build(rt.clone()?, rt.alloc(), spy)?;
    assert_takes(&sink, "t:5|ms")?;
    assert_gets(&receiver, "t:5|ms")
}

// Emits a counter's line again and again.
fn count<S: MetricSink>(sink: &S, turns: u32) -> bool {
    for _ in 0..turns {
        if sink.emit("a:1|c").is_err() {
            return false;
        }
    }
    true
}

#[test]
fn two_callers_lose_nothing(rt: HostRuntime) -> Result<(), Fail> {
    let (receiver, spy) = SpyMetricSink::new(rt.clone()?, rt.alloc())?;
    let sink = AggregatingMetricSink::from(rt.clone()?, rt.alloc(), spy)?;
    let (one, two) = thread::join(&rt, || count(&sink, 1000), || count(&sink, 2000));
    if !(one && two) {
        return Err(Fail::new("a line was refused"));
    }
    drop(sink);
    assert_got(&receiver, "a:3000|c")
}

#[test]
fn a_client_sends_sums_over_a_boxed_sink(rt: HostRuntime) -> Result<(), Fail> {
    let (receiver, spy) = SpyMetricSink::new(rt.clone()?, rt.alloc())?;
    let sink = AggregatingMetricSink::from(rt.clone()?, rt.alloc(), spy)?;
    let boxed: BoxedSink = Box::new(rt.alloc(), sink)?;
    let client = StatsdClient::from_sink(rt.alloc(), "p", boxed)?;
    client.incr("a")?;
    client.count("a", 2i64)?;
    client.flush()?;
    assert_got(&receiver, "p.a:3|c")
}
