//! A client whose calls make no line, over a spy: what leaves at a flush, after a refusal, after a period and with two
//! callers.
use crate::tests::steps::{assert_gets, assert_got};
use cadence::client::ClientSettings;
use cadence::line::Tag;
use cadence::sinks::{MetricSink, SpyMetricSink};
use cadence::{ErrorKind, MetricResult};
use cadence_aggregating::{AggregatedClient, AggregatingMetricSinkBuilder, CounterKey};
use std::sync::Wait;
use std::test::Fail;
use std::thread;
use std::time::Duration;

const HOME: Tag<'static> = Tag {
    key: Some("page"),
    text: "home",
};

const BETA: Tag<'static> = Tag {
    key: None,
    text: "beta",
};

#[test]
fn calls_are_added_up(rt: HostRuntime) -> Result<(), Fail> {
    let (receiver, spy) = SpyMetricSink::new(rt.clone()?, rt.alloc())?;
    let client = AggregatedClient::from_sink(rt.clone()?, rt.alloc(), "p", spy)?;
    let plain = client.counter_key("a", &[])?;
    let tagged = client.counter_key("a", &[HOME, BETA])?;
    client.count(&plain, 5)?;
    client.incr(&tagged)?;
    client.incr(&tagged)?;
    client.decr(&plain)?;
    let load = client.gauge_key("load", &[])?;
    client.gauge(&load, 7)?;
    client.gauge(&load, u64::MAX)?;
    client.flush()?;
    assert_got(
        &receiver,
        "p.a:4|c p.a:2|c|#page:home,beta p.load:18446744073709551615|g",
    )
}

#[test]
fn a_context_over_the_limit_is_handed_on(rt: HostRuntime) -> Result<(), Fail> {
    let (receiver, spy) = SpyMetricSink::with_capacity(rt.clone()?, rt.alloc(), 1)?;
    let mut settings = ClientSettings::new(rt.alloc(), "p")?;
    settings.add_tag(None, "x")?;
    settings.set_container("4b")?;
    let client = AggregatingMetricSinkBuilder::new()
        .with_max_line(12)
        .build_client(rt.clone()?, rt.alloc(), settings, spy)?;
    let long = client.counter_key("a", &[])?;
    client.count(&long, -9)?;
    match client.count(&long, 100) {
        Err(error) if error.kind() == ErrorKind::IoError => {}
        _ => return Err(Fail::new("a full sink took a line")),
    }
    assert_got(&receiver, "p.a:-9|c|#x|c:4b")?;
    let held = client.counter_key("", &[])?;
    client.count(&held, 100)?;
    client.flush()?;
    assert_got(&receiver, "p.:100|c|#x|c:4b")
}

#[test]
fn a_period_sends_the_sums_of_a_client(rt: HostRuntime) -> Result<(), Fail> {
    let (receiver, spy) = SpyMetricSink::new(rt.clone()?, rt.alloc())?;
    let settings = ClientSettings::new(rt.alloc(), "p")?;
    let client = AggregatingMetricSinkBuilder::new()
        .with_flush_period(Duration::from_millis(20))
        .build_client(rt.clone()?, rt.alloc(), settings, spy)?;
    let key = client.counter_key("a", &[])?;
    client.count(&key, 3)?;
    assert_gets(&receiver, "p.a:3|c")
}

// Raises a counter by 1 again and again.
fn raise<S: MetricSink, R: Wait + Drop>(
    client: &AggregatedClient<S, R>,
    key: &CounterKey,
    turns: u32,
) -> bool {
    for _ in 0..turns {
        if client.incr(key).is_err() {
            return false;
        }
    }
    true
}

#[test]
fn two_callers_raise_one_counter(rt: HostRuntime) -> Result<(), Fail> {
    let (receiver, spy) = SpyMetricSink::new(rt.clone()?, rt.alloc())?;
    let client = AggregatedClient::from_sink(rt.clone()?, rt.alloc(), "p", spy)?;
    let key = client.counter_key("a", &[])?;
    let (one, two) = thread::join(
        &rt,
        || raise(&client, &key, 1000),
        || raise(&client, &key, 2000),
    );
    if !(one && two) {
        return Err(Fail::new("a call failed"));
    }
    client.flush()?;
    assert_got(&receiver, "p.a:3000|c")
}

// Returns whether a result is an error of kind `InvalidInput`.
fn is_refused<T: Drop>(made: MetricResult<T>) -> bool {
    matches!(made, Err(error) if error.kind() == ErrorKind::InvalidInput)
}

#[test]
fn separators_are_refused(rt: HostRuntime) -> Result<(), Fail> {
    let (_receiver, spy) = SpyMetricSink::new(rt.clone()?, rt.alloc())?;
    let client = AggregatedClient::from_sink(rt.clone()?, rt.alloc(), "p", spy)?;
    assert!(rt; is_refused(client.counter_key("a|b", &[])));
    let (_receiver, spy) = SpyMetricSink::new(rt.clone()?, rt.alloc())?;
    let made = AggregatedClient::from_sink(rt.clone()?, rt.alloc(), "p:q", spy);
    assert!(rt; is_refused(made));
    Ok(())
}
