//! What an aggregating sink and a client whose calls make no line pass on: flushes, counts, and the errors of the
//! wrapped sink.
use crate::tests::reporting::stage::{Watch, make_counted};
use crate::tests::steps::{assert_got, assert_passes_on};
use cadence::Runtime;
use cadence::sinks::MetricSink;
use cadence::types::{MetricError, SinkError};
use cadence_aggregating::{AggregatedClient, AggregatingMetricSink};
use std::alloc::Global;
use std::sync::Wait;
use std::test::Fail;

// Asserts that the wrapped sink got these lines, and this many flushes since it was made.
fn assert_passed<R: Wait + Drop>(watch: &Watch<R>, lines: &str, flushes: u64) -> Result<(), Fail> {
    if watch.stage.flushes() != flushes {
        return Err(Fail::new("another number of flushes"));
    }
    assert_got(&watch.notes, lines)
}

// A flush of the sink flushes the wrapped sink once, after the lines. Its drop does so twice, because the first one sends a
// line and fails.
fn assert_sink_passes_on<R: Runtime>(rt: &R, alloc: Global) -> Result<(), Fail> {
    let (watch, counted) = make_counted(rt, alloc)?;
    let sink = AggregatingMetricSink::from(rt.clone()?, alloc, counted)?;
    watch.stage.set([1, 2, 3, 4, 5]);
    sink.emit("a:1|c")?;
    assert_passes_on(&sink)?;
    assert_passed(&watch, "a:1|c", 1)?;
    sink.emit("b:1|c")?;
    drop(sink);
    assert_passed(&watch, "b:1|c", 3)
}

#[test]
fn a_sink_passes_on(rt: HostRuntime) -> Result<(), Fail> {
    assert_sink_passes_on(&rt, rt.alloc())
}

// The same for a client.
fn assert_client_passes_on<R: Runtime>(rt: &R, alloc: Global) -> Result<(), Fail> {
    let (watch, counted) = make_counted(rt, alloc)?;
    let client = AggregatedClient::from_sink(rt.clone()?, alloc, "p", counted)?;
    watch.stage.set([1, 2, 3, 4, 5]);
    let key = client.counter_key("a", &[])?;
    client.incr(&key)?;
    let is_passed = matches!(
        client.flush(),
        Err(MetricError::Sink(SinkError::NothingWritten))
    );
    if !is_passed || client.stats().packets_sent != 2 {
        return Err(Fail::new("another answer of a flush, or another count"));
    }
    assert_passed(&watch, "p.a:1|c", 1)?;
    client.count(&key, 2)?;
    drop(client);
    assert_passed(&watch, "p.a:2|c", 3)
}

#[test]
fn a_client_passes_on(rt: HostRuntime) -> Result<(), Fail> {
    assert_client_passes_on(&rt, rt.alloc())
}

// A line that is handed on at once, and one that leaves at a flush, are refused as the wrapped sink refuses them.
fn assert_refuses_so<R: Runtime>(rt: &R, alloc: Global) -> Result<(), Fail> {
    let (watch, counted) = make_counted(rt, alloc)?;
    let sink = AggregatingMetricSink::from(rt.clone()?, alloc, counted)?;
    sink.emit("a:1|c")?;
    watch.set_refuses(true);
    match (sink.emit("a:0.5|c"), sink.flush()) {
        (Err(SinkError::PacketRefused), Err(SinkError::PacketRefused)) => {}
        _ => return Err(Fail::new("another answer")),
    }
    watch.set_refuses(false);
    drop(sink);
    assert_passed(&watch, "a:1|c", 2)
}

#[test]
fn an_error_of_the_wrapped_sink_is_returned(rt: HostRuntime) -> Result<(), Fail> {
    assert_refuses_so(&rt, rt.alloc())
}
