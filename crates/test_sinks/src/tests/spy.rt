//! Spies and their receivers. The program `test_scripts` refuses their requests for memory.
use super::steps::{
    WantedError, assert_accepts, assert_flushes, assert_last_message, assert_messages,
    assert_refuses, make_spy,
};
use cadence_sinks::{BufferedSpyMetricSink, SpyMetricSink};
use std::test::Fail;

#[test]
fn spy_of_capacity_1(rt: HostRuntime) -> Result<(), Fail> {
    let (receiver, sink) = SpyMetricSink::with_capacity(rt.clone()?, rt.alloc(), 1)?;
    assert_accepts(&sink, &[("a:1|c", 5)])?;
    assert_refuses(&sink, "b:1|c", WantedError::ChannelFull)?;
    assert_messages(&receiver, &["a:1|c"])?;
    assert_accepts(&sink, &[("c:1|c", 5)])?;
    drop(receiver);
    assert_refuses(&sink, "d:1|c", WantedError::ChannelDisconnected)
}

#[test]
fn receiver_outlives_its_sink(rt: HostRuntime) -> Result<(), Fail> {
    let (receiver, sink) = make_spy(&rt, rt.alloc())?;
    assert_accepts(&sink, &[("a:1|c", 5)])?;
    assert_flushes(&sink)?;
    drop(sink);
    assert!(rt; !receiver.is_empty());
    assert_last_message(&receiver, "a:1|c")
}

const TWO_LINES: [(&str, usize); 2] = [("foo:54|c", 8), ("foo:67|c", 8)];

const BOTH_LINES: &str = "foo:54|c\nfoo:67|c\n";

// The buffer has room for two lines, and the queue for one message.
#[test]
fn a_buffered_spy_keeps_both_bounds(rt: HostRuntime) -> Result<(), Fail> {
    let made = BufferedSpyMetricSink::with_capacity(rt.clone()?, rt.alloc(), Some(1), Some(18));
    let (receiver, sink) = made?;
    assert_accepts(&sink, &TWO_LINES)?;
    assert!(rt; receiver.is_empty());
    assert_flushes(&sink)?;
    assert_accepts(&sink, &TWO_LINES)?;
    assert_refuses(&sink, "foo:89|c", WantedError::ChannelFull)?;
    assert_messages(&receiver, &[BOTH_LINES])?;
    assert_accepts(&sink, &[("foo:89|c", 8)])?;
    assert_messages(&receiver, &[BOTH_LINES])?;
    drop(sink);
    assert_last_message(&receiver, "foo:89|c\n")
}
