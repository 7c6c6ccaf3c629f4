//! The handler of an aggregating sink over a spy that is full: it receives the error of each flush that fails, of callers,
//! of the thread and of the drop.
use crate::tests::steps::{assert_got, assert_takes, is_called};
use cadence::client::ClientSettings;
use cadence::sinks::{MetricSink, SpyMetricSink};
use cadence::types::SinkError;
use cadence_aggregating::{AggregatingMetricSinkBuilder, FlushErrorHandler};
use std::alloc::{AllocError, Global};
use std::sync::Arc;
use std::sync::atomic::{AtomicU64, Ordering};
use std::test::Fail;
use std::time::Duration;

// Counts the flushes that found the sink below full.
#[derive(Drop)]
struct FullFlushes {
    number: Arc<AtomicU64>,
}

impl FlushErrorHandler for FullFlushes {
    fn handle(&self, error: &SinkError) {
        if matches!(error, SinkError::ChannelFull) {
            self.number.fetch_add(1, Ordering::SeqCst);
        }
    }
}

// Makes a handler, and the number that it raises.
fn make_handler(alloc: Global) -> Result<(Arc<AtomicU64>, FullFlushes), AllocError> {
    let number = Arc::new(alloc, AtomicU64::new(0))?;
    let handler = FullFlushes {
        number: number.clone()?,
    };
    Ok((number, handler))
}

#[test]
fn flushes_of_a_caller_and_the_drop_are_heard(rt: HostRuntime) -> Result<(), Fail> {
    let (receiver, spy) = SpyMetricSink::with_capacity(rt.clone()?, rt.alloc(), 1)?;
    let (number, handler) = make_handler(rt.alloc())?;
    let sink = AggregatingMetricSinkBuilder::new()
        .with_handler(handler)
        .build(rt.clone()?, rt.alloc(), spy)?;
    assert_takes(&sink, "a:1|c b:2|c")?;
    let is_refused = sink.flush().is_err() && sink.flush().is_err();
    assert!(rt; is_refused && number.load(Ordering::SeqCst) == 2);
    drop(sink);
    assert!(rt; number.load(Ordering::SeqCst) == 3);
    assert_got(&receiver, "a:1|c")
}

#[test]
fn flushes_of_a_client_are_heard(rt: HostRuntime) -> Result<(), Fail> {
    let (_receiver, spy) = SpyMetricSink::with_capacity(rt.clone()?, rt.alloc(), 1)?;
    let (number, handler) = make_handler(rt.alloc())?;
    let settings = ClientSettings::new(rt.alloc(), "p")?;
    let client = AggregatingMetricSinkBuilder::new()
        .with_handler(handler)
        .build_client(rt.clone()?, rt.alloc(), settings, spy)?;
    let (one, two) = (client.counter_key("a", &[])?, client.counter_key("b", &[])?);
    client.incr(&one)?;
    client.incr(&two)?;
    assert!(rt; client.flush().is_err() && number.load(Ordering::SeqCst) == 1);
    Ok(())
}

#[test]
fn flushes_of_the_thread_are_heard_by_a_closure(rt: HostRuntime) -> Result<(), Fail> {
    let (_receiver, spy) = SpyMetricSink::with_capacity(rt.clone()?, rt.alloc(), 1)?;
    let number = Arc::new(rt.alloc(), AtomicU64::new(0))?;
    let heard = number.clone()?;
    let handler = Box::new(rt.alloc(), move |_error: SinkError| {
        heard.fetch_add(1, Ordering::SeqCst);
    })?;
    let sink = AggregatingMetricSinkBuilder::new()
        .with_flush_period(Duration::from_millis(1))
        .with_error_handler(handler)
        .build(rt.clone()?, rt.alloc(), spy)?;
    assert_takes(&sink, "a:1|c b:2|c")?;
    assert!(rt; is_called(&rt, &number));
    Ok(())
}
