//! How often the client calls its sink and its handler, and with what. Each error adds a weight of its own to a number,
//! so that the number shows which errors a handler got, and how often.
ghost use Rattle.std.specs.Prelude.{◌≡◌, Err, Ok, length};
ghost use Rattle.cadence_errors.specs.declared.SinkError.TheVariants.{PacketRefused};

use crate::tests::own::{Event, Nothing, Seven};
use cadence::client::{BoxedErrorHandler, BoxedHandler, BoxedSink, ServiceStatus, StatsdClient};
use cadence::ext::MetricBackend;
use cadence::prelude::*;
use cadence::sinks::{MetricSink, NopMetricSink};
use cadence::types::{ErrorKind, Metric, MetricError, MetricResult, SinkError};
use std::alloc::{AllocError, Global};
use std::sync::Arc;
use std::sync::atomic::{AtomicU64, Ordering};
use std::test::Fail;

// A sink that refuses each line, and counts the calls of `emit`.
#[derive(Drop)]
struct RefusingSink {
    calls: Arc<AtomicU64>,
}

impl MetricSink for RefusingSink {
    ghost may_answer = { λ _ _ answer. answer ≡ Err PacketRefused };

    ghost may_flush = { λ _ _. Unit {0} };

    fn emit(&self, _line: &str) -> Result<usize, SinkError> {
        self.calls.fetch_add(1, Ordering::SeqCst);
        Err(SinkError::PacketRefused)
    }

    fn flush(&self) -> Result<(), SinkError> {
        Err(SinkError::NothingWritten)
    }

    ghost flush_may_succeed = { λ _ _. tt };
}

// A sink that takes each line, and counts its calls. A flush counts as 100 calls.
#[derive(Drop)]
pub(super) struct CountingSink {
    pub(super) calls: Arc<AtomicU64>,
}

impl MetricSink for CountingSink {
    ghost may_answer = { λ _ line answer. answer ≡ Ok (length line) };

    fn emit(&self, line: &str) -> Result<usize, SinkError> {
        self.calls.fetch_add(1, Ordering::SeqCst);
        Ok(line.len())
    }

    ghost may_flush = { λ _ _. Unit {0} };

    fn flush(&self) -> Result<(), SinkError> {
        self.calls.fetch_add(100, Ordering::SeqCst);
        Ok(())
    }

    ghost flush_may_succeed = { λ _ _. tt };
}

// Makes a counter that is 0.
pub(super) fn make_counter(alloc: Global) -> Result<Arc<AtomicU64>, AllocError> {
    let zero = Arc::new(alloc, AtomicU64::new(0))?;
    Ok(zero)
}

// Makes a client over a counting sink, and the count of its calls.
fn make_counted_client(
    alloc: Global,
) -> Result<(Arc<AtomicU64>, StatsdClient<Global, CountingSink>), Fail> {
    let calls = make_counter(alloc)?;
    let sink = CountingSink {
        calls: calls.clone()?,
    };
    let client = StatsdClient::from_sink(alloc, "p", sink)?;
    Ok((calls, client))
}

// Sends a metric by each kind of call that returns it: a plain one, and one with tags.
fn make_calls_that_answer(client: &StatsdClient<Global, CountingSink>) -> MetricResult<()> {
    if client.count("k", Seven)?.as_metric_str() != "p.k:7|c" {
        return Err(MetricError::from(SinkError::NothingWritten));
    }
    let tagged = client.gauge_with_tags("k", 2).with_tag("a", "b");
    tagged.try_send()?;
    Ok(())
}

// Sends a metric by a call that returns nothing, and a metric of the caller's own, and flushes.
fn make_calls_without_answer(client: &StatsdClient<Global, CountingSink>) -> MetricResult<()> {
    client.gauge_with_tags("k", 3).send();
    client.send_metric(&Event)?;
    client.flush()
}

// Returns whether each of those calls reaches the sink once.
fn each_reaches(
    calls: &AtomicU64,
    client: &StatsdClient<Global, CountingSink>,
) -> MetricResult<bool> {
    make_calls_that_answer(client)?;
    let answered = calls.load(Ordering::SeqCst);
    make_calls_without_answer(client)?;
    Ok(answered == 2 && calls.load(Ordering::SeqCst) == 104)
}

#[test]
fn each_call_reaches_the_sink_once(rt: HostRuntime) -> Result<(), Fail> {
    let (calls, client) = make_counted_client(rt.alloc())?;
    assert!(rt; each_reaches(&calls, &client)?);
    Ok(())
}

// Returns the error of a call, which must fail.
fn error_of<T: Drop>(answer: MetricResult<T>) -> Result<MetricError, Fail> {
    match answer {
        Ok(_) => Err(Fail::new("taken")),
        Err(error) => Ok(error),
    }
}

// Returns the weight of an error: a power of ten for each error that the tests tell apart.
fn weight_of(error: &MetricError) -> u64 {
    match error.sink_error() {
        Some(SinkError::PacketRefused) => 1,
        Some(SinkError::ChannelFull) => 10,
        Some(_) => 100,
        None if error.kind() == ErrorKind::InvalidInput => 1_000,
        None => 10_000,
    }
}

// How often a sink was called, and the sum of the weights of the errors that a handler got.
#[derive(Drop)]
struct CallCounts {
    calls: Arc<AtomicU64>,
    weights: Arc<AtomicU64>,
}

impl CallCounts {
    fn zero(alloc: Global) -> Result<CallCounts, AllocError> {
        let (calls, weights) = (make_counter(alloc)?, make_counter(alloc)?);
        Ok(CallCounts { calls, weights })
    }

    // Returns whether there were this many calls, and this is the sum of the weights.
    fn are(&self, calls: u64, weights: u64) -> bool {
        self.calls.load(Ordering::SeqCst) == calls && self.weights.load(Ordering::SeqCst) == weights
    }

    // Makes a sink that counts its calls here.
    fn sink(&self) -> Result<RefusingSink, AllocError> {
        let calls = self.calls.clone()?;
        Ok(RefusingSink { calls })
    }
}

// A client whose sink refuses each line, with a boxed handler.
type RefusedClient = StatsdClient<Global, RefusingSink, BoxedErrorHandler>;

// Makes such a client.
fn make_refused_client(alloc: Global, counts: &CallCounts) -> Result<RefusedClient, Fail> {
    let weights = counts.weights.clone()?;
    let handler: BoxedHandler = Box::new(alloc, move |error: MetricError| {
        weights.fetch_add(weight_of(&error), Ordering::SeqCst);
    })?;
    let client = StatsdClient::builder(alloc, "p", counts.sink()?)
        .with_error_handler(handler)
        .with_tag_value("a")
        .build()?;
    Ok(client)
}

// Returns whether a call returned the sink's error.
fn is_sink_error<T: Drop>(answer: MetricResult<T>) -> Result<bool, Fail> {
    let error = error_of(answer)?;
    let of_sink = matches!(error.sink_error(), Some(SinkError::PacketRefused));
    Ok(of_sink && error.kind() == ErrorKind::IoError)
}

// Returns whether a flush returned the sink's error.
fn is_flush_error(answer: MetricResult<()>) -> bool {
    matches!(answer, Err(MetricError::Sink(SinkError::NothingWritten)))
}

// Returns whether each call that answers returns the error of the sink.
fn each_returns_its_error(client: &RefusedClient) -> Result<bool, Fail> {
    let plain = is_sink_error(client.count("k", 1))?;
    let built = is_sink_error(client.count_with_tags("k", 1).try_send())?;
    let event = is_sink_error(client.event("k", "text").try_send())?;
    let check = is_sink_error(client.service_check("k", ServiceStatus::Ok).try_send())?;
    Ok(plain && built && event && check && is_flush_error(client.flush()))
}

#[test]
fn an_error_that_is_returned_is_not_handled(rt: HostRuntime) -> Result<(), Fail> {
    let counts = CallCounts::zero(rt.alloc())?;
    let client = make_refused_client(rt.alloc(), &counts)?;
    assert!(rt; each_returns_its_error(&client)? && counts.are(4, 0));
    Ok(())
}

// Returns whether each error that no call returns is handled once.
fn each_is_handled(client: &RefusedClient, counts: &CallCounts) -> bool {
    client.count_with_tags("k", 1).with_tag("a", "b").send();
    let of_sink = counts.are(1, 1);
    client.consume_error(MetricError::from(SinkError::ChannelFull));
    let of_caller = counts.are(1, 11);
    client.count_with_tags("k", Nothing).send();
    let of_value = counts.are(1, 1_011);
    client.event("k", "text").send();
    let of_event = counts.are(2, 1_012);
    client.service_check("a|b", ServiceStatus::Ok).send();
    of_sink && of_caller && of_value && of_event && counts.are(2, 2_012)
}

#[test]
fn an_error_that_is_not_returned_is_handled_once(rt: HostRuntime) -> Result<(), Fail> {
    let counts = CallCounts::zero(rt.alloc())?;
    let client = make_refused_client(rt.alloc(), &counts)?;
    assert!(rt; each_is_handled(&client, &counts));
    Ok(())
}

// The handler is made first, because the check finds no proof if the sink is made first.
#[test]
fn a_boxed_sink_takes_a_boxed_handler(rt: HostRuntime) -> Result<(), Fail> {
    let handler: BoxedHandler = Box::new(rt.alloc(), |_error: MetricError| ())?;
    let sink: BoxedSink = Box::new(rt.alloc(), NopMetricSink)?;
    let client = StatsdClient::builder(rt.alloc(), "p", sink)
        .with_error_handler(handler)
        .build()?;
    assert!(rt; client.incr("k").is_ok());
    Ok(())
}
