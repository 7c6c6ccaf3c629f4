//! Calls whose requests for memory are refused in turn, and how many requests a call makes.

use super::sending::{CountingSink, make_counter};
use crate::tests::steps::is_made;
use cadence::Cardinality;
use cadence::client::StatsdClient;
use cadence::decimal::Decimal;
use cadence::prelude::*;
use cadence::sinks::{MetricSink, NopMetricSink};
use cadence::types::{Metric, MetricResult};
use std::alloc::Global;
use std::sync::Arc;
use std::sync::atomic::{AtomicU64, Ordering};
use std::test::Fail;
use test_tools::{RefusingAllocator, each_refused};

// The client of these tests, whose sink takes every line and counts its calls.
type Client = StatsdClient<RefusingAllocator<Global>, CountingSink>;

// Makes a client with default tags, a container, external data and a cardinality. That takes nine requests for memory.
fn make_client(heap: &RefusingAllocator<Global>, calls: Arc<AtomicU64>) -> MetricResult<Client> {
    StatsdClient::builder(heap.clone()?, "p", CountingSink { calls })
        .with_tag("a", "b")
        .with_tag_value("c")
        .with_container_id("id")
        .with_external_data("cn-a")
        .with_cardinality(Cardinality::Low)
        .build()
}

// Returns whether a metric was sent, which must have this line. It may only be refused because memory runs out. The
// first call of a client calls the sink once if it is sent, and not at all if it is refused.
fn is_line<M: Metric + Drop>(
    client: &Client,
    sent: MetricResult<M>,
    line: &str,
) -> Result<bool, Fail> {
    if let Ok(metric) = &sent {
        if metric.as_metric_str() != line {
            return Err(Fail::new("another line"));
        }
    }
    let is_sent = is_made(sent)?;
    if client.sink().calls.load(Ordering::SeqCst) != u64::from(is_sent) {
        return Err(Fail::new("another number of calls of the sink"));
    }
    Ok(is_sent)
}

// Makes the call with this number: a plain one, one with a tag of its own, or one whose value is a text. Returns whether
// there was memory for it. One kind of numbers is enough, because one function of the library sends the metrics of all
// kinds.
fn sends(client: &Client, number: u8) -> Result<bool, Fail> {
    match number {
        0 => is_line(
            client,
            client.count("k", 3i64),
            "p.k:3|c|#a:b,c|c:id|e:cn-a|card:low",
        ),
        1 => {
            let call = client.gauge_with_tags("k", 8u64).with_tag("d", "e");
            is_line(
                client,
                call.try_send(),
                "p.k:8|g|#a:b,c,d:e|c:id|e:cn-a|card:low",
            )
        }
        _ => is_line(
            client,
            client.set_text("k", "alice"),
            "p.k:alice|s|#a:b,c|c:id|e:cn-a|card:low",
        ),
    }
}

// Makes a call whose tags need more memory than the line had reserved. Its rate comes before the tags. Returns whether
// there was memory for it.
fn sends_long_line(client: &Client, tag: &str) -> Result<bool, Fail> {
    let rate = Decimal::new(5, 1)?;
    let call = client.incr_with_tags("k").with_sampling_rate(rate);
    is_line(
        client,
        call.with_tag("d", tag)
            .with_tag_value(tag)
            .with_timestamp(7)
            .try_send(),
        "p.k:1|c|@0.5|#a:b,c,d:ffffffffffffffffffffffffffffffffffffffffffffffffffffffffffff,ffffffffffffffffffffffffffffffffffffffffffffffffffffffffffff|c:id|e:cn-a|card:low|T7",
    )
}

// Makes a client and a call: one of `sends`, or one whose line grows. Returns whether there was memory for both.
fn makes_client_and_sends(
    alloc: Global,
    heap: &RefusingAllocator<Global>,
    number: u8,
    tag: &str,
) -> Result<bool, Fail> {
    match make_client(heap, make_counter(alloc)?) {
        Ok(client) if number < 3 => sends(&client, number),
        Ok(client) => sends_long_line(&client, tag),
        Err(error) => is_made::<Client>(Err(error)),
    }
}

// The client takes nine requests, the line one, and its growth another one.
#[test]
fn a_call_is_sent_or_refused(rt: HostRuntime) -> Result<(), Fail> {
    let alloc = rt.alloc();
    let tag = "f".repeat(alloc, 60)?;
    for (number, requests) in [(0, 10), (1, 10), (2, 10), (3, 11)] {
        let granted = each_refused(alloc, |heap| {
            makes_client_and_sends(alloc, &heap, number, &tag)
        })?;
        assert_eq!(rt; granted, Some(requests));
    }
    Ok(())
}

// Makes a client that cleans texts, and a call with a separator in each of its texts. Returns whether there was memory for
// both.
fn makes_cleaned_call(alloc: Global, heap: &RefusingAllocator<Global>) -> Result<bool, Fail> {
    let calls = make_counter(alloc)?;
    let made = StatsdClient::builder(heap.clone()?, "p:", CountingSink { calls })
        .with_tag("a", "b|c")
        .with_container_id("id")
        .with_cleaned_texts()
        .build();
    match made {
        Ok(client) => {
            let call = client.incr_with_tags("k|").with_tag("d:", "e,f");
            let sent = call.with_container_id("i:d").try_send();
            is_line(&client, sent, "p_.k_:1|c|#a:b_c,d_:e_f|c:i_d")
        }
        Err(error) => is_made::<Client>(Err(error)),
    }
}

// The client takes twelve requests, the cleaned key of the call one, and the line one.
#[test]
fn a_cleaned_call_is_sent_or_refused(rt: HostRuntime) -> Result<(), Fail> {
    let alloc = rt.alloc();
    let granted = each_refused(alloc, |heap| makes_cleaned_call(alloc, &heap))?;
    assert_eq!(rt; granted, Some(14));
    Ok(())
}

// A client with a boxed sink.
type BoxedClient = StatsdClient<RefusingAllocator<Global>>;

// Makes such a client.
fn make_boxed_client(heap: &RefusingAllocator<Global>) -> MetricResult<BoxedClient> {
    let boxed = Box::new(heap.clone()?, NopMetricSink)?;
    let sink: Box<dyn MetricSink + Send + Sync, RefusingAllocator<Global>> = boxed;
    StatsdClient::from_sink(heap.clone()?, "p", sink)
}

// Returns how many requests a plain call makes.
fn requests_of_call(heap: &RefusingAllocator<Global>, client: &BoxedClient) -> MetricResult<u64> {
    let before = heap.left();
    client.count("some.counter", 3)?;
    Ok(before.wrapping_sub(heap.left()))
}

#[test]
fn a_plain_call_takes_its_line_alone(rt: HostRuntime) -> Result<(), Fail> {
    let heap = RefusingAllocator::after(rt.alloc(), rt.alloc(), 99)?;
    let client = make_boxed_client(&heap)?;
    assert_eq!(rt; requests_of_call(&heap, &client)?, 1);
    Ok(())
}
