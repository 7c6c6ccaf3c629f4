//! Counts by the keys of a client whose calls make no line.

use crate::arguments::Arguments;
use crate::done::{BlackBox, Done, Note};
use cadence::client::ClientSettings;
use cadence::line::Tag;
use cadence::{MetricResult, NopMetricSink};
use cadence_aggregating::{AggregatedClient, AggregatingMetricSinkBuilder, CounterKey};
use std::alloc::Global;
use std::sync::Wait;
use std::thread::Threads;
use std::time::{Clock, Instant};

// The tags of a call with three tags, which are those of `count_tags`.
const TAGS: &[Tag<'static>] = &[
    Tag {
        key: Some("host"),
        text: "web03.example.com",
    },
    Tag {
        key: Some("region"),
        text: "us-east-2",
    },
    Tag {
        key: None,
        text: "beta",
    },
];

const NO_TAGS: &[Tag<'static>] = &[];

// Makes the keys of `count` counters.
fn make_keys<R: Wait + Drop>(
    alloc: Global,
    client: &AggregatedClient<NopMetricSink, R>,
    count: usize,
    tags: &[Tag<'_>],
) -> MetricResult<Vec<CounterKey>> {
    let mut keys = Vec::with_capacity(alloc, count)?;
    for i in 0..count {
        let name = format!(in alloc; "some.counte{i}")?;
        keys.push(client.counter_key(&name, tags)?)?;
    }
    Ok(keys)
}

/// Counts by `size` keys in turns, over a sink that does nothing. All counters are held until the end.
pub fn count<R: Clock + Wait + Threads + Clone + Drop + Send + Sync + 'static>(
    rt: &R,
    alloc: Global,
    arguments: &Arguments,
    tagged: bool,
) -> MetricResult<Done> {
    let size = arguments.size.max(1);
    let settings = ClientSettings::new(alloc, "some.prefix")?;
    let client = AggregatingMetricSinkBuilder::new()
        .with_max_contexts(size)
        .build_client(rt.clone()?, alloc, settings, NopMetricSink)?;
    let keys = make_keys(alloc, &client, size, if tagged { TAGS } else { NO_TAGS })?;
    let hidden = BlackBox::new();
    let mut at = 0usize;
    let start = Instant::now(rt)?;
    for i in 0..arguments.calls {
        if let Some(key) = keys.get(at) {
            client.count(key, hidden.hide((i % 1000) as i64, 0))?;
        }
        at = at.wrapping_add(1);
        if at >= size {
            at = 0;
        }
    }
    client.flush()?;
    Ok(Done {
        time: start.elapsed(rt)?,
        check: 0,
        note: Note::Nothing,
    })
}
