//! Clients with the settings of rows.
use crate::rows::unreadable;
use cadence::Cardinality;
use cadence::client::{ErrorHandler, StatsdClient, StatsdClientBuilder};
use cadence::sinks::{MetricSink, SpyMetricSink};
use cadence::types::{MetricError, MetricResult};
use std::alloc::Global;
use std::sync::Wait;

/// A handler that gives the text of each error to a spy.
#[derive(Drop)]
pub struct NotingHandler<R: Wait + Drop> {
    alloc: Global,
    notes: SpyMetricSink<R>,
}

impl<R: Wait + Drop> ErrorHandler for NotingHandler<R> {
    fn handle(&self, error: MetricError) {
        if let Ok(text) = format!(in self.alloc; "{error}") {
            let _ = self.notes.emit(&text);
        }
    }
}

/// A client over a spy, with such a handler.
pub type Client<R> = StatsdClient<Global, SpyMetricSink<R>, NotingHandler<R>>;

type Builder<R> = StatsdClientBuilder<Global, SpyMetricSink<R>, NotingHandler<R>>;

// Adds a setting: `tag K=V`, `tag V`, `container ID`, `external TEXT`, `cardinality WORD`, `strict texts` or `cleaned
// texts`.
fn choose<R: Wait + Clone + Drop>(builder: Builder<R>, name: &str, text: &str) -> Builder<R> {
    match (name, text.split_once('=')) {
        ("tag", Some((key, text))) => builder.with_tag(key, text),
        ("container", _) => builder.with_container_id(text),
        ("external", _) => builder.with_external_data(text),
        ("cardinality", _) => match Cardinality::from_text(text) {
            Some(cardinality) => builder.with_cardinality(cardinality),
            None => builder.with_tag_value(text),
        },
        ("strict", _) => builder.with_strict_texts(),
        ("cleaned", _) => builder.with_cleaned_texts(),
        _ => builder.with_tag_value(text),
    }
}

// Adds pairs of a setting's name and its text, and makes the client.
fn build<R: Wait + Clone + Drop>(
    mut builder: Builder<R>,
    settings: &[String],
) -> MetricResult<Client<R>> {
    for pair in settings.chunks(2) {
        if let [name, text] = pair {
            builder = choose(builder, name, text);
        }
    }
    builder.build()
}

/// Makes a client from the words `client PREFIX`, and pairs of a setting's name and its text. Its sink and its handler
/// are these spies.
pub fn make_client<R: Wait + Clone + Drop>(
    alloc: Global,
    words: &[String],
    sink: SpyMetricSink<R>,
    notes: SpyMetricSink<R>,
) -> MetricResult<Client<R>> {
    let [_client, prefix, settings @ ..] = words else {
        return Err(unreadable());
    };
    let handler = NotingHandler { alloc, notes };
    let builder = StatsdClient::builder(alloc, prefix, sink).with_handler(handler);
    build(builder, settings)
}
