//! The builder of a client that has the tags of the environment.
ghost use Rattle.std.specs.Prelude.{◌≡◌, List, map};
ghost use Rattle.cadence.specs.Shown.{AddsDefaultTag, settings_of_builder, sink_of_builder};
ghost use Rattle.cadence_agent.specs.Shown.{with_tags};
ghost use Rattle.cadence_environment.specs.Shown.{tags_of};
ghost use Rattle.cadence_errors.specs.Errors.{Makes};
ghost use Rattle.cadence_settings.specs.Settings.{settings_of};
ghost use Rattle.cadence_text.specs.Metric.{Tag};
ghost use Rattle.cadence_text.specs.Owned.{tag_of_owned};
ghost use Rattle.cadence_text.specs.Record.{tag_of};

use cadence::client::{StatsdClient, StatsdClientBuilder};
use cadence_environment::Environment;
use cadence_flow::MetricSink;
use cadence_text::line::{OwnedTag, Tag, lend_tag};
use std::alloc::Allocator;

// Adds a default tag to the builder of a client.
fn with_default<A: Allocator + Clone, S: MetricSink>(
    builder: StatsdClientBuilder<A, S>,
    tag: Tag<'_>,
) -> StatsdClientBuilder<A, S>
    ensures { AddsDefaultTag (tag_of tag.entry) builder result }
{
    match tag.key {
        Some(key) => builder.with_tag(key, tag.text),
        None => builder.with_tag_value(tag.text),
    }
}

// Returns the builder of a client with these default tags.
fn builder_with<A: Allocator + Clone, B: Allocator, S: MetricSink>(
    alloc: A,
    prefix: &str,
    sink: S,
    tags: &[OwnedTag<B>],
) -> StatsdClientBuilder<A, S>
    ensures settings { Makes (with_tags (settings_of prefix.now) (map tag_of_owned tags.now))
        (settings_of_builder result) }
    ensures sink { sink_of_builder result ≡ sink }
{
    let mut builder = StatsdClient::builder(alloc, prefix, sink);
    for tag in tags {
        builder = with_default(builder, lend_tag(tag));
    }
    builder
}

/// Adds a method to `Environment` that returns the builder of a client with the tags of the environment.
///
/// ```text
/// let environment = Environment::read(&(rt, alloc))?;
/// let sink = sink_to(rt, alloc, environment.destination())?;
/// let client = environment.builder(alloc, "my.service", sink).build()?;
/// ```
pub trait EnvironmentExt {
    /// The tags that the environment says, in order.
    ghost tags: { Self → List Tag };

    /// Returns the builder of a client with a prefix and a sink, which has the tags of the environment as its first
    /// default tags. The only error that it may have already is `OutOfMemory`.
    fn builder<A: Allocator + Clone, S: MetricSink>(
        &self,
        alloc: A,
        prefix: &str,
        sink: S,
    ) -> StatsdClientBuilder<A, S>
        ensures settings { Makes (with_tags (settings_of prefix.now) (tags self.now))
            (settings_of_builder result) }
        ensures sink { sink_of_builder result ≡ sink };
}

impl<B: Allocator> EnvironmentExt for Environment<B> {
    ghost tags = { λ environment. tags_of environment };

    fn builder<A: Allocator + Clone, S: MetricSink>(
        &self,
        alloc: A,
        prefix: &str,
        sink: S,
    ) -> StatsdClientBuilder<A, S> {
        builder_with(alloc, prefix, sink, self.tags())
    }
}
