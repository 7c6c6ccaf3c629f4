//! The builder of an event: the call of a client that begins it, and the calls that a service check doesn't have.
ghost use Rattle.std.specs.Prelude.{◌≡◌, Some};
ghost use Rattle.cadence.specs.Events.{IsBegun, plain_event, with_own};
ghost use Rattle.cadence.specs.Shown.{built_event};

use crate::client::backend::MetricBackend;
use crate::client::handler::ErrorHandler;
use crate::client::lined_builder::LinedBuilder;
use crate::client::statsd_client::StatsdClient;
use cadence_events::{AlertType, Event, Priority};
use cadence_flow::MetricSink;
use std::alloc::Allocator;

/// An event that is being built, by the calls of `LinedBuilder`. A builder has to be sent: code that drops one doesn't compile.
///
/// ```text
/// client
///     .event("Deploy", "version 2.1")
///     .with_alert_type(AlertType::Info)
///     .with_tag("env", "prod")
///     .try_send()?; // _e{6,11}:Deploy|version 2.1|t:info|#env:prod
/// ```
pub type EventBuilder<'m, 'c, C = StatsdClient> = LinedBuilder<'m, 'c, Event<'m>, C>;

impl<A: Allocator + Clone, S: MetricSink, H: ErrorHandler> StatsdClient<A, S, H> {
    /// Returns the builder of an event, to which tags and other options can be added before it is sent. A title has no
    /// prefix. A newline in the title or in the text is escaped. Any other text of the call with a separator is refused,
    /// also by a client that isn't strict, or cleaned by a client that cleans texts.
    pub fn event<'a>(&'a self, title: &'a str, text: &'a str) -> EventBuilder<'a, 'a, Self>
        ensures { IsBegun (plain_event title.now text.now) self.now (built_event result) }
    {
        LinedBuilder::new(self, Event::new(title, text))
    }
}

impl<'m, 'c, C: MetricBackend> LinedBuilder<'m, 'c, Event<'m>, C> {
    /// Sets the aggregation key, in place of an earlier one: a server groups events that have the same one.
    pub fn with_aggregation_key(mut self, key: &'m str) -> Self
        ensures { built_event result ≡
            with_own (λ e. record e { key = Some key.now }) (built_event self.entry) }
    {
        self.own = Event {
            key: Some(key),
            ..self.own
        };
        self
    }

    /// Sets the priority, in place of an earlier one.
    pub fn with_priority(mut self, priority: Priority) -> Self
        ensures { built_event result ≡
            with_own (λ e. record e { priority = Some priority }) (built_event self.entry) }
    {
        self.own = Event {
            priority: Some(priority),
            ..self.own
        };
        self
    }

    /// Sets the source type, in place of an earlier one, for example `jenkins`.
    pub fn with_source_type(mut self, source: &'m str) -> Self
        ensures { built_event result ≡
            with_own (λ e. record e { source = Some source.now }) (built_event self.entry) }
    {
        self.own = Event {
            source: Some(source),
            ..self.own
        };
        self
    }

    /// Sets the alert type, in place of an earlier one.
    pub fn with_alert_type(mut self, alert: AlertType) -> Self
        ensures { built_event result ≡
            with_own (λ e. record e { alert = Some alert }) (built_event self.entry) }
    {
        self.own = Event {
            alert: Some(alert),
            ..self.own
        };
        self
    }
}
