//! The builder of a client, and the client's constructors.
ghost use Rattle.std.specs.Prelude.{◌≡◌, Err, IfErr, IfOk, true};
ghost use Rattle.std.specs.Option.{option_copied};
ghost use Rattle.cadence_errors.specs.Errors.{Makes, MayOnlyRunOutOfMemory};
ghost use Rattle.cadence_text.specs.Metric.{keyed, unkeyed};
ghost use Rattle.cadence_settings.specs.Settings.{allows_text, is_clear_settings, with_cleaned_texts, with_default_cardinality, with_default_container, with_external, with_strict_texts};
ghost use Rattle.cadence_text.specs.FreeTexts.{is_field_text};

use crate::client::handler::{BoxedErrorHandler, BoxedHandler, ErrorHandler, NopErrorHandler};
use crate::client::statsd_client::{BoxedSink, StatsdClient};
use cadence_errors::MetricResult;
use cadence_flow::MetricSink;
use cadence_settings::ClientSettings;
use cadence_text::line::Cardinality;
use std::alloc::{Allocator, Global};

/// Makes a client. After an error the later calls change nothing, and `build` returns the error.
///
/// ```text
/// let client = StatsdClient::builder(alloc, "my.service", sink)
///     .with_tag("env", "prod")
///     .with_handler(handler)
///     .build()?;
/// ```
#[derive(Drop)]
pub struct StatsdClientBuilder<
    A: Allocator = Global,
    S: MetricSink = BoxedSink<A>,
    H: ErrorHandler = NopErrorHandler,
> {
    pub(crate) settings: MetricResult<ClientSettings<A>>,
    pub(crate) sink: S,
    pub(crate) handler: H,
}

impl<A: Allocator + Clone, S: MetricSink, H: ErrorHandler> StatsdClientBuilder<A, S, H> {
    ghost use Rattle.cadence.specs.Shown.{settings_of_builder, sink_of_builder, handler_of_builder, box_of_handler, AddsDefault, AddsDefaultTag, IsBuiltFrom};

    // Adds a default tag. After an error there are no settings.
    fn add_tag(&mut self, key: Option<&str>, text: &str)
        ensures { AddsDefaultTag (record { key = option_copied key.entry; text = text.now })
            self.old self.new }
    {
        if let Ok(settings) = &mut self.settings {
            if let Err(error) = settings.add_tag(key, text) {
                self.settings = Err(error);
            }
        }
    }

    /// Sets a boxed closure as the handler, in place of an earlier handler. It receives the errors of `send` and
    /// `consume_error`.
    pub fn with_error_handler(
        self,
        handler: BoxedHandler<A>,
    ) -> StatsdClientBuilder<A, S, BoxedErrorHandler<A>>
        requires { IsAlwaysCallable handler }
        ensures handler { box_of_handler (handler_of_builder result) ≡ handler }
        ensures settings { settings_of_builder result ≡ settings_of_builder self }
        ensures sink { sink_of_builder result ≡ sink_of_builder self }
    {
        self.with_handler(BoxedErrorHandler::new(handler))
    }

    /// Sets a handler of any type, in place of an earlier one.
    pub fn with_handler<G: ErrorHandler>(self, handler: G) -> StatsdClientBuilder<A, S, G>
        ensures handler { handler_of_builder result ≡ handler }
        ensures settings { settings_of_builder result ≡ settings_of_builder self }
        ensures sink { sink_of_builder result ≡ sink_of_builder self }
    {
        StatsdClientBuilder {
            settings: self.settings,
            sink: self.sink,
            handler,
        }
    }

    /// Adds a tag with a key to each call, after the earlier default tags.
    pub fn with_tag(mut self, key: &str, value: &str) -> Self
        ensures { AddsDefaultTag (keyed key.now value.now) self result }
    {
        self.add_tag(Some(key), value);
        self
    }

    /// Adds a tag without a key to each call, after the earlier default tags.
    pub fn with_tag_value(mut self, value: &str) -> Self
        ensures { AddsDefaultTag (unkeyed value.now) self result }
    {
        self.add_tag(None, value);
        self
    }

    /// Sets the container of each call that doesn't set its own, in place of an earlier default.
    pub fn with_container_id(mut self, container_id: &str) -> Self
        ensures { AddsDefault (λ s. allows_text s container_id.now)
            (λ s. with_default_container s container_id.now) self result }
    {
        if let Ok(settings) = &mut self.settings {
            if let Err(error) = settings.set_container(container_id) {
                self.settings = Err(error);
            }
        }
        self
    }

    /// Sets the external data of each line, in place of earlier ones: the value of the variable `DD_EXTERNAL_ENV`, by which
    /// a Datadog agent finds the container and the pod of the process. If the text has a bar or a newline, `build` returns
    /// an error of kind `InvalidInput`, also if the client isn't strict.
    pub fn with_external_data(mut self, external: &str) -> Self
        ensures { AddsDefault (λ _. is_field_text external.now)
            (λ s. with_external s external.now) self result }
    {
        if let Ok(settings) = &mut self.settings {
            if let Err(error) = settings.set_external(external) {
                self.settings = Err(error);
            }
        }
        self
    }

    /// Sets the cardinality of each call that doesn't set its own, in place of an earlier default: which tags of the
    /// container a Datadog agent adds.
    pub fn with_cardinality(mut self, cardinality: Cardinality) -> Self
        ensures { AddsDefault (λ _. true)
            (λ s. with_default_cardinality s cardinality) self result }
    {
        if let Ok(settings) = &mut self.settings {
            settings.set_cardinality(cardinality);
        }
        self
    }

    /// Makes the client strict: it refuses each call that has a colon, a comma, a bar or a newline in its key, a tag or
    /// the container, with the kind `InvalidInput`. The text of a tag with a key may have colons, as in
    /// `url:http://x`, because the first colon ends the key. So no text of such a call can make or change another
    /// metric. The text of `send_metric` is sent as it is. If the prefix or a default has a separator that is not
    /// allowed there, `build` returns this error.
    pub fn with_strict_texts(mut self) -> Self
        ensures { AddsDefault is_clear_settings with_strict_texts self result }
    {
        if let Ok(settings) = &mut self.settings {
            if let Err(error) = settings.set_strict() {
                self.settings = Err(error);
            }
        }
        self
    }

    /// Makes a client that cleans texts, in place of a strict one: it sends an underscore in place of each colon, comma, bar
    /// and newline in a key, a tag or a container, so that no text of a call can make or change another metric. Colons
    /// stay in the text of a tag with a key, as in `url:http://x`, because the first colon ends the key. The prefix and the
    /// defaults are cleaned too, and so is each text for which an event or a service check would be refused. The text of
    /// `send_metric` is sent as it is, and a member of a set is never cleaned.
    pub fn with_cleaned_texts(mut self) -> Self
        ensures { AddsDefault (λ _. true) with_cleaned_texts self result }
    {
        if let Ok(settings) = &mut self.settings {
            if let Err(error) = settings.set_cleaned() {
                self.settings = Err(error);
            }
        }
        self
    }

    /// Makes the client, or returns the first error of the earlier calls: `OutOfMemory`, or `InvalidInput` if a strict
    /// client got a separator. The sink and the handler are dropped then.
    pub fn build(self) -> MetricResult<StatsdClient<A, S, H>>
        ensures ok { IfOk result (IsBuiltFrom self) }
        ensures refused { IfErr result (λ e. settings_of_builder self ≡ Err e) }
    {
        Ok(StatsdClient {
            settings: self.settings?,
            sink: self.sink,
            handler: self.handler,
        })
    }
}

impl<A: Allocator + Clone, S: MetricSink> StatsdClient<A, S> {
    ghost use Rattle.cadence.specs.Shown.{settings_of_client, sink_of_client, settings_of_builder, sink_of_builder};
    ghost use Rattle.cadence_settings.specs.Settings.{settings_of};

    /// Makes a client with a prefix and a sink, without defaults. It drops the errors of `send`. The only error has the
    /// kind `OutOfMemory`; the sink is dropped then.
    pub fn from_sink(alloc: A, prefix: &str, sink: S) -> MetricResult<StatsdClient<A, S>>
        ensures settings { IfOk result (λ c. settings_of_client c ≡ settings_of prefix.now) }
        ensures sink { IfOk result (λ c. sink_of_client c ≡ sink) }
        ensures refused { MayOnlyRunOutOfMemory result }
    {
        StatsdClient::builder(alloc, prefix, sink).build()
    }

    /// Returns the builder of a client with a prefix and a sink. Each key gets the prefix and a dot in front; dots at
    /// the end of the prefix are dropped. An empty prefix adds nothing.
    pub fn builder(alloc: A, prefix: &str, sink: S) -> StatsdClientBuilder<A, S>
        ensures settings { Makes (settings_of prefix.now) (settings_of_builder result) }
        ensures sink { sink_of_builder result ≡ sink }
    {
        StatsdClientBuilder {
            settings: ClientSettings::new(alloc, prefix),
            sink,
            handler: NopErrorHandler,
        }
    }
}
