//! An event or a service check that is being built, and the calls that both have.
ghost use Rattle.std.specs.Prelude.{◌≡◌, Some};
ghost use Rattle.std.specs.Option.{option_copied};
ghost use Rattle.cadence_text.specs.Metric.{keyed, unkeyed};
ghost use Rattle.cadence.specs.Events.{AddsTag, IsBegun, SendsBuilt, with_common};
ghost use Rattle.cadence.specs.Shown.{built};

use crate::client::backend::{CallBackend, MetricBackend};
use crate::client::sending::Line;
use crate::client::statsd_client::StatsdClient;
use cadence_errors::{MetricError, MetricResult};
use cadence_events::{Common, LineError, Lined, line_with};
use cadence_text::line::Tag;

/// An event (`EventBuilder`) or a service check (`ServiceCheckBuilder`) that is being built. A builder has to be sent: code
/// that drops one doesn't compile.
pub struct LinedBuilder<'m, 'c, L: Lined, C: MetricBackend = StatsdClient> {
    // The event or the service check. Its common fields are not used.
    pub(super) own: L,
    // The fields in place of these, but the tags.
    common: Common<'m>,
    // The builder's own tags, or `None` if memory ran out for one.
    tags: Option<Vec<Tag<'m>, C::Memory>>,
    client: &'c C,
}

impl<'m, 'c, L: Lined, C: MetricBackend> LinedBuilder<'m, 'c, L, C> {
    // Adds a tag. If memory runs out, the builder has no tags any more.
    fn add_tag(&mut self, key: Option<&'m str>, text: &'m str)
        ensures { AddsTag (record { key = option_copied key.entry; text = text.now })
            (built self.old) (built self.new) }
    {
        if let Some(tags) = &mut self.tags {
            if tags.push(Tag { key, text }).is_err() {
                self.tags = None;
            }
        }
    }

    /// Adds a tag with a key, after the client's default tags and the earlier ones. `try_send` returns an error if memory
    /// runs out.
    pub fn with_tag(mut self, key: &'m str, value: &'m str) -> Self
        ensures { AddsTag (keyed key.now value.now) (built self.entry) (built result) }
    {
        self.add_tag(Some(key), value);
        self
    }

    /// Adds a tag without a key, after the client's default tags and the earlier ones. `try_send` returns an error if memory
    /// runs out.
    pub fn with_tag_value(mut self, value: &'m str) -> Self
        ensures { AddsTag (unkeyed value.now) (built self.entry) (built result) }
    {
        self.add_tag(None, value);
        self
    }

    /// Sets when the event happened, or when the service was in its state, in seconds since 1970, in place of an earlier
    /// time.
    pub fn with_timestamp(mut self, timestamp: u64) -> Self
        ensures { built result ≡
            with_common (λ c. record c { time = Some timestamp }) (built self.entry) }
    {
        self.common = Common {
            time: Some(timestamp),
            ..self.common
        };
        self
    }

    /// Sets the name of the host, in place of an earlier one.
    pub fn with_hostname(mut self, hostname: &'m str) -> Self
        ensures { built result ≡
            with_common (λ c. record c { host = Some hostname.now }) (built self.entry) }
    {
        self.common = Common {
            host: Some(hostname),
            ..self.common
        };
        self
    }

    /// Sets the container, in place of the client's default one or an earlier one.
    pub fn with_container_id(mut self, container_id: &'m str) -> Self
        ensures { built result ≡
            with_common (λ c. record c { container = Some container_id.now }) (built self.entry) }
    {
        self.common = Common {
            container: Some(container_id),
            ..self.common
        };
        self
    }
}

impl<'m, 'c, L: Lined, C: CallBackend> LinedBuilder<'m, 'c, L, C> {
    // Returns the builder of an event or of a service check.
    pub(super) fn new(client: &'c C, own: L) -> Self
        ensures { IsBegun own client.now (built result) }
    {
        LinedBuilder {
            own,
            common: Common {
                time: None,
                host: None,
                tags: &[],
                container: None,
            },
            tags: client.client_settings().empty_tags().ok(),
            client,
        }
    }

    /// Sends the line. The client's default tags come before the builder's own tags. If the builder has no container, the
    /// line has the client's default container. A client that cleans texts sends an underscore in place of each separator
    /// for which a text of the call would be refused.
    ///
    /// # Errors
    /// If texts of the call can't stand in the line, and the client doesn't clean them, an error of kind `InvalidInput`
    /// that names the first of them (`refusal` of `Event` and of `ServiceCheck` in `cadence_events`). The client's
    /// defaults are not tested. If memory runs out, `OutOfMemory`. Nothing is sent in both cases. Any other error is the
    /// sink's, as `MetricError::Sink`.
    pub fn try_send(self) -> MetricResult<()>
        ensures { SendsBuilt C.settings C.line_may_get L.refused L.spelled (built self.entry)
            result }
    {
        let LinedBuilder {
            own,
            common,
            tags,
            client,
        } = self;
        let Some(tags) = tags else {
            return Err(MetricError::from(LineError::OutOfMemory));
        };
        let common = Common {
            tags: &tags,
            ..common
        };
        let settings = client.client_settings();
        let is_cleaned = settings.is_cleaned();
        // Before memory is taken, so that the texts alone decide.
        if let Some(why) = own.refusal_with(&common, is_cleaned) {
            return Err(MetricError::from(LineError::Unusable(why)));
        }
        let (defaults, container) = (settings.default_tags_text(), settings.default_container());
        let alloc = tags.allocator().clone()?;
        let line = line_with(alloc, &own, &common, defaults, container, is_cleaned)?;
        client.send_metric(&Line { text: &line })
    }

    /// Sends the line, and gives an error to the client's handler. The errors are those of `try_send`. If the client has
    /// no handler, the error is dropped.
    pub fn send(self) {
        let client = self.client;
        if let Err(e) = self.try_send() {
            client.consume_error(e);
        }
    }
}
