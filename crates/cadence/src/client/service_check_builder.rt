//! The builder of a service check: the call of a client that begins it, and the call that an event doesn't have.
ghost use Rattle.std.specs.Prelude.{◌≡◌, Some};
ghost use Rattle.cadence.specs.Events.{IsBegun, plain_check, with_own};
ghost use Rattle.cadence.specs.Shown.{built_check};

use crate::client::backend::MetricBackend;
use crate::client::handler::ErrorHandler;
use crate::client::lined_builder::LinedBuilder;
use crate::client::statsd_client::StatsdClient;
use cadence_events::{ServiceCheck, ServiceStatus};
use cadence_flow::MetricSink;
use std::alloc::Allocator;

/// A service check that is being built, by the calls of `LinedBuilder`. A builder has to be sent: code that drops one doesn't compile.
///
/// ```text
/// client
///     .service_check("web", ServiceStatus::Critical)
///     .with_message("no answer")
///     .try_send()?; // _sc|web|2|m:no answer
/// ```
pub type ServiceCheckBuilder<'m, 'c, C = StatsdClient> = LinedBuilder<'m, 'c, ServiceCheck<'m>, C>;

impl<A: Allocator + Clone, S: MetricSink, H: ErrorHandler> StatsdClient<A, S, H> {
    /// Returns the builder of a service check, to which tags and other options can be added before it is sent. A name has
    /// no prefix. A newline in the message and an `m:` in it are escaped. A message with a bar is refused, and so is any
    /// other text of the call with a separator, also by a client that isn't strict. A client that cleans texts sends an
    /// underscore in place of the bar or separator.
    pub fn service_check<'a>(
        &'a self,
        name: &'a str,
        status: ServiceStatus,
    ) -> ServiceCheckBuilder<'a, 'a, Self>
        ensures { IsBegun (plain_check name.now status) self.now (built_check result) }
    {
        LinedBuilder::new(self, ServiceCheck::new(name, status))
    }
}

impl<'m, 'c, C: MetricBackend> LinedBuilder<'m, 'c, ServiceCheck<'m>, C> {
    /// Sets why the service is in this state, in place of an earlier message.
    pub fn with_message(mut self, message: &'m str) -> Self
        ensures { built_check result ≡
            with_own (λ c. record c { message = Some message.now }) (built_check self.entry) }
    {
        self.own = ServiceCheck {
            message: Some(message),
            ..self.own
        };
        self
    }
}
