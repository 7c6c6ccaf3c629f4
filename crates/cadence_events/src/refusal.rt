//! Why the line of an event or of a service check was not made.
//!
//! A bar ends a field, a comma a tag, and a newline the line. The format has no escape for them, so a text with one of
//! them would say something else to a server. The test is that of a strict client, which also refuses a colon anywhere
//! but in the text of a tag with a key.
ghost use Rattle.std.specs.Prelude.{◌≡◌};
ghost use Rattle.std.specs.Option.{option_copied};
ghost use Rattle.cadence_events.specs.Refusals.{has_no_bar};

use cadence_errors::{InputError, Reason};
use std::fmt;

/// Which text of an event or of a service check was refused, because no line can have it. Each kind of text but
/// `Message` is refused if it has a colon, a comma, a bar or a newline. Only the text of a tag with a key may have
/// colons.
#[derive(Clone, Copy, Debug, PartialEq, Eq)]
pub enum Unfit {
    /// The name of a service check.
    Name,
    /// The host.
    Host,
    /// The aggregation key of an event.
    AggregationKey,
    /// The source type of an event.
    SourceType,
    /// The key or the text of a tag, other than by a colon after the key.
    Tags,
    /// The id of the container.
    Container,
    /// The message of a service check, which has a bar.
    Message,
}

/// Why a line was not made: `Unusable` with the first text that can't stand in it, or `OutOfMemory`. It is
/// `OutOfMemory` also if the length of the line passes `usize::MAX`.
pub type LineError = InputError<Unfit>;

impl Reason for Unfit {
    ghost use Rattle.std.specs.Prelude.{Some};
    ghost use Rattle.cadence_events.specs.Refusals.{unfit_text};

    ghost said = { λ unfit. Some (unfit_text unfit) };

    fn message(self) -> &'static str {
        match self {
            Unfit::Name => "separator in the name of a service check",
            Unfit::Host => "separator in the host",
            Unfit::AggregationKey => "separator in the aggregation key",
            Unfit::SourceType => "separator in the source type",
            Unfit::Tags => "separator in a tag",
            Unfit::Container => "separator in the container",
            Unfit::Message => "bar in the message of a service check",
        }
    }
}

/// Prints the text of the reason.
impl fmt::Display for Unfit {
    fn fmt<W: fmt::Write>(&self, f: &mut fmt::Formatter<W>) -> fmt::Result {
        f.write_str(self.message())
    }
}

/// Returns whether a message has no bar, if there is a message.
pub(crate) fn is_without_bar(message: Option<&str>) -> bool
    ensures { result ≡ has_no_bar (option_copied message.entry) }
{
    match message {
        Some(message) => !message.as_bytes().contains(&b'|'),
        None => true,
    }
}
