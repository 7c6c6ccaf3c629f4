//! The options that have a value, and what is wrong with such an option.
use cadence_words::Subject;
use std::fmt;

/// An option of the command line that has a value.
#[derive(Clone, Copy, Debug, PartialEq, Eq)]
pub enum Setting {
    /// The place to which packets are sent.
    To,
    /// The prefix of all names.
    Prefix,
    /// A default tag.
    Tag,
    /// The container.
    Container,
    /// Which tags of the container a Datadog agent adds.
    Cardinality,
    /// The time in seconds since 1970.
    Time,
    /// The sampling rate that each line says.
    Rate,
    /// The chance with which a line is sent. It is also added to each line that is sent, as the sampling rate.
    Sample,
    /// The capacity of a packet in bytes.
    Capacity,
    /// The most milliseconds that buffered lines wait.
    FlushEvery,
    /// The most milliseconds that packets wait for room at a Unix socket.
    Wait,
    /// The host of an event or of a service check.
    Host,
    /// The aggregation key of an event.
    AggregationKey,
    /// The priority of an event.
    Priority,
    /// The source type of an event.
    Source,
    /// The alert type of an event.
    Alert,
    /// The message of a service check.
    Message,
}

impl Setting {
    /// All settings.
    pub const ALL: [Setting; 17] = [
        Setting::To,
        Setting::Prefix,
        Setting::Tag,
        Setting::Container,
        Setting::Cardinality,
        Setting::Time,
        Setting::Rate,
        Setting::Sample,
        Setting::Capacity,
        Setting::FlushEvery,
        Setting::Wait,
        Setting::Host,
        Setting::AggregationKey,
        Setting::Priority,
        Setting::Source,
        Setting::Alert,
        Setting::Message,
    ];

    /// Returns the name of the option, without its dashes.
    pub fn name(self) -> &'static str {
        match self {
            Setting::To => "to",
            Setting::Prefix => "prefix",
            Setting::Tag => "tag",
            Setting::Container => "container",
            Setting::Cardinality => "cardinality",
            Setting::Time => "time",
            Setting::Rate => "rate",
            Setting::Sample => "sample",
            Setting::Capacity => "capacity",
            Setting::FlushEvery => "flush-every",
            Setting::Wait => "wait",
            Setting::Host => "host",
            Setting::AggregationKey => "aggregation-key",
            Setting::Priority => "priority",
            Setting::Source => "source",
            Setting::Alert => "alert",
            Setting::Message => "message",
        }
    }

    // Returns what the value of the option has to be, with an example.
    fn wanted(self) -> &'static str {
        match self {
            Setting::To => "HOST:PORT or unix:PATH, as in --to 127.0.0.1:8125",
            Setting::Prefix => {
                "a name without colons, commas and bars, as in --prefix my.service"
            }
            Setting::Tag => "K:V or V, as in --tag env:live",
            Setting::Container => "an id, as in --container 9f2c",
            Setting::Cardinality => "none, low, orchestrator or high, as in --cardinality low",
            Setting::Time => "seconds since 1970, as in --time 1700000000",
            Setting::Rate => "a number above 0, as in --rate 0.1",
            Setting::Sample => {
                "a number above 0 and at most 1 with at most 18 decimal places, as in --sample 0.1"
            }
            Setting::Capacity => "a number of bytes, as in --capacity 512",
            Setting::FlushEvery => "a number of milliseconds, as in --flush-every 1000",
            Setting::Wait => "a number of milliseconds, as in --wait 1000",
            Setting::Host => {
                "a name without colons, commas, bars and newlines, as in --host web-1"
            }
            Setting::AggregationKey => {
                "a text without colons, commas, bars and newlines, as in --aggregation-key deploy"
            }
            Setting::Priority => "low or normal, as in --priority low",
            Setting::Source => {
                "a text without colons, commas, bars and newlines, as in --source jenkins"
            }
            Setting::Alert => "error, warning, info or success, as in --alert error",
            Setting::Message => "a text without bars, as in --message 'no answer'",
        }
    }

    // Returns whether the option can be used with words that ask for this.
    pub(crate) fn is_for(self, subject: Subject) -> bool {
        match self {
            Setting::Cardinality | Setting::Rate | Setting::Sample => subject == Subject::Metric,
            Setting::Host => subject != Subject::Metric,
            Setting::AggregationKey | Setting::Priority | Setting::Source | Setting::Alert => {
                subject == Subject::Event
            }
            Setting::Message => subject == Subject::ServiceCheck,
            _ => true,
        }
    }
}

/// An option that can't have its value. Its text says what the value has to be.
#[derive(Clone, Copy, Debug, PartialEq, Eq)]
pub struct OptionError<'a> {
    /// The option.
    pub setting: Setting,
    /// The value.
    pub value: &'a str,
}

/// What is wrong with the value, and how the option is used.
impl fmt::Display for OptionError<'_> {
    fn fmt<W: fmt::Write>(&self, f: &mut fmt::Formatter<W>) -> fmt::Result {
        let (value, option, wanted) = (self.value, self.setting.name(), self.setting.wanted());
        write!(f, "--{option} {value}: wants {wanted}")
    }
}

/// An option that can't be used with words that ask for this.
#[derive(Clone, Copy, Debug, PartialEq, Eq)]
pub struct Misplaced {
    /// The option.
    pub setting: Setting,
    /// What the words ask for.
    pub subject: Subject,
}

impl fmt::Display for Misplaced {
    fn fmt<W: fmt::Write>(&self, f: &mut fmt::Formatter<W>) -> fmt::Result {
        let subject = match self.subject {
            Subject::Metric => "a metric",
            Subject::Event => "an event",
            Subject::ServiceCheck => "a service check",
        };
        write!(f, "--{} can't be used with {subject}", self.setting.name())
    }
}
