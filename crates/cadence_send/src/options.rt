//! The options of the command line, and what they add to each metric.
ghost use Rattle.std.specs.Prelude.{◌≡◌, IfSome, None, OnOk};
ghost use Rattle.cadence_send.specs.Target.{IsTarget, SaysDestination, SaysWhere};

use crate::setting::{Misplaced, OptionError, Setting};
use cadence_environment::read_port;
use cadence_errors::{InputError, MetricError};
use cadence_flow::io::DEFAULT_CAPACITY;
use cadence_settings::ClientSettings;
use cadence_text::line::{Cardinality, OwnedTag, Tag, lend_tag};
use cadence_value::chance::Chance;
use cadence_value::decimal::Decimal;
use cadence_value::spelled::read_spelled;
use cadence_words::{Defaults, Fields, Subject, is_word, read_alert, read_priority, read_tag};
use std::alloc::Allocator;

/// The place to which packets are sent.
#[derive(Clone, Copy, Debug, PartialEq, Eq)]
pub enum Destination<'a> {
    /// A host and a port, as HOST:PORT.
    Host(&'a str),
    /// The path of a Unix socket. It is not empty. Whether it can be used was not checked.
    Unix(&'a str),
}

/// The options of the command line.
#[derive(Drop)]
pub struct Options<'a, A: Allocator> {
    /// The place to which packets are sent.
    pub to: Option<Destination<'a>>,
    /// The prefix of all names.
    pub prefix: &'a str,
    /// The default tags, in order.
    pub tags: Vec<Tag<'a>, A>,
    /// The container.
    pub container: Option<&'a str>,
    /// Which tags of the container a Datadog agent adds.
    pub cardinality: Option<Cardinality>,
    /// The time in seconds since 1970.
    pub time: Option<u64>,
    /// What an event or a service check has besides.
    pub fields: Fields<'a>,
    /// The sampling rate that each line says.
    pub rate: Option<Decimal>,
    /// The chance with which a line is sent. Without one every line is.
    pub sample: Option<Chance>,
    /// The capacity of a packet in bytes.
    pub capacity: usize,
    /// The most milliseconds that buffered lines wait for more input.
    pub flush_every: Option<u64>,
    /// Whether lines are added up before they are packed.
    pub is_adding_up: bool,
    /// Whether the settings are strict, so that they refuse each text that has a separator, other than a colon after the
    /// key of a tag.
    pub is_strict: bool,
    /// Whether the settings clean texts: then an underscore replaces each separator in a name, a tag, the prefix, the
    /// container and the fields of an event or a service check. This has to be set before any of these is. The settings
    /// are not strict then.
    pub is_cleaning: bool,
    /// Whether packets are printed instead of sent.
    pub is_printing: bool,
    /// The most milliseconds that packets wait for room at a Unix socket.
    pub wait: Option<u64>,
    /// Whether a packet is dropped if a Unix socket has no room for it, instead of waiting for room.
    pub is_dropping: bool,
}

// Reads a whole number.
fn read_whole(value: &str) -> Option<u64> {
    let number = read_spelled(value)?;
    if number.places() > 0 {
        return None;
    }
    u64::try_from(number.mantissa()).ok()
}

// Reads a number above 0.
fn read_positive(value: &str) -> Option<Decimal> {
    read_spelled(value).filter(|number| number.mantissa() > 0)
}

// Reads a name, or an id.
fn read_word(value: &str) -> Option<&str> {
    if is_word(value) { Some(value) } else { None }
}

// Reads a name or an id. One with a separator is refused if it is not cleaned later.
fn read_word_for(value: &str, is_cleaned: bool) -> Option<&str> {
    if is_cleaned && !value.is_empty() {
        return Some(value);
    }
    read_word(value)
}

// Returns the tag that a text is. The first colon ends its key.
fn split_tag(text: &str) -> Tag<'_> {
    match text.split_once(':') {
        Some((key, text)) => Tag {
            key: Some(key),
            text,
        },
        None => Tag { key: None, text },
    }
}

// Reads a tag. One with a comma, a bar or a newline is refused if it is not cleaned later.
fn read_tag_for(value: &str, is_cleaned: bool) -> Option<Tag<'_>> {
    if is_cleaned && !value.is_empty() {
        return Some(split_tag(value));
    }
    read_tag(value)
}

// Reads the message of a service check. An empty one is left out. One with a bar is refused if it is not cleaned later.
fn read_message(value: &str, is_cleaned: bool) -> Option<Option<&str>> {
    if !is_cleaned && value.as_bytes().contains(&b'|') {
        return None;
    }
    Some(if value.is_empty() { None } else { Some(value) })
}

// Returns these fields of an event or of a service check with the value of this option, whose separators may be cleaned
// later.
fn with_field<'a>(
    fields: Fields<'a>,
    setting: Setting,
    value: &'a str,
    is_cleaned: bool,
) -> Option<Fields<'a>> {
    let mut fields = fields;
    match setting {
        Setting::Host => fields.host = Some(read_word_for(value, is_cleaned)?),
        Setting::AggregationKey => fields.key = Some(read_word_for(value, is_cleaned)?),
        Setting::Priority => fields.priority = Some(read_priority(value)?),
        Setting::Source => fields.source = Some(read_word_for(value, is_cleaned)?),
        Setting::Alert => fields.alert = Some(read_alert(value)?),
        Setting::Message => fields.message = read_message(value, is_cleaned)?,
        _ => return None,
    }
    Some(fields)
}

// Reads HOST:PORT.
fn read_target(value: &str) -> Option<&str>
    ensures target { IfSome result (λ text. IsTarget text.now) }
    ensures same { IfSome result (λ text. text.now ≡ value.now) }
{
    if let Some((host, port)) = value.rsplit_once(':') {
        if !host.is_empty() && read_port(port).is_some() {
            return Some(value);
        }
    }
    None
}

// Reads HOST:PORT or udp://HOST:PORT.
fn read_host(value: &str) -> Option<Destination<'_>>
    ensures { IfSome result (SaysDestination value.now) }
{
    let text = match value.strip_prefix("udp://") {
        Some(rest) => rest,
        None => value,
    };
    let target = read_target(text)?;
    Some(Destination::Host(target))
}

// Reads HOST:PORT, udp://HOST:PORT or unix:PATH.
fn read_destination(value: &str) -> Option<Destination<'_>>
    ensures { IfSome result (SaysDestination value.now) }
{
    let Some(path) = value.strip_prefix("unix:") else {
        return read_host(value);
    };
    if path.is_empty() {
        return None;
    }
    Some(Destination::Unix(path))
}

impl<'a, A: Allocator> Options<'a, A> {
    /// Returns the options of a command line that has none.
    pub fn new(alloc: A) -> Options<'a, A>
        ensures { result.to ≡ None }
    {
        Options {
            to: None,
            prefix: "",
            tags: Vec::new(alloc),
            container: None,
            cardinality: None,
            time: None,
            fields: Fields::NONE,
            rate: None,
            sample: None,
            capacity: DEFAULT_CAPACITY,
            flush_every: None,
            is_adding_up: false,
            is_strict: false,
            is_cleaning: false,
            is_printing: false,
            wait: None,
            is_dropping: false,
        }
    }

    /// Sets an option to its value. A tag is added to those before it.
    ///
    /// # Errors
    /// `Unusable` if the option can't have this value, and `OutOfMemory`.
    pub fn set(
        &mut self,
        setting: Setting,
        value: &'a str,
    ) -> Result<(), InputError<OptionError<'a>>>
        ensures { SaysWhere self.old → OnOk result (SaysWhere self.new) }
    {
        let refused = InputError::Unusable(OptionError { setting, value });
        let is_cleaned = self.is_cleaning;
        match setting {
            Setting::To => match read_destination(value) {
                Some(place) => self.to = Some(place),
                None => return Err(refused),
            },
            Setting::Prefix => self.prefix = read_word_for(value, is_cleaned).ok_or(refused)?,
            Setting::Tag => self
                .tags
                .push(read_tag_for(value, is_cleaned).ok_or(refused)?)?,
            Setting::Container => self.container = Some(read_word_for(value, is_cleaned).ok_or(
                refused,
            )?),
            Setting::Cardinality => self.cardinality = Some(Cardinality::from_text(value).ok_or(
                refused,
            )?),
            Setting::Time => self.time = Some(read_whole(value).ok_or(refused)?),
            Setting::Rate => self.rate = Some(read_positive(value).ok_or(refused)?),
            Setting::Sample => {
                let rate = read_positive(value).ok_or(refused)?;
                self.sample = Some(Chance::new(rate).ok_or(refused)?);
                self.rate = Some(rate);
            }
            Setting::Capacity => self.capacity = read_whole(value).ok_or(refused)? as usize,
            Setting::FlushEvery => self.flush_every = Some(read_whole(value).ok_or(refused)?),
            Setting::Wait => self.wait = Some(read_whole(value).ok_or(refused)?),
            _ => {
                self.fields = with_field(self.fields, setting, value, is_cleaned).ok_or(refused)?
            }
        }
        Ok(())
    }

    // Returns whether an option was set that can't be used with all words.
    fn is_set(&self, setting: Setting) -> bool {
        match setting {
            Setting::Cardinality => self.cardinality.is_some(),
            // The option for the sample sets the rate too.
            Setting::Rate => self.rate.is_some() && self.sample.is_none(),
            Setting::Sample => self.sample.is_some(),
            Setting::Host => self.fields.host.is_some(),
            Setting::AggregationKey => self.fields.key.is_some(),
            Setting::Priority => self.fields.priority.is_some(),
            Setting::Source => self.fields.source.is_some(),
            Setting::Alert => self.fields.alert.is_some(),
            Setting::Message => self.fields.message.is_some(),
            _ => false,
        }
    }

    /// Returns an option that was set and can't be used with words that ask for this, if there is one.
    pub fn misplaced(&self, subject: Subject) -> Option<Misplaced> {
        for setting in Setting::ALL {
            if self.is_set(setting) && !setting.is_for(subject) {
                return Some(Misplaced { setting, subject });
            }
        }
        None
    }
}

impl<'a, A: Allocator + Clone> Options<'a, A> {
    /// Returns what these tags and the options add to each metric. The tags come before those of the options.
    /// A line may have any length.
    ///
    /// # Errors
    /// An error of the kind `InvalidInput` if the settings are strict and a tag has a separator in one of its texts, and
    /// `SinkError::OutOfMemory`.
    pub fn defaults(&self, alloc: A, tags: &[OwnedTag<A>]) -> Result<Defaults<A>, MetricError> {
        let mut settings = ClientSettings::new(alloc, self.prefix)?;
        if self.is_cleaning {
            settings.set_cleaned()?;
        } else if self.is_strict {
            settings.set_strict()?;
        }
        for tag in tags {
            let tag = lend_tag(tag);
            settings.add_tag(tag.key, tag.text)?;
        }
        for tag in &self.tags {
            settings.add_tag(tag.key, tag.text)?;
        }
        if let Some(container) = self.container {
            settings.set_container(container)?;
        }
        if let Some(cardinality) = self.cardinality {
            settings.set_cardinality(cardinality);
        }
        Ok(Defaults {
            settings,
            rate: self.rate,
            time: self.time,
            longest: usize::MAX,
        })
    }
}
