//! Makes the lines of events and service checks from the words that ask for them.
ghost use Rattle.std.specs.Prelude.{◌≡◌, Err, MatchResult, Ok, codes, false, map, string_bytes, true};
ghost use Rattle.std.specs.List.{AllZip};
ghost use Rattle.cadence_events.specs.Event.{alert_text, event_of, priority_text};
ghost use Rattle.cadence_events.specs.ServiceCheck.{check_of};
ghost use Rattle.cadence_text.specs.Cleaned.{cleaned_text};
ghost use Rattle.cadence_text.specs.Record.{tag_of};
ghost use Rattle.cadence_value.specs.Finds.{Finds};
ghost use Rattle.cadence_words.specs.Asked.{IsTagWord};
ghost use Rattle.cadence_words.specs.Commands.{first_word};
ghost use Rattle.cadence_words.specs.Events.{IsLineOfCheck, IsLineOfEvent, IsLineOfNamed, IsLineOfTitled, NamesStatus, asked_check, asked_event, word_error_of};
ghost use Rattle.cadence_words.specs.Finds.{FindsOrFails};

use crate::defaults::Defaults;
use crate::tags::{Tags, lend_words};
use crate::word_error::{Part, WordError};
use crate::words::{is_word, read_tag};
use cadence_events::{AlertType, Event, LineError, Priority, ServiceCheck, ServiceStatus};
use cadence_text::line::{Tag, cleaned};
use std::alloc::Allocator;

/// What the options of a command line add to an event or to a service check.
#[derive(Clone, Copy, Debug)]
pub struct Fields<'a> {
    /// The name of the host.
    pub host: Option<&'a str>,
    /// The aggregation key of an event.
    pub key: Option<&'a str>,
    /// The priority of an event.
    pub priority: Option<Priority>,
    /// The source type of an event.
    pub source: Option<&'a str>,
    /// The alert type of an event.
    pub alert: Option<AlertType>,
    /// The message of a service check.
    pub message: Option<&'a str>,
}

impl Fields<'_> {
    /// No field.
    pub const NONE: Fields<'static> = Fields {
        host: None,
        key: None,
        priority: None,
        source: None,
        alert: None,
        message: None,
    };
}

/// Returns the priority that a word names: `low` or `normal`.
pub fn read_priority(word: &str) -> Option<Priority>
    ensures { Finds (λ priority. priority_text priority ≡ word.now) result }
{
    match word {
        "low" => Some(Priority::Low),
        "normal" => Some(Priority::Normal),
        _ => None,
    }
}

/// Returns the alert type that a word names: `error`, `warning`, `info` or `success`.
pub fn read_alert(word: &str) -> Option<AlertType>
    ensures { Finds (λ alert. alert_text alert ≡ word.now) result }
{
    match word {
        "error" => Some(AlertType::Error),
        "warning" => Some(AlertType::Warning),
        "info" => Some(AlertType::Info),
        "success" => Some(AlertType::Success),
        _ => None,
    }
}

// Returns the status of a service that a word names: by its name, or by its number.
fn read_status(word: &str) -> Option<ServiceStatus>
    ensures { Finds (NamesStatus word.now) result }
{
    match word {
        "ok" | "0" => Some(ServiceStatus::Ok),
        "warning" | "1" => Some(ServiceStatus::Warning),
        "critical" | "2" => Some(ServiceStatus::Critical),
        "unknown" | "3" => Some(ServiceStatus::Unknown),
        _ => None,
    }
}

// Returns the tags that the words say.
fn read_tags<'a, A: Allocator>(alloc: A, words: &[&'a str]) -> Result<Vec<Tag<'a>, A>, WordError>
    ensures { FindsOrFails (AllZip IsTagWord (map (λ w. w.now) words.now))
        (λ tags. map tag_of tags.items) result }
{
    let mut tags = Vec::with_capacity(alloc, words.len())?;
    for word in words {
        let Some(tag) = read_tag(word) else {
            return Err(WordError::Unusable(Part::Tag));
        };
        tags.push(tag)?;
    }
    Ok(tags)
}

// Returns the line, or why there is none, as an error about words.
fn line_or_word_error<A: Allocator>(
    line: Result<String<A>, LineError>,
) -> Result<String<A>, WordError>
    ensures { MatchResult line (λ text. result ≡ Ok text)
        (λ error. result ≡ Err (word_error_of error)) }
{
    match line {
        Ok(text) => Ok(text),
        Err(LineError::Unusable(unfit)) => Err(WordError::Unusable(Part::Field(unfit))),
        Err(LineError::OutOfMemory) => Err(WordError::OutOfMemory),
    }
}

// Returns the event with this title, this text and these tags.
fn event_with<'a>(
    time: Option<u64>,
    fields: &Fields<'a>,
    title: &'a str,
    text: &'a str,
    tags: &'a [Tag<'a>],
) -> Event<'a>
    ensures { event_of result ≡ asked_event time fields.now title.now text.now
        (map tag_of tags.now) }
{
    Event {
        title,
        text,
        time,
        host: fields.host,
        key: fields.key,
        priority: fields.priority,
        source: fields.source,
        alert: fields.alert,
        tags,
        container: None,
    }
}

// Returns the service check with this name, this status and these tags.
fn check_with<'a>(
    time: Option<u64>,
    fields: &Fields<'a>,
    name: &'a str,
    status: ServiceStatus,
    tags: &'a [Tag<'a>],
) -> ServiceCheck<'a>
    ensures { check_of result ≡ asked_check time fields.now name.now status
        (map tag_of tags.now) }
{
    ServiceCheck {
        name,
        status,
        time,
        host: fields.host,
        tags,
        container: None,
        message: fields.message,
    }
}

// Returns the line of the event with this title, this text and the tags that the words say. The command line adds its
// fields, its time, its default tags and its container, but no prefix and no rate.
fn line_of_titled<A: Allocator + Clone>(
    alloc: &A,
    defaults: &Defaults<A>,
    fields: &Fields<'_>,
    title: &str,
    text: &str,
    words: &[&str],
) -> Result<String<A>, WordError>
    ensures { FindsOrFails (IsLineOfTitled defaults.now fields.now title.now text.now
        (map (λ w. w.now) words.now)) (λ line. string_bytes line) result }
{
    let tags = read_tags(alloc.clone()?, words)?;
    let event = event_with(defaults.time, fields, title, text, &tags);
    let settings = &defaults.settings;
    let (default_tags, container) = (settings.default_tags_text(), settings.default_container());
    let is_cleaned = settings.is_cleaned();
    line_or_word_error(event.line_as(alloc.clone()?, default_tags, container, is_cleaned))
}

// Returns the line that `line_of_titled` returns for the cleaned words of the tags.
#[cold]
fn line_of_cleaned_titled<A: Allocator + Clone>(
    alloc: &A,
    defaults: &Defaults<A>,
    fields: &Fields<'_>,
    title: &str,
    text: &str,
    words: &[&str],
) -> Result<String<A>, WordError>
    ensures { FindsOrFails (IsLineOfTitled defaults.now fields.now title.now text.now
        (map (cleaned_text true) (map (λ w. w.now) words.now))) (λ line. string_bytes line) result }
{
    let copies = Tags::Words(words).cleaned(alloc)?;
    let lent = lend_words(alloc.clone()?, &copies)?;
    line_of_titled(alloc, defaults, fields, title, text, &lent)
}

// Returns the line of an event. The words are `event`, a title, a text and any tags.
pub(crate) fn line_of_event<A: Allocator + Clone>(
    alloc: &A,
    defaults: &Defaults<A>,
    fields: &Fields<'_>,
    words: &[&str],
) -> Result<String<A>, WordError>
    requires { first_word (map (λ w. w.now) words.now) ≡ codes "event" }
    ensures { FindsOrFails (IsLineOfEvent defaults.now fields.now (map (λ w. w.now) words.now))
        (λ line. string_bytes line) result }
{
    let [_, title, text, tags @ ..] = words else {
        return Err(WordError::Unusable(Part::EventWords));
    };
    if !defaults.settings.is_cleaned() {
        return line_of_titled(alloc, defaults, fields, title, text, tags);
    }
    line_of_cleaned_titled(alloc, defaults, fields, title, text, tags)
}

// Returns the line of the service check with this name, the status that a word names and the tags that the words say. The
// command line adds what it adds to an event.
fn line_of_named<A: Allocator + Clone>(
    alloc: &A,
    defaults: &Defaults<A>,
    fields: &Fields<'_>,
    name: &str,
    status: &str,
    words: &[&str],
) -> Result<String<A>, WordError>
    ensures { FindsOrFails (IsLineOfNamed defaults.now fields.now name.now status.now
        (map (λ w. w.now) words.now)) (λ line. string_bytes line) result }
{
    if !is_word(name) {
        return Err(WordError::Unusable(Part::Name));
    }
    let Some(status) = read_status(status) else {
        return Err(WordError::Unusable(Part::Status));
    };
    let tags = read_tags(alloc.clone()?, words)?;
    let check = check_with(defaults.time, fields, name, status, &tags);
    let settings = &defaults.settings;
    let (default_tags, container) = (settings.default_tags_text(), settings.default_container());
    let is_cleaned = settings.is_cleaned();
    line_or_word_error(check.line_as(alloc.clone()?, default_tags, container, is_cleaned))
}

// Returns the line that `line_of_named` returns for the cleaned name and the cleaned words of the tags.
#[cold]
fn line_of_cleaned_named<A: Allocator + Clone>(
    alloc: &A,
    defaults: &Defaults<A>,
    fields: &Fields<'_>,
    name: &str,
    status: &str,
    words: &[&str],
) -> Result<String<A>, WordError>
    ensures { FindsOrFails (IsLineOfNamed defaults.now fields.now (cleaned_text false name.now)
        status.now (map (cleaned_text true) (map (λ w. w.now) words.now)))
        (λ line. string_bytes line) result }
{
    let name = cleaned(alloc.clone()?, name, false)?;
    let copies = Tags::Words(words).cleaned(alloc)?;
    let lent = lend_words(alloc.clone()?, &copies)?;
    line_of_named(alloc, defaults, fields, &name, status, &lent)
}

// Returns the line of a service check. The words are `check`, a name, a status and any tags.
pub(crate) fn line_of_check<A: Allocator + Clone>(
    alloc: &A,
    defaults: &Defaults<A>,
    fields: &Fields<'_>,
    words: &[&str],
) -> Result<String<A>, WordError>
    requires { first_word (map (λ w. w.now) words.now) ≡ codes "check" }
    ensures { FindsOrFails (IsLineOfCheck defaults.now fields.now (map (λ w. w.now) words.now))
        (λ line. string_bytes line) result }
{
    let [_, name, status, tags @ ..] = words else {
        return Err(WordError::Unusable(Part::CheckWords));
    };
    if !defaults.settings.is_cleaned() {
        return line_of_named(alloc, defaults, fields, name, status, tags);
    }
    line_of_cleaned_named(alloc, defaults, fields, name, status, tags)
}
