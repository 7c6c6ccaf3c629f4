//! The calls of C for events and service checks. Each makes its line, and keeps it as `cadence_line` does.
ghost use Rattle.std.specs.Prelude.{◌≡◌, [], ◌∷◌, All, IfErr, IfOk, map};
ghost use Rattle.std.specs.Option.{option_copied};
ghost use Rattle.std.specs.Str.{IsUtf8};
ghost use Rattle.cadence_text.specs.Record.{tag_of as record_tag};
ghost use Rattle.cadence_events.specs.Event.{event_of as record_event};
ghost use Rattle.cadence_events.specs.ServiceCheck.{check_of as record_check};
ghost use Rattle.cadence_host.specs.Calls.{IsUtf8Tag, c_tag};
ghost use Rattle.cadence_c.specs.Events.{IsCheckOf, IsEventOf, IsInvalidCheck, IsInvalidEvent, IsLineOfCheck, IsLineOfEvent, IsRefusalOfCheck, IsRefusalOfEvent, IsUtf8Check, IsUtf8Event, KeepsEvent, MakesEvent, alert_named, any_text, cleans_texts, priority_named, service_status_named};
ghost use Rattle.cadence_host.specs.Status.{CADENCE_INVALID, CADENCE_NOT_UTF8, CADENCE_NO_MEMORY, IsOkOr, status};
ghost use Rattle.cadence_host.specs.Texts.{IsUtf8Settings};
ghost use Rattle.cadence_host.specs.declared.status.StatusError.TheVariants.{NotUtf8};

use crate::cadence_line;
use crate::handle::Handle;
use cadence_events::{AlertType, Event, Priority, ServiceCheck, ServiceStatus};
use cadence_host::call::{CTag, tag_of, text_of};
use cadence_host::settings::{CSettings, read_settings};
use cadence_host::status::StatusError;
use cadence_text::line::Tag;
use std::alloc::Global;

/// An event. A text is left out if it is empty, except for the title and the text of the event, and the time is left out
/// unless `timed` is set. `priority` and `alert` are numbers of C, and 0 leaves them out.
#[repr(C)]
#[derive(Clone, Copy)]
pub struct CEvent<'a> {
    pub title: &'a [u8],
    pub text: &'a [u8],
    pub host: &'a [u8],
    pub key: &'a [u8],
    pub source: &'a [u8],
    pub container: &'a [u8],
    pub tags: &'a [CTag<'a>],
    pub time: u64,
    pub priority: u32,
    pub alert: u32,
    pub timed: bool,
}

/// A service check. A text but the name is left out if it is empty, and the time is left out unless `timed` is set.
/// `status` is a number of C.
#[repr(C)]
#[derive(Clone, Copy)]
pub struct CCheck<'a> {
    pub name: &'a [u8],
    pub host: &'a [u8],
    pub message: &'a [u8],
    pub container: &'a [u8],
    pub tags: &'a [CTag<'a>],
    pub time: u64,
    pub status: u32,
    pub timed: bool,
}

// Returns the priority that has this number in C, if the number is valid.
fn priority_of(priority: u32) -> Option<Option<Priority>>
    ensures { result ≡ priority_named priority }
{
    match priority {
        0 => Some(None),
        1 => Some(Some(Priority::Low)),
        2 => Some(Some(Priority::Normal)),
        _ => None,
    }
}

// Returns the alert type that has this number in C, if the number is valid.
fn alert_of(alert: u32) -> Option<Option<AlertType>>
    ensures { result ≡ alert_named alert }
{
    match alert {
        0 => Some(None),
        1 => Some(Some(AlertType::Error)),
        2 => Some(Some(AlertType::Warning)),
        3 => Some(Some(AlertType::Info)),
        4 => Some(Some(AlertType::Success)),
        _ => None,
    }
}

// Returns the status of a service that has this number in C, if one has it.
fn service_status_of(status: u32) -> Option<ServiceStatus>
    ensures { result ≡ service_status_named status }
{
    match status {
        0 => Some(ServiceStatus::Ok),
        1 => Some(ServiceStatus::Warning),
        2 => Some(ServiceStatus::Critical),
        3 => Some(ServiceStatus::Unknown),
        _ => None,
    }
}

// Returns a text, or `None` if it is empty. The error is `NotUtf8`.
fn any_text(bytes: &[u8]) -> Result<Option<&str>, StatusError>
    ensures text { IfOk result (λ text. option_copied text ≡ any_text bytes.now) }
    ensures err { IfErr result (λ e. (e ≡ NotUtf8) × (IsUtf8 bytes.now → ⊥)) }
{
    if bytes.is_empty() {
        return Ok(None);
    }
    match text_of(bytes) {
        Some(text) => Ok(Some(text)),
        None => Err(StatusError::NotUtf8),
    }
}

// Returns the tags. The errors are `NotUtf8` and `NoMemory`.
fn tags_of<'a>(alloc: Global, tags: &[CTag<'a>]) -> Result<Vec<Tag<'a>>, StatusError>
    ensures tags { IfOk result (λ made. map record_tag made.items ≡ map c_tag tags.now) }
    ensures text { status result ≡ CADENCE_NOT_UTF8 → All IsUtf8Tag tags.now → ⊥ }
    ensures statuses { IsOkOr (CADENCE_NO_MEMORY ∷ CADENCE_NOT_UTF8 ∷ []) (status result) }
{
    let mut made = Vec::with_capacity(alloc, tags.len())?;
    for tag in tags {
        let Some(tag) = tag_of(tag) else {
            return Err(StatusError::NotUtf8);
        };
        if made.push(tag).is_err() {
            return Err(StatusError::NoMemory);
        }
    }
    Ok(made)
}

// Returns the event that a struct of C means, with these tags. The errors are `NotUtf8` for a text, and `Invalid` if no
// priority or no alert type has the number.
fn event_of<'a>(event: &CEvent<'a>, tags: &'a [Tag<'a>]) -> Result<Event<'a>, StatusError>
    requires { map record_tag tags.now ≡ map c_tag event.now.tags.now }
    ensures event { IfOk result (λ e. IsEventOf event.now (record_event e)) }
    ensures text { status result ≡ CADENCE_NOT_UTF8 → IsUtf8Event event.now → ⊥ }
    ensures invalid { status result ≡ CADENCE_INVALID → IsInvalidEvent event.now }
    ensures statuses { IsOkOr (CADENCE_INVALID ∷ CADENCE_NOT_UTF8 ∷ []) (status result) }
{
    let (Some(priority), Some(alert)) = (priority_of(event.priority), alert_of(event.alert)) else {
        return Err(StatusError::Invalid);
    };
    let (Some(title), Some(text)) = (text_of(event.title), text_of(event.text)) else {
        return Err(StatusError::NotUtf8);
    };
    Ok(Event {
        title,
        text,
        time: if event.timed { Some(event.time) } else { None },
        host: any_text(event.host)?,
        key: any_text(event.key)?,
        priority,
        source: any_text(event.source)?,
        alert,
        tags,
        container: any_text(event.container)?,
    })
}

// Returns the service check that a struct of C means, with these tags. The errors are `NotUtf8` for a text, and
// `Invalid` if no status has the number.
fn check_of<'a>(check: &CCheck<'a>, tags: &'a [Tag<'a>]) -> Result<ServiceCheck<'a>, StatusError>
    requires { map record_tag tags.now ≡ map c_tag check.now.tags.now }
    ensures check { IfOk result (λ made. IsCheckOf check.now (record_check made)) }
    ensures text { status result ≡ CADENCE_NOT_UTF8 → IsUtf8Check check.now → ⊥ }
    ensures invalid { status result ≡ CADENCE_INVALID → IsInvalidCheck check.now }
    ensures statuses { IsOkOr (CADENCE_INVALID ∷ CADENCE_NOT_UTF8 ∷ []) (status result) }
{
    let Some(status) = service_status_of(check.status) else {
        return Err(StatusError::Invalid);
    };
    let Some(name) = text_of(check.name) else {
        return Err(StatusError::NotUtf8);
    };
    Ok(ServiceCheck {
        name,
        status,
        time: if check.timed { Some(check.time) } else { None },
        host: any_text(check.host)?,
        tags,
        container: any_text(check.container)?,
        message: any_text(check.message)?,
    })
}

// Returns whether settings clean the texts of calls. Strict ones refuse them instead.
fn cleans_texts(settings: &CSettings<'_>) -> bool
    ensures { result ≡ cleans_texts settings.now }
{
    settings.cleaned && !settings.strict
}

// Returns the line of an event with these settings. The errors are `NotUtf8` for a text of the settings or the event,
// `Invalid` for its priority or its alert type, `Unfit` with the first text of the event that has a separator (its title
// and its text may have any byte), unless the settings clean texts, and `NoMemory`.
fn line_of_event(
    alloc: Global,
    settings: &CSettings<'_>,
    event: &CEvent<'_>,
) -> Result<String, StatusError>
    ensures { MakesEvent result (IsLineOfEvent settings.now event.now)
        (IsRefusalOfEvent settings.now event.now)
        (IsUtf8Settings settings.now × IsUtf8Event event.now)
        (IsInvalidEvent event.now) }
{
    let Some(texts) = read_settings(settings, false) else {
        return Err(StatusError::NotUtf8);
    };
    let tags = tags_of(alloc, event.tags)?;
    let event = event_of(event, &tags)?;
    Ok(event.line_as(alloc, texts.tags, texts.container, cleans_texts(settings))?)
}

// Returns the line of a service check with these settings. The errors are `NotUtf8` for a text of the settings or the
// service check, `Invalid` for its status, `Unfit` with the first text of the service check that has a separator, or a bar
// if it is the message, unless the settings clean texts, and `NoMemory`.
fn line_of_check(
    alloc: Global,
    settings: &CSettings<'_>,
    check: &CCheck<'_>,
) -> Result<String, StatusError>
    ensures { MakesEvent result (IsLineOfCheck settings.now check.now)
        (IsRefusalOfCheck settings.now check.now)
        (IsUtf8Settings settings.now × IsUtf8Check check.now)
        (IsInvalidCheck check.now) }
{
    let Some(texts) = read_settings(settings, false) else {
        return Err(StatusError::NotUtf8);
    };
    let tags = tags_of(alloc, check.tags)?;
    let check = check_of(check, &tags)?;
    Ok(check.line_as(alloc, texts.tags, texts.container, cleans_texts(settings))?)
}

/// Keeps the line of an event, with the default tags and the default container of the settings. An event that has a text
/// with a separator is refused, also if the settings are not strict. If they clean texts, an underscore is sent in place of
/// the separator. Its title and its text may have any byte, and the texts of the settings are not tested.
#[unsafe(no_mangle)]
pub extern "C" fn cadence_event(
    alloc: Global,
    handle: &mut Handle,
    settings: &CSettings<'_>,
    event: &CEvent<'_>,
) -> u32
    ensures { KeepsEvent result (IsLineOfEvent settings.now event.now)
        (IsRefusalOfEvent settings.now event.now)
        (IsUtf8Settings settings.now × IsUtf8Event event.now) (IsInvalidEvent event.now)
        handle.old handle.new }
{
    match line_of_event(alloc, settings, event) {
        Ok(line) => cadence_line(alloc, handle, line.as_bytes()),
        Err(error) => error.code(),
    }
}

/// Keeps the line of a service check, with the default tags and the default container of the settings. A service check that
/// has a text with a separator, or a message with a bar, is refused, also if the settings are not strict. If they clean
/// texts, an underscore is sent in place of the separator or the bar. The texts of the settings are not tested.
#[unsafe(no_mangle)]
pub extern "C" fn cadence_service_check(
    alloc: Global,
    handle: &mut Handle,
    settings: &CSettings<'_>,
    check: &CCheck<'_>,
) -> u32
    ensures { KeepsEvent result (IsLineOfCheck settings.now check.now)
        (IsRefusalOfCheck settings.now check.now)
        (IsUtf8Settings settings.now × IsUtf8Check check.now) (IsInvalidCheck check.now)
        handle.old handle.new }
{
    match line_of_check(alloc, settings, check) {
        Ok(line) => cadence_line(alloc, handle, line.as_bytes()),
        Err(error) => error.code(),
    }
}
