//! The lines of events and of service checks. The expected lines follow from the format: lengths in bytes as the
//! texts stand in the line, fields in their order, newlines and `m:` escaped.
use cadence_events::{AlertType, Event, LineError, Priority, ServiceCheck, ServiceStatus, Unfit};
use cadence_text::line::Tag;
use std::alloc::{Allocator, Global};
use std::test::Fail;
use test_tools::{RefusingAllocator, each_refused};

// An event and its line, or the text that can't stand in a line.
pub(super) type EventRow = (Event<'static>, Result<&'static str, Unfit>);

// A service check and its line, or the text that can't stand in a line.
pub(super) type CheckRow = (ServiceCheck<'static>, Result<&'static str, Unfit>);

pub(super) const PROD: Tag<'static> = Tag {
    key: Some("env"),
    text: "prod",
};

const BETA: Tag<'static> = Tag {
    key: None,
    text: "beta",
};

pub(super) const PLAIN: Event<'static> = Event {
    title: "a",
    text: "b",
    time: None,
    host: None,
    key: None,
    priority: None,
    source: None,
    alert: None,
    tags: &[],
    container: None,
};

pub(super) const WEB: ServiceCheck<'static> = ServiceCheck {
    name: "web",
    status: ServiceStatus::Ok,
    time: None,
    host: None,
    tags: &[],
    container: None,
    message: None,
};

const EVENTS: &[EventRow] = &[
    (PLAIN, Ok("_e{1,1}:a|b")),
    (
        Event {
            title: "",
            text: "",
            ..PLAIN
        },
        Ok("_e{0,0}:|"),
    ),
    (
        Event {
            title: "Größe",
            text: "one\ntwo|three",
            ..PLAIN
        },
        Ok("_e{7,14}:Größe|one\\ntwo|three"),
    ),
    (
        Event {
            time: Some(1656581400),
            host: Some("web-1"),
            key: Some("deploys"),
            priority: Some(Priority::Low),
            source: Some("jenkins"),
            alert: Some(AlertType::Success),
            tags: &[PROD, BETA],
            container: Some("4bb1"),
            ..PLAIN
        },
        Ok(
            "_e{1,1}:a|b|d:1656581400|h:web-1|k:deploys|p:low|s:jenkins|t:success|#env:prod,beta|c:4bb1",
        ),
    ),
    (
        Event {
            priority: Some(Priority::Normal),
            alert: Some(AlertType::Error),
            ..PLAIN
        },
        Ok("_e{1,1}:a|b|p:normal|t:error"),
    ),
    (
        Event {
            host: Some("web|1"),
            key: Some("a,b"),
            ..PLAIN
        },
        Err(Unfit::Host),
    ),
    (
        Event {
            key: Some("a,b"),
            ..PLAIN
        },
        Err(Unfit::AggregationKey),
    ),
    (
        Event {
            tags: &[
                BETA,
                Tag {
                    key: None,
                    text: "a\nb",
                },
            ],
            ..PLAIN
        },
        Err(Unfit::Tags),
    ),
];

const CHECKS: &[CheckRow] = &[
    (WEB, Ok("_sc|web|0")),
    (
        ServiceCheck {
            status: ServiceStatus::Critical,
            time: Some(1656581400),
            host: Some("web-1"),
            tags: &[PROD, BETA],
            container: Some("4bb1"),
            message: Some("no answer"),
            ..WEB
        },
        Ok("_sc|web|2|d:1656581400|h:web-1|#env:prod,beta|c:4bb1|m:no answer"),
    ),
    (
        ServiceCheck {
            status: ServiceStatus::Warning,
            message: Some("m:slow\nam:12:30:m"),
            ..WEB
        },
        Ok("_sc|web|1|m:m\\:slow\\nam\\:12:30:m"),
    ),
    (
        ServiceCheck {
            status: ServiceStatus::Unknown,
            message: Some(""),
            ..WEB
        },
        Ok("_sc|web|3|m:"),
    ),
    (ServiceCheck { name: "a|b", ..WEB }, Err(Unfit::Name)),
    (
        ServiceCheck {
            message: Some("a|b"),
            ..WEB
        },
        Err(Unfit::Message),
    ),
];

// Returns whether a call returned what its row has. It may only be refused because memory runs out.
pub(super) fn is_made<A: Allocator>(
    made: Result<String<A>, LineError>,
    expected: &Result<&'static str, Unfit>,
) -> Result<bool, Fail> {
    match (made, expected) {
        (Ok(line), Ok(text)) if line.as_str() == *text => Ok(true),
        (Err(LineError::Unusable(why)), Err(unfit)) if why == *unfit => Ok(true),
        (Err(LineError::OutOfMemory), Ok(_)) => Ok(false),
        _ => Err(Fail::new("another result")),
    }
}

// Returns how often memory is asked for: once for a line, and not for a text that can't stand in one.
fn requests_of(expected: &Result<&'static str, Unfit>) -> Option<u64> {
    match expected {
        Ok(_) => Some(1),
        Err(_) => Some(0),
    }
}

#[test]
fn events_have_their_lines(rt: HostRuntime) -> Result<(), Fail> {
    for row in EVENTS {
        let granted = each_refused(rt.alloc(), |heap: RefusingAllocator<Global>| {
            is_made(row.0.line(heap), &row.1)
        })?;
        assert!(rt; granted == requests_of(&row.1));
        if let Ok(text) = row.1 {
            assert!(rt; row.0.line_len() == Some(text.len()));
        }
    }
    Ok(())
}

#[test]
fn service_checks_have_their_lines(rt: HostRuntime) -> Result<(), Fail> {
    for row in CHECKS {
        let granted = each_refused(rt.alloc(), |heap: RefusingAllocator<Global>| {
            is_made(row.0.line(heap), &row.1)
        })?;
        assert!(rt; granted == requests_of(&row.1));
        if let Ok(text) = row.1 {
            assert!(rt; row.0.line_len() == Some(text.len()));
        }
    }
    Ok(())
}

// The constructors leave out each optional field.
#[test]
fn new_ones_have_no_fields(rt: HostRuntime) -> Result<(), Fail> {
    let event = Event::new("a", "b").line(rt.alloc())?;
    assert!(rt; event.as_str() == "_e{1,1}:a|b");
    let check = ServiceCheck::new("web", ServiceStatus::Ok).line(rt.alloc())?;
    assert!(rt; check.as_str() == "_sc|web|0");
    Ok(())
}

// The text of default tags, and a default container.
const DEFAULTS: (&str, Option<&str>) = ("|#env:prod,x", Some("4bb1"));

// Events, and the lines that they have with the defaults: own tags come last, and an own container replaces the default.
const EVENTS_OF_A_CLIENT: &[EventRow] = &[
    (PLAIN, Ok("_e{1,1}:a|b|#env:prod,x|c:4bb1")),
    (
        Event {
            tags: &[PROD, BETA],
            container: Some("77"),
            ..PLAIN
        },
        Ok("_e{1,1}:a|b|#env:prod,x,env:prod,beta|c:77"),
    ),
    (
        Event {
            host: Some("a|b"),
            ..PLAIN
        },
        Err(Unfit::Host),
    ),
];

// The same for service checks.
const CHECKS_OF_A_CLIENT: &[CheckRow] = &[
    (WEB, Ok("_sc|web|0|#env:prod,x|c:4bb1")),
    (
        ServiceCheck {
            tags: &[BETA],
            container: Some("77"),
            ..WEB
        },
        Ok("_sc|web|0|#env:prod,x,beta|c:77"),
    ),
    (
        ServiceCheck {
            message: Some("a|b"),
            ..WEB
        },
        Err(Unfit::Message),
    ),
];

#[test]
fn events_of_a_client_have_its_defaults(rt: HostRuntime) -> Result<(), Fail> {
    let (tags, container) = DEFAULTS;
    for row in EVENTS_OF_A_CLIENT {
        let granted = each_refused(rt.alloc(), |heap: RefusingAllocator<Global>| {
            is_made(row.0.line_with(heap, tags, container), &row.1)
        })?;
        assert!(rt; granted == requests_of(&row.1));
    }
    Ok(())
}

#[test]
fn service_checks_of_a_client_have_its_defaults(rt: HostRuntime) -> Result<(), Fail> {
    let (tags, container) = DEFAULTS;
    for row in CHECKS_OF_A_CLIENT {
        let granted = each_refused(rt.alloc(), |heap: RefusingAllocator<Global>| {
            is_made(row.0.line_with(heap, tags, container), &row.1)
        })?;
        assert!(rt; granted == requests_of(&row.1));
    }
    Ok(())
}
