//! The lines of cleaned events and service checks: an underscore for each separator for which a text would be refused, and
//! for each bar of a message. Cleaning changes no length, and takes no memory besides that of the line.
use super::event::{CheckRow, EventRow, PLAIN, PROD, WEB, is_made};
use cadence_events::{Event, ServiceCheck};
use cadence_text::line::Tag;
use std::alloc::Global;
use std::test::Fail;
use test_tools::{RefusingAllocator, each_refused};

const TAGS: &[Tag<'static>] = &[
    PROD,
    Tag {
        key: Some("k:"),
        text: "v:w,x|y\n",
    },
    Tag {
        key: None,
        text: "a:ü,",
    },
    Tag {
        key: Some(""),
        text: ":",
    },
];

const EVENTS: &[EventRow] = &[
    (PLAIN, Ok("_e{1,1}:a|b")),
    (
        Event {
            title: "a|b:c",
            text: "d,e\n",
            host: Some("|☃:ü,\n"),
            key: Some("key"),
            source: Some("::"),
            tags: TAGS,
            container: Some("c|d"),
            ..PLAIN
        },
        Ok("_e{5,5}:a|b:c|d,e\\n|h:_☃_ü__|k:key|s:__|#env:prod,k_:v:w_x_y_,a_ü_,::|c:c_d"),
    ),
    (
        Event {
            host: Some(""),
            key: Some(","),
            ..PLAIN
        },
        Ok("_e{1,1}:a|b|h:|k:_"),
    ),
];

const CHECKS: &[CheckRow] = &[
    (WEB, Ok("_sc|web|0")),
    (
        ServiceCheck {
            name: "a:b|c",
            host: Some("h\n"),
            tags: TAGS,
            container: Some(","),
            message: Some("m:|m|:m\n☃|"),
            ..WEB
        },
        Ok("_sc|a_b_c|0|h:h_|#env:prod,k_:v:w_x_y_,a_ü_,::|c:_|m:m\\:_m_:m\\n☃_"),
    ),
    (
        ServiceCheck {
            message: Some("a:b,c"),
            ..WEB
        },
        Ok("_sc|web|0|m:a:b,c"),
    ),
];

#[test]
fn cleaned_events_have_their_lines(rt: HostRuntime) -> Result<(), Fail> {
    for (event, line) in EVENTS {
        let granted = each_refused(rt.alloc(), |heap: RefusingAllocator<Global>| {
            is_made(event.line_as(heap, "", None, true), line)
        })?;
        assert_eq!(rt; granted, Some(1));
        assert_eq!(rt; event.line_len(), line.ok().map(|text| text.len()));
    }
    Ok(())
}

#[test]
fn cleaned_service_checks_have_their_lines(rt: HostRuntime) -> Result<(), Fail> {
    for (check, line) in CHECKS {
        let granted = each_refused(rt.alloc(), |heap: RefusingAllocator<Global>| {
            is_made(check.line_as(heap, "", None, true), line)
        })?;
        assert_eq!(rt; granted, Some(1));
        assert_eq!(rt; check.line_len(), line.ok().map(|text| text.len()));
    }
    Ok(())
}

// With the defaults below.
const EVENTS_WITH_DEFAULTS: &[EventRow] = &[(
    Event {
        tags: &[PROD],
        ..PLAIN
    },
    Ok("_e{1,1}:a|b|#a:b:c,x,env:prod|c:c|d"),
)];

const CHECKS_WITH_DEFAULTS: &[CheckRow] = &[(WEB, Ok("_sc|web|0|#a:b:c,x|c:c|d"))];

const DEFAULT_TAGS: &str = "|#a:b:c,x";

const DEFAULT_CONTAINER: Option<&str> = Some("c|d");

// The defaults of a client stay as they are.
#[test]
fn defaults_are_not_cleaned(rt: HostRuntime) -> Result<(), Fail> {
    for (event, line) in EVENTS_WITH_DEFAULTS {
        let made = event.line_as(rt.alloc(), DEFAULT_TAGS, DEFAULT_CONTAINER, true);
        assert!(rt; is_made(made, line)?);
    }
    for (check, line) in CHECKS_WITH_DEFAULTS {
        let made = check.line_as(rt.alloc(), DEFAULT_TAGS, DEFAULT_CONTAINER, true);
        assert!(rt; is_made(made, line)?);
    }
    Ok(())
}
