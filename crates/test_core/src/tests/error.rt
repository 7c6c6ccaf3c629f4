//! The kinds and texts of errors. docs/statsd_schedule.md lists the texts of the errors of sinks.

use cadence_errors::{ErrorKind, MetricError, SinkError};
use std::alloc::Global;
use std::io;
use std::test::Fail;

/// Returns whether the error has this kind and this text.
pub fn has_kind_and_text(alloc: Global, error: &MetricError, kind: ErrorKind, text: &str) -> bool {
    match error.to_string(alloc) {
        Ok(printed) => error.kind() == kind && printed.as_str() == text,
        Err(_) => false,
    }
}

// Returns whether this is the error of a sink, with this kind and this text.
fn is_sink_error(alloc: Global, error: &MetricError, kind: ErrorKind, text: &str) -> bool {
    error.sink_error().is_some() && has_kind_and_text(alloc, error, kind, text)
}

// The errors of sinks, each with its kind and its text.
const SINK_ERRORS: &[(MetricError, ErrorKind, &str)] = &[
    (
        MetricError::Sink(SinkError::ChannelFull),
        ErrorKind::IoError,
        "channel full",
    ),
    (
        MetricError::Sink(SinkError::ChannelDisconnected),
        ErrorKind::IoError,
        "channel disconnected",
    ),
    (
        MetricError::Sink(SinkError::PacketRefused),
        ErrorKind::IoError,
        "packet refused",
    ),
    (
        MetricError::Sink(SinkError::NothingWritten),
        ErrorKind::IoError,
        "nothing written",
    ),
    (
        MetricError::Sink(SinkError::OutOfMemory),
        ErrorKind::OutOfMemory,
        "out of memory",
    ),
    (
        MetricError::Sink(SinkError::NoAddresses),
        ErrorKind::IoError,
        "name gave no addresses",
    ),
];

#[test]
fn an_error_of_a_sink_has_its_kind_and_text(rt: HostRuntime) {
    for (error, kind, text) in SINK_ERRORS {
        assert!(rt; is_sink_error(rt.alloc(), error, *kind, text), "{text}");
    }
}

// Returns whether a metric's error that is made of an `io::Error` of this kind has the text of that error.
fn keeps_its_text(alloc: Global, kind: io::ErrorKind) -> Result<bool, Fail> {
    let own = io::Error::from(kind).to_string(alloc)?;
    let error = MetricError::from(io::Error::from(kind));
    Ok(is_sink_error(alloc, &error, ErrorKind::IoError, &own))
}

#[test]
fn an_io_error_keeps_its_own_text(rt: HostRuntime) -> Result<(), Fail> {
    assert!(rt; keeps_its_text(rt.alloc(), io::ErrorKind::AddrInUse)?);
    Ok(())
}

// Returns whether an error that is made of a kind and a text has both, is no error of a sink, and shows its text in its
// debug form.
fn has_its_kind_and_text(alloc: Global, kind: ErrorKind, text: &'static str) -> Result<bool, Fail> {
    let error = MetricError::from((kind, text));
    let has_both = error.sink_error().is_none() && has_kind_and_text(alloc, &error, kind, text);
    let shown = format!(in alloc; "{error:?}")?;
    Ok(has_both && shown.contains(text))
}

#[test]
fn a_described_error_keeps_its_kind_and_text(rt: HostRuntime) -> Result<(), Fail> {
    let text = "No socket addresses yielded";
    assert!(rt; has_its_kind_and_text(rt.alloc(), ErrorKind::InvalidInput, text)?);
    Ok(())
}

// Texts, each with what a description of it keeps: 72 bytes, or with three dots at the end as many whole characters as
// leave room for these.
const KEPT: &[(&str, &str)] = &[
    (
        "aaaaaaaaaaaaaaaaaaaaaaaaaaaaaaaaaaaaaaaaaaaaaaaaaaaaaaaaaaaaaaaaaaaaaaaa",
        "aaaaaaaaaaaaaaaaaaaaaaaaaaaaaaaaaaaaaaaaaaaaaaaaaaaaaaaaaaaaaaaaaaaaaaaa",
    ),
    (
        "aaaaaaaaaaaaaaaaaaaaaaaaaaaaaaaaaaaaaaaaaaaaaaaaaaaaaaaaaaaaaaaaaaaaaaaab",
        "aaaaaaaaaaaaaaaaaaaaaaaaaaaaaaaaaaaaaaaaaaaaaaaaaaaaaaaaaaaaaaaaaaaaa...",
    ),
    (
        "äääääääääääääääääääääääääääääääääääaaa",
        "ääääääääääääääääääääääääääääääääää...",
    ),
];

#[test]
fn a_long_text_is_cut_at_a_character(rt: HostRuntime) {
    for (text, kept) in KEPT {
        let error = MetricError::from((ErrorKind::InvalidInput, *text));
        assert!(rt;
            has_kind_and_text(rt.alloc(), &error, ErrorKind::InvalidInput, kept),
            "{kept}"
        );
    }
}
