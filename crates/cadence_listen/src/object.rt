//! Prints what a line is, and its parts, as a JSON object.
use cadence_cli::push_bytes;
use cadence_read::{AnyLine, MetricParts};
use json::is_number;
use serde_json::Value;
use std::alloc::{AllocError, Global};
use std::str;

/// Adds a member of a JSON object whose text is already JSON.
pub(crate) fn push_raw(out: &mut String, name: &str, value: &str) -> Result<(), AllocError> {
    out.push(if out.is_empty() { '{' } else { ',' })?;
    write!(out, "\"{name}\":{value}")
}

// Returns bytes as a JSON text. Those that aren't in UTF-8 are printed as `push_bytes` does.
fn quoted(alloc: Global, bytes: &[u8]) -> Result<String, AllocError> {
    let mut text = String::new(alloc);
    match str::from_utf8(bytes) {
        Ok(whole) => text.push_str(whole)?,
        Err(_) => push_bytes(&mut text, bytes)?,
    }
    Value::String(text).to_string(alloc)
}

/// Adds a member of a JSON object that is a text.
pub(crate) fn push_member(
    alloc: Global,
    out: &mut String,
    name: &str,
    value: &[u8],
) -> Result<(), AllocError> {
    push_raw(out, name, &quoted(alloc, value)?)
}

// Returns a number of JSON as it is, and everything else as a JSON text.
fn number_or_text(alloc: Global, bytes: &[u8]) -> Result<String, AllocError> {
    match str::from_utf8(bytes) {
        Ok(text) if is_number(text) => String::from_str(alloc, text),
        _ => quoted(alloc, bytes),
    }
}

// Adds an item to the beginning of a JSON array.
fn push_item(out: &mut String, item: &str) -> Result<(), AllocError> {
    out.push(if out.is_empty() { '[' } else { ',' })?;
    out.push_str(item)
}

// Returns the end of a JSON array whose items were added.
fn ended(mut out: String) -> Result<String, AllocError> {
    out.push_str(if out.is_empty() { "[]" } else { "]" })?;
    Ok(out)
}

// Returns the values as a JSON array.
fn values_of(alloc: Global, values: &[u8]) -> Result<String, AllocError> {
    let mut out = String::new(alloc);
    if !values.is_empty() {
        for value in values.split(|byte| *byte == b':') {
            push_item(&mut out, &number_or_text(alloc, value)?)?;
        }
    }
    ended(out)
}

// Returns the tags as a JSON array of texts.
fn tags_of(alloc: Global, tags: &[u8]) -> Result<String, AllocError> {
    let mut out = String::new(alloc);
    if !tags.is_empty() {
        for tag in tags.split(|byte| *byte == b',') {
            push_item(&mut out, &quoted(alloc, tag)?)?;
        }
    }
    ended(out)
}

// Returns the name and the value of the member of a field that this library knows.
fn member_of(alloc: Global, field: &[u8]) -> Result<Option<(&'static str, String)>, AllocError> {
    Ok(match field {
        [b'@', rate @ ..] => Some(("rate", number_or_text(alloc, rate)?)),
        [b'#', tags @ ..] => Some(("tags", tags_of(alloc, tags)?)),
        [b'c', b':', container @ ..] => Some(("container", quoted(alloc, container)?)),
        [b'T', time @ ..] => Some(("time", number_or_text(alloc, time)?)),
        _ => None,
    })
}

// Adds a member for each of the other fields that this library knows, and then a member with the fields that are left:
// those that it doesn't know, and those that come again.
fn push_fields(alloc: Global, out: &mut String, fields: &[u8]) -> Result<(), AllocError> {
    let (mut taken, mut left) = (Vec::new(alloc), String::new(alloc));
    for field in fields.split(|byte| *byte == b'|').skip(1) {
        match member_of(alloc, field)? {
            Some((name, value)) if !taken.contains(&name) => {
                taken.push(name)?;
                push_raw(out, name, &value)?;
            }
            _ => push_item(&mut left, &quoted(alloc, field)?)?,
        }
    }
    if !left.is_empty() {
        push_raw(out, "fields", &ended(left)?)?;
    }
    Ok(())
}

// Adds the members of a metric.
fn push_metric(alloc: Global, out: &mut String, parts: MetricParts<'_>) -> Result<(), AllocError> {
    push_raw(out, "is", "\"metric\"")?;
    push_member(alloc, out, "name", parts.name)?;
    push_raw(out, "values", &values_of(alloc, parts.values)?)?;
    push_member(alloc, out, "type", parts.kind)?;
    push_fields(alloc, out, parts.fields)
}

/// Adds the members that say what a line is: of a metric its parts, and of every other line the whole line.
///
/// # Errors
/// The only error is that memory ran out. Some of the members may be added then.
pub(crate) fn push_line(
    alloc: Global,
    out: &mut String,
    line: AnyLine<'_>,
) -> Result<(), AllocError> {
    let (is, text) = match line {
        AnyLine::MetricLine(parts) => return push_metric(alloc, out, parts),
        AnyLine::Event(text) => ("\"event\"", text),
        AnyLine::ServiceCheck(text) => ("\"check\"", text),
        AnyLine::Opaque(text) => ("\"unreadable\"", text),
    };
    push_raw(out, "is", is)?;
    push_member(alloc, out, "line", text)
}
