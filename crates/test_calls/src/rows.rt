//! Reads the rows of the files in `data/`, and the words and values in them.
use cadence::types::{ErrorKind, MetricError, MetricResult};
use std::alloc::Global;
use std::str::FromStr;
use std::time::Duration;

/// Returns the error of a row that can't be read.
pub fn unreadable() -> MetricError {
    MetricError::from((ErrorKind::InvalidInput, "a row that can't be read"))
}

/// Returns whether a line of a file is a row, and not empty or a comment.
pub fn is_row(line: &str) -> bool {
    !line.is_empty() && !line.starts_with('#')
}

// Returns the number that a hexadecimal digit stands for.
fn digit(byte: u8) -> u8 {
    match byte {
        b'0'..=b'9' => byte.wrapping_sub(b'0'),
        _ => byte.wrapping_sub(b'a').wrapping_add(10),
    }
}

// Adds the bytes that follow a backslash.
fn add_escaped(bytes: &mut Vec<u8>, piece: &[u8]) -> MetricResult<()> {
    match piece {
        [b'n', rest @ ..] => {
            bytes.push(b'\n')?;
            bytes.extend_from_slice(rest)?;
        }
        [b'x', high, low, rest @ ..] => {
            bytes.push(digit(*high).wrapping_mul(16).wrapping_add(digit(*low)))?;
            bytes.extend_from_slice(rest)?;
        }
        [b'e', rest @ ..] => bytes.extend_from_slice(rest)?,
        _ => return Err(unreadable()),
    }
    Ok(())
}

/// Adds a text, in which `\n` is a newline, `\xHH` the byte with this number, and `\e` nothing.
pub fn add_unescaped(bytes: &mut Vec<u8>, text: &str) -> MetricResult<()> {
    let mut pieces = text.as_bytes().split(|byte| *byte == b'\\');
    if let Some(plain) = pieces.next() {
        bytes.extend_from_slice(plain)?;
    }
    for piece in pieces {
        add_escaped(bytes, piece)?;
    }
    Ok(())
}

/// Returns the bytes of a text in a row.
pub fn unescaped(alloc: Global, text: &str) -> MetricResult<Vec<u8>> {
    let mut bytes = Vec::new(alloc);
    add_unescaped(&mut bytes, text)?;
    Ok(bytes)
}

/// Returns the text of a word or of a row, in which a backslash begins an escape.
pub fn text_of(alloc: Global, word: &str) -> MetricResult<String> {
    match String::from_utf8(unescaped(alloc, word)?) {
        Ok(text) => Ok(text),
        Err(_) => Err(unreadable()),
    }
}

/// Returns the texts that the words of a row stand for. One space separates two words.
pub fn words_of(alloc: Global, row: &str) -> MetricResult<Vec<String>> {
    let mut words = Vec::new(alloc);
    for word in row.split(' ') {
        words.push(text_of(alloc, word)?)?;
    }
    Ok(words)
}

/// Reads a value as its type writes it.
pub fn number<N: FromStr<Err: Drop>>(text: &str) -> MetricResult<N> {
    match text.parse() {
        Ok(number) => Ok(number),
        Err(_) => Err(unreadable()),
    }
}

/// Reads a list of such values, with a comma between each two.
pub fn numbers<N: FromStr<Err: Drop> + Drop>(alloc: Global, text: &str) -> MetricResult<Vec<N>> {
    let mut list = Vec::new(alloc);
    if !text.is_empty() {
        for item in text.split(',') {
            list.push(number(item)?)?;
        }
    }
    Ok(list)
}

/// Reads a duration: its whole seconds, a slash and its other nanoseconds.
pub fn duration(text: &str) -> MetricResult<Duration> {
    let (seconds, nanoseconds) = text.split_once('/').unwrap_or((text, ""));
    let (seconds, nanoseconds): (u64, u32) = (number(seconds)?, number(nanoseconds)?);
    if nanoseconds > 999_999_999 {
        return Err(unreadable());
    }
    Ok(Duration::new(seconds, nanoseconds))
}

/// Reads a list of durations, with a comma between each two.
pub fn durations(alloc: Global, text: &str) -> MetricResult<Vec<Duration>> {
    let mut list = Vec::new(alloc);
    for item in text.split(',') {
        list.push(duration(item)?)?;
    }
    Ok(list)
}
