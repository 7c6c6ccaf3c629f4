//! The container that a process runs in.
ghost use Rattle.std.specs.Prelude.{◌≡◌};
ghost use Rattle.std.specs.Option.{option_copied};
ghost use Rattle.cadence_environment.specs.Containers.{container_of, fits, has_shape, id_at_end, id_of_line, is_id};
ghost use Rattle.std.specs.Char.{is_ascii_digit};
ghost use Rattle.std.specs.List.{list_all};

use cadence_value::bytes::split_once;
use std::str;

// How many bytes `.scope` has.
const SCOPE: usize = 6;

// Returns whether all bytes of a text are decimal digits.
fn are_digits(text: &[u8]) -> bool
    ensures { result ≡ list_all is_ascii_digit text.now }
{
    let mut rest = text;
    while let [digit, more @ ..] = rest {
        if !digit.is_ascii_digit() {
            return false;
        }
        rest = more;
    }
    true
}

// Returns whether an ASCII character fits a sign of a shape.
fn fits(sign: u8, byte: u8) -> bool
    ensures { result ≡ fits sign byte }
{
    if !byte.is_ascii() {
        return false;
    }
    if sign == b'h' {
        return byte.is_ascii_hexdigit() && !byte.is_ascii_uppercase();
    }
    if sign == b'_' {
        return byte == b'-' || byte == b'_';
    }
    byte == sign
}

// Returns whether a text has a shape.
fn has_shape(shape: &[u8], text: &[u8]) -> bool
    ensures { result ≡ has_shape shape.now text.now }
{
    let mut signs = shape;
    let mut rest = text;
    while let [sign, later @ ..] = signs {
        let [byte, more @ ..] = rest else {
            return false;
        };
        if *sign == b'+' {
            return are_digits(rest);
        }
        if !fits(*sign, *byte) {
            return false;
        }
        signs = later;
        rest = more;
    }
    rest.is_empty()
}

// Returns whether a text is an id. `is_last` says whether it stands at the end of its line.
fn is_id(text: &[u8], is_last: bool) -> bool
    ensures { result ≡ is_id text.now is_last }
{
    has_shape(
        b"hhhhhhhhhhhhhhhhhhhhhhhhhhhhhhhhhhhhhhhhhhhhhhhhhhhhhhhhhhhhhhhh",
        text,
    ) || (has_shape(b"hhhhhhhhhhhhhhhhhhhhhhhhhhhhhhhh-+", text)
        || (has_shape(b"hhhhhhhh_hhhh_hhhh_hhhh_hhhhhhhhhhhh", text)
            || (is_last && has_shape(b"hhhhhhhh-hhhh-hhhh-hhhh-hhhh", text))))
}

// Returns the longest id at the end of a text.
fn id_at_end(text: &[u8], is_last: bool) -> Option<&[u8]>
    ensures { option_copied result ≡ id_at_end text.now is_last }
{
    let mut rest = text;
    while let [_, shorter @ ..] = rest {
        if is_id(rest, is_last) {
            return Some(rest);
        }
        rest = shorter;
    }
    None
}

// Returns the id of a line.
fn id_of_line(line: &[u8]) -> Option<&[u8]>
    ensures { option_copied result ≡ id_of_line line.now }
{
    let at = line.len().saturating_sub(SCOPE);
    if has_shape(b".scope", &line[at..]) {
        return id_at_end(&line[..at], false);
    }
    id_at_end(line, true)
}

// Returns the id that the text says.
fn find_id(text: &[u8]) -> Option<&[u8]>
    ensures { option_copied result ≡ container_of text.now }
{
    let mut rest = text;
    while let Some((line, lines)) = split_once(rest, b'\n') {
        if let Some(id) = id_of_line(line) {
            return Some(id);
        }
        rest = lines;
    }
    id_of_line(rest)
}

/// Returns the id of the container that this text of `/proc/self/cgroup` says, as Datadog's clients find it: of the first
/// line that ends with an id, or with an id and `.scope`, it is that id. An id is 64 digits in hexadecimal, 32 of them
/// with a dash and a number, or the groups of a UUID. The bytes of the text may be any.
pub fn container_id(cgroup: &[u8]) -> Option<&str>
    ensures { option_copied result ≡ container_of cgroup.now }
{
    let id = find_id(cgroup)?;
    Some(unsafe { str::from_utf8_unchecked(id) })
}
