//! What this library's own reader says of a line.
ghost use Rattle.std.specs.Prelude.{◌≡◌, ◌≤◌, ◌++◌, IfOk, codes, length, string_bytes};
ghost use Rattle.std.specs.Fmt.{decimal};
ghost use Rattle.std.specs.Option.{option_map};
ghost use Rattle.cadence_listen.specs.Rows.{IsRemarkOn, SaysPlace};

use crate::place::{Reading, read_or_find};
use std::alloc::{AllocError, Global};

// Returns what has to follow the beginning of a line.
fn wanted(front: &[u8]) -> &'static str {
    if !front.contains(&b':') {
        return "a name and then a colon";
    }
    match front.iter().filter(|byte| **byte == b'|').count() {
        0 => "a number, as 1 or -0.5, and then a bar",
        1 => "the type c, ms, g, m, h, s or d",
        _ => "@RATE, #TAGS, c:CONTAINER and TTIME, in this order",
    }
}

// Returns the text of a remark: the number of a byte, and what is wanted there.
fn remark_text(alloc: Global, byte: usize, why: &str) -> Result<String, AllocError>
    ensures { IfOk result (λ text. string_bytes text
        ≡ codes "byte " ++ (decimal byte ++ (codes ": statsd_listen wants " ++ why.now))) }
{
    let mut text = String::new(alloc);
    write!(text, "byte {byte}: statsd_listen wants {why}")?;
    Ok(text)
}

// Returns the remark on a line that can't be read from this place on.
fn remark_at(alloc: Global, line: &[u8], at: usize) -> Result<String, AllocError>
    requires { at ≤ length line.now }
    ensures { IfOk result (λ text. SaysPlace at (string_bytes text)) }
{
    let why = wanted(&line[..at]);
    let text = remark_text(alloc, at + 1, why)?;
    Ok(text)
}

/// Returns what this library's own reader says of a line that it can't read: the number of the first byte that can't be
/// read, and what it wants there. It says nothing of the line of a metric that its clients could have sent.
///
/// # Errors
/// The only error is that memory ran out.
pub fn remark_on(alloc: Global, line: &[u8]) -> Result<Option<String>, AllocError>
    ensures { IfOk result (λ remark. IsRemarkOn line.now (option_map string_bytes remark)) }
{
    match read_or_find(&alloc, line)? {
        Reading::Read(_) => Ok(None),
        Reading::Unread(at) => Ok(Some(remark_at(alloc, line, at)?)),
    }
}
