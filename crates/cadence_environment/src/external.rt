//! The external data of the process, by which a Datadog agent finds its container and its pod.
ghost use Rattle.std.specs.Prelude.{◌≡◌, IfOk, IsTrue, string_bytes};
ghost use Rattle.cadence_text.specs.FreeTexts.{is_field_text};
ghost use Rattle.cadence_environment.specs.ExternalData.{external_of, stays};

use std::alloc::{AllocError, Allocator};

// Returns whether a character stays in external data: it is no bar and no control character of ASCII.
fn stays(character: char) -> bool
    ensures { result ≡ stays character }
{
    character != '|' && !character.is_ascii_control()
}

/// Returns the external data that this text of `DD_EXTERNAL_ENV` says, as Datadog's clients send them: the text without
/// its bars and its control characters of ASCII. It is empty if nothing is left, and then there are no external data.
///
/// # Errors
/// Only that memory ran out.
pub fn read_external<A: Allocator>(alloc: A, text: &str) -> Result<String<A>, AllocError>
    ensures said { IfOk result (λ made. string_bytes made ≡ external_of text.now) }
    ensures field { IfOk result (λ made. IsTrue (is_field_text (string_bytes made))) }
{
    let mut made = String::from_str(alloc, text)?;
    made.retain(|character| stays(character));
    Ok(made)
}
