//! Writes cleaned texts: each separator of a text is an underscore in its line.
ghost use Rattle.std.specs.Prelude.{◌≡◌, ◌++◌, ◌∷◌, ◌<◌, IfNone, IfSome};
ghost use Rattle.cadence_events.specs.Cleaned.{barless, message_as};
ghost use Rattle.cadence_events.specs.Escapes.{escaped_message};
ghost use Rattle.cadence_text.specs.Cleaned.{cleaned_byte, cleaned_text, text_as};
ghost use Rattle.cadence_text.specs.OneReading.{IsFreeText, IsNoSeparator};
ghost use Rattle.cadence_value.specs.Takes.{Takes};

use crate::escapes::push_message;
use cadence_text::line::first_separator;
use cadence_value::bytes::split_text_once;
use cadence_value::text::PieceWriter;

// Splits a text at its first separator. Returns the separator between the parts before and after it, or `None` if the
// text has none.
fn split_separator(text: &str) -> Option<(&str, u8, &str)>
    ensures none { IfNone result (IsFreeText text.now) }
    ensures front { IfSome result (λ parts. IsFreeText parts.0.now) }
    ensures mark { IfSome result (λ parts. IsNoSeparator parts.1 → ⊥) }
    ensures whole { IfSome result (λ parts. text.now ≡ parts.0.now ++ parts.1 ∷ parts.2.now) }
{
    let bytes = text.as_bytes();
    let at = first_separator(bytes);
    if at == bytes.len() {
        return None;
    }
    let mark = bytes[at];
    let Some((front, rest)) = split_text_once(text, mark) else {
        return None;
    };
    Some((front, mark, rest))
}

// Returns what is written in place of a separator: an underscore, or a colon for itself after the key of a tag.
fn mark_for(separator: u8, after_key: bool) -> u8
    requires { IsNoSeparator separator → ⊥ }
    ensures cleaned { result ≡ cleaned_byte after_key separator }
    ensures ascii { result < 128 }
{
    if !after_key {
        return b'_';
    }
    if separator == b':' { b':' } else { b'_' }
}

/// Writes a text with an underscore in place of each separator. If the text follows the key of a tag, colons stay.
pub(crate) fn push_cleaned<S: PieceWriter>(line: &mut S, text: &str, after_key: bool)
    ensures { Takes S.ends_as line.old (cleaned_text after_key text.now) line.new }
{
    let mut left = text;
    while let Some((front, separator, rest)) = split_separator(left) {
        line.take_piece(front);
        line.take_byte(mark_for(separator, after_key));
        left = rest;
    }
    line.take_piece(left);
}

/// Writes a text as it is, or cleaned.
pub(crate) fn push_text_as<S: PieceWriter>(line: &mut S, text: &str, is_cleaned: bool)
    ensures { Takes S.ends_as line.old (text_as is_cleaned text.now) line.new }
{
    if is_cleaned {
        return push_cleaned(line, text, false);
    }
    line.take_piece(text);
}

// Writes the message of a service check with an underscore in place of each bar.
fn push_barless<S: PieceWriter>(line: &mut S, message: &str)
    ensures { Takes S.ends_as line.old (escaped_message (barless message.now)) line.new }
{
    let mut left = message;
    while let Some((front, rest)) = split_text_once(left, b'|') {
        push_message(line, front);
        line.take_byte(b'_');
        left = rest;
    }
    push_message(line, left);
}

/// Writes the message of a service check, without its bars if `is_cleaned` is set.
pub(crate) fn push_message_as<S: PieceWriter>(line: &mut S, message: &str, is_cleaned: bool)
    ensures { Takes S.ends_as line.old
        (escaped_message (message_as is_cleaned message.now)) line.new }
{
    if is_cleaned {
        return push_barless(line, message);
    }
    push_message(line, message);
}
