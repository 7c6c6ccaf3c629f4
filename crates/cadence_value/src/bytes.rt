//! Splits a text at a byte, and cuts zeros off its end.
ghost use Rattle.std.specs.Prelude.{◌≡◌, ◌≢◌, ◌<◌, ◌≤◌, ◌-◌, ◌∷◌, ◌++◌, All, IfNone, IfSome, length, replicate};
ghost use Rattle.cadence_value.specs.Digits.{EndsPlain};

use std::str;

/// Splits a text at the first byte that equals `mark`. Returns the parts before and after that byte, or `None` if the
/// text does not contain it.
pub fn split_once(text: &[u8], mark: u8) -> Option<(&[u8], &[u8])>
    ensures none { IfNone result (All (λ byte. byte ≢ mark) text.now) }
    ensures front { IfSome result (λ parts. All (λ byte. byte ≢ mark) parts.0.now) }
    ensures whole { IfSome result (λ parts. text.now ≡ parts.0.now ++ mark ∷ parts.1.now) }
{
    let at = text.iter().position(|byte| *byte == mark)?;
    Some((&text[..at], &text[at + 1..]))
}

/// Splits a text in UTF-8 as `split_once` does. `mark` is an ASCII character, so both parts are in UTF-8.
pub fn split_text_once(text: &str, mark: u8) -> Option<(&str, &str)>
    requires { mark < 128 }
    ensures none { IfNone result (All (λ byte. byte ≢ mark) text.now) }
    ensures front { IfSome result (λ parts. All (λ byte. byte ≢ mark) parts.0.now) }
    ensures whole { IfSome result (λ parts. text.now ≡ parts.0.now ++ mark ∷ parts.1.now) }
{
    let (front, rest) = split_once(text.as_bytes(), mark)?;
    let front = unsafe { str::from_utf8_unchecked(front) };
    let rest = unsafe { str::from_utf8_unchecked(rest) };
    Some((front, rest))
}

/// Returns the digits without the zeros at their end.
pub fn trim_end_zeros(digits: &[u8]) -> &[u8]
    ensures zeros { digits.now ≡ result.now
        ++ replicate (length digits.now - length result.now) 48 }
    ensures plain { EndsPlain result.now }
    ensures fewer { length result.now ≤ length digits.now }
{
    let mut count = digits.len();
    while count > 0 && digits[count - 1] == b'0' {
        count -= 1;
    }
    &digits[..count]
}
