//! Splits a number into its sign, its digits and its exponent.
ghost use Rattle.std.specs.Prelude.{◌≡◌, ◌≢◌, ◌∷◌, ◌++◌, All, IfNone, IfSome, SomeIff};
ghost use Rattle.std.specs.Int.{w32};
ghost use Rattle.std.specs.Int.RustNames.{FitsSigned};
ghost use Rattle.std.specs.Str.Parse.{IsNumeral, signed_digits_value, starts_with_minus, without_leading_sign};
ghost use Rattle.cadence_value.specs.SpelledNumber.{IsDotted, IsMark, IsRaised, lowered_by, raised_by};
ghost use Rattle.cadence_value.specs.Finds.{Finds};

use crate::bytes::split_once;
use std::str;

// Returns whether the text begins with a minus, and the text without a plus or a minus at its beginning.
pub(crate) fn split_sign(text: &[u8]) -> (bool, &[u8])
    ensures below { result.0 ≡ starts_with_minus text.now }
    ensures rest { result.1.now ≡ without_leading_sign text.now }
{
    match text {
        [b'-', rest @ ..] => (true, rest),
        [b'+', rest @ ..] => (false, rest),
        _ => (false, text),
    }
}

// A text that is split at the mark of an exponent.
#[derive(Clone, Copy)]
struct Marked<'a> {
    front: &'a [u8],
    mark: u8,
    rest: &'a [u8],
}

// Splits a text at its first mark of an exponent.
fn split_mark(text: &[u8]) -> Option<Marked<'_>>
    ensures none { IfNone result (All (λ b. (b ≢ 101) × (b ≢ 69)) text.now) }
    ensures front { IfSome result (λ m. All (λ b. (b ≢ 101) × (b ≢ 69)) m.front.now) }
    ensures mark { IfSome result (λ m. IsMark m.mark) }
    ensures whole { IfSome result (λ m. text.now ≡ m.front.now ++ m.mark ∷ m.rest.now) }
{
    let at = text.iter().position(|b| *b == b'e' || *b == b'E')?;
    Some(Marked {
        front: &text[..at],
        mark: text[at],
        rest: &text[at + 1..],
    })
}

// Returns the exponent that a text says: digits, perhaps with a plus or a minus before them.
#[tactic(auto, using(crate::proofs::spelling::OneReading::signed_utf8))]
fn read_exponent(text: &[u8]) -> Option<i32>
    ensures { SomeIff result (IsNumeral 10 (without_leading_sign text.now)
        × FitsSigned w32 (signed_digits_value 10 text.now)) (signed_digits_value 10 text.now) }
{
    let digits = str::from_utf8(text).ok()?;
    digits.parse().ok()
}

// Returns the text before the exponent, and the exponent, which is 0 if there is none.
pub(crate) fn split_exponent(text: &[u8]) -> Option<(&[u8], i32)>
    ensures { Finds (λ r. IsRaised text.now r.0.now r.1
        × All (λ b. (b ≢ 101) × (b ≢ 69)) r.0.now) result }
{
    let Some(Marked { front, rest, .. }) = split_mark(text) else {
        return Some((text, 0));
    };
    let exponent = read_exponent(rest)?;
    Some((front, exponent))
}

// Returns the texts before and after the first dot. Without a dot, the second is empty.
pub(crate) fn split_dot(text: &[u8]) -> (&[u8], &[u8])
    ensures dotted { IsDotted text.now result.0.now result.1.now }
    ensures front { All (λ b. b ≢ 46) result.0.now }
{
    match split_once(text, b'.') {
        Some(parts) => parts,
        None => (text, &[]),
    }
}

// Returns how many zeros and how many decimal places an exponent adds to a number.
pub(crate) fn shifts_of(exponent: i32) -> (u32, u32)
    ensures raised { result.0 ≡ raised_by exponent }
    ensures lowered { result.1 ≡ lowered_by exponent }
{
    if exponent < 0 {
        return (0, exponent.unsigned_abs());
    }
    (exponent as u32, 0)
}
