//! Splits a line at its separators.
ghost use Rattle.std.specs.Prelude.{◌≡◌, ◌≢◌, ◌==◌, ◌∷◌, ◌++◌, ◌<◌, ℕ, List, All, IfNone, IfSome, IsTrue};
ghost use Rattle.std.specs.List.{AllByRecursion, slice_split};
ghost use Rattle.std.specs.Option.{option_copied, option_map};
ghost use Rattle.cadence_text.specs.OneReading.{IsNoSeparator};
ghost use Rattle.cadence_read.specs.LineTexts.{FindsTexts, IsMarked, pieces_left, plain_line_texts, line_texts};

use cadence_text::line::first_separator;
use cadence_value::bytes::split_once;

// Returns the text before the first `mark`, and the text after it. If the text has no mark, it returns the whole text
// and `None`.
pub(crate) fn split_piece(text: &[u8], mark: u8) -> (&[u8], Option<&[u8]>)
    ensures { slice_split (λ byte. byte == mark) text.now
        ≡ result.0.now ∷ pieces_left mark (option_copied result.1) }
{
    match split_once(text, mark) {
        Some((piece, left)) => (piece, Some(left)),
        None => (text, None),
    }
}

// Removes the part before the first bar from the text that is left, if that part begins with this mark. Returns the
// rest of that part, and the text after the bar. If the part begins otherwise, the function returns `None` and the text
// as it is.
fn take_marked<'a>(left: Option<&'a [u8]>, mark: &[u8]) -> (Option<&'a [u8]>, Option<&'a [u8]>)
    requires { AllByRecursion (λ byte. byte ≢ 124) mark.now }
    ensures { IsMarked mark.now (pieces_left 124 (option_copied left.entry))
        (option_copied result.0) (pieces_left 124 (option_copied result.1)) }
{
    let Some(text) = left else {
        return (None, None);
    };
    let Some(marked) = text.strip_prefix(mark) else {
        return (None, left);
    };
    let (value, others) = split_piece(marked, b'|');
    (Some(value), others)
}

// Returns the text before the first separator, and the text after it, if that separator is the mark. Returns `None` if the
// text has no separator, or if the first one is another byte.
// Without this hint a byte of `bench read 512 20` takes more instructions, because the mark is not known.
#[inline(always)]
pub(crate) fn split_first(text: &[u8], mark: u8) -> Option<(&[u8], &[u8])>
    requires { IsNoSeparator mark → ⊥ }
    ensures none { IfNone result ((front rest : List ℕ) →
        All IsNoSeparator front → text.now ≡ front ++ mark ∷ rest → ⊥) }
    ensures front { IfSome result (λ parts. All IsNoSeparator parts.0.now) }
    ensures whole { IfSome result (λ parts. text.now ≡ parts.0.now ++ mark ∷ parts.1.now) }
{
    let at = first_separator(text);
    if at == text.len() || text[at] != mark {
        return None;
    }
    Some((&text[..at], &text[at + 1..]))
}

// The texts of a line's fields. Each text is without the mark that begins its field.
#[derive(Clone, Copy)]
pub(crate) struct TextsOfLine<'a> {
    pub(crate) name: &'a [u8],
    pub(crate) numbers: &'a [u8],
    pub(crate) kind: &'a [u8],
    pub(crate) rate: Option<&'a [u8]>,
    pub(crate) tags: Option<&'a [u8]>,
    pub(crate) container: Option<&'a [u8]>,
    pub(crate) time: Option<&'a [u8]>,
}

impl TextsOfLine<'_> {
    // Returns whether the line has no optional fields.
    pub(crate) fn is_plain(&self) -> bool
        ensures { IsTrue result → line_texts self.now ≡
            plain_line_texts self.now.name.now self.now.numbers.now self.now.kind.now }
    {
        self.rate.is_none()
            && self.tags.is_none()
            && self.container.is_none()
            && self.time.is_none()
    }
}

// Returns the texts of a line without optional fields.
pub(crate) fn plain_texts<'a>(name: &'a [u8], numbers: &'a [u8], kind: &'a [u8]) -> TextsOfLine<'a>
    ensures texts { line_texts result ≡ plain_line_texts name.now numbers.now kind.now }
    ensures name { result.name.now ≡ name.now }
{
    TextsOfLine {
        name,
        numbers,
        kind,
        rate: None,
        tags: None,
        container: None,
        time: None,
    }
}

// Splits the line that consists of the name, a colon and the rest. Returns `None` if a field is missing, out of order,
// or not one that a line has.
// Without this hint a byte of `bench read 512 20` takes 2 instructions more.
#[inline(always)]
pub(crate) fn split_fields<'a>(name: &'a [u8], rest: &'a [u8]) -> Option<TextsOfLine<'a>>
    requires { All IsNoSeparator name.now }
    ensures texts { FindsTexts (slice_split (λ byte. byte == 124) (name.now ++ 58 ∷ rest.now))
        (option_map line_texts result) }
    ensures name { IfSome result (λ texts. texts.name.now ≡ name.now) }
{
    let (numbers, fields) = split_piece(rest, b'|');
    let (kind, fields) = split_piece(fields?, b'|');
    if fields.is_none() {
        return Some(plain_texts(name, numbers, kind));
    }
    let (rate, fields) = take_marked(fields, b"@");
    let (tags, fields) = take_marked(fields, b"#");
    let (container, fields) = take_marked(fields, b"c:");
    let (time, fields) = take_marked(fields, b"T");
    if fields.is_some() {
        return None;
    }
    Some(TextsOfLine {
        name,
        numbers,
        kind,
        rate,
        tags,
        container,
        time,
    })
}
