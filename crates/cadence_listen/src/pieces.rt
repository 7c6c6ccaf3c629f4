//! Splits a text at a byte, and cuts a byte off its end.
ghost use Rattle.std.specs.Prelude.{◌≡◌, ◌∷◌};
ghost use Rattle.std.specs.Option.{option_copied};
ghost use Rattle.cadence_read.specs.LineTexts.{pieces_left};
ghost use Rattle.cadence_listen.specs.Filters.{pieces};
ghost use Rattle.cadence_listen.specs.Rows.{IsWithoutLast};

use cadence_value::bytes::split_once;

/// Returns the text before the first `mark`, and the text after it, if there is a mark.
pub(crate) fn split_piece(text: &[u8], mark: u8) -> (&[u8], Option<&[u8]>)
    ensures { pieces mark text.now
        ≡ result.0.now ∷ pieces_left mark (option_copied result.1) }
{
    match split_once(text, mark) {
        Some((piece, left)) => (piece, Some(left)),
        None => (text, None),
    }
}

/// Returns a text without this byte at its end.
pub(crate) fn without_last(text: &[u8], last: u8) -> &[u8]
    ensures { IsWithoutLast last text.now result.now }
{
    match text.strip_suffix(&[last]) {
        Some(front) => front,
        None => text,
    }
}
