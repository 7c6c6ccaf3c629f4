//! The separators of a line: the bytes that end a name, a tag or a container id in it.
ghost use Rattle.std.specs.Prelude.{◌≡◌, ◌<◌, ◌≤◌, ◌↔◌, ℕ, IsTrue, length, slice_index};
ghost use Rattle.cadence_text.specs.FreeTexts.{is_field_text, is_free_after_key, is_free_text};
ghost use Rattle.cadence_text.specs.OneReading.{AreSeparatorFlags, IsFieldText, IsFreeAfterKey, IsFreeText, IsNoSeparator, IsNoTagEnd};

// For each byte, 1 if it is a separator and 0 otherwise. A look at this table takes fewer instructions than comparisons.
const FLAGS: [u8; 256] = [
    0, 0, 0, 0, 0, 0, 0, 0, 0, 0, 1, 0, 0, 0, 0, 0, 0, 0, 0, 0, 0, 0, 0, 0, 0, 0, 0, 0, 0, 0, 0, 0,
    0, 0, 0, 0, 0, 0, 0, 0, 0, 0, 0, 0, 1, 0, 0, 0, 0, 0, 0, 0, 0, 0, 0, 0, 0, 0, 1, 0, 0, 0, 0, 0,
    0, 0, 0, 0, 0, 0, 0, 0, 0, 0, 0, 0, 0, 0, 0, 0, 0, 0, 0, 0, 0, 0, 0, 0, 0, 0, 0, 0, 0, 0, 0, 0,
    0, 0, 0, 0, 0, 0, 0, 0, 0, 0, 0, 0, 0, 0, 0, 0, 0, 0, 0, 0, 0, 0, 0, 0, 0, 0, 0, 0, 1, 0, 0, 0,
    0, 0, 0, 0, 0, 0, 0, 0, 0, 0, 0, 0, 0, 0, 0, 0, 0, 0, 0, 0, 0, 0, 0, 0, 0, 0, 0, 0, 0, 0, 0, 0,
    0, 0, 0, 0, 0, 0, 0, 0, 0, 0, 0, 0, 0, 0, 0, 0, 0, 0, 0, 0, 0, 0, 0, 0, 0, 0, 0, 0, 0, 0, 0, 0,
    0, 0, 0, 0, 0, 0, 0, 0, 0, 0, 0, 0, 0, 0, 0, 0, 0, 0, 0, 0, 0, 0, 0, 0, 0, 0, 0, 0, 0, 0, 0, 0,
    0, 0, 0, 0, 0, 0, 0, 0, 0, 0, 0, 0, 0, 0, 0, 0, 0, 0, 0, 0, 0, 0, 0, 0, 0, 0, 0, 0, 0, 0, 0, 0,
];

// Returns whether the flag of a byte is zero. The table is a parameter because the checker can't name a constant in a
// proof, and the call below proves that `FLAGS` is such a table.
fn has_no_flag(flags: &[u8; 256], byte: u8) -> bool
    requires { AreSeparatorFlags flags.now }
    ensures { IsTrue result ↔ IsNoSeparator byte }
{
    flags[byte as usize] == 0
}

// Returns whether a byte is no separator.
pub(crate) fn is_no_separator(byte: u8) -> bool
    ensures { IsTrue result ↔ IsNoSeparator byte }
{
    has_no_flag(&FLAGS, byte)
}

// Returns a multiple of four: no byte before it is a separator. The loop tests four bytes at each turn, because the
// compiler then tests the length once for all four.
fn free_fours(text: &[u8]) -> usize
    ensures bound { result ≤ length text.now }
    ensures front { (k : ℕ) → k < result → IsNoSeparator (slice_index text.now k) }
{
    let mut at = 0;
    while text.len() - at >= 4
        && (is_no_separator(text[at])
            & is_no_separator(text[at + 1])
            & is_no_separator(text[at + 2])
            & is_no_separator(text[at + 3]))
    {
        at += 4;
    }
    at
}

/// Returns the index of the first colon, comma, bar or newline in a text. If the text has none, it returns its length.
pub fn first_separator(text: &[u8]) -> usize
    ensures bound { result ≤ length text.now }
    ensures front { (k : ℕ) → k < result → IsNoSeparator (slice_index text.now k) }
    ensures stops { result < length text.now → IsNoSeparator (slice_index text.now result) → ⊥ }
{
    let mut at = free_fours(text);
    while at < text.len() && is_no_separator(text[at]) {
        at += 1;
    }
    at
}

/// Returns whether a text has no colon, comma, bar or newline. If the name, the tags and the container id of a metric
/// are such texts, its line can be read in one way only. A tag may also have colons after its key.
pub fn is_free(text: &[u8]) -> bool
    ensures test { result ≡ is_free_text text.now }
    ensures free { IsTrue result ↔ IsFreeText text.now }
{
    first_separator(text) == text.len()
}

// Returns whether a byte is no separator or a colon, so that it doesn't end a tag.
pub(crate) fn is_no_tag_end(byte: u8) -> bool
    ensures { IsTrue result ↔ IsNoTagEnd byte }
{
    byte == b':' || is_no_separator(byte)
}

/// Returns whether a text has no comma, bar or newline. It may have colons, so it can be the text of a tag with a key,
/// because the first colon of a tag ends the key.
pub fn is_free_after_key(text: &[u8]) -> bool
    ensures test { result ≡ is_free_after_key text.now }
    ensures free { IsTrue result ↔ IsFreeAfterKey text.now }
{
    let mut at = first_separator(text);
    while at < text.len() && is_no_tag_end(text[at]) {
        at += 1;
    }
    at == text.len()
}

/// Returns whether a text has no bar and no newline, so that it can be the text of a field, as external data are.
pub fn is_field_text(text: &[u8]) -> bool
    ensures test { result ≡ is_field_text text.now }
    ensures field { IsTrue result ↔ IsFieldText text.now }
{
    text.iter().all(|byte| *byte != b'|' && *byte != b'\n')
}
