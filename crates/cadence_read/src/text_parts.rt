//! Cuts a line that is in UTF-8 into texts, as `any_line` cuts bytes.
ghost use Rattle.std.specs.Prelude.{◌≡◌, ◌≢◌, ◌++◌, All};
ghost use Rattle.std.specs.Option.{option_map};
ghost use Rattle.std.specs.Str.{IsUtf8};
ghost use Rattle.cadence_value.specs.Finds.{Finds};
ghost use Rattle.cadence_read.specs.Cuts.{AreFields, IsCut, parts_of_text};

use crate::any_line::{cut_field, cut_metric};
use std::str;

/// The parts of a metric's line, as [`MetricParts`](crate::MetricParts) has them in bytes.
#[derive(Clone, Copy, Debug, PartialEq, Eq)]
pub struct TextParts<'a> {
    /// The text before the first colon.
    pub name: &'a str,
    /// The text between this colon and the first bar. Several values have a colon between each two.
    pub values: &'a str,
    /// The text between this bar and the next one, or the end of the line.
    pub kind: &'a str,
    /// The rest of the line: the other fields, each with the bar before it. It is empty if the line has no other fields.
    pub fields: &'a str,
}

// Returns bytes that are in UTF-8 as a text.
fn as_text(bytes: &[u8]) -> &str
    requires { IsUtf8 bytes.now }
    ensures { result.now ≡ bytes.now }
{
    unsafe { str::from_utf8_unchecked(bytes) }
}

/// Cuts a text before its first bar. The second part is empty if the text has no bar.
pub fn cut_text_field(text: &str) -> (&str, &str)
    ensures whole { text.now ≡ result.0.now ++ result.1.now }
    ensures front { All (λ byte. byte ≢ 124) result.0.now }
    ensures fields { AreFields result.1.now }
{
    let (front, fields) = cut_field(text.as_bytes());
    (as_text(front), as_text(fields))
}

/// Cuts the line of a metric into its parts, and reads none of them. Returns `None` if the line has no colon, or no bar
/// behind its first colon, or a bar before it. It takes no memory.
pub fn cut_text_metric(line: &str) -> Option<TextParts<'_>>
    ensures { Finds (IsCut line.now) (option_map parts_of_text result) }
{
    let parts = cut_metric(line.as_bytes())?;
    Some(TextParts {
        name: as_text(parts.name),
        values: as_text(parts.values),
        kind: as_text(parts.kind),
        fields: as_text(parts.fields),
    })
}
