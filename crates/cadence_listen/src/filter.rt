//! Which lines are printed.
ghost use Rattle.std.specs.Prelude.{◌↔◌, IsTrue};
ghost use Rattle.cadence_listen.specs.Filters.{HasTag, IsKept, IsKeptMetric, IsLike, IsTagField};

use crate::pieces::split_piece;
use cadence_read::{AnyLine, MetricParts};

/// Which lines are printed: those of metrics for which all patterns hold that are there. Without a pattern it is every line.
///
/// A pattern is a text, or the beginning of a text and then `*`.
#[derive(Clone, Copy, Debug, Default)]
pub struct Filter<'a> {
    /// The pattern of names.
    pub name: Option<&'a [u8]>,
    /// The pattern of kinds, as `c`.
    pub kind: Option<&'a [u8]>,
    /// The pattern of tags, as `env:prod`. One of a line's tags matches it.
    pub tag: Option<&'a [u8]>,
}

// Returns whether a text matches a pattern.
fn is_like(pattern: &[u8], text: &[u8]) -> bool
    ensures { IsTrue result ↔ IsLike pattern.now text.now }
{
    match pattern.strip_suffix(b"*") {
        Some(front) => text.starts_with(front),
        None => text == pattern,
    }
}

// Returns whether a field is of tags, and one of them matches the pattern.
fn is_tag_field(pattern: &[u8], field: &[u8]) -> bool
    ensures { IsTrue result ↔ IsTagField pattern.now field.now }
{
    let mut left = field.strip_prefix(b"#");
    while let Some(text) = left {
        let (tag, others) = split_piece(text, b',');
        if is_like(pattern, tag) {
            return true;
        }
        left = others;
    }
    false
}

// Returns whether one of the tags in the other fields of a line matches the pattern.
fn has_tag(pattern: &[u8], fields: &[u8]) -> bool
    ensures { IsTrue result ↔ HasTag pattern.now fields.now }
{
    let mut left = Some(fields);
    while let Some(text) = left {
        let (field, others) = split_piece(text, b'|');
        if is_tag_field(pattern, field) {
            return true;
        }
        left = others;
    }
    false
}

impl Filter<'_> {
    // Returns whether all patterns that are there hold for a metric.
    fn keeps_metric(&self, parts: MetricParts<'_>) -> bool
        ensures { IsTrue result ↔ IsKeptMetric self.now parts.entry }
    {
        self.name.is_none_or(|pattern| is_like(pattern, parts.name))
            && self.kind.is_none_or(|pattern| is_like(pattern, parts.kind))
            && self
                .tag
                .is_none_or(|pattern| has_tag(pattern, parts.fields))
    }

    /// Returns whether the line is printed.
    pub fn keeps(&self, line: AnyLine<'_>) -> bool
        ensures { IsTrue result ↔ IsKept self.now line.entry }
    {
        match line {
            AnyLine::MetricLine(parts) => self.keeps_metric(parts),
            _ => self.name.is_none() && self.kind.is_none() && self.tag.is_none(),
        }
    }
}
