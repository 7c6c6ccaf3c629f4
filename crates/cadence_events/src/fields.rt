//! The optional fields that events and service checks share.
ghost use Rattle.std.specs.Prelude.{◌≡◌, ◌++◌, codes, map};
ghost use Rattle.std.specs.Option.{option_copied, option_map, option_or};
ghost use Rattle.cadence_events.specs.Cleaned.{message_as};
ghost use Rattle.cadence_events.specs.Escapes.{escaped_message};
ghost use Rattle.cadence_events.specs.Fields.{field, seconds_field, tags_after};
ghost use Rattle.cadence_text.specs.Cleaned.{cleaned_tag, container_as as any_as, tag_as};
ghost use Rattle.cadence_text.specs.Draft.{has_text, lead};
ghost use Rattle.cadence_text.specs.Line.{container_field, tag_text};
ghost use Rattle.cadence_text.specs.Record.{tag_of};
ghost use Rattle.cadence_value.specs.Takes.{Takes};

use crate::cleaning::{push_cleaned, push_message_as};
use cadence_text::line::Tag;
use cadence_value::text::PieceWriter;

/// Writes a field that begins with these bytes, or nothing if it has no text.
pub(crate) fn push_field<S: PieceWriter>(line: &mut S, lead: &str, text: Option<&str>)
    ensures { Takes S.ends_as line.old (field lead.now (option_copied text.entry)) line.new }
{
    if let Some(text) = text {
        line.take_piece(lead);
        line.take_piece(text);
    }
}

/// Writes a field as `push_field` does, with its text as it is or cleaned.
pub(crate) fn push_field_as<S: PieceWriter>(
    line: &mut S,
    lead: &str,
    text: Option<&str>,
    is_cleaned: bool,
)
    ensures { Takes S.ends_as line.old
        (field lead.now (any_as is_cleaned (option_copied text.entry))) line.new }
{
    if !is_cleaned {
        return push_field(line, lead, text);
    }
    if let Some(text) = text {
        line.take_piece(lead);
        push_cleaned(line, text, false);
    }
}

/// Writes the field of a time, or nothing if there is no time.
pub(crate) fn push_seconds<S: PieceWriter>(line: &mut S, time: Option<u64>)
    ensures { Takes S.ends_as line.old (seconds_field time) line.new }
{
    if let Some(time) = time {
        line.take_piece("|d:");
        line.take_number(time);
    }
}

// Writes a tag after these bytes, as it is or cleaned.
fn push_tag<S: PieceWriter>(line: &mut S, lead: &str, tag: &Tag<'_>, is_cleaned: bool)
    ensures { Takes S.ends_as line.old
        (lead.now ++ tag_text (tag_as is_cleaned (tag_of tag.now))) line.new }
{
    line.take_piece(lead);
    if is_cleaned {
        return push_cleaned_tag(line, tag);
    }
    if let Some(key) = tag.key {
        line.take_piece(key);
        line.take_byte(b':');
    }
    line.take_piece(tag.text);
}

// Writes a tag with cleaned texts.
fn push_cleaned_tag<S: PieceWriter>(line: &mut S, tag: &Tag<'_>)
    ensures { Takes S.ends_as line.old (tag_text (cleaned_tag (tag_of tag.now))) line.new }
{
    if let Some(key) = tag.key {
        push_cleaned(line, key, false);
        line.take_byte(b':');
    }
    push_cleaned(line, tag.text, tag.key.is_some());
}

// Returns what is written between this text of default tags and the next tag.
fn lead_after(defaults: &str) -> &'static str
    ensures { result.now ≡ lead (has_text defaults.now) }
{
    if defaults.is_empty() { "|#" } else { "," }
}

/// Writes the field of the tags: this text of default tags, and then the tags, as they are or cleaned.
pub(crate) fn push_tags<S: PieceWriter>(
    line: &mut S,
    defaults: &str,
    tags: &[Tag<'_>],
    is_cleaned: bool,
)
    ensures { Takes S.ends_as line.old
        (tags_after defaults.now (map (tag_as is_cleaned) (map tag_of tags.now))) line.new }
{
    line.take_piece(defaults);
    let Some((first, others)) = tags.split_first() else {
        return;
    };
    push_tag(line, lead_after(defaults), first, is_cleaned);
    for tag in others {
        push_tag(line, ",", tag, is_cleaned);
    }
}

/// Writes the field of a container, as it is or cleaned, or that of the default one if there is none.
pub(crate) fn push_container<S: PieceWriter>(
    line: &mut S,
    own: Option<&str>,
    default: Option<&str>,
    is_cleaned: bool,
)
    ensures { Takes S.ends_as line.old (container_field (option_or
        (any_as is_cleaned (option_copied own.entry)) (option_copied default.entry))) line.new }
{
    match own {
        Some(_) => push_field_as(line, "|c:", own, is_cleaned),
        None => push_field(line, "|c:", default),
    }
}

/// Writes the field of a message, without its bars if `is_cleaned` is set, or nothing if there is no message.
pub(crate) fn push_message_field<S: PieceWriter>(
    line: &mut S,
    message: Option<&str>,
    is_cleaned: bool,
)
    ensures { Takes S.ends_as line.old (field (codes "|m:") (option_map escaped_message
        (option_map (message_as is_cleaned) (option_copied message.entry)))) line.new }
{
    if let Some(message) = message {
        line.take_piece("|m:");
        push_message_as(line, message, is_cleaned);
    }
}
