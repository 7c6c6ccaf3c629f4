//! Tags at the end of a line, and the text of default tags.
ghost use Rattle.std.specs.Prelude.{◌≡◌, ◌+◌, ◌++◌, ◌≤◌, [], IfSome, IsUtf8, OnErr, OnOk, length};
ghost use Rattle.cadence_text.specs.Cleaned.{tag_as};
ghost use Rattle.cadence_text.specs.Draft.{lead, tags_text_with};
ghost use Rattle.cadence_text.specs.Line.{tag_text};
ghost use Rattle.cadence_text.specs.Record.{tag_of};
ghost use Rattle.cadence_text.specs.Representable.{IsRepresentableTag};

use crate::line::line_buf::LineBuf;
use crate::line::pieces::{push_lead, push_tag_as};
use crate::line::tag::Tag;
use std::alloc::{AllocError, Allocator, Global};
use std::marker::Model;

// Returns how many bytes are enough for a tag and the characters before it. It returns `None` if the number passes
// `usize::MAX`.
fn tag_room(tag: &Tag<'_>) -> Option<usize>
    ensures { IfSome result (λ n. length (tag_text (tag_of tag.now)) + 2 ≤ n) }
{
    let room = tag.text.len() + 3;
    match tag.key {
        Some(key) => key.len().checked_add(room),
        None => Some(room),
    }
}

// Writes a tag at the end of a line, as it is or with cleaned texts. `begun` says whether the line has a tag already.
// After an error the line is unchanged.
// Without this hint a call of `bench count_tags` takes 251 instructions more.
#[inline(always)]
pub(super) fn add_to<A: Allocator>(
    line: &mut LineBuf<A>,
    begun: bool,
    tag: &Tag<'_>,
    is_cleaned: bool,
) -> Result<(), AllocError>
    ensures ok { OnOk result (line.new.bytes.items ≡
        line.old.bytes.items ++ (lead begun ++ tag_text (tag_as is_cleaned (tag_of tag.now)))) }
    ensures utf8 { OnOk result
        (IsUtf8 (lead begun ++ tag_text (tag_as is_cleaned (tag_of tag.now)))) }
    ensures representable { OnOk result
        (IsRepresentableTag (tag_as is_cleaned (tag_of tag.now))) }
    ensures err { OnErr result (line.new.bytes.items ≡ line.old.bytes.items) }
{
    let Some(room) = tag_room(tag) else {
        return Err(AllocError);
    };
    line.reserve(room)?;
    push_lead(line, begun);
    push_tag_as(line, tag, is_cleaned);
    Ok(())
}

/// The tags of a line as text, with the `|#` before the first one. A client stores its default tags in this form, so
/// that it can copy them to each line as they are. Contracts see the value as its text. The Rust crate has no such
/// type.
#[derive(Drop)]
pub struct TagsText<A: Allocator = Global> {
    line: LineBuf<A>,
}

impl<A: Allocator> Model for TagsText<A> {
    ghost use Rattle.std.specs.Prelude.{ℕ, List};

    ghost Value = { List ℕ };

    ghost view = { λ t. t.line.bytes.items };
}

impl<A: Allocator> TagsText<A> {
    /// Returns the text of no tags, which is empty. It takes no memory.
    pub fn new(alloc: A) -> TagsText<A>
        ensures { result ≡ [] }
    {
        TagsText {
            line: LineBuf::empty(alloc),
        }
    }

    /// Adds a tag at the end, with cleaned texts (`cleaned`) if `is_cleaned` is set. After an error, which says that
    /// memory ran out, the text is unchanged.
    pub fn add(&mut self, tag: Tag<'_>, is_cleaned: bool) -> Result<(), AllocError>
        ensures ok { OnOk result (self.new ≡
            tags_text_with self.old (tag_as is_cleaned (tag_of tag.entry))) }
        ensures err { OnErr result (self.new ≡ self.old) }
    {
        let begun = self.line.len() > 0;
        add_to(&mut self.line, begun, &tag, is_cleaned)
    }

    /// Returns the text.
    pub fn as_str(&self) -> &str
        ensures { result.now ≡ self.now }
    {
        self.line.as_text()
    }
}
