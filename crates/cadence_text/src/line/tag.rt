//! Tags, borrowed and owned.
ghost use Rattle.std.specs.Prelude.{◌≡◌, IfOk, map};
ghost use Rattle.cadence_text.specs.Owned.{tag_of_owned};
ghost use Rattle.cadence_text.specs.Record.{tag_of};

use std::alloc::{AllocError, Allocator, Global};

/// A tag: a label of a metric, such as `route:home`, by which a server can group and filter. Tags are DogStatsD's.
///
/// A line shows it as `key:text`, or as the text alone if it has no key. Neither is escaped or checked: if one has a
/// comma, a bar or a newline in it, a server reads the line differently.
#[derive(Clone, Copy, Debug)]
pub struct Tag<'a> {
    /// The key, if the tag has one.
    pub key: Option<&'a str>,
    /// The text after the key, or the whole tag if it has no key.
    pub text: &'a str,
}

/// A tag that owns its texts: the key, if it has one, and the text. `Tag` explains them.
pub type OwnedTag<A = Global> = (Option<String<A>>, String<A>);

/// Returns the tag that borrows the texts of an owned tag.
pub fn lend_tag<A: Allocator>(tag: &OwnedTag<A>) -> Tag<'_>
    ensures { tag_of result ≡ tag_of_owned tag.now }
{
    Tag {
        key: tag.0.as_ref().map(|key| key.as_str()),
        text: tag.1.as_str(),
    }
}

/// Returns the tags that borrow the texts of owned tags. Allocates one list, and returns `AllocError` if memory runs
/// out.
pub fn lend_tags<A: Allocator>(
    alloc: A,
    tags: &[OwnedTag<A>],
) -> Result<Vec<Tag<'_>, A>, AllocError>
    ensures { IfOk result (λ lent. map tag_of lent.items ≡ map tag_of_owned tags.now) }
{
    let mut lent = Vec::with_capacity(alloc, tags.len())?;
    for tag in tags {
        lent.push(lend_tag(tag))?;
    }
    Ok(lent)
}
