//! What events and service checks have in common: their optional fields, and how their lines are measured and made.
ghost use Rattle.std.specs.Prelude.{◌≡◌, ◌++◌, ◌<◌, ◌^◌, ◌-◌, Bool, IfErr, IfOk, IsTrue, List, None, Option, SomeIff, length, map, min, string_bytes, ℕ};
ghost use Rattle.std.specs.Option.{option_copied};
ghost use Rattle.cadence_errors.specs.declared.input_error.InputError.TheVariants.{OutOfMemory};
ghost use Rattle.cadence_events.specs.Cleaned.{common_as, sent_common};
ghost use Rattle.cadence_events.specs.Fields.{tags_after};
ghost use Rattle.cadence_events.specs.Lined.{Common, common_of, line_after};
ghost use Rattle.cadence_events.specs.Refusals.{MakesLine};
ghost use Rattle.cadence_events.specs.declared.refusal.Unfit.{Unfit};
ghost use Rattle.cadence_text.specs.Cleaned.{tag_as};
ghost use Rattle.cadence_text.specs.Line.{tags_field};
ghost use Rattle.cadence_text.specs.Metric.{Tag as MetricTag};
ghost use Rattle.cadence_value.specs.Takes.{Takes};

use crate::refusal::{LineError, Unfit};
use crate::writers::{ByteCounter, LineText};
use cadence_text::line::Tag;
use cadence_value::text::PieceWriter;
use std::alloc::{AllocError, Allocator};

/// The optional fields that events and service checks share.
#[derive(Clone, Copy, Debug)]
pub struct Common<'a> {
    /// The time, in seconds since 1970. Without it a server takes the time at which the line comes.
    pub time: Option<u64>,
    /// The name of the host.
    pub host: Option<&'a str>,
    /// The tags.
    pub tags: &'a [Tag<'a>],
    /// The id of the container in which the sender runs.
    pub container: Option<&'a str>,
}

/// What has a line: an event or a service check. Its texts are written as they are, or cleaned: with an underscore in
/// place of each separator for which they would be refused.
pub trait Lined: Copy {
    /// With these common fields in place of its own, the first text that can't stand in its line. Its other texts are
    /// cleaned if the flag is true.
    ghost refused: { Bool → Self → Common → Option Unfit };

    /// With these common fields in place of its own, its line with this field of tags. Its other texts are cleaned if the
    /// flag is true.
    ghost spelled: { Bool → Self → Common → List ℕ → List ℕ };

    /// Returns which text can't stand in the line with these common fields, if there is one: the first one in the order
    /// of the line. If the texts are cleaned, all can.
    fn refusal_with(&self, common: &Common<'_>, is_cleaned: bool) -> Option<Unfit>
        ensures first { result ≡ Self.refused is_cleaned self.now
            (common_as is_cleaned (common_of common.now)) }
        ensures fit { IsTrue is_cleaned → result ≡ None };

    /// Writes the line with these common fields, which is never empty. Their tags come after this text of default tags,
    /// and without a container it has the default one. The defaults are written as they are.
    fn push_to<S: PieceWriter>(
        &self,
        line: &mut S,
        common: &Common<'_>,
        tags: &str,
        container: Option<&str>,
        is_cleaned: bool,
    )
        ensures taken { Takes S.ends_as line.old (line_after (Self.spelled is_cleaned self.now)
            tags.now (sent_common is_cleaned (option_copied container.entry)
            (common_of common.now))) line.new }
        ensures some { 0 < length (line_after (Self.spelled is_cleaned self.now) tags.now
            (sent_common is_cleaned (option_copied container.entry) (common_of common.now))) };
}

// Returns the length of a line in bytes, or `u128::MAX` if it passes that.
fn counted<L: Lined>(
    source: &L,
    common: &Common<'_>,
    tags: &str,
    container: Option<&str>,
    is_cleaned: bool,
) -> u128
    ensures { result ≡
        min (length (line_after (L.spelled is_cleaned source.now) tags.now
        (sent_common is_cleaned (option_copied container.entry) (common_of common.now))))
        (2 ^ 128 - 1) }
{
    let mut counter = ByteCounter::new();
    source.push_to(&mut counter, common, tags, container, is_cleaned);
    counter.length()
}

/// Returns the length in bytes of the line that `push_to` writes. It is `None` if the length passes `usize::MAX`. It
/// takes no memory.
pub(crate) fn length_of<L: Lined>(
    source: &L,
    common: &Common<'_>,
    tags: &str,
    container: Option<&str>,
    is_cleaned: bool,
) -> Option<usize>
    ensures { SomeIff result
        (length (line_after (L.spelled is_cleaned source.now) tags.now
        (sent_common is_cleaned (option_copied container.entry) (common_of common.now))) < 2 ^ 64)
        (length (line_after (L.spelled is_cleaned source.now) tags.now
        (sent_common is_cleaned (option_copied container.entry) (common_of common.now)))) }
{
    usize::try_from(counted(source, common, tags, container, is_cleaned)).ok()
}

// Returns the line that `push_to` writes. It takes memory once, as many bytes as the line has. The only error is that
// memory ran out, or that the length passes `usize::MAX`.
fn written<L: Lined, A: Allocator>(
    alloc: A,
    source: &L,
    common: &Common<'_>,
    tags: &str,
    container: Option<&str>,
    is_cleaned: bool,
) -> Result<String<A>, AllocError>
    ensures { IfOk result (λ text. string_bytes text ≡
        line_after (L.spelled is_cleaned source.now) tags.now
        (sent_common is_cleaned (option_copied container.entry) (common_of common.now))) }
{
    let Some(length) = length_of(source, common, tags, container, is_cleaned) else {
        return Err(AllocError);
    };
    let mut line = LineText::with_room(alloc, length)?;
    source.push_to(&mut line, common, tags, container, is_cleaned);
    Ok(line.into_text())
}

/// Returns the line of an event or a service check with these common fields in place of its own, for a client that has
/// default tags and a default container. `tags` is the text of the default tags, as `TagsText` has it: they come before
/// the tags of the common fields. A container of the common fields replaces the default one. Neither of these defaults
/// is tested or cleaned. The other texts are cleaned if `is_cleaned` is set, and then none is refused.
///
/// # Errors
/// `Unusable` with the text that `refusal_with` returns, if it returns one, before any memory is taken. Otherwise
/// `OutOfMemory`.
pub fn line_with<L: Lined, A: Allocator>(
    alloc: A,
    source: &L,
    common: &Common<'_>,
    tags: &str,
    container: Option<&str>,
    is_cleaned: bool,
) -> Result<String<A>, LineError>
    ensures line { MakesLine
        (L.refused is_cleaned source.now (common_as is_cleaned (common_of common.now)))
        (line_after (L.spelled is_cleaned source.now) tags.now
        (sent_common is_cleaned (option_copied container.entry) (common_of common.now))) result }
    ensures defaults { (defaults : List MetricTag) → tags.now ≡ tags_field defaults →
        tags_after tags.now (map (tag_as is_cleaned) (common_of common.now).tags)
        ≡ tags_field (defaults ++ map (tag_as is_cleaned) (common_of common.now).tags) }
    ensures fit { IsTrue is_cleaned → IfErr result (λ e. e ≡ OutOfMemory) }
{
    if let Some(why) = source.refusal_with(common, is_cleaned) {
        return Err(LineError::Unusable(why));
    }
    Ok(written(alloc, source, common, tags, container, is_cleaned)?)
}
