//! Writes the line of a metric from its name, its value and its tags.
ghost use Rattle.std.specs.Prelude.{◌≡◌, [], IfOk, None};
ghost use Rattle.cadence_settings.specs.Call.{metric_for, plain_call};
ghost use Rattle.cadence_text.specs.Draft.{draft_with};
ghost use Rattle.cadence_text.specs.Line.{line_with};
ghost use Rattle.cadence_words.specs.Finds.{FindsOrFails};
ghost use Rattle.cadence_words.specs.Heads.{head_of};
ghost use Rattle.cadence_words.specs.Lines.{IsTextOf, with_rate_and_time};
ghost use Rattle.cadence_words.specs.TagWords.{tag_words};

use crate::defaults::Defaults;
use crate::tags::Tags;
use crate::text::Value;
use crate::word_error::WordError;
use cadence_settings::ClientSettings;
use cadence_text::line::DraftLine;
use cadence_value::decimal::Decimal;
use std::alloc::{AllocError, Allocator};
use std::mem;

// Sets the rate and the time of a draft that has neither, if the command line gives them.
fn set_rate_and_time<A: Allocator>(
    draft: &mut DraftLine<'_, A>,
    rate: Option<Decimal>,
    time: Option<u64>,
)
    requires { (draft.old.rate ≡ None) × (draft.old.time ≡ None) }
    ensures { draft.new ≡ record draft.old { rate = rate; time = time } }
{
    if let Some(rate) = rate {
        draft.set_rate(rate);
    }
    if let Some(time) = time {
        draft.set_time(time);
    }
}

// Returns the draft of a metric without options of its own. The draft takes the memory of the buffer. The caller tested
// the name and the value, so an error of the settings says that memory ran out.
fn plain_draft<'a, A: Allocator + Clone>(
    settings: &'a ClientSettings<A>,
    buffer: Vec<u8, A>,
    name: &str,
    value: Value<'_, A>,
) -> Result<DraftLine<'a, A>, AllocError>
    ensures { IfOk result (λ draft. draft ≡ draft_with (head_of value.entry).1
        (metric_for settings.now (plain_call (head_of value.entry).0 name.now []))) }
{
    match value {
        Value::Numbers(kind, numbers) => {
            match settings.draft_in_buffer(buffer, name, kind, numbers) {
                Ok(draft) => Ok(draft),
                Err(_) => Err(AllocError),
            }
        }
        Value::Text(text) => match settings.text_draft(buffer, name, &text) {
            Ok(draft) => Ok(draft),
            Err(_) => Err(AllocError),
        },
    }
}

// Returns the draft of a metric without tags of its own, with all that the command line adds. The draft takes the
// memory of the buffer.
fn draft_in_buffer<'a, A: Allocator + Clone>(
    defaults: &'a Defaults<A>,
    buffer: Vec<u8, A>,
    name: &str,
    value: Value<'_, A>,
) -> Result<DraftLine<'a, A>, AllocError>
    ensures { IfOk result (λ draft. draft ≡ draft_with (head_of value.entry).1
        (with_rate_and_time defaults.now (metric_for defaults.now.settings
        (plain_call (head_of value.entry).0 name.now [])))) }
{
    let mut draft = plain_draft(&defaults.settings, buffer, name, value)?;
    set_rate_and_time(&mut draft, defaults.rate, defaults.time);
    Ok(draft)
}

// Writes the line of the metric with a name, a value and tags into a buffer, in place of its text.
pub(crate) fn write_value<A: Allocator + Clone>(
    alloc: &A,
    defaults: &Defaults<A>,
    buffer: &mut Vec<u8, A>,
    name: &str,
    value: Value<'_, A>,
    tags: Tags<'_>,
) -> Result<(), WordError>
    ensures { FindsOrFails (IsTextOf defaults.now (line_with (head_of value.entry).1)
        (head_of value.entry).0 name.now (tag_words tags.entry)) (λ _. buffer.new.items) result }
{
    let memory = mem::replace(buffer, Vec::new(alloc.clone()?));
    let mut draft = draft_in_buffer(defaults, memory, name, value)?;
    tags.add_to(&mut draft)?;
    *buffer = draft.into_bytes()?;
    Ok(())
}
