//! Reads the metric of a line.
ghost use Rattle.std.specs.Prelude.{◌∷◌, ◌++◌, All};
ghost use Rattle.cadence_text.specs.OneReading.{IsNoSeparator};
ghost use Rattle.cadence_read.specs.LineTexts.{line_texts};
ghost use Rattle.cadence_read.specs.Reads.{ReadsFields, ReadsMetric};

use crate::fault::{NotMetrics, ReadFault};
use crate::fields::{read_container, read_free, read_numbers, read_rate, read_tags, read_time};
use crate::splitting::{TextsOfLine, plain_texts, split_fields, split_first};
use cadence_text::line::{MetricType, OwnedMetric};
use std::alloc::Allocator;

// Reads the metric whose fields have these texts.
// Without this hint a byte of `bench read 512 20` takes 7.4 instructions more.
#[inline(always)]
#[tactic(auto, using(crate::proofs::LineParts::name_listed, crate::proofs::LineParts::tags_listed))]
fn read_texts<A: Allocator + Clone>(
    alloc: &A,
    texts: TextsOfLine<'_>,
) -> Result<OwnedMetric<A>, ReadFault>
    requires { All IsNoSeparator texts.name.now }
    ensures { ReadsFields (line_texts texts.entry) result }
{
    let Some(kind) = MetricType::from_text(texts.kind) else {
        return Err(ReadFault::Unusable(NotMetrics));
    };
    let rate = read_rate(texts.rate)?;
    let time = read_time(texts.time)?;
    let name = read_free(alloc.clone()?, texts.name)?;
    let numbers = read_numbers(alloc.clone()?, texts.numbers)?;
    let tags = read_tags(alloc, texts.tags)?;
    let container = read_container(alloc.clone()?, texts.container)?;
    Ok(OwnedMetric {
        name,
        numbers,
        kind,
        rate,
        tags,
        container,
        time,
    })
}

// Reads the metric whose line is the name, a colon and the rest. A line without optional fields is read by a call of
// its own, from which the compiler removes the code for those fields.
// Without this hint a byte of `bench read 512 20` takes 1.1 instructions more.
#[inline(always)]
pub(crate) fn read_named<A: Allocator + Clone>(
    alloc: &A,
    name: &[u8],
    rest: &[u8],
) -> Result<OwnedMetric<A>, ReadFault>
    requires { All IsNoSeparator name.now }
    ensures { ReadsMetric (name.now ++ 58 ∷ rest.now) result }
{
    let Some(texts) = split_fields(name, rest) else {
        return Err(ReadFault::Unusable(NotMetrics));
    };
    if texts.is_plain() {
        return read_texts(alloc, plain_texts(texts.name, texts.numbers, texts.kind));
    }
    read_texts(alloc, texts)
}

/// Reads the metric of a line. There is at most one metric with this line.
///
/// # Errors
/// `Unusable(NotMetrics)` if no metric has this line, and `OutOfMemory`.
pub fn read_line<A: Allocator + Clone>(alloc: &A, line: &[u8]) -> Result<OwnedMetric<A>, ReadFault>
    ensures { ReadsMetric line.now result }
{
    let Some((name, rest)) = split_first(line, b':') else {
        return Err(ReadFault::Unusable(NotMetrics));
    };
    read_named(alloc, name, rest)
}
