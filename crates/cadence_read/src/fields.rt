//! Reads the fields of a line, each from its text.
ghost use Rattle.std.specs.Prelude.{All};
ghost use Rattle.std.specs.Option.{option_copied};
ghost use Rattle.cadence_text.specs.OneReading.{IsNoSeparator};
ghost use Rattle.cadence_read.specs.Reads.{ReadsContainer, ReadsNumbers, ReadsRate, ReadsTag, ReadsTags, ReadsText, ReadsTime};

use crate::fault::{NotMetrics, ReadFault};
use crate::splitting::split_piece;
use cadence_text::line::{OwnedTag, is_free};
use cadence_value::bytes::split_once;
use cadence_value::decimal::{Decimal, read_number, read_whole};
use std::alloc::Allocator;

// Copies a text that has no separators. It fails if the text is not UTF-8.
pub(crate) fn read_free<A: Allocator>(alloc: A, text: &[u8]) -> Result<String<A>, ReadFault>
    requires { All IsNoSeparator text.now }
    ensures { ReadsText text.now result }
{
    let Ok(text) = str::from_utf8(text) else {
        return Err(ReadFault::Unusable(NotMetrics));
    };
    Ok(String::from_str(alloc, text)?)
}

// Copies a tag's key or text, or a container. It fails if the text has a separator or is not UTF-8.
fn read_text<A: Allocator>(alloc: A, text: &[u8]) -> Result<String<A>, ReadFault>
    ensures { ReadsText text.now result }
{
    if !is_free(text) {
        return Err(ReadFault::Unusable(NotMetrics));
    }
    read_free(alloc, text)
}

// Reads the numbers between the colons. An empty text has no numbers. The list begins with room for one number, because
// most lines have one.
pub(crate) fn read_numbers<A: Allocator>(
    alloc: A,
    text: &[u8],
) -> Result<Vec<Decimal, A>, ReadFault>
    ensures { ReadsNumbers text.now result }
{
    if text.is_empty() {
        return Ok(Vec::new(alloc));
    }
    let mut numbers = Vec::with_capacity(alloc, 1)?;
    let mut left = Some(text);
    while let Some(text) = left {
        let (piece, others) = split_piece(text, b':');
        let Some(number) = read_number(piece) else {
            return Err(ReadFault::Unusable(NotMetrics));
        };
        numbers.push(number)?;
        left = others;
    }
    Ok(numbers)
}

// Reads the sampling rate, if the line has one.
pub(crate) fn read_rate(text: Option<&[u8]>) -> Result<Option<Decimal>, ReadFault>
    ensures { ReadsRate (option_copied text.entry) result }
{
    let Some(text) = text else {
        return Ok(None);
    };
    match read_number(text) {
        Some(rate) => Ok(Some(rate)),
        None => Err(ReadFault::Unusable(NotMetrics)),
    }
}

// Reads a tag: a key and a text with a colon between them, or a text alone.
fn read_tag<A: Allocator + Clone>(alloc: &A, text: &[u8]) -> Result<OwnedTag<A>, ReadFault>
    ensures { ReadsTag text.now result }
{
    let Some((key, text)) = split_once(text, b':') else {
        let text = read_text(alloc.clone()?, text)?;
        return Ok((None, text));
    };
    let key = read_text(alloc.clone()?, key)?;
    let text = read_text(alloc.clone()?, text)?;
    Ok((Some(key), text))
}

// Reads the tags between the commas, if the line has tags.
// Without this hint a byte of `bench read 512 20` takes 2.4 instructions more.
#[inline(always)]
pub(crate) fn read_tags<A: Allocator + Clone>(
    alloc: &A,
    text: Option<&[u8]>,
) -> Result<Vec<OwnedTag<A>, A>, ReadFault>
    ensures { ReadsTags (option_copied text.entry) result }
{
    let mut tags = Vec::new(alloc.clone()?);
    let mut left = text;
    while let Some(text) = left {
        let (piece, others) = split_piece(text, b',');
        let tag = read_tag(alloc, piece)?;
        tags.push(tag)?;
        left = others;
    }
    Ok(tags)
}

// Reads the container, if the line has one.
// Without this hint a byte of `bench read 512 20` takes 2.5 instructions more.
#[inline(always)]
pub(crate) fn read_container<A: Allocator>(
    alloc: A,
    text: Option<&[u8]>,
) -> Result<Option<String<A>>, ReadFault>
    ensures { ReadsContainer (option_copied text.entry) result }
{
    let Some(text) = text else {
        return Ok(None);
    };
    let container = read_text(alloc, text)?;
    Ok(Some(container))
}

// Reads the time in seconds since 1970, if the line has one.
pub(crate) fn read_time(text: Option<&[u8]>) -> Result<Option<u64>, ReadFault>
    ensures { ReadsTime (option_copied text.entry) result }
{
    let Some(text) = text else {
        return Ok(None);
    };
    let Some(time) = read_whole(text) else {
        return Err(ReadFault::Unusable(NotMetrics));
    };
    match u64::try_from(time) {
        Ok(time) => Ok(Some(time)),
        Err(_) => Err(ReadFault::Unusable(NotMetrics)),
    }
}
