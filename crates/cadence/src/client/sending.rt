//! The calls that send a metric that is being built: its line, its line only if it is chosen, or its line and another one.
ghost use Rattle.std.specs.Prelude.{◌≡◌, ◌++◌, IfOk, codes, string_bytes};
ghost use Rattle.cadence_text.specs.Draft.{draft_line};
ghost use Rattle.cadence.specs.Sending.{HasSentCall, IsMadeFrom, SendsBoth, SendsLine, SendsPending, SendsSampled};

use crate::client::backend::MetricBackend;
use crate::client::builder::MetricBuilder;
use crate::types::Metric;
use cadence_errors::MetricResult;
use cadence_text::line::DraftLine;
use cadence_value::chance::Chance;
use std::alloc::{AllocError, Allocator};

// A line, as a metric that can be sent.
#[derive(Clone, Copy)]
pub(super) struct Line<'a> {
    pub(super) text: &'a str,
}

impl Metric for Line<'_> {
    ghost metric_text = { λ line. line.text.now };

    fn as_metric_str(&self) -> &str {
        self.text
    }
}

// Sends the line of a draft, and returns what is made from its text.
fn send_line<C: MetricBackend, T: From<String<C::Memory>>>(
    client: &C,
    draft: DraftLine<'_, C::Memory>,
) -> MetricResult<T>
    ensures { SendsLine (C.line_may_get client.now) (IsMadeFrom T.from_gives)
        (draft_line draft.entry) result }
{
    let text = draft.into_text()?;
    client.send_metric(&Line { text: &text })?;
    Ok(T::from(text))
}

// Sends the line of a draft with the chance as its rate, and returns what is made from its text, if the number drawn is
// below the chance. An error in place of a draft is returned.
fn send_sample<C: MetricBackend, T: From<String<C::Memory>>>(
    client: &C,
    pending: MetricResult<DraftLine<'_, C::Memory>>,
    chance: Chance,
    draw: u64,
) -> MetricResult<Option<T>>
    ensures { SendsSampled (C.line_may_get client.now) (IsMadeFrom T.from_gives)
        pending.entry chance draw result }
{
    let mut draft = match pending {
        Ok(draft) => draft,
        Err(e) => return Err(e),
    };
    if !chance.is_above(draw) {
        return Ok(None);
    }
    draft.set_rate(chance.number());
    match send_line::<C, T>(client, draft) {
        Ok(sent) => Ok(Some(sent)),
        Err(e) => Err(e),
    }
}

// Returns a text, a newline, and a second text.
fn joined<A: Allocator>(first: String<A>, second: &str) -> Result<String<A>, AllocError>
    ensures { IfOk result (λ text.
        string_bytes text ≡ string_bytes first ++ (codes "\n" ++ second.now)) }
{
    let mut text = first;
    text.push('\n')?;
    text.push_str(second)?;
    Ok(text)
}

// Sends the lines of two drafts as one text, with a newline between them, and returns what is made from it.
fn send_both<C: MetricBackend, T: From<String<C::Memory>>>(
    client: &C,
    first: DraftLine<'_, C::Memory>,
    second: DraftLine<'_, C::Memory>,
) -> MetricResult<T>
    ensures { SendsLine (C.line_may_get client.now) (IsMadeFrom T.from_gives)
        (draft_line first.entry ++ (codes "\n" ++ draft_line second.entry)) result }
{
    let second = second.into_text()?;
    let both = joined(first.into_text()?, &second)?;
    client.send_metric(&Line { text: &both })?;
    Ok(T::from(both))
}

impl<'m, 'c, T: Metric + From<String<C::Memory>>, C: MetricBackend> MetricBuilder<'m, 'c, T, C> {
    ghost use Rattle.cadence.specs.Shown.{pending_of, backend_of};

    /// Sends the metric's line, and returns a metric with this text.
    ///
    /// If the builder keeps an error, it returns this error and doesn't call the sink: the kind is `InvalidInput` if
    /// the value was refused or a strict client found a separator in a text, and `OutOfMemory` if memory ran out.
    /// Otherwise the error is the sink's, as `MetricError::Sink`, or has the kind `OutOfMemory`.
    // Without this hint a call of `bench count_tags` takes 7 instructions more.
    #[inline(always)]
    pub fn try_send(self) -> MetricResult<T>
        ensures answers { SendsPending (C.line_may_get (backend_of self.entry))
            (IsMadeFrom T.from_gives) (pending_of self.entry) result }
        ensures line { HasSentCall (C.line_may_get (backend_of self.entry))
            (IsMadeFrom T.from_gives) (pending_of self.entry) result }
    {
        let MetricBuilder { draft, client, _of } = self;
        match draft {
            Ok(draft) => send_line(client, draft),
            Err(e) => Err(e),
        }
    }

    /// Sends the metric's line, and gives an error to the client's handler. The errors are those of `try_send`. If the
    /// client has no handler, the error is dropped.
    pub fn send(self) {
        let MetricBuilder { draft, client, _of } = self;
        let sent = match draft {
            Ok(draft) => send_line::<C, String<C::Memory>>(client, draft),
            Err(e) => Err(e),
        };
        if let Err(e) = sent {
            client.consume_error(e);
        }
    }

    /// Sends the metric's line and the line of a second metric as one text, with a newline between them, so that no packet
    /// has only one of the two. Returns a metric with this text. The client of the first metric sends it.
    ///
    /// The errors are those of `try_send`. If one of the builders keeps an error, nothing is sent, and this is the error; if
    /// both do, it is the first one's.
    pub fn try_send_before(self, second: MetricBuilder<'m, 'c, T, C>) -> MetricResult<T>
        ensures { SendsBoth (C.line_may_get (backend_of self.entry)) (IsMadeFrom T.from_gives)
            (pending_of self.entry) (pending_of second.entry) result }
    {
        let MetricBuilder { draft, client, _of } = self;
        let MetricBuilder {
            draft: second,
            client: _client,
            _of,
        } = second;
        let first = match draft {
            Ok(first) => first,
            Err(e) => return Err(e),
        };
        match second {
            Ok(second) => send_both(client, first, second),
            Err(e) => Err(e),
        }
    }

    /// Sends the metric's line only if it is chosen: with this chance, if `draw` is a random number. The line has the chance
    /// as its sampling rate, in place of an earlier one. Returns the metric, or `None` if it was not chosen, and then doesn't
    /// call the sink.
    ///
    /// The errors are those of `try_send`. If the builder keeps an error, it returns this error, chosen or not.
    pub fn try_send_sampled(self, chance: Chance, draw: u64) -> MetricResult<Option<T>>
        ensures { SendsSampled (C.line_may_get (backend_of self.entry))
            (IsMadeFrom T.from_gives) (pending_of self.entry) chance draw result }
    {
        let MetricBuilder { draft, client, _of } = self;
        send_sample(client, draft, chance, draw)
    }

    /// Sends the metric's line only if it is chosen, as `try_send_sampled` does, and gives an error to the client's handler.
    pub fn send_sampled(self, chance: Chance, draw: u64) {
        let MetricBuilder { draft, client, _of } = self;
        let sent = send_sample::<C, String<C::Memory>>(client, draft, chance, draw);
        if let Err(e) = sent {
            client.consume_error(e);
        }
    }
}
