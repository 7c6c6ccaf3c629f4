//! Adds up what lines say of each context, and sends one line for each context at a flush.
ghost use Rattle.std.specs.NonZero.{non_zero_usize_get};
ghost use Rattle.std.specs.Option.{ok_or};
ghost use Rattle.std.specs.Prelude.{◌≡◌, ◌+◌, ◌++◌, [], OnOk, OnErr, IfOk, length};
ghost use Rattle.cadence_aggregate.specs.Aggregate.{CanHold, HasDistinct, HasRoomForEach, held, held_after, held_first};
ghost use Rattle.cadence_aggregate.specs.Fewest.{AreFewest};
ghost use Rattle.cadence_aggregate.specs.Held.{none_due};
ghost use Rattle.cadence_aggregate.specs.Lines.{samples_of};
ghost use Rattle.cadence_aggregate.specs.Server.{IsSummary};
ghost use Rattle.cadence_aggregate.specs.Within.{StayWithin, if_ok};

use crate::due::Due;
use crate::levels::{send_after, send_due_levels, set_level};
use crate::line::Line;
use crate::members::{add_member, send_due_members};
use crate::sink::LineSink;
use crate::sums::{add_amount, send_due_sums};
use crate::timings::{add_timing, send_due_timings};
use cadence_errors::SinkError;
use lru::LruCache;
use std::alloc::{AllocError, Global};
use std::num::NonZeroUsize;

/// Holds for each context what lines said of it since a line of this context was last sent: a sum, the last value of a
/// gauge, a member of a set, or the values of a timer, a histogram or a distribution.
#[derive(Drop)]
pub struct Aggregator {
    alloc: Global,
    sums: LruCache<String, i64>,
    levels: LruCache<String, String>,
    members: LruCache<String, ()>,
    timings: LruCache<String, String>,
    most_bytes: usize,
    due: Due,
}

impl Aggregator {
    /// Makes an aggregator that holds at most `most` contexts of each kind, and packs values as long as their line has
    /// at most `most_bytes` bytes. The only error is that memory ran out.
    pub fn new(
        alloc: Global,
        most: NonZeroUsize,
        most_bytes: usize,
    ) -> Result<Aggregator, AllocError>
        ensures none { IfOk result (λ a. held a ≡ []) }
        ensures limit { IfOk result (λ a. a.most_bytes ≡ most_bytes) }
        ensures caps { IfOk result (HasRoomForEach (non_zero_usize_get most)) }
    {
        Ok(Aggregator {
            alloc,
            sums: LruCache::sparse(alloc, most)?,
            levels: LruCache::sparse(alloc, most)?,
            members: LruCache::sparse(alloc, most)?,
            timings: LruCache::sparse(alloc, most)?,
            most_bytes,
            due: Due::none(),
        })
    }

    /// Adds what a line says to what is held of its context. It sends a line in these cases only:
    ///
    /// - The line can't be added, because it is `Unclear` or `Other`, or the value of a gauge that doesn't begin with a
    ///   digit: the line itself is sent. If it sets a gauge, or may set one, the held values of gauges are sent first.
    /// - The line is of a new context, for which its kind has no room: the oldest context of this kind is sent.
    /// - The sum would overflow, or the line of the values would be too long: the sum or the values so far are sent.
    ///
    /// # Errors
    /// The error of the sink, if it refused a line that had to be sent, and `OutOfMemory`. After an error the result is
    /// `None` and `fault` has the error. The line is not added then, and what was held is sent or still held.
    pub fn add<S: LineSink>(
        &mut self,
        sink: &mut S,
        line: Line<'_>,
        fault: &mut SinkError,
    ) -> Option<()>
        ensures ok { OnOk (ok_or result fault.new) (IsSummary
            ((S.sent sink.old ++ held self.old) ++ samples_of line.entry)
            (S.sent sink.new ++ held self.new)) }
        ensures err { OnErr (ok_or result fault.new) (IsSummary
            (S.sent sink.old ++ held self.old) (S.sent sink.new ++ held self.new)) }
        ensures quiet { CanHold self.old line.entry → S.sent sink.new ≡ S.sent sink.old }
        ensures leads { S.leads sink.old (ok_or result fault.new) sink.new }
        ensures limit { self.new.most_bytes ≡ self.old.most_bytes }
        ensures within { StayWithin self.old.most_bytes
            ((S.sent sink.old ++ held self.old)
            ++ if_ok (ok_or result fault.new) (samples_of line.entry))
            (S.sent sink.new ++ held self.new) }
    {
        match line {
            Line::Amount(context, by) => add_amount(
                self.alloc,
                &mut self.sums,
                sink,
                context,
                by,
                fault,
            ),
            Line::Level(context, value) => set_level(
                self.alloc,
                &mut self.levels,
                sink,
                context,
                value,
                fault,
            ),
            Line::Member(context) => add_member(
                self.alloc,
                &mut self.members,
                sink,
                context,
                fault,
            ),
            Line::Timing(context, values) => {
                add_timing(
                    self.alloc,
                    &mut self.timings,
                    sink,
                    context,
                    values,
                    self.most_bytes,
                    fault,
                )
            }
            Line::Unclear(_) | Line::Other(_) => self.pass(sink, line, fault),
        }
    }

    /// Sends a line at once, even if it is one that can be added. If the line sets a gauge, or may set one, the held
    /// values of gauges are sent first.
    ///
    /// # Errors
    /// The error of the sink, if it did not take a line. Then the result is `None` and `fault` has the error. This line
    /// is not added then, and what was held is sent or still held.
    pub fn pass<S: LineSink>(
        &mut self,
        sink: &mut S,
        line: Line<'_>,
        fault: &mut SinkError,
    ) -> Option<()>
        ensures ok { OnOk (ok_or result fault.new) (IsSummary
            ((S.sent sink.old ++ held self.old) ++ samples_of line.entry)
            (S.sent sink.new ++ held self.new)) }
        ensures err { OnErr (ok_or result fault.new) (IsSummary
            (S.sent sink.old ++ held self.old) (S.sent sink.new ++ held self.new)) }
        ensures leads { S.leads sink.old (ok_or result fault.new) sink.new }
        ensures limit { self.new.most_bytes ≡ self.old.most_bytes }
        ensures within { StayWithin self.old.most_bytes
            ((S.sent sink.old ++ held self.old)
            ++ if_ok (ok_or result fault.new) (samples_of line.entry))
            (S.sent sink.new ++ held self.new) }
    {
        match line {
            Line::Amount(context, by) => sink.send(Line::Amount(context, by), fault),
            Line::Level(context, value) => {
                send_after(&mut self.levels, sink, Line::Level(context, value), fault)
            }
            Line::Member(context) => sink.send(Line::Member(context), fault),
            Line::Timing(context, values) => sink.send(Line::Timing(context, values), fault),
            Line::Unclear(text) => send_after(&mut self.levels, sink, Line::Unclear(text), fault),
            Line::Other(other) => sink.send(Line::Other(other), fault),
        }
    }

    // States that in each table the contexts differ. Returns how many contexts of each kind are held.
    fn lengths(&self) -> Due
        ensures sums { result.sums ≡ length self.now.sums.entries }
        ensures levels { result.levels ≡ length self.now.levels.entries }
        ensures members { result.members ≡ length self.now.members.entries }
        ensures timings { result.timings ≡ length self.now.timings.entries }
        ensures distinct { HasDistinct self.now }
    {
        Due {
            sums: self.sums.len(),
            levels: self.levels.len(),
            members: self.members.len(),
            timings: self.timings.len(),
        }
    }

    /// Returns how many contexts are held.
    pub fn count_held(&self) -> u128
        ensures { result ≡ length (held self.now) }
    {
        let all = self.lengths();
        all.sums as u128 + all.levels as u128 + all.members as u128 + all.timings as u128
    }

    // Makes all contexts due.
    fn make_all_due(&mut self)
        requires { self.old.due ≡ none_due }
        ensures first { held_first self.new ≡ held_after self.old }
        ensures after { held_after self.new ≡ [] }
        ensures limit { self.new.most_bytes ≡ self.old.most_bytes }
    {
        self.due = self.lengths();
    }

    // Sends the contexts that are due, and forgets them.
    fn send_due<S: LineSink>(&mut self, sink: &mut S, fault: &mut SinkError) -> Option<()>
        ensures same { S.sent sink.new ++ held_first self.new
            ≡ S.sent sink.old ++ held_first self.old }
        ensures rest { held_after self.new ≡ held_after self.old }
        ensures ok { OnOk (ok_or result fault.new) (self.new.due ≡ none_due) }
        ensures leads { S.leads sink.old (ok_or result fault.new) sink.new }
        ensures limit { self.new.most_bytes ≡ self.old.most_bytes }
    {
        send_due_sums(&mut self.sums, &mut self.due.sums, sink, fault)?;
        send_due_levels(&mut self.levels, &mut self.due.levels, sink, fault)?;
        send_due_members(&mut self.members, &mut self.due.members, sink, fault)?;
        send_due_timings(&mut self.timings, &mut self.due.timings, sink, fault)
    }

    /// Sends one line for each context, and forgets it. If the last flush failed, as many contexts of each kind as it
    /// left come before all others, the oldest ones first.
    ///
    /// # Errors
    /// The error of the sink, if it did not take a line. Then the result is `None` and `fault` has the error. The flush
    /// ends there, and what was not sent is still held.
    pub fn flush<S: LineSink>(&mut self, sink: &mut S, fault: &mut SinkError) -> Option<()>
        ensures same { S.sent sink.new ++ held self.new ≡ S.sent sink.old ++ held self.old }
        ensures ok { OnOk (ok_or result fault.new) (held self.new ≡ []) }
        ensures distinct { OnOk (ok_or result fault.new) (HasDistinct self.old) }
        ensures fewest { OnOk (ok_or result fault.new) (AreFewest (held self.old)) }
        ensures leads { S.leads sink.old (ok_or result fault.new) sink.new }
        ensures limit { self.new.most_bytes ≡ self.old.most_bytes }
    {
        self.lengths();
        self.send_due(sink, fault)?;
        self.make_all_due();
        self.send_due(sink, fault)
    }
}
