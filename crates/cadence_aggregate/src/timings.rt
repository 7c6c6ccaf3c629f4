//! The values of timers, histograms and distributions.
ghost use Rattle.std.specs.Option.{ok_or};
ghost use Rattle.std.specs.Prelude.{◌≡◌, ◌++◌, ◌∷◌, ◌+◌, ◌-◌, ◌<◌, ◌≤◌, [], IfNone, OnOk, OnErr, drop, false, length, string_bytes, take, true};
ghost use Rattle.lru.specs.LruCache.{lru_cache};
ghost use Rattle.cadence_aggregate.specs.Held.{held_timings};
ghost use Rattle.cadence_aggregate.specs.Quiet.{HasRoomForContext, CanAppend, is_context};
ghost use Rattle.std.specs.Map.{lookup};
ghost use Rattle.cadence_aggregate.specs.Server.{IsSummary, timing};
ghost use Rattle.cadence_aggregate.specs.Within.{StayWithin, if_ok};
ghost use Rattle.cadence_errors.specs.declared.SinkError.TheVariants.{OutOfMemory};

use crate::entries::{copy_text, put_entry};
use crate::line::Line;
use crate::memory::out_of_memory;
use crate::sink::LineSink;
use cadence_errors::SinkError;
use lru::LruCache;
use std::alloc::{AllocError, Global};

// Sends the values whose first call is the least recent, and forgets it. If the sink refuses it, it stays.
fn send_oldest<S: LineSink>(
    timings: &mut LruCache<String, String>,
    sink: &mut S,
    fault: &mut SinkError,
) -> Option<()>
    ensures same { S.sent sink.new ++ held_timings timings.new.entries
        ≡ S.sent sink.old ++ held_timings timings.old.entries }
    ensures ok { OnOk (ok_or result fault.new) (timings.new ≡
        lru_cache (take (length timings.old.entries - 1) timings.old.entries) timings.old.cap) }
    ensures err { OnErr (ok_or result fault.new) (timings.new ≡ timings.old) }
    ensures first { OnOk (ok_or result fault.new) (S.sent sink.new
        ≡ S.sent sink.old ++ take 1 (held_timings timings.old.entries)) }
    ensures left { OnOk (ok_or result fault.new) (held_timings timings.new.entries
        ≡ drop 1 (held_timings timings.old.entries)) }
    ensures kept { OnErr (ok_or result fault.new) (S.sent sink.new ≡ S.sent sink.old) }
    ensures leads { S.leads sink.old (ok_or result fault.new) sink.new }
{
    match timings.peek_lru() {
        Some((context, text)) => sink.send(Line::Timing(context.as_str(), text.as_str()), fault)?,
        None => return Some(()),
    }
    timings.pop_lru();
    Some(())
}

// Sends the values that are due, the oldest first, and forgets them. If the sink refuses one, that one and the later ones
// stay, and are still due.
pub(crate) fn send_due_timings<S: LineSink>(
    timings: &mut LruCache<String, String>,
    due: &mut usize,
    sink: &mut S,
    fault: &mut SinkError,
) -> Option<()>
    ensures same { S.sent sink.new ++ take due.new (held_timings timings.new.entries)
        ≡ S.sent sink.old ++ take due.old (held_timings timings.old.entries) }
    ensures rest { drop due.new (held_timings timings.new.entries)
        ≡ drop due.old (held_timings timings.old.entries) }
    ensures ok { OnOk (ok_or result fault.new) (due.new ≡ 0) }
    ensures leads { S.leads sink.old (ok_or result fault.new) sink.new }
{
    for _ in 0..*due {
        send_oldest(timings, sink, fault)?;
        *due -= 1;
    }
    Some(())
}

// Returns whether the line of a context with both texts of values, and two colons, has at most `most` bytes.
fn fits(context: &str, text: &str, values: &str, most: usize) -> bool
    ensures fits { result ≡ true →
        length context.now + length text.now + length values.now + 2 ≤ most }
    ensures longer { result ≡ false →
        most < length context.now + length text.now + length values.now + 2 }
{
    let Some(room) = most.checked_sub(context.len()) else {
        return false;
    };
    let Some(room) = room.checked_sub(text.len()) else {
        return false;
    };
    let Some(room) = room.checked_sub(values.len()) else {
        return false;
    };
    room >= 2
}

// Appends a colon and the values. If memory runs out, the text stays as it was.
fn append(text: &mut String, values: &str) -> Result<(), AllocError>
    ensures ok { OnOk result (string_bytes text.new ≡ string_bytes text.old ++ 58 ∷ values.now) }
    ensures err { OnErr result (string_bytes text.new ≡ string_bytes text.old) }
{
    text.reserve(values.len() + 1)?;
    text.push(':')?;
    text.push_str(values)
}

// Does what `append` does. Its only error is that memory ran out.
fn append_values(text: &mut String, values: &str, fault: &mut SinkError) -> Option<()>
    ensures ok { OnOk (ok_or result fault.new)
        (string_bytes text.new ≡ string_bytes text.old ++ 58 ∷ values.now) }
    ensures err { OnErr (ok_or result fault.new) (string_bytes text.new ≡ string_bytes text.old) }
    ensures memory { IfNone result (fault.new ≡ OutOfMemory) }
{
    match append(text, values) {
        Ok(()) => Some(()),
        Err(_) => out_of_memory(fault),
    }
}

// Adds values to those of a context. If their line would have more bytes than `most`, the line of the earlier ones is
// sent first.
pub(crate) fn add_timing<S: LineSink>(
    alloc: Global,
    timings: &mut LruCache<String, String>,
    sink: &mut S,
    context: &str,
    values: &str,
    most: usize,
    fault: &mut SinkError,
) -> Option<()>
    ensures ok { OnOk (ok_or result fault.new) (IsSummary
        ((S.sent sink.old ++ held_timings timings.old.entries)
        ++ timing context.now values.now ∷ [])
        (S.sent sink.new ++ held_timings timings.new.entries)) }
    ensures err { OnErr (ok_or result fault.new) (IsSummary
        (S.sent sink.old ++ held_timings timings.old.entries)
        (S.sent sink.new ++ held_timings timings.new.entries)) }
    ensures leads { S.leads sink.old (ok_or result fault.new) sink.new }
    ensures within { StayWithin most ((S.sent sink.old ++ held_timings timings.old.entries)
        ++ if_ok (ok_or result fault.new) (timing context.now values.now ∷ []))
        (S.sent sink.new ++ held_timings timings.new.entries) }
    ensures quiet { HasRoomForContext timings.old →
        CanAppend (lookup (is_context context.now) timings.old.entries)
        (length context.now + length values.now) most →
        S.sent sink.new ≡ S.sent sink.old }
{
    if let Some(text) = timings.peek_mut(context) {
        if fits(context, text.as_str(), values, most) {
            append_values(text, values, fault)?;
        } else {
            let fresh = copy_text(alloc, values, fault)?;
            sink.send(Line::Timing(context, text.as_str()), fault)?;
            *text = fresh;
        }
        return Some(());
    }
    let key = copy_text(alloc, context, fault)?;
    let text = copy_text(alloc, values, fault)?;
    if timings.len() == timings.cap().get() {
        send_oldest(timings, sink, fault)?;
    }
    put_entry(timings, key, text, fault)?;
    Some(())
}
