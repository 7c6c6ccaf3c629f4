//! The last levels of gauges.
ghost use Rattle.std.specs.Option.{ok_or};
ghost use Rattle.std.specs.Prelude.{◌≡◌, ◌++◌, ◌∷◌, ◌+◌, ◌-◌, [], true, OnOk, OnErr, drop, length, take};
ghost use Rattle.lru.specs.LruCache.{lru_cache};
ghost use Rattle.cadence_aggregate.specs.Held.{held_levels};
ghost use Rattle.cadence_aggregate.specs.Lines.{samples_of};
ghost use Rattle.cadence_aggregate.specs.Quiet.{AreDistinct, HasRoomForContext};
ghost use Rattle.cadence_aggregate.specs.Server.{IsSummary, is_plain, level};
ghost use Rattle.cadence_aggregate.specs.Within.{AreWithin};

use crate::entries::{copy_text, put_entry};
use crate::line::Line;
use crate::sink::LineSink;
use cadence_errors::SinkError;
use lru::LruCache;
use std::alloc::Global;

// Sends the level whose last call is the least recent, and forgets it. If the sink refuses it, it stays.
fn send_oldest<S: LineSink>(
    levels: &mut LruCache<String, String>,
    sink: &mut S,
    fault: &mut SinkError,
) -> Option<()>
    ensures same { S.sent sink.new ++ held_levels levels.new.entries
        ≡ S.sent sink.old ++ held_levels levels.old.entries }
    ensures ok { OnOk (ok_or result fault.new) (levels.new ≡
        lru_cache (take (length levels.old.entries - 1) levels.old.entries) levels.old.cap) }
    ensures err { OnErr (ok_or result fault.new) (levels.new ≡ levels.old) }
    ensures first { OnOk (ok_or result fault.new) (S.sent sink.new
        ≡ S.sent sink.old ++ take 1 (held_levels levels.old.entries)) }
    ensures left { OnOk (ok_or result fault.new) (held_levels levels.new.entries
        ≡ drop 1 (held_levels levels.old.entries)) }
    ensures kept { OnErr (ok_or result fault.new) (S.sent sink.new ≡ S.sent sink.old) }
    ensures leads { S.leads sink.old (ok_or result fault.new) sink.new }
    ensures within { (most : _) →
        AreWithin most (S.sent sink.old) → AreWithin most (S.sent sink.new) }
{
    match levels.peek_lru() {
        Some((context, held)) => sink.send(Line::Level(context.as_str(), held.as_str()), fault)?,
        None => return Some(()),
    }
    levels.pop_lru();
    Some(())
}

// Sends the levels, the oldest first, and forgets them. If the sink refuses one, that one and the later ones stay.
pub(crate) fn flush_levels<S: LineSink>(
    levels: &mut LruCache<String, String>,
    sink: &mut S,
    fault: &mut SinkError,
) -> Option<()>
    ensures same { S.sent sink.new ++ held_levels levels.new.entries
        ≡ S.sent sink.old ++ held_levels levels.old.entries }
    ensures ok { OnOk (ok_or result fault.new) (levels.new.entries ≡ []) }
    ensures distinct { AreDistinct levels.old.entries }
    ensures leads { S.leads sink.old (ok_or result fault.new) sink.new }
{
    for _ in 0..levels.len() {
        send_oldest(levels, sink, fault)?;
    }
    Some(())
}

// Sends the values that are due, the oldest first, and forgets them. If the sink refuses one, that one and the later ones
// stay, and are still due.
pub(crate) fn send_due_levels<S: LineSink>(
    levels: &mut LruCache<String, String>,
    due: &mut usize,
    sink: &mut S,
    fault: &mut SinkError,
) -> Option<()>
    ensures same { S.sent sink.new ++ take due.new (held_levels levels.new.entries)
        ≡ S.sent sink.old ++ take due.old (held_levels levels.old.entries) }
    ensures rest { drop due.new (held_levels levels.new.entries)
        ≡ drop due.old (held_levels levels.old.entries) }
    ensures ok { OnOk (ok_or result fault.new) (due.new ≡ 0) }
    ensures leads { S.leads sink.old (ok_or result fault.new) sink.new }
{
    for _ in 0..*due {
        send_oldest(levels, sink, fault)?;
        *due -= 1;
    }
    Some(())
}

// Returns whether a value begins with a digit.
fn begins_with_digit(value: &str) -> bool
    ensures { result ≡ is_plain value.now }
{
    match value.as_bytes() {
        [first, ..] => *first >= b'0' && *first < b':',
        [] => false,
    }
}

// Sets a gauge to a value that begins with a digit.
fn hold_level<S: LineSink>(
    alloc: Global,
    levels: &mut LruCache<String, String>,
    sink: &mut S,
    context: &str,
    value: &str,
    fault: &mut SinkError,
) -> Option<()>
    requires { is_plain value.now ≡ true }
    ensures ok { OnOk (ok_or result fault.new) (IsSummary
        ((S.sent sink.old ++ held_levels levels.old.entries) ++ level context.now value.now ∷ [])
        (S.sent sink.new ++ held_levels levels.new.entries)) }
    ensures err { OnErr (ok_or result fault.new) (IsSummary
        (S.sent sink.old ++ held_levels levels.old.entries)
        (S.sent sink.new ++ held_levels levels.new.entries)) }
    ensures leads { S.leads sink.old (ok_or result fault.new) sink.new }
    ensures within { (most : _) →
        AreWithin most (S.sent sink.old) → AreWithin most (S.sent sink.new) }
    ensures quiet { HasRoomForContext levels.old → S.sent sink.new ≡ S.sent sink.old }
{
    let fresh = copy_text(alloc, value, fault)?;
    if let Some(held) = levels.get_mut(context) {
        *held = fresh;
        return Some(());
    }
    let key = copy_text(alloc, context, fault)?;
    if levels.len() == levels.cap().get() {
        send_oldest(levels, sink, fault)?;
    }
    put_entry(levels, key, fresh, fault)?;
    Some(())
}

// Sends the values that are held, and then this line.
pub(crate) fn send_after<S: LineSink>(
    levels: &mut LruCache<String, String>,
    sink: &mut S,
    line: Line<'_>,
    fault: &mut SinkError,
) -> Option<()>
    ensures ok { OnOk (ok_or result fault.new) (IsSummary
        ((S.sent sink.old ++ held_levels levels.old.entries) ++ samples_of line.entry)
        (S.sent sink.new ++ held_levels levels.new.entries)) }
    ensures err { OnErr (ok_or result fault.new) (IsSummary
        (S.sent sink.old ++ held_levels levels.old.entries)
        (S.sent sink.new ++ held_levels levels.new.entries)) }
    ensures leads { S.leads sink.old (ok_or result fault.new) sink.new }
    ensures within { (most : _) → AreWithin most (samples_of line.entry) →
        AreWithin most (S.sent sink.old) → AreWithin most (S.sent sink.new) }
{
    flush_levels(levels, sink, fault)?;
    sink.send(line, fault)
}

// Sets a gauge. If the value doesn't begin with a digit, the values that are held are sent, and then this one.
pub(crate) fn set_level<S: LineSink>(
    alloc: Global,
    levels: &mut LruCache<String, String>,
    sink: &mut S,
    context: &str,
    value: &str,
    fault: &mut SinkError,
) -> Option<()>
    ensures ok { OnOk (ok_or result fault.new) (IsSummary
        ((S.sent sink.old ++ held_levels levels.old.entries) ++ level context.now value.now ∷ [])
        (S.sent sink.new ++ held_levels levels.new.entries)) }
    ensures err { OnErr (ok_or result fault.new) (IsSummary
        (S.sent sink.old ++ held_levels levels.old.entries)
        (S.sent sink.new ++ held_levels levels.new.entries)) }
    ensures leads { S.leads sink.old (ok_or result fault.new) sink.new }
    ensures within { (most : _) →
        AreWithin most (S.sent sink.old) → AreWithin most (S.sent sink.new) }
    ensures quiet { HasRoomForContext levels.old → is_plain value.now ≡ true →
        S.sent sink.new ≡ S.sent sink.old }
{
    if begins_with_digit(value) {
        return hold_level(alloc, levels, sink, context, value, fault);
    }
    send_after(levels, sink, Line::Level(context, value), fault)
}
