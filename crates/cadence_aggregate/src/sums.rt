//! The sums of counters.
ghost use Rattle.std.specs.Option.{ok_or};
ghost use Rattle.std.specs.Prelude.{◌≡◌, ◌++◌, ◌∷◌, ◌+◌, ◌-◌, [], OnOk, OnErr, drop, length, take};
ghost use Rattle.lru.specs.LruCache.{lru_cache};
ghost use Rattle.cadence_aggregate.specs.Held.{held_sums};
ghost use Rattle.cadence_aggregate.specs.Quiet.{HasRoomForContext, CanRaise, is_context};
ghost use Rattle.std.specs.Map.{lookup};
ghost use Rattle.cadence_aggregate.specs.Server.{IsSummary, amount};
ghost use Rattle.cadence_aggregate.specs.Within.{AreWithin};

use crate::entries::{copy_text, put_entry};
use crate::line::Line;
use crate::sink::LineSink;
use cadence_errors::SinkError;
use lru::LruCache;
use std::alloc::Global;

// Sends the sum whose first call is the least recent, and forgets it. If the sink refuses it, it stays.
fn send_oldest<S: LineSink>(
    sums: &mut LruCache<String, i64>,
    sink: &mut S,
    fault: &mut SinkError,
) -> Option<()>
    ensures same { S.sent sink.new ++ held_sums sums.new.entries
        ≡ S.sent sink.old ++ held_sums sums.old.entries }
    ensures ok { OnOk (ok_or result fault.new) (sums.new ≡
        lru_cache (take (length sums.old.entries - 1) sums.old.entries) sums.old.cap) }
    ensures err { OnErr (ok_or result fault.new) (sums.new ≡ sums.old) }
    ensures first { OnOk (ok_or result fault.new) (S.sent sink.new
        ≡ S.sent sink.old ++ take 1 (held_sums sums.old.entries)) }
    ensures left { OnOk (ok_or result fault.new) (held_sums sums.new.entries
        ≡ drop 1 (held_sums sums.old.entries)) }
    ensures kept { OnErr (ok_or result fault.new) (S.sent sink.new ≡ S.sent sink.old) }
    ensures leads { S.leads sink.old (ok_or result fault.new) sink.new }
    ensures within { (most : _) →
        AreWithin most (S.sent sink.old) → AreWithin most (S.sent sink.new) }
{
    match sums.peek_lru() {
        Some((context, sum)) => sink.send(Line::Amount(context.as_str(), *sum), fault)?,
        None => return Some(()),
    }
    sums.pop_lru();
    Some(())
}

// Sends the sums that are due, the oldest first, and forgets them. If the sink refuses one, that one and the later ones
// stay, and are still due.
pub(crate) fn send_due_sums<S: LineSink>(
    sums: &mut LruCache<String, i64>,
    due: &mut usize,
    sink: &mut S,
    fault: &mut SinkError,
) -> Option<()>
    ensures same { S.sent sink.new ++ take due.new (held_sums sums.new.entries)
        ≡ S.sent sink.old ++ take due.old (held_sums sums.old.entries) }
    ensures rest { drop due.new (held_sums sums.new.entries)
        ≡ drop due.old (held_sums sums.old.entries) }
    ensures ok { OnOk (ok_or result fault.new) (due.new ≡ 0) }
    ensures leads { S.leads sink.old (ok_or result fault.new) sink.new }
{
    for _ in 0..*due {
        send_oldest(sums, sink, fault)?;
        *due -= 1;
    }
    Some(())
}

// Raises the counter of a context. If the sum would overflow, the old sum is sent first, and the new one begins.
pub(crate) fn add_amount<S: LineSink>(
    alloc: Global,
    sums: &mut LruCache<String, i64>,
    sink: &mut S,
    context: &str,
    by: i64,
    fault: &mut SinkError,
) -> Option<()>
    ensures ok { OnOk (ok_or result fault.new) (IsSummary
        ((S.sent sink.old ++ held_sums sums.old.entries) ++ amount context.now by ∷ [])
        (S.sent sink.new ++ held_sums sums.new.entries)) }
    ensures err { OnErr (ok_or result fault.new) (IsSummary
        (S.sent sink.old ++ held_sums sums.old.entries)
        (S.sent sink.new ++ held_sums sums.new.entries)) }
    ensures leads { S.leads sink.old (ok_or result fault.new) sink.new }
    ensures within { (most : _) →
        AreWithin most (S.sent sink.old) → AreWithin most (S.sent sink.new) }
    ensures quiet { HasRoomForContext sums.old →
        CanRaise (lookup (is_context context.now) sums.old.entries) by →
        S.sent sink.new ≡ S.sent sink.old }
{
    if let Some(sum) = sums.peek_mut(context) {
        match sum.checked_add(by) {
            Some(more) => *sum = more,
            None => {
                sink.send(Line::Amount(context, *sum), fault)?;
                *sum = by;
            }
        }
        return Some(());
    }
    let key = copy_text(alloc, context, fault)?;
    if sums.len() == sums.cap().get() {
        send_oldest(sums, sink, fault)?;
    }
    put_entry(sums, key, by, fault)?;
    Some(())
}
