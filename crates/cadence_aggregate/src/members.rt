//! The members of sets.
ghost use Rattle.std.specs.Option.{ok_or};
ghost use Rattle.std.specs.Prelude.{◌≡◌, ◌++◌, ◌∷◌, ◌+◌, ◌-◌, [], OnOk, OnErr, drop, length, take};
ghost use Rattle.lru.specs.LruCache.{lru_cache};
ghost use Rattle.cadence_aggregate.specs.Held.{held_members};
ghost use Rattle.cadence_aggregate.specs.Quiet.{HasRoomForContext};
ghost use Rattle.cadence_aggregate.specs.Server.{IsSummary, member};
ghost use Rattle.cadence_aggregate.specs.Within.{AreWithin};

use crate::entries::{copy_text, put_entry};
use crate::line::Line;
use crate::sink::LineSink;
use cadence_errors::SinkError;
use lru::LruCache;
use std::alloc::Global;

// Sends the member whose first call is the least recent, and forgets it. If the sink refuses it, it stays.
fn send_oldest<S: LineSink>(
    members: &mut LruCache<String, ()>,
    sink: &mut S,
    fault: &mut SinkError,
) -> Option<()>
    ensures same { S.sent sink.new ++ held_members members.new.entries
        ≡ S.sent sink.old ++ held_members members.old.entries }
    ensures ok { OnOk (ok_or result fault.new) (members.new ≡
        lru_cache (take (length members.old.entries - 1) members.old.entries) members.old.cap) }
    ensures err { OnErr (ok_or result fault.new) (members.new ≡ members.old) }
    ensures first { OnOk (ok_or result fault.new) (S.sent sink.new
        ≡ S.sent sink.old ++ take 1 (held_members members.old.entries)) }
    ensures left { OnOk (ok_or result fault.new) (held_members members.new.entries
        ≡ drop 1 (held_members members.old.entries)) }
    ensures kept { OnErr (ok_or result fault.new) (S.sent sink.new ≡ S.sent sink.old) }
    ensures leads { S.leads sink.old (ok_or result fault.new) sink.new }
    ensures within { (most : _) →
        AreWithin most (S.sent sink.old) → AreWithin most (S.sent sink.new) }
{
    match members.peek_lru() {
        Some((context, _)) => sink.send(Line::Member(context.as_str()), fault)?,
        None => return Some(()),
    }
    members.pop_lru();
    Some(())
}

// Sends the members that are due, the oldest first, and forgets them. If the sink refuses one, that one and the later ones
// stay, and are still due.
pub(crate) fn send_due_members<S: LineSink>(
    members: &mut LruCache<String, ()>,
    due: &mut usize,
    sink: &mut S,
    fault: &mut SinkError,
) -> Option<()>
    ensures same { S.sent sink.new ++ take due.new (held_members members.new.entries)
        ≡ S.sent sink.old ++ take due.old (held_members members.old.entries) }
    ensures rest { drop due.new (held_members members.new.entries)
        ≡ drop due.old (held_members members.old.entries) }
    ensures ok { OnOk (ok_or result fault.new) (due.new ≡ 0) }
    ensures leads { S.leads sink.old (ok_or result fault.new) sink.new }
{
    for _ in 0..*due {
        send_oldest(members, sink, fault)?;
        *due -= 1;
    }
    Some(())
}

// Adds a member, if it isn't held yet.
pub(crate) fn add_member<S: LineSink>(
    alloc: Global,
    members: &mut LruCache<String, ()>,
    sink: &mut S,
    context: &str,
    fault: &mut SinkError,
) -> Option<()>
    ensures ok { OnOk (ok_or result fault.new) (IsSummary
        ((S.sent sink.old ++ held_members members.old.entries) ++ member context.now ∷ [])
        (S.sent sink.new ++ held_members members.new.entries)) }
    ensures err { OnErr (ok_or result fault.new) (IsSummary
        (S.sent sink.old ++ held_members members.old.entries)
        (S.sent sink.new ++ held_members members.new.entries)) }
    ensures leads { S.leads sink.old (ok_or result fault.new) sink.new }
    ensures within { (most : _) →
        AreWithin most (S.sent sink.old) → AreWithin most (S.sent sink.new) }
    ensures quiet { HasRoomForContext members.old → S.sent sink.new ≡ S.sent sink.old }
{
    if members.contains(context) {
        return Some(());
    }
    let key = copy_text(alloc, context, fault)?;
    if members.len() == members.cap().get() {
        send_oldest(members, sink, fault)?;
    }
    put_entry(members, key, (), fault)?;
    Some(())
}
