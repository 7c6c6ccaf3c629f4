//! The history of an audited queue, and whether receipts agree with it.
ghost use Rattle.std.specs.Prelude.{◌≡◌, ◌↔◌, ◌+◌, ◌<◌, ◌==◌, All, Contains, IsTrue};
ghost use Rattle.cadence_audit.specs.AuditHistory.{AreCounted};
ghost use Rattle.cadence_audit.specs.AuditSeats.{Agrees, AreReceiptsOf, IsRecordedIn, receipt_count};

use super::event::Event;
use super::seat::Seat;
use std::alloc::{Allocator, Global};
use std::marker::Model;

/// The history of an audited queue: its events, the oldest first.
#[derive(Drop)]
pub struct History<A: Allocator = Global> {
    events: Vec<Event<A>, A>,
}

impl<A: Allocator> Model for History<A> {
    ghost use Rattle.std.specs.Prelude.{List};
    ghost use Rattle.cadence_audit.specs.AuditHistory.{AreCounted};
    ghost use Rattle.cadence_audit.specs.declared.event.Event.{Event};

    ghost Value = { List (Event A) };

    ghost view = { λ h. h.events.items };

    ghost invariant = { λ h. AreCounted h.events.items };
}

// Returns whether a receipt and an event are equal.
fn is_same<A: Allocator>(receipt: &Event<A>, event: &Event<A>) -> bool
    ensures { IsTrue result ↔ (receipt.now ≡ event.now) }
{
    *receipt == *event
}

// Returns whether each receipt of the seat with this number is among the events. The n-th receipt has to be the seat's
// n-th event, so one pass over the events is enough.
fn contains_receipts<A: Allocator>(
    events: &[Event<A>],
    number: usize,
    receipts: &[Event<A>],
) -> bool
    requires counted { AreCounted events.now }
    requires own { AreReceiptsOf number receipts.now }
    ensures { IsTrue result ↔ All (Contains events.now) receipts.now }
{
    let mut found = 0;
    for event in events {
        if event.seat == number {
            if found < receipts.len() && !is_same(&receipts[found], event) {
                return false;
            }
            found += 1;
        }
    }
    found >= receipts.len()
}

// Returns whether the receipts of all seats are among the events.
fn contains_all_receipts<A: Allocator>(events: &[Event<A>], seats: &[Seat<A>]) -> bool
    requires { AreCounted events.now }
    ensures { IsTrue result ↔ All (IsRecordedIn events.now) seats.now }
{
    for seat in seats {
        if !contains_receipts(events, seat.number(), seat.receipts()) {
            return false;
        }
    }
    true
}

// Returns whether the seats together have this number of receipts. The function counts down, because a sum might
// overflow.
fn has_receipt_count<A: Allocator>(count: usize, seats: &[Seat<A>]) -> bool
    ensures { IsTrue result ↔ (count ≡ receipt_count seats.now) }
{
    let mut left = count;
    for seat in seats {
        let receipts = seat.receipts().len();
        if receipts > left {
            return false;
        }
        left -= receipts;
    }
    left == 0
}

impl<A: Allocator> History<A> {
    // Makes a history of these events.
    pub(super) fn of(events: Vec<Event<A>, A>) -> History<A>
        requires { AreCounted events.items }
        ensures { result ≡ events.items }
    {
        History { events }
    }

    /// Returns the events, the oldest first.
    pub fn events(&self) -> &[Event<A>]
        ensures { result.now ≡ self.now }
    {
        self.events.as_slice()
    }

    /// Returns whether the receipts of the seats agree with the history. They agree if there are as many events as
    /// receipts, and if each receipt is among the events, with its seat and its count.
    pub fn agrees(&self, seats: &[Seat<A>]) -> bool
        ensures { IsTrue result ↔ Agrees self.now seats.now }
    {
        let events = self.events.as_slice();
        has_receipt_count(events.len(), seats) && contains_all_receipts(events, seats)
    }
}
