//! A seat: the place of one caller at an audited queue.
ghost use Rattle.std.specs.Prelude.{◌≡◌, ◌↔◌, ◌==◌, [], IfOk, IsTrue, count_by};
ghost use Rattle.cadence_audit.specs.AuditSeats.{next_event, AreReceiptsOf, AreNewSeats, HasAllSeats};

use super::event::{AuditCall, AuditReply, Event};
use std::alloc::{AllocError, Allocator, Global};
use std::marker::Model;

/// The place of one caller at an audited queue. The seat has a receipt of each call of that caller that returned `Ok`.
#[derive(Drop)]
pub struct Seat<A: Allocator = Global> {
    pub(super) number: usize,
    pub(super) receipts: Vec<Event<A>, A>,
}

impl<A: Allocator> Model for Seat<A> {
    ghost use Rattle.cadence_audit.specs.AuditSeats.{SeatState, AreReceiptsOf};

    ghost Value = { SeatState A };

    ghost view = { λ s. record { number = s.number; receipts = s.receipts.items } };

    ghost invariant = { λ s. AreReceiptsOf s.number s.receipts.items };
}

impl<A: Allocator> Seat<A> {
    // Makes a seat without receipts.
    pub(super) fn new(alloc: A, number: usize) -> Seat<A>
        ensures { result ≡ record { number = number; receipts = [] } }
    {
        Seat {
            number,
            receipts: Vec::new(alloc),
        }
    }

    /// Returns the seat's number. The seats of a queue are numbered from 0.
    pub fn number(&self) -> usize
        ensures { result ≡ self.now.number }
    {
        self.number
    }

    /// Returns the receipts of the seat's calls, the oldest first.
    pub fn receipts(&self) -> &[Event<A>]
        ensures receipts { result.now ≡ self.now.receipts }
        ensures own { AreReceiptsOf self.now.number result.now }
    {
        self.receipts.as_slice()
    }

    // Makes the event of the seat's next call.
    pub(super) fn next_event(&self, call: AuditCall<A>, reply: AuditReply<A>) -> Event<A>
        ensures { result ≡ next_event self.now call reply }
    {
        Event {
            seat: self.number,
            count: self.receipts.len(),
            call,
            reply,
        }
    }
}

/// Makes `count` seats without receipts, numbered from 0.
pub(super) fn new_seats<A: Allocator + Clone>(
    alloc: A,
    count: usize,
) -> Result<Vec<Seat<A>, A>, AllocError>
    ensures { IfOk result (λ seats. AreNewSeats count seats.items) }
{
    let mut seats = Vec::with_capacity(alloc.clone()?, count)?;
    for number in 0..count {
        seats.push(Seat::new(alloc.clone()?, number))?;
    }
    Ok(seats)
}

// Returns whether exactly one of the seats has this number.
fn is_once<A: Allocator>(number: usize, seats: &[Seat<A>]) -> bool
    ensures { IsTrue result ↔ (count_by (λ s. s.number == number) seats.now ≡ 1) }
{
    seats.iter().filter(|s| s.number() == number).count() == 1
}

/// Returns whether the numbers of the seats are those below `count`, each once.
pub(super) fn has_all_seats<A: Allocator>(count: usize, seats: &[Seat<A>]) -> bool
    ensures { IsTrue result ↔ HasAllSeats count seats.now }
{
    if seats.len() != count {
        return false;
    }
    for number in 0..count {
        if !is_once(number, seats) {
            return false;
        }
    }
    true
}
