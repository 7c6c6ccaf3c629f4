//! A queue of texts that threads share, and that proves afterwards what happened in it. It stores a history of its
//! calls under its lock, and each caller stores a receipt of each of its calls. At the end the two are compared. If
//! they agree, the history is one that a single thread could have made, and it has the calls of the callers and no
//! others.
//!
//! - `audited_core`: what lies under the lock, which is the queue with its history
//! - `seat`: the place of a caller, with its receipts
//! - `event`: a call with its reply
//! - `history`: the history, and whether receipts agree with it
//! - `text`: a text, as contracts see it
//! - `errors`: why a call did nothing, and why there is no history at the end
#![tactic(auto)]

ghost use Rattle.std.specs.Prelude.{◌≡◌, ◌↔◌, length, string_bytes, All, IfOk, IfErr, OnErr, OnOk, Err};
ghost use Rattle.cadence_errors.specs.Errors.{MayOnlyRunOutOfMemory};
ghost use Rattle.cadence_audit.specs.AuditHistory.{IsLegal, AreInOrder};
ghost use Rattle.cadence_audit.specs.AuditSeats.{with_receipt, AreNewSeats, HasAllSeats, IsRecordedIn, receipt_count};
ghost use Rattle.cadence_audit.specs.TakenText.{taken_bytes};
ghost use Rattle.cadence_audit.specs.declared.event.AuditCall.TheVariants as call;
ghost use Rattle.cadence_audit.specs.declared.event.AuditReply.TheVariants as reply;
ghost use Rattle.cadence_audit.specs.declared.errors.EndFault.TheVariants as fault;

mod audited_core;
mod errors;
mod event;
mod history;
mod seat;
mod text;

use audited_core::AuditedCore;
use cadence_errors::MetricResult;
use cadence_queue::Taken;
pub use errors::{AuditError, EndFault};
pub use event::{AuditCall, AuditReply, Event, SubmitReply};
pub use history::History;
pub use seat::Seat;
use seat::{has_all_seats, new_seats};
use std::alloc::{Allocator, Global};
use std::marker::Model;
use std::sync::{Mutex, Wait};
pub use text::Text;

/// A queue of texts that threads share by reference. Each caller has a seat of its own. Each call is one step of a
/// `QueueCore` under a lock. A call that returns `Ok` adds an event to the history under the lock, and a receipt to the
/// caller's seat.
#[derive(Drop)]
pub struct AuditedQueue<A: Allocator = Global> {
    capacity: Option<usize>,
    seats: usize,
    core: Mutex<AuditedCore<A>>,
}

impl<A: Allocator> Model for AuditedQueue<A> {
    ghost use Rattle.cadence_audit.specs.AuditedCore.{AuditedQueueState};

    ghost Value = { AuditedQueueState };

    ghost view = { λ q. record { capacity = q.capacity; seats = q.seats } };
}

// Returns the result of a take with its text as a `String`.
fn as_string<A: Allocator>(taken: Taken<Text<A>>) -> Taken<String<A>>
    ensures { taken_bytes result ≡ taken }
{
    match taken {
        Taken::Text(text) => Taken::Text(text.into_string()),
        Taken::Empty => Taken::Empty,
        Taken::Ended => Taken::Ended,
    }
}

impl<A: Allocator + Clone> AuditedQueue<A> {
    /// Makes an empty queue and its seats, which are numbered from 0. At most `capacity` texts wait in the queue;
    /// `None` means that any number may wait. The only error is `OutOfMemory`.
    pub fn new(
        alloc: A,
        capacity: Option<usize>,
        seats: usize,
    ) -> MetricResult<(AuditedQueue<A>, Vec<Seat<A>, A>)>
        ensures queue { IfOk result (λ p. p.0 ≡ record { capacity = capacity; seats = seats }) }
        ensures seats { IfOk result (λ p. AreNewSeats seats p.1.items) }
        ensures refused { MayOnlyRunOutOfMemory result }
    {
        let core = AuditedCore::new(alloc.clone()?, capacity, seats)?;
        let places = new_seats(alloc, seats)?;
        let queue = AuditedQueue {
            capacity,
            seats,
            core: Mutex::new(core),
        };
        Ok((queue, places))
    }

    /// Adds a text at the end. If the reply is `Full` or `Stopped`, the text is freed; the event and the receipt have a
    /// copy of it in any case. The errors are `Stranger` if the seat belongs to another queue, and `OutOfMemory`. After
    /// an error the text comes back, and the queue and the seat have not changed.
    pub fn submit(
        &self,
        rt: &impl Wait,
        seat: &mut Seat<A>,
        text: String<A>,
    ) -> Result<SubmitReply, (AuditError, String<A>)>
        ensures ok { IfOk result (λ r.
            seat.new ≡ with_receipt seat.old (call.Submit (string_bytes text)) (reply.Submit r)) }
        ensures back { IfErr result (λ e. string_bytes e.1 ≡ string_bytes text) }
        ensures err { OnErr result (seat.new ≡ seat.old) }
    {
        match self.core.lock(rt).submit(seat, Text::from(text)) {
            Ok(reply) => Ok(reply),
            Err((error, text)) => Err((error, text.into_string())),
        }
    }

    /// Takes the oldest text. It doesn't wait for one. The errors are `Stranger` if the seat belongs to another queue,
    /// and `OutOfMemory`; the queue and the seat have not changed then.
    pub fn take(&self, rt: &impl Wait, seat: &mut Seat<A>) -> Result<Taken<String<A>>, AuditError>
        ensures ok { IfOk result (λ t.
            seat.new ≡ with_receipt seat.old call.Take (reply.Take (taken_bytes t))) }
        ensures err { OnErr result (seat.new ≡ seat.old) }
    {
        match self.core.lock(rt).take(seat) {
            Ok(taken) => Ok(as_string(taken)),
            Err(error) => Err(error),
        }
    }
}

impl<A: Allocator> AuditedQueue<A> {
    /// Stops the queue: it refuses texts from now on. Texts that wait can still be taken. The errors are `Stranger` if
    /// the seat belongs to another queue, and `OutOfMemory`; the queue and the seat have not changed then.
    pub fn stop(&self, rt: &impl Wait, seat: &mut Seat<A>) -> Result<(), AuditError>
        ensures ok { OnOk result (seat.new ≡ with_receipt seat.old call.Stop reply.Stop) }
        ensures err { OnErr result (seat.new ≡ seat.old) }
    {
        self.core.lock(rt).stop(seat)
    }

    /// Ends the queue with all its seats, and returns the history. A queue without seats is ended with the empty list.
    ///
    /// The errors are `SeatsMissing` if the numbers of the seats are not those of all seats of the queue, each once,
    /// and otherwise `Mismatch` if the history doesn't agree with the receipts of the seats, or if the capacity under
    /// the lock isn't the one outside it. After an error the queue and the seats have been dropped.
    pub fn end(self, seats: Vec<Seat<A>, A>) -> Result<History<A>, EndFault>
        ensures missing { (result ≡ Err fault.SeatsMissing) ↔
            (HasAllSeats self.seats seats.items → ⊥) }
        ensures all { OnOk result (HasAllSeats self.seats seats.items) }
        ensures legal { IfOk result (λ h. IsLegal self.capacity h) }
        ensures order { IfOk result (λ h. AreInOrder h) }
        ensures as_many { IfOk result (λ h. length h ≡ receipt_count seats.items) }
        ensures each { IfOk result (λ h. All (IsRecordedIn h) seats.items) }
    {
        let AuditedQueue {
            capacity,
            seats: count,
            core,
        } = self;
        let core = core.into_inner();
        if !has_all_seats(count, seats.as_slice()) {
            return Err(EndFault::SeatsMissing);
        }
        if core.capacity() != capacity {
            return Err(EndFault::Mismatch);
        }
        let history = History::of(core.into_events());
        if history.agrees(seats.as_slice()) {
            Ok(history)
        } else {
            Err(EndFault::Mismatch)
        }
    }
}
