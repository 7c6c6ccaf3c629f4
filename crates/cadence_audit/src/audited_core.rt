//! What lies under the lock of an audited queue: the queue and its history.
ghost use Rattle.std.specs.Prelude.{◌≡◌, ◌↔◌, ◌+◌, ◌<◌, length, vec_len, vec_capacity, IfOk, IfErr, OnOk, IsTrue};
ghost use Rattle.cadence_errors.specs.Errors.{Makes};
ghost use Rattle.cadence_audit.specs.AuditHistory.{take_reply, IsLegal, AreInOrder};
ghost use Rattle.cadence_audit.specs.AuditedCore.{RecordsCall, DoesNothing, IsKnown, IsSubmitReply, new_core};
ghost use Rattle.cadence_audit.specs.declared.event.AuditCall.TheVariants as call;
ghost use Rattle.cadence_audit.specs.declared.event.AuditReply.TheVariants as reply;

use super::errors::AuditError;
use super::event::{AuditCall, AuditReply, Event, SubmitReply};
use super::seat::Seat;
use super::text::Text;
use cadence_errors::{MetricResult, SinkError};
use cadence_queue::{QueueCore, Taken};
use std::alloc::{AllocError, Allocator, Global};
use std::marker::Model;

/// A queue with its history. In proofs, the history of every `AuditedCore` is legal, and its calls bring a new queue to
/// the queue's present state.
#[derive(Drop)]
pub struct AuditedCore<A: Allocator = Global> {
    core: QueueCore<Text<A>, A>,
    capacity: Option<usize>,
    events: Vec<Event<A>, A>,
    // the number of events of each seat
    counts: Vec<usize, A>,
}

impl<A: Allocator> Model for AuditedCore<A> {
    ghost use Rattle.std.specs.Prelude.{length};
    ghost use Rattle.cadence_audit.specs.AuditedCore.{AuditedCoreState, HasLegalHistory};

    ghost Value = { AuditedCoreState A };

    ghost view = { λ d. record {
      capacity = d.capacity;
      events = d.events.items;
      seats = length d.counts.items;
    } };

    ghost invariant = { λ d. HasLegalHistory d.capacity d.events.items d.core d.counts.items };
}

// Makes a copy of what a take would return now.
fn next_taken<A: Allocator + Clone>(
    core: &QueueCore<Text<A>, A>,
) -> Result<Taken<Text<A>>, AllocError>
    ensures { IfOk result (λ t. t ≡ take_reply core.now.stopped core.now.waiting) }
{
    match core.get(0) {
        Some(text) => Ok(Taken::Text(text.clone()?)),
        None if core.is_idle() => Ok(Taken::Empty),
        None => Ok(Taken::Ended),
    }
}

// Makes two copies of a text.
fn two_copies<A: Allocator + Clone>(text: &Text<A>) -> Result<(Text<A>, Text<A>), AllocError>
    ensures { IfOk result (λ p. (p.0 ≡ text.now) × (p.1 ≡ text.now)) }
{
    Ok((text.clone()?, text.clone()?))
}

// Turns the result of `QueueCore::submit` into the reply to the caller, or into the text if memory ran out.
fn submit_reply<A: Allocator>(
    answer: Result<Option<Text<A>>, (SinkError, Text<A>)>,
) -> Result<SubmitReply, Text<A>>
    ensures { IsSubmitReply answer result }
{
    match answer {
        Ok(_) => Ok(SubmitReply::Accepted),
        Err((SinkError::ChannelDisconnected, _)) => Ok(SubmitReply::Stopped),
        Err((SinkError::ChannelFull, _)) => Ok(SubmitReply::Full),
        Err((_, text)) => Err(text),
    }
}

// Makes room for one more event in the history and for its receipt. After that, no step of a call can fail halfway.
fn make_room<A: Allocator>(
    events: &mut Vec<Event<A>, A>,
    receipts: &mut Vec<Event<A>, A>,
) -> Result<(), AllocError>
    ensures same { (events.new.items ≡ events.old.items)
        × (receipts.new.items ≡ receipts.old.items) }
    ensures room { OnOk result ((vec_len events.new < vec_capacity events.new)
        × (vec_len receipts.new < vec_capacity receipts.new)) }
{
    events.reserve(1)?;
    receipts.reserve(1)
}

impl<A: Allocator> AuditedCore<A> {
    /// Returns the capacity of the queue.
    pub fn capacity(&self) -> Option<usize>
        ensures { result ≡ self.now.capacity }
    {
        self.capacity
    }

    /// Returns the events, which are a legal history.
    pub fn into_events(self) -> Vec<Event<A>, A>
        ensures events { result.items ≡ self.events }
        ensures legal { IsLegal self.capacity result.items }
        ensures order { AreInOrder result.items }
    {
        let AuditedCore {
            core: _,
            capacity: _,
            events,
            counts: _,
        } = self;
        events
    }

    // Returns whether the seat is one of this queue, which means that the seat has as many receipts as the queue has
    // events of it.
    fn knows(&self, seat: &Seat<A>) -> bool
        ensures { IsTrue result ↔ IsKnown self.now seat.now }
    {
        let number = seat.number();
        number < self.counts.len() && self.counts[number] == seat.receipts().len()
    }

    /// Stops the queue, as a call of this seat. The errors are `Stranger` if the seat is not one of this queue, and
    /// `OutOfMemory`; the queue and the seat have not changed then.
    pub fn stop(&mut self, seat: &mut Seat<A>) -> Result<(), AuditError>
        ensures ok { OnOk result
            (RecordsCall self.old self.new seat.old seat.new call.Stop reply.Stop) }
        ensures err { IfErr result (DoesNothing self.old self.new seat.old seat.new) }
    {
        if !self.knows(seat) {
            return Err(AuditError::Stranger);
        }
        make_room(&mut self.events, &mut seat.receipts)?;
        let event = seat.next_event(AuditCall::Stop, AuditReply::Stop);
        let receipt = seat.next_event(AuditCall::Stop, AuditReply::Stop);
        self.core.stop();
        self.events.push_reserved(event);
        seat.receipts.push_reserved(receipt);
        self.counts[seat.number] = seat.receipts.len();
        Ok(())
    }
}

impl<A: Allocator + Clone> AuditedCore<A> {
    /// Makes an empty queue with a capacity, for this number of seats. The only error is `OutOfMemory`.
    pub fn new(alloc: A, capacity: Option<usize>, seats: usize) -> MetricResult<AuditedCore<A>>
        ensures { Makes (new_core capacity seats) result }
    {
        Ok(AuditedCore {
            core: QueueCore::new(alloc.clone()?, capacity)?,
            capacity,
            events: Vec::new(alloc.clone()?),
            counts: vec![in alloc; 0; seats]?,
        })
    }

    /// Takes the oldest text, as a call of this seat. The errors are those of `stop`, and the queue and the seat have
    /// not changed after one.
    pub fn take(&mut self, seat: &mut Seat<A>) -> Result<Taken<Text<A>>, AuditError>
        ensures ok { IfOk result (λ t.
            RecordsCall self.old self.new seat.old seat.new call.Take (reply.Take t)) }
        ensures err { IfErr result (DoesNothing self.old self.new seat.old seat.new) }
    {
        if !self.knows(seat) {
            return Err(AuditError::Stranger);
        }
        let noted = next_taken(&self.core)?;
        let kept = noted.clone()?;
        make_room(&mut self.events, &mut seat.receipts)?;
        let event = seat.next_event(AuditCall::Take, AuditReply::Take(noted));
        let receipt = seat.next_event(AuditCall::Take, AuditReply::Take(kept));
        let taken = self.core.take();
        self.events.push_reserved(event);
        seat.receipts.push_reserved(receipt);
        self.counts[seat.number] = seat.receipts.len();
        Ok(taken)
    }

    /// Adds a text at the end, as a call of this seat. The errors are those of `stop`. After an error the text comes
    /// back, and the queue and the seat have not changed.
    pub fn submit(
        &mut self,
        seat: &mut Seat<A>,
        text: Text<A>,
    ) -> Result<SubmitReply, (AuditError, Text<A>)>
        ensures ok { IfOk result (λ r.
            RecordsCall self.old self.new seat.old seat.new (call.Submit text) (reply.Submit r)) }
        ensures err { IfErr result (λ e. DoesNothing self.old self.new seat.old seat.new e.0) }
        ensures back { IfErr result (λ e. e.1 ≡ text) }
    {
        if !self.knows(seat) {
            return Err((AuditError::Stranger, text));
        }
        let Ok((noted, kept)) = two_copies(&text) else {
            return Err((AuditError::OutOfMemory, text));
        };
        if make_room(&mut self.events, &mut seat.receipts).is_err() {
            return Err((AuditError::OutOfMemory, text));
        }
        let reply = match submit_reply(self.core.submit(text)) {
            Ok(reply) => reply,
            Err(text) => return Err((AuditError::OutOfMemory, text)),
        };
        let event = seat.next_event(AuditCall::Submit(noted), AuditReply::Submit(reply));
        let receipt = seat.next_event(AuditCall::Submit(kept), AuditReply::Submit(reply));
        self.events.push_reserved(event);
        seat.receipts.push_reserved(receipt);
        self.counts[seat.number] = seat.receipts.len();
        Ok(reply)
    }
}
