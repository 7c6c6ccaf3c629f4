//! The queue between a spy and its receiver, and its two ends.
ghost use Rattle.std.specs.Option.{ok_or};
ghost use Rattle.std.specs.Prelude.{vec_items};
ghost use Rattle.cadence_errors.specs.Errors.{MayOnlyRunOutOfMemory};
ghost use Rattle.cadence_queue.specs.Answers.{IsCopyQueued, IsQueueAnswer};

use cadence_errors::{MetricResult, SinkError};
use cadence_queue::{QueueStep, SharedQueue, Taken};
use std::alloc::{Allocator, Global};
use std::sync::{Arc, Wait};

type Messages<A> = Arc<SharedQueue<Vec<u8, A>, A>, A>;

/// What the queue of a spy shows of a message: between two states it accepted the message, or refused it.
pub type MessageStep<A> = QueueStep<Vec<u8, A>, A>;

// Returns the text that was taken, if one was.
fn text_of<T>(taken: Taken<T>) -> Option<T> {
    match taken {
        Taken::Text(text) => Some(text),
        Taken::Empty | Taken::Ended => None,
    }
}

/// Returns the messages of a spy, the oldest first. After its drop the spy refuses lines with `ChannelDisconnected`.
pub struct SpyReceiver<R: Wait + Drop, A: Allocator = Global> {
    rt: R,
    messages: Messages<A>,
}

impl<R: Wait + Drop, A: Allocator> SpyReceiver<R, A> {
    /// Waits for a message and returns it. Returns `None` if no message is left and the spy was dropped.
    pub fn recv(&self) -> Option<Vec<u8, A>> {
        text_of(self.messages.take_wait(&self.rt).0)
    }

    /// Returns the oldest message, if there is one. It doesn't wait for a message.
    pub fn try_recv(&self) -> Option<Vec<u8, A>> {
        text_of(self.messages.try_take(&self.rt).0)
    }

    /// Returns whether no message waits.
    pub fn is_empty(&self) -> bool {
        self.messages.waiting(&self.rt) == 0
    }
}

impl<R: Wait + Drop, A: Allocator> Drop for SpyReceiver<R, A> {
    fn drop(self) {
        drop(self.messages.stop(&self.rt));
        let SpyReceiver { rt: _, messages: _ } = self;
    }
}

/// Puts messages into the queue of a receiver. Its drop stops the queue, because the queue has no other handle.
pub struct Sender<R: Wait + Drop, A: Allocator = Global> {
    rt: R,
    alloc: A,
    messages: Messages<A>,
}

/// Makes both ends of a queue. At most `capacity` messages wait in it; `None` means that any number may wait. The only
/// error is `OutOfMemory`.
pub fn new_channel<R: Wait + Clone + Drop, A: Allocator + Clone>(
    rt: R,
    alloc: A,
    capacity: Option<usize>,
) -> MetricResult<(SpyReceiver<R, A>, Sender<R, A>)>
    ensures { MayOnlyRunOutOfMemory result }
{
    let queue = SharedQueue::new(alloc.clone()?, capacity)?;
    let messages = Arc::new(alloc.clone()?, queue)?;
    let receiver = SpyReceiver {
        rt: rt.clone()?,
        messages: messages.clone()?,
    };
    let sender = Sender {
        rt,
        alloc,
        messages,
    };
    Ok((receiver, sender))
}

impl<R: Wait + Drop, A: Allocator + Clone> Sender<R, A> {
    /// Adds a copy of the bytes at the end of the queue, and returns their number. The errors are `ChannelDisconnected`
    /// after a stop, `ChannelFull` if as many messages wait as the capacity, and `OutOfMemory`, in this order. The
    /// first two request no memory.
    pub fn send(&self, bytes: &[u8]) -> Result<usize, SinkError>
        ensures { IsQueueAnswer bytes.now result }
    {
        let mut fault = SinkError::NothingWritten;
        self.offer(bytes, &mut fault).0.ok_or(fault)
    }

    /// Adds a copy of the bytes, as `send` does, and shows the step. After an error, which is in `fault`, the number is
    /// `None`.
    pub fn offer(&self, bytes: &[u8], fault: &mut SinkError) -> (Option<usize>, MessageStep<A>)
        ensures answer { IsQueueAnswer bytes.now (ok_or result.0 fault.new) }
        ensures copy { IsCopyQueued vec_items result.1 bytes.now (ok_or result.0 fault.new) }
    {
        let (answer, step) = self.messages.offer(&self.rt, |_older| {
            let alloc = self.alloc.clone()?;
            Vec::from_slice(alloc, bytes)
        });
        match answer {
            Ok((_dropped, _text)) => (Some(bytes.len()), step),
            Err(error) => {
                *fault = self.messages.why(error).into();
                (None, step)
            }
        }
    }
}

impl<R: Wait + Drop, A: Allocator> Drop for Sender<R, A> {
    fn drop(self) {
        drop(self.messages.drop_handle(&self.rt));
        let Sender {
            rt: _,
            alloc: _,
            messages: _,
        } = self;
    }
}
