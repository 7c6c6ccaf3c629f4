//! Why a queue refuses a text, as a small value.
ghost use Rattle.std.specs.Prelude.{◌≡◌};
ghost use Rattle.cadence_queue.specs.Queue.{error_of};

use cadence_errors::SinkError;

/// Why a queue refuses a text. This type fits a register, while a `SinkError` has room for an `io::Error`. So the queue
/// returns this type, and the sink turns it into a `SinkError` at the end.
#[derive(Clone, Copy, Debug, PartialEq, Eq)]
pub enum QueueError {
    /// The queue is stopped.
    Stopped,
    /// The queue is full and has no text to drop for another.
    Full,
    /// Memory ran out.
    OutOfMemory,
}

impl From<QueueError> for SinkError {
    ghost from_gives = { λ refusal e. e ≡ error_of refusal };

    fn from(refusal: QueueError) -> SinkError {
        match refusal {
            QueueError::Stopped => SinkError::ChannelDisconnected,
            QueueError::Full => SinkError::ChannelFull,
            QueueError::OutOfMemory => SinkError::OutOfMemory,
        }
    }
}
