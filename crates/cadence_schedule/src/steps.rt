//! The steps of a schedule and their replies.

use cadence_errors::{MetricResult, SinkError};
use cadence_settings::Call;
use std::alloc::{Allocator, Global};

/// One step of a schedule. Callers make calls; one worker takes lines from the queue and hands them to the packer.
///
/// The Rust crate has no such type.
#[derive(Drop)]
pub enum Step<A: Allocator = Global> {
    /// A caller makes a call: its line is formatted and put into the queue.
    Call(Call<A>),
    /// The worker takes the oldest line from the queue into its hand.
    Take,
    /// The worker hands the line in its hand to the packer.
    Hand,
    /// The packer sends the text that it holds, as one packet.
    Flush,
    /// The queue is stopped: it accepts no more lines, but the lines that wait may still be taken.
    Stop,
}

/// The reply to a step of a schedule. The Rust crate has no such type.
#[derive(Drop)]
pub enum Reply {
    /// The reply to a call: the length of its line in bytes, or an error. Its kind is `InvalidInput` if a duration of
    /// the call passes `u64::MAX` in its unit, or if the settings are strict and a text of the call has a separator;
    /// otherwise it is `SinkError::ChannelDisconnected` if the queue is stopped, `SinkError::ChannelFull` if the queue is
    /// full and drops no line, or `SinkError::OutOfMemory`. After an error the queue is unchanged.
    Called(MetricResult<usize>),
    /// The reply to a call whose line was accepted by a full queue, which dropped its oldest line for it: the length of
    /// the call's line and the length of the dropped line, in bytes.
    CallDropped(usize, usize),
    /// The reply to a take that found a line: its length in bytes. The line is now in hand.
    Text(usize),
    /// The reply to a take if no line waits and the queue is not stopped.
    Empty,
    /// The reply to a take if no line waits and the queue is stopped.
    Ended,
    /// The reply to a take if a line is in hand already. Nothing changed.
    Busy,
    /// The reply to a hand: how many bytes of the line the packer kept, or an error: the one with which the writer
    /// refused a packet, or `NothingWritten` if it took 0 bytes of held text. The hand is empty after both. Of an
    /// oversize line a writer may take fewer bytes than the line has.
    Handed(Result<usize, SinkError>),
    /// The reply to a hand if no line is in hand. Nothing changed.
    Nothing,
    /// The reply to a flush: `Ok` if the packer holds no more text, or an error: the one with which the writer refused
    /// the packet, or `NothingWritten` if it took 0 bytes. After an error the packer holds the text that was not sent.
    Flushed(Result<(), SinkError>),
    /// The reply to a stop.
    Stopped,
}
