//! Packets that were received and are not printed yet.
use crate::receiver::Receiver;
use std::alloc::{AllocError, AllocFailed, Global};
use std::io;
use std::net::SocketAddr;
use std::time::{Duration, SystemTime};

// How much is received before it is printed, though more waits.
const MOST_BYTES: usize = 1 << 23;

const MOST_PACKETS: u64 = 1 << 16;

/// A packet that was received.
#[derive(Clone, Copy)]
pub struct Packet {
    /// Where it ends in the bytes of its batch.
    end: usize,
    /// When it came, as a time since 1970, if that is asked for.
    pub time: Option<Duration>,
    /// Who sent it, if that is known.
    pub sender: Option<SocketAddr>,
    /// Whether it may have been received only in part.
    pub is_cut: bool,
}

/// Packets that were received and are not printed yet.
#[derive(Drop)]
pub struct Batch {
    buffer: Vec<u8>,
    bytes: Vec<u8>,
    packets: Vec<Packet>,
    has_time: bool,
}

/// Why no more packets are received.
#[derive(Drop)]
pub enum ReceiveError {
    /// The socket failed.
    Socket(io::Error),
    /// Memory ran out.
    OutOfMemory,
}

impl From<AllocError> for ReceiveError {
    fn from(_error: AllocError) -> Self {
        ReceiveError::OutOfMemory
    }
}

impl<T: Drop> From<AllocFailed<T>> for ReceiveError {
    fn from(_error: AllocFailed<T>) -> Self {
        ReceiveError::OutOfMemory
    }
}

impl Batch {
    /// Returns an empty batch, for packets of fewer than `most` bytes. If `has_time` is set, it also stores when each
    /// packet came.
    pub fn new(alloc: Global, most: usize, has_time: bool) -> Result<Batch, AllocError> {
        Ok(Batch {
            buffer: Vec::from_elem(alloc, 0u8, most)?,
            bytes: Vec::new(alloc),
            packets: Vec::new(alloc),
            has_time,
        })
    }

    // Returns the time since 1970, if it is asked for. A clock that fails says zero.
    fn time(&self, rt: &HostRuntime) -> Option<Duration> {
        if !self.has_time {
            return None;
        }
        let since = SystemTime::now(rt)
            .ok()
            .and_then(|now| now.duration_since(SystemTime::UNIX_EPOCH).ok());
        Some(since.unwrap_or(Duration::ZERO))
    }

    /// Receives packets until none waits, but no more than `most`, in place of those of the batch.
    ///
    /// # Errors
    /// After an error the batch has the packets that were received before it.
    pub fn receive(
        &mut self,
        rt: &HostRuntime,
        receiver: &mut Receiver,
        most: u64,
    ) -> Result<(), ReceiveError> {
        self.bytes.clear();
        self.packets.clear();
        for _ in 0..most.min(MOST_PACKETS) {
            if self.bytes.len() >= MOST_BYTES {
                break;
            }
            let (length, sender) = match receiver.take(&mut self.buffer) {
                Ok(Some(received)) => received,
                Ok(None) => break,
                Err(why) => return Err(ReceiveError::Socket(why)),
            };
            let time = self.time(rt);
            self.bytes
                .extend_from_slice(self.buffer.get(..length).unwrap_or(&[]))?;
            self.packets.push(Packet {
                end: self.bytes.len(),
                time,
                sender,
                is_cut: length >= self.buffer.len(),
            })?;
        }
        Ok(())
    }

    /// Returns the packets.
    pub fn packets(&self) -> &[Packet] {
        &self.packets
    }

    /// Returns the bytes of a packet that begins where the one before it ends, and the place where this one ends.
    pub fn bytes_from(&self, start: usize, packet: &Packet) -> (&[u8], usize) {
        let end = packet.end;
        (self.bytes.get(start..end).unwrap_or(&[]), end)
    }
}
