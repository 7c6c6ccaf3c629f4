//! A socket that sends each packet to one path, and waits for room there.
ghost use Rattle.cadence_sinks.specs.Sockets.{IsSocketAnswer, is_io};

use cadence_agent::UnixSocket;
use cadence_errors::{MetricResult, SinkError};
use cadence_send::Outlet;
use cadence_sinks::{PacketSocket, PathSocket};
use std::io;
use std::io::ErrorKind;
use std::os::fd::AsFd;
use std::os::unix::net::UnixStream;
use std::time::Duration;

// Returns how long a packet waits before the wait is reported. This is also the longest time of one call of the system.
fn second() -> Duration {
    Duration::from_secs(1)
}

/// How long the program waits if the Unix socket at the path has no room for a packet.
#[derive(Clone, Copy, Debug, PartialEq, Eq)]
pub enum Patience {
    /// Not at all: the packet is refused.
    None,
    /// For this time, which is not zero. After it packets are refused, until the path takes one again.
    For(Duration),
    /// Until there is room.
    Endless,
}

/// A Unix socket with the path that it sends to. A packet for which the path has no room waits.
#[derive(Drop)]
pub struct SocketOfPath<'a> {
    rt: HostRuntime,
    path: &'a str,
    outlet: Outlet<'a>,
    patience: Patience,
    socket: UnixSocket,
    // How long one call of `socket` waits.
    slice: Duration,
    // A socket that doesn't wait. It is used from when a packet has waited in vain until the path takes a packet again.
    hasty: Option<UnixSocket>,
    // Whether it was reported that packets wait.
    is_told: bool,
}

// Sets how long a call of the socket waits.
fn set_wait(socket: &UnixSocket, most: Duration) -> io::Result<()> {
    // The other file descriptor is of the same socket, so the option is set for both.
    let other = socket.as_fd().try_clone_to_owned()?;
    UnixStream::from(other).set_write_timeout(Some(most))
}

// How a wait for room ended.
#[derive(Clone, Copy, Debug, PartialEq, Eq)]
enum Ending {
    // The packet was sent, or refused for another reason.
    Done,
    // There is still no room.
    Full,
    // A signal interrupted the wait, for example because the program was stopped and goes on now.
    Interrupted,
}

// Returns how a wait with this answer ended.
fn ending_of(answer: &Result<usize, SinkError>) -> Ending {
    match answer {
        Err(SinkError::Io(why)) => match why.kind() {
            ErrorKind::WouldBlock => Ending::Full,
            ErrorKind::Interrupted => Ending::Interrupted,
            _ => Ending::Done,
        },
        _ => Ending::Done,
    }
}

impl<'a> SocketOfPath<'a> {
    /// Returns a socket that sends to a path. The only error is `Io`, with the code of the system.
    pub fn new(
        rt: HostRuntime,
        path: &'a str,
        outlet: Outlet<'a>,
        patience: Patience,
    ) -> MetricResult<SocketOfPath<'a>> {
        let socket = if patience == Patience::None {
            UnixSocket::new(&rt)?
        } else {
            UnixSocket::waiting(&rt)?
        };
        Ok(SocketOfPath {
            rt,
            path,
            outlet,
            patience,
            socket,
            slice: Duration::ZERO,
            hasty: None,
            is_told: false,
        })
    }

    /// Returns the most bytes of a packet that the system takes from this socket.
    pub fn longest_packet(&self) -> usize {
        self.socket.longest_packet()
    }

    // Returns how long the next call of the system waits after the packet has waited for this time: zero if it has waited
    // long enough.
    fn next_slice(&self, waited: Duration) -> Duration {
        match self.patience {
            Patience::None => Duration::ZERO,
            Patience::For(most) => most.saturating_sub(waited).min(second()),
            Patience::Endless => second(),
        }
    }

    // Sends a packet, and waits for room for this time at most.
    fn send_within(&mut self, packet: &[u8], slice: Duration) -> Result<usize, SinkError>
        ensures { IsSocketAnswer is_io packet.now result }
    {
        if slice != self.slice {
            if let Err(why) = set_wait(&self.socket, slice) {
                return Err(SinkError::Io(why));
            }
            self.slice = slice;
        }
        self.socket.send_to(packet, self.path)
    }

    // Reports that a packet has waited for a second, unless that was reported of the packet before it.
    fn tell_wait(&mut self) {
        if self.is_told {
            return;
        }
        self.is_told = true;
        let (rt, outlet) = (&self.rt, self.outlet);
        let _ = eprintln!(rt; "statsd_send: cannot {outlet}: no room for a second: waiting");
    }

    // Sends a packet, and waits for room as long as the patience says.
    fn send_patiently(&mut self, packet: &[u8]) -> Result<usize, SinkError>
        ensures { IsSocketAnswer is_io packet.now result }
    {
        let mut waited = Duration::ZERO;
        for _ in 0..u64::MAX {
            let slice = self.next_slice(waited);
            let answer = self.send_within(packet, slice);
            match ending_of(&answer) {
                Ending::Interrupted => continue,
                Ending::Done => {
                    self.is_told = self.is_told && waited >= second();
                    return answer;
                }
                Ending::Full => {}
            }
            waited = waited.saturating_add(slice);
            if waited >= second() {
                self.tell_wait();
            }
            if self.next_slice(waited).is_zero() {
                self.hasty = UnixSocket::new(&self.rt).ok();
                return answer;
            }
        }
        Err(SinkError::Io(io::Error::from(ErrorKind::WouldBlock)))
    }

    // Sends a packet.
    fn send(&mut self, packet: &[u8]) -> Result<usize, SinkError>
        ensures { IsSocketAnswer is_io packet.now result }
    {
        if self.patience == Patience::None {
            return self.socket.send_to(packet, self.path);
        }
        let Some(hasty) = &self.hasty else {
            return self.send_patiently(packet);
        };
        let answer = hasty.send_to(packet, self.path);
        if ending_of(&answer) != Ending::Full {
            self.hasty = None;
        }
        answer
    }
}

impl PacketSocket for SocketOfPath<'_> {
    ghost may_give = { is_io };

    fn send_packet(&mut self, packet: &[u8], fault: &mut SinkError) -> Option<usize> {
        match self.send(packet) {
            Ok(count) => Some(count),
            Err(error) => {
                *fault = error;
                None
            }
        }
    }
}
