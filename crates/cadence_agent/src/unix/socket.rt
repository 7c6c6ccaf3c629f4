//! A Unix datagram socket that sends to paths.
ghost use Rattle.std.specs.Prelude.{◌≤◌, length, IfErr, IfOk, IsErrAnd, MatchResult};
ghost use Rattle.cadence_sinks.specs.Sockets.{IsSocketAnswer, is_io};
ghost use Rattle.cadence_environment.specs.Paths.{IsFault, IsPath};
ghost use Rattle.cadence_agent.specs.Refusals.{IsOfPath, IsOfSystem, IsSystemRefusal};
ghost use Rattle.cadence_environment.specs.declared.path.PathError.{PathError};
ghost use Rattle.libc.specs.Io.{Moved};
ghost use Rattle.libc.specs.Net.{Kind};

use super::address::address_of;
use cadence_environment::check_path;
use cadence_errors::{MetricResult, SinkError};
use cadence_sinks::PathSocket;
use libc::net::{
    AF_UNIX, MSG_NOSIGNAL, SO_SNDBUF, SOCK_CLOEXEC, SOCK_DGRAM, SOCK_NONBLOCK, SOL_SOCKET,
    getsockopt, sendto, socket,
};
use os::FromRawFd;
use std::io::{Error, ErrorKind};
use std::net::Net;
use std::os::fd::{AsFd, AsRawFd, BorrowedFd, OwnedFd};

/// A Unix datagram socket that sends to paths. Nothing is bound to it or connected to it.
///
/// Each packet is sent to its path anew. So if a server ends and another one binds the same path, the next packet goes
/// to that one. The socket of `new` never waits: if the server's queue is full, the packet is refused with `Io` of the
/// kind `WouldBlock`. The socket of `waiting` waits until there is room. The file descriptor is closed when the socket
/// is dropped, and programs that the process starts don't get it.
///
/// ```text
/// let socket = UnixSocket::new(rt)?;
/// let sink = UnixMetricSink::from(rt.clone()?, alloc, "/run/statsd.sock", socket)?;
/// ```
#[derive(Debug, Drop)]
pub struct UnixSocket {
    fd: OwnedFd,
}

impl UnixSocket {
    /// Makes a socket. The only error is `SinkError::Io` with the code of the system, for example if the process has as
    /// many files open as it may. It takes no memory.
    pub fn new(_net: &impl Net) -> MetricResult<UnixSocket>
        ensures refused { IfErr result IsSystemRefusal }
    {
        UnixSocket::of_kind(SOCK_DGRAM | SOCK_NONBLOCK | SOCK_CLOEXEC)
    }

    /// Makes a socket that waits while the server's queue is full, until the server reads from it or ends. Otherwise this
    /// is `new`.
    pub fn waiting(_net: &impl Net) -> MetricResult<UnixSocket>
        ensures refused { IfErr result IsSystemRefusal }
    {
        UnixSocket::of_kind(SOCK_DGRAM | SOCK_CLOEXEC)
    }

    // Makes a socket of this kind.
    fn of_kind(kind: i32) -> MetricResult<UnixSocket>
        requires { Kind kind }
        ensures refused { IfErr result IsSystemRefusal }
    {
        let fd = unsafe { socket(AF_UNIX, kind, 0) };
        if fd < 0 {
            return Err(last_error())?;
        }
        Ok(UnixSocket {
            fd: unsafe { OwnedFd::from_raw_fd(fd) },
        })
    }

    /// Returns the most bytes of a packet that the system takes from this socket: Linux takes 32 less than the size of the
    /// socket's send buffer. If the system doesn't return the size, this is `usize::MAX`.
    pub fn longest_packet(&self) -> usize {
        let (mut value, mut length) = ([0u8; 16], 16);
        let fd = self.fd.as_raw_fd();
        let status = unsafe { getsockopt(fd, SOL_SOCKET, SO_SNDBUF, &mut value, &mut length) };
        let size = u32::from_le_bytes([value[0], value[1], value[2], value[3]]) as usize;
        if status < 0 || size < 32 {
            return usize::MAX;
        }
        size - 32
    }
}

/// Lends the file descriptor, for example to bind the socket to a path by `Files::bind_unix`.
impl AsFd for UnixSocket {
    fn as_fd(&self) -> BorrowedFd<'_> {
        self.fd.as_fd()
    }
}

/// Gives the file descriptor up to the caller, who then closes it.
impl From<UnixSocket> for OwnedFd {
    fn from(socket: UnixSocket) -> OwnedFd {
        socket.fd
    }
}

/// Sends packets to paths.
impl PathSocket for UnixSocket {
    ghost may_give = { is_io };

    /// Sends a packet to a path, by one call of the system, and returns how many of its bytes were taken. Linux takes a
    /// datagram whole or not at all.
    ///
    /// # Errors
    /// Always `SinkError::Io`. For a path that `check_path` refuses, it has the kind `InvalidInput`, no code and a text
    /// that says what is wrong with the path, and nothing is sent. For any other path it has the code of the system:
    /// `ENOENT` if there is no such file, `ECONNREFUSED` if no socket is bound to it any more, `EAGAIN` if the server's
    /// queue is full, `EMSGSIZE` if the packet is too large, and so on. A signal doesn't interrupt a call that doesn't
    /// wait; if the system says `EINTR` all the same, this is such an error, and the packet is not sent again.
    fn send_to(&self, packet: &[u8], path: &str) -> Result<usize, SinkError>
        ensures answer { IsSocketAnswer is_io packet.now result }
        ensures path { IfOk result (λ _. IsPath path.now) }
        ensures system { IsPath path.now → IfErr result IsOfSystem }
        ensures invalid { (fault : PathError) → IsFault path.now fault → IsErrAnd result IsOfPath }
    {
        if let Err(fault) = check_path(path) {
            let error = Error::new(ErrorKind::InvalidInput, fault.text());
            return Err(SinkError::Io(error));
        }
        let (address, length) = address_of(path.as_bytes());
        let fd = self.fd.as_raw_fd();
        let taken = unsafe { sendto(fd, packet, MSG_NOSIGNAL, &address, length) };
        count_of(taken, packet)
    }
}

// Returns the error of the last call of the system.
fn last_error() -> SinkError
    ensures { IsOfSystem result }
{
    SinkError::Io(Error::from_raw_os_error(os::errno()))
}

// Returns how many bytes of the packet the last call of the system took, or its error.
fn count_of(taken: isize, packet: &[u8]) -> Result<usize, SinkError>
    requires { Moved (length packet.now) taken }
    ensures { MatchResult result (λ n. n ≤ length packet.now) IsOfSystem }
{
    if taken < 0 {
        return Err(last_error());
    }
    Ok(taken as usize)
}
