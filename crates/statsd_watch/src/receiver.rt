//! The socket that receives.
use crate::arguments::Place;
use cadence_agent::{UnixSocket, wait_for_input};
use libc::net::{SO_RCVBUF, SOL_SOCKET, setsockopt};
use std::fs::Files;
use std::io::{ErrorKind, Read};
use std::net::{SocketAddr, UdpSocket};
use std::os::fd::{AsFd, AsRawFd, OwnedFd, RawFd};
use std::os::unix::fs::FileTypeExt;
use std::os::unix::net::{SocketAddr as UnixAddr, UnixStream};
use std::time::Duration;
use std::{fs, io};

// A packet of this many bytes or more is received only in part. A host sends at most 65,527 bytes.
const MOST_OF_HOST: usize = 1 << 16;

// Linux lets a program send up to its largest send buffer, which is 416 KiB unless an administrator has raised it.
const MOST_OF_PATH: usize = 1 << 19;

// How many bytes of packets the system is asked to hold until they are received. With its usual 208 KiB it holds fewer than
// 300 small packets.
const MOST_HELD: u32 = 1 << 22;

/// A socket that receives packets.
#[derive(Drop)]
pub enum Receiver {
    /// A UDP socket.
    Udp(UdpSocket),
    /// A Unix datagram socket. It can be read as a stream is.
    Unix(UnixStream),
}

// Returns whether there is the file of a socket at the path to which nobody listens any more.
fn is_stale(rt: &HostRuntime, path: &str) -> bool {
    let is_socket = match fs::symlink_metadata(rt, path) {
        Ok(metadata) => metadata.file_type().is_socket(),
        Err(_) => false,
    };
    if !is_socket {
        return false;
    }
    // A socket of another kind, to which somebody listens, has another error.
    match UnixStream::connect(rt, path) {
        Ok(_) => false,
        Err(why) => why.kind() == ErrorKind::ConnectionRefused,
    }
}

// Gives the socket the path. A file that an ended program left there is replaced.
fn bind_path(rt: &HostRuntime, fd: &OwnedFd, path: &str) -> io::Result<()> {
    let address = UnixAddr::from_pathname(path)?;
    let bound = rt.bind_unix(fd.as_fd(), &address);
    let is_taken = match &bound {
        Ok(()) => false,
        Err(why) => why.kind() == ErrorKind::AddrInUse,
    };
    if !is_taken || !is_stale(rt, path) {
        return bound;
    }
    fs::remove_file(rt, path)?;
    rt.bind_unix(fd.as_fd(), &address)
}

// Asks the system to hold more packets until they are received, because those that come while others are printed would be
// dropped. Linux gives at most `net.core.rmem_max`. If it gives nothing, the socket keeps what it has.
fn hold_more(socket: RawFd) {
    let [a, b, c, d] = MOST_HELD.to_le_bytes();
    let value = [a, b, c, d, 0, 0, 0, 0, 0, 0, 0, 0, 0, 0, 0, 0];
    let _ = unsafe { setsockopt(socket, SOL_SOCKET, SO_RCVBUF, &value, 4) };
}

impl Receiver {
    /// Returns a socket that receives at a place. If there is the file of a socket at the path to which nobody listens any
    /// more, it is replaced.
    ///
    /// # Errors
    /// The system's, for example if another program receives there, or if there is another file at the path.
    pub fn new(rt: &HostRuntime, place: &Place<'_>) -> io::Result<Receiver> {
        match place {
            Place::Host(host, port) => {
                let socket = UdpSocket::bind(rt, (*host, *port))?;
                socket.set_nonblocking(true)?;
                hold_more(socket.as_raw_fd());
                Ok(Receiver::Udp(socket))
            }
            Place::Path(path) => {
                let Ok(socket) = UnixSocket::new(rt) else {
                    return Err(io::Error::from(ErrorKind::Other));
                };
                let fd = OwnedFd::from(socket);
                bind_path(rt, &fd, path)?;
                Ok(Receiver::Unix(UnixStream::from(fd)))
            }
        }
    }

    /// Returns the length from which on a packet counts as cut, because its end may not have been received.
    pub fn most(&self) -> usize {
        match self {
            Receiver::Udp(_) => MOST_OF_HOST,
            Receiver::Unix(_) => MOST_OF_PATH,
        }
    }

    /// Waits for a packet. Returns `false` if none came for as long as `most`.
    ///
    /// # Errors
    /// The system's.
    pub fn wait(&self, most: Duration) -> io::Result<bool> {
        match self {
            Receiver::Udp(socket) => wait_for_input(socket.as_fd(), most),
            Receiver::Unix(socket) => wait_for_input(socket.as_fd(), most),
        }
    }

    /// Receives a packet that waits, and returns its length and its sender. The sender at a Unix socket has no address.
    /// Returns `None` if no packet waits.
    ///
    /// # Errors
    /// The system's.
    pub fn take(&mut self, buffer: &mut [u8]) -> io::Result<Option<(usize, Option<SocketAddr>)>> {
        let answer = match self {
            Receiver::Udp(socket) => match socket.recv_from(buffer) {
                Ok((length, sender)) => Ok((length, Some(sender))),
                Err(why) => Err(why),
            },
            Receiver::Unix(socket) => match socket.read(buffer) {
                Ok(length) => Ok((length, None)),
                Err(why) => Err(why),
            },
        };
        match answer {
            Ok(received) => Ok(Some(received)),
            Err(why) => match why.kind() {
                ErrorKind::WouldBlock | ErrorKind::Interrupted => Ok(None),
                _ => Err(why),
            },
        }
    }

    /// Returns the file descriptor, and the file in which the system counts the packets of such sockets that it dropped.
    /// A Unix socket has none: the system drops no packet of it, but refuses the packet or lets the sender wait.
    pub fn counted(&self) -> Option<(RawFd, &'static str)> {
        let Receiver::Udp(socket) = self else {
            return None;
        };
        let table = match socket.local_addr() {
            Ok(SocketAddr::V4(_)) => "/proc/net/udp",
            _ => "/proc/net/udp6",
        };
        Some((socket.as_raw_fd(), table))
    }

    /// Removes the file of a Unix socket. An error is ignored.
    pub fn remove_path(&self, rt: &HostRuntime, place: &Place<'_>) {
        if let Place::Path(path) = place {
            let _ = fs::remove_file(rt, *path);
        }
    }
}
