//! A server that receives datagrams at a path.
ghost use Rattle.std.specs.Prelude.{◌≤◌, IfSome};

use cadence_agent::UnixSocket;
use std::fs::Files;
use std::io::Read;
use std::net::Net;
use std::os::fd::{AsFd, OwnedFd};
use std::os::unix::net::{SocketAddr, UnixStream};
use std::test::Fail;
use std::time::{Clock, Duration};
use std::{fs, thread};

/// A socket that is bound to a path. The file of the path stays until `unlink`.
#[derive(Drop)]
pub struct Server {
    // a datagram socket too can be read so
    socket: UnixStream,
}

/// Binds a server to a path, at which no file may be.
pub fn bind_server<R: Files + Net>(rt: &R, path: &str) -> Result<Server, Fail> {
    let fd = OwnedFd::from(UnixSocket::new(rt)?);
    rt.bind_unix(fd.as_fd(), &SocketAddr::from_pathname(path)?)?;
    Ok(Server {
        socket: UnixStream::from(fd),
    })
}

/// Removes the file of a path.
pub fn unlink(files: &impl Files, path: &str) -> Result<(), Fail> {
    fs::remove_file(files, path)?;
    Ok(())
}

// Asserts that a datagram is this text.
fn assert_is(datagram: &[u8], text: &str) -> Result<(), Fail> {
    if datagram != text.as_bytes() {
        return Err(Fail::new("another datagram"));
    }
    Ok(())
}

impl Server {
    /// Receives the next datagrams, and asserts that they are these texts and no others.
    pub fn assert_datagrams(&self, texts: &[&str]) -> Result<(), Fail> {
        for text in texts {
            self.assert_datagram(text)?;
        }
        match self.receive(&mut [0u8; 64]) {
            None => Ok(()),
            Some(_) => Err(Fail::new("a datagram more")),
        }
    }

    /// Waits for a datagram, ten seconds at most, and asserts that it is this text and that no other one waits.
    pub fn assert_comes(&self, clock: &impl Clock, text: &str) -> Result<(), Fail> {
        for _ in 0..10_000u64 {
            let mut bytes = [0u8; 64];
            if let Some(count) = self.receive(&mut bytes) {
                assert_is(&bytes[..count], text)?;
                return self.assert_datagrams(&[]);
            }
            thread::sleep(clock, Duration::from_millis(1));
        }
        Err(Fail::new("no datagram comes"))
    }

    fn assert_datagram(&self, text: &str) -> Result<(), Fail> {
        let mut bytes = [0u8; 64];
        let Some(count) = self.receive(&mut bytes) else {
            return Err(Fail::new("no datagram"));
        };
        assert_is(&bytes[..count], text)
    }

    // Receives a datagram, if one waits.
    fn receive(&self, bytes: &mut [u8; 64]) -> Option<usize>
        ensures { IfSome result (λ count. count ≤ 64) }
    {
        let mut socket = &self.socket;
        match socket.read(bytes) {
            Ok(count) if count <= 64 => Some(count),
            _ => None,
        }
    }
}
