//! The address of a Unix socket, as the system reads it.
ghost use Rattle.std.specs.Prelude.{◌≡◌, ◌+◌, ◌≤◌, length};
ghost use Rattle.cadence_agent.specs.Address.{sockaddr_un};

use libc::net::{_SS_SIZE, AF_UNIX};

// Returns the bytes of C's `sockaddr_un` for a path, and how many of them the system reads: the family, the path and a
// NUL after it.
pub(crate) fn address_of(path: &[u8]) -> ([u8; _SS_SIZE], u32)
    requires { length path.now ≤ 107 }
    ensures bytes { result.0 ≡ sockaddr_un path.now }
    ensures length { result.1 ≡ 2 + length path.now + 1 }
{
    let mut address = [0u8; _SS_SIZE];
    address[2..2 + path.len()].copy_from_slice(path);
    address[0] = AF_UNIX as u8;
    (address, path.len() as u32 + 3)
}
