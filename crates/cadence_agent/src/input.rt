//! Waits for input at a file descriptor.
ghost use Rattle.std.specs.Prelude.{◌≢◌, IfErr, IsSome};
ghost use Rattle.std.specs.IoError.{error_kind, raw_os_error};
ghost use Rattle.std.specs.declared.io.ErrorKind.TheVariants.{Interrupted};
ghost use Rattle.cadence_agent.specs.Waits.{IsTimeout};

use libc::net::{POLLIN, poll};
use libc::types::pollfd;
use std::io;
use std::io::{Error, ErrorKind};
use std::os::fd::{AsRawFd, BorrowedFd};
use std::time::Duration;

// Returns how many milliseconds the system is asked to wait: this time, rounded up to whole milliseconds, but at most
// `i32::MAX`, which is 24 days.
fn millis_of(most: Duration) -> i32
    ensures { IsTimeout most result }
{
    match i32::try_from(most.as_nanos().div_ceil(1_000_000)) {
        Ok(millis) => millis,
        Err(_) => i32::MAX,
    }
}

/// Waits until a read from the file descriptor would not wait, because there is input or none will come any more.
/// Returns `false` if there was none for as long as `most`, or for 24 days, or if a signal interrupted the wait. It takes
/// no memory, and uses no time of the processor while it waits.
///
/// # Errors
/// The errors are those of the system's call `poll`, each with the code of the system. `Interrupted` isn't one of them.
pub fn wait_for_input(input: BorrowedFd<'_>, most: Duration) -> io::Result<bool>
    ensures code { IfErr result (λ e. IsSome (raw_os_error e)) }
    ensures kind { IfErr result (λ e. error_kind e ≢ Interrupted) }
{
    let mut asked = [pollfd {
        fd: input.as_raw_fd(),
        events: POLLIN,
        revents: 0,
    }];
    let ready = poll(&mut asked, millis_of(most));
    if ready >= 0 {
        return Ok(ready > 0);
    }
    let error = Error::from_raw_os_error(os::errno());
    if error.kind() == ErrorKind::Interrupted {
        return Ok(false);
    }
    Err(error)
}
