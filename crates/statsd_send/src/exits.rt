//! What the program prints to the standard error if it sends nothing, and its exit status then.
use crate::place::Place;
use cadence_agent::EnvironmentError;
use cadence_errors::{ErrorKind as MetricErrorKind, MetricError};
use std::fmt;
use std::io::{self, ErrorKind};
use std::process::ExitCode;

/// Why nothing is sent if a request for memory was refused.
pub const OUT_OF_MEMORY: &str = "out of memory";

/// Why nothing is sent if a host has only addresses that a variable of the environment doesn't want.
pub const NO_ADDRESS_OF_IPV6: &str = "the host has no address of IPv6, which STATSD_IPV6 asks for";

/// Prints to the standard error why nothing is sent, and returns the exit status.
pub fn exit_with_error<T: fmt::Display + Drop>(rt: &HostRuntime, status: u8, why: T) -> ExitCode {
    let _ = eprintln!(rt; "statsd_send: {why}");
    ExitCode::from(status)
}

/// Prints to the standard error why the words of the command line can't be read, and returns the exit status.
pub fn exit_without_words(rt: &HostRuntime, kind: ErrorKind) -> ExitCode {
    if kind == ErrorKind::OutOfMemory {
        return exit_with_error(rt, 3, OUT_OF_MEMORY);
    }
    exit_with_error(
        rt,
        2,
        "a word of the command line is not UTF-8: wants text, as in `c visits 1 page:home`",
    )
}

/// Prints to the standard error why the environment can't be used, and returns the exit status.
pub fn exit_without_environment(rt: &HostRuntime, error: EnvironmentError) -> ExitCode {
    let status = match error {
        EnvironmentError::Unusable(_) => 2,
        EnvironmentError::OutOfMemory => 3,
    };
    exit_with_error(rt, status, error)
}

/// Prints to the standard error why the metrics have no defaults, and returns the exit status.
pub fn exit_without_defaults(rt: &HostRuntime, error: MetricError) -> ExitCode {
    if error.kind() == MetricErrorKind::InvalidInput {
        let why =
            "--strict wants tags of the environment without commas, bars and newlines, as in DD_TAGS=team:shop";
        return exit_with_error(rt, 2, why);
    }
    exit_with_error(rt, 3, OUT_OF_MEMORY)
}

/// Prints to the standard error why there are no random numbers, and returns the exit status.
pub fn exit_without_sample(rt: &HostRuntime, why: io::Error) -> ExitCode {
    let _ = eprintln!(rt; "statsd_send: cannot make random numbers for --sample: {why}");
    ExitCode::from(1)
}

// A step towards sending that failed for a place, and why.
#[derive(Drop)]
struct Failed<'a, T: Drop> {
    step: &'static str,
    place: &'a Place,
    why: T,
}

impl<T: fmt::Display + Drop> fmt::Display for Failed<'_, T> {
    fn fmt<W: fmt::Write>(&self, f: &mut fmt::Formatter<W>) -> fmt::Result {
        let (step, text, source, why) = (self.step, &self.place.text, self.place.source, &self.why);
        write!(f, "cannot {step} {text} ({source}): {why}")
    }
}

/// Prints to the standard error why there is no address, and returns the exit status.
pub fn exit_without_address<T: fmt::Display + Drop>(
    rt: &HostRuntime,
    status: u8,
    place: &Place,
    why: T,
) -> ExitCode {
    let step = "find";
    exit_with_error(rt, status, Failed { step, place, why })
}

/// Prints to the standard error why there is no socket, and returns the exit status.
pub fn exit_without_socket<T: fmt::Display + Drop>(
    rt: &HostRuntime,
    place: &Place,
    why: T,
) -> ExitCode {
    let step = "make a socket for";
    exit_with_error(rt, 1, Failed { step, place, why })
}

/// A capacity that is more than the target takes.
#[derive(Drop)]
pub struct TooMuch<'a>(pub usize, pub usize, pub &'a Place);

impl fmt::Display for TooMuch<'_> {
    fn fmt<W: fmt::Write>(&self, f: &mut fmt::Formatter<W>) -> fmt::Result {
        let (capacity, longest, text) = (self.0, self.1, &self.2.text);
        write!(
            f,
            "--capacity {capacity}: wants at most {longest} bytes, the longest datagram to {text}"
        )
    }
}
