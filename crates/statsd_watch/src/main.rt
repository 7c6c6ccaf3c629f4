//! `statsd_watch`: receives packets, and prints their lines as they come.
//!
//! - `arguments`: the words of the command line.
//! - `batch`: packets that were received and are not printed yet.
//! - `drops`: how many packets the system dropped.
//! - `printer`: prints the lines of packets, or counts them.
//! - `receiver`: the socket that receives.
//! - `stop`: why no more packets are received and printed.
//! - `watch`: receives packets, and prints or counts their lines.
#![tactic(auto)]

mod arguments;
mod batch;
mod drops;
mod printer;
mod receiver;
mod stop;
mod watch;

use crate::arguments::{ArgumentError, Arguments, Place, read_arguments};
use crate::receiver::Receiver;
use crate::stop::Stop;
use crate::watch::receive_all;
use std::alloc::AllocError;
use std::io::{ErrorKind, Write};
use std::process::ExitCode;
use std::{env, fmt, io};

fn main(rt: HostRuntime) -> ExitCode {
    let words = match read_words(&rt) {
        Ok(words) => words,
        Err(ErrorKind::OutOfMemory) => return exit_with_error(&rt, 3, "out of memory"),
        Err(_) => return exit_with_error(
            &rt,
            2,
            "a word of the command line is not UTF-8: wants HOST:PORT, PORT or unix:PATH",
        ),
    };
    match read_arguments(rt.alloc(), &words) {
        Ok(arguments) => run(&rt, &arguments),
        Err(ArgumentError::Refused(error)) => match error.print(&rt) {
            Ok(()) => ExitCode::from(error.exit_code() as u8),
            Err(fault) => exit_with_error(&rt, 1, fault),
        },
        Err(ArgumentError::Place(text)) => exit_with_error(&rt, 2, WrongPlace(text)),
        Err(ArgumentError::OutOfMemory) => exit_with_error(&rt, 3, "out of memory"),
    }
}

// Returns the name of the program, and the words of the command line.
fn read_words(rt: &HostRuntime) -> Result<Vec<String>, ErrorKind> {
    let mut words = Vec::new(rt.alloc());
    let name = match String::from_str(rt.alloc(), "statsd_watch") {
        Ok(name) => name,
        Err(AllocError) => return Err(ErrorKind::OutOfMemory),
    };
    words.push(name).map_err(|_| ErrorKind::OutOfMemory)?;
    let arguments = match env::args(rt) {
        Ok(arguments) => arguments,
        Err(error) => return Err(error.kind()),
    };
    for word in arguments.skip(1) {
        words.push(word).map_err(|_| ErrorKind::OutOfMemory)?;
    }
    Ok(words)
}

// Prints to the standard error why nothing more is received, and returns the exit status.
fn exit_with_error<T: fmt::Display + Drop>(rt: &HostRuntime, status: u8, why: T) -> ExitCode {
    let _ = eprintln!(rt; "statsd_watch: {why}");
    ExitCode::from(status)
}

// A place that can't be read.
#[derive(Drop)]
struct WrongPlace<'a>(&'a str);

impl fmt::Display for WrongPlace<'_> {
    fn fmt<W: fmt::Write>(&self, f: &mut fmt::Formatter<W>) -> fmt::Result {
        let text = self.0;
        write!(
            f,
            "{text}: wants HOST:PORT, PORT or unix:PATH, as in 127.0.0.1:8125"
        )
    }
}

// A place at which nothing can be received, and why.
#[derive(Drop)]
struct Failed<'a, T: Drop>(&'static str, &'a Place<'a>, T);

impl<T: fmt::Display + Drop> fmt::Display for Failed<'_, T> {
    fn fmt<W: fmt::Write>(&self, f: &mut fmt::Formatter<W>) -> fmt::Result {
        let (step, place, why) = (self.0, self.1, &self.2);
        write!(f, "cannot {step} {place}: {why}")
    }
}

// A fault of the standard output.
#[derive(Drop)]
struct Unprinted(io::Error);

impl fmt::Display for Unprinted {
    fn fmt<W: fmt::Write>(&self, f: &mut fmt::Formatter<W>) -> fmt::Result {
        let why = &self.0;
        write!(f, "cannot print: {why}")
    }
}

// Receives packets at the place, and prints or counts their lines. Returns the exit status.
fn run(rt: &HostRuntime, arguments: &Arguments<'_>) -> ExitCode {
    // If the standard output is closed, the system gives its number, file descriptor 1, to the next file that is opened.
    // That would be our socket. Writing 0 bytes now finds out, since it fails if file descriptor 1 is closed.
    if let Err(why) = rt.stdout().write(&[]) {
        return exit_with_error(rt, 1, Unprinted(why));
    }
    let place = &arguments.place;
    let mut receiver = match Receiver::new(rt, place) {
        Ok(receiver) => receiver,
        Err(why) => return exit_with_error(rt, 1, Failed("listen at", place, why)),
    };
    let stopped = receive_all(rt, arguments, &mut receiver);
    receiver.remove_path(rt, place);
    match stopped {
        Ok(status) => ExitCode::from(status),
        Err(Stop::Socket(why)) => exit_with_error(rt, 1, Failed("receive at", place, why)),
        Err(Stop::Output(why)) => exit_with_error(rt, 1, Unprinted(why)),
        Err(Stop::OutOfMemory) => exit_with_error(rt, 3, "out of memory"),
    }
}
