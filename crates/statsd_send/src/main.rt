//! `statsd_send`: sends the metric, the event or the service check of its words, or the metrics of its standard input.
//!
//! - `arguments`: the words of the command line.
//! - `asked`: what the options ask for besides the target.
//! - `exits`: what is printed if nothing is sent.
//! - `host`: a socket that sends each packet to a host, whose name is looked up again and again.
//! - `pace`: a pace that follows the clock.
//! - `place`: the place to which packets are sent, and where it comes from.
//! - `unix`: a socket that sends each packet to one path, and waits for room there.
#![tactic(auto)]

mod arguments;
mod asked;
mod exits;
mod host;
mod pace;
mod place;
mod unix;

use crate::arguments::{ArgumentError, Arguments, guarded, read_arguments};
use crate::asked::{asked_input, asked_limits, asked_pace, asked_patience, asked_sampler};
use crate::exits::{
    NO_ADDRESS_OF_IPV6, OUT_OF_MEMORY, TooMuch, exit_with_error, exit_without_address,
    exit_without_defaults, exit_without_environment, exit_without_sample, exit_without_socket,
    exit_without_words,
};
use crate::host::{LONGEST_DATAGRAM, SocketOfHost};
use crate::place::{Place, check_destination, find_place};
use crate::unix::SocketOfPath;
use cadence_agent::{Destination, Environment};
use cadence_environment::look_up_host;
use cadence_flow::io::{LineBuffer, PacketWriter};
use cadence_resolve::bind_socket;
use cadence_send::{
    LastingWriter, LossBoard, Outlet, PacketPrinter, RunError, Sending, SummedPacker, run_words,
};
use cadence_sinks::SocketWriter;
use cadence_words::Defaults;
use std::alloc::{AllocError, Global};
use std::env;
use std::io::{self, ErrorKind, Read, Write};
use std::process::ExitCode;

fn main(rt: HostRuntime) -> ExitCode {
    let given = match read_words(&rt) {
        Ok(given) => given,
        Err(kind) => return exit_without_words(&rt, kind),
    };
    match read_arguments(rt.alloc(), &given) {
        Ok(arguments) => send(&rt, &arguments),
        Err(ArgumentError::Refused(error)) => match error.print(&rt) {
            Ok(()) => ExitCode::from(error.exit_code() as u8),
            Err(fault) => {
                let _ = eprintln!(rt; "statsd_send: cannot print: {fault}");
                ExitCode::from(1)
            }
        },
        Err(ArgumentError::Value(why)) => exit_with_error(&rt, 2, why),
        Err(ArgumentError::Misplaced(why)) => exit_with_error(&rt, 2, why),
        Err(ArgumentError::OutOfMemory) => exit_with_error(&rt, 3, OUT_OF_MEMORY),
    }
}

// Returns the name of the program, and the words of the command line, guarded.
fn read_words(rt: &HostRuntime) -> Result<Vec<String>, ErrorKind> {
    let alloc = rt.alloc();
    let mut given = Vec::new(alloc);
    let name = String::from_str(alloc, "statsd_send").map_err(no_memory)?;
    given.push(name).map_err(|_| ErrorKind::OutOfMemory)?;
    let arguments = match env::args(rt) {
        Ok(arguments) => arguments,
        Err(error) => return Err(error.kind()),
    };
    for word in arguments.skip(1) {
        let word = guarded(alloc, word).map_err(no_memory)?;
        given.push(word).map_err(|_| ErrorKind::OutOfMemory)?;
    }
    Ok(given)
}

fn no_memory(_error: AllocError) -> ErrorKind {
    ErrorKind::OutOfMemory
}

// Sends the line of the words, or those of the input if there are no words. Returns the exit status.
fn send(rt: &HostRuntime, arguments: &Arguments<'_>) -> ExitCode {
    let options = &arguments.options;
    let read = if options.is_cleaning {
        Environment::read_tags_to_clean(rt)
    } else {
        Environment::read_tags(rt)
    };
    let tags = match read {
        Ok(tags) => tags,
        Err(error) => return exit_without_environment(rt, error),
    };
    let defaults = match options.defaults(rt.alloc(), &tags) {
        Ok(defaults) => defaults,
        Err(error) => return exit_without_defaults(rt, error),
    };
    if let Err(error) = check_destination(options.to) {
        return exit_with_error(rt, error.status(), error);
    }
    if options.is_printing {
        return print_packets(rt, arguments, &defaults, rt.stdout());
    }
    // If the standard input is closed, the system gives its number, file descriptor 0, to the next file that is opened.
    // That would be our socket, and the program would wait for input from it. Reading 0 bytes now finds out, since it
    // fails if file descriptor 0 is closed.
    if arguments.words.is_empty() {
        if let Err(error) = rt.stdin().read(&mut [0u8; 0]) {
            return exit_with_error(rt, 1, RunError::Input(error));
        }
    }
    let place = match find_place(rt, options.to) {
        Ok(place) => place,
        Err(error) => return exit_with_error(rt, error.status(), error),
    };
    match &place.target {
        Destination::Nowhere => print_packets(rt, arguments, &defaults, io::sink()),
        Destination::Udp { host, port, .. } => {
            send_to_host(rt, arguments, defaults, &place, (host.as_str(), *port))
        }
        Destination::Unix { path } => send_to_path(rt, arguments, defaults, &place, path),
    }
}

// Prints the packets to an output. Returns the exit status.
fn print_packets<O: Write + Drop>(
    rt: &HostRuntime,
    arguments: &Arguments<'_>,
    defaults: &Defaults,
    output: O,
) -> ExitCode {
    let Ok(writer) = PacketPrinter::new(rt.alloc(), output) else {
        return exit_with_error(rt, 3, OUT_OF_MEMORY);
    };
    let Ok(mut lines) = LineBuffer::new(rt.alloc(), writer, arguments.options.capacity) else {
        return exit_with_error(rt, 3, OUT_OF_MEMORY);
    };
    if !arguments.words.is_empty() {
        return send_words(rt, arguments, defaults, &mut lines, Outlet::Output);
    }
    let mut input = match asked_input(rt, &arguments.options) {
        Ok(input) => input,
        Err(why) => return exit_without_sample(rt, why),
    };
    let Ok(mut pace) = asked_pace(rt, &arguments.options) else {
        return exit_with_error(rt, 3, OUT_OF_MEMORY);
    };
    let (alloc, mut errors, board) = (rt.alloc(), rt.stderr(), LossBoard::new());
    let mut sending = Sending {
        alloc: &alloc,
        defaults,
        errors: &mut errors,
        pace: &mut pace,
        board: &board,
    };
    if !arguments.options.is_adding_up {
        return ExitCode::from(sending.run_input(&mut lines, &mut input, Outlet::Output));
    }
    let Ok(mut sums) = SummedPacker::new(alloc, asked_limits(&arguments.options), lines, &board)
    else {
        return exit_with_error(rt, 3, OUT_OF_MEMORY);
    };
    ExitCode::from(sending.run_input(&mut sums, &mut input, Outlet::Output))
}

// Sends to a host. Returns the exit status.
fn send_to_host(
    rt: &HostRuntime,
    arguments: &Arguments<'_>,
    defaults: Defaults,
    place: &Place,
    host: (&str, u16),
) -> ExitCode {
    let only_ipv6 = place.target.only_ipv6();
    let address = match look_up_host(rt, host, only_ipv6) {
        Ok(Some(address)) => address,
        Ok(None) if only_ipv6 => return exit_without_address(rt, 1, place, NO_ADDRESS_OF_IPV6),
        Ok(None) => return exit_without_address(rt, 1, place, "the host has no address"),
        Err(why) if why.kind() == ErrorKind::OutOfMemory => {
            return exit_without_address(rt, 3, place, OUT_OF_MEMORY);
        }
        Err(why) => return exit_without_address(rt, 1, place, why),
    };
    let Ok(clock) = rt.clone() else {
        return exit_with_error(rt, 3, OUT_OF_MEMORY);
    };
    match bind_socket(rt, address) {
        Ok(socket) => {
            let socket = SocketOfHost::new(clock, host, only_ipv6, socket, address);
            let writer = SocketWriter::new(socket);
            send_with(rt, arguments, defaults, place, writer, LONGEST_DATAGRAM)
        }
        Err(why) => exit_without_socket(rt, place, why),
    }
}

// Sends to the path of a Unix socket. Returns the exit status.
fn send_to_path(
    rt: &HostRuntime,
    arguments: &Arguments<'_>,
    defaults: Defaults,
    place: &Place,
    path: &str,
) -> ExitCode {
    let Ok(runtime) = rt.clone() else {
        return exit_with_error(rt, 3, OUT_OF_MEMORY);
    };
    let outlet = Outlet::Target(&place.text, place.source);
    match SocketOfPath::new(runtime, path, outlet, asked_patience(arguments)) {
        Ok(socket) => {
            let longest = socket.longest_packet();
            let writer = SocketWriter::new(socket);
            send_with(rt, arguments, defaults, place, writer, longest)
        }
        Err(why) => exit_without_socket(rt, place, why),
    }
}

// Sends the line of the words, or those of the input if there are no words, with this writer of packets, which takes
// packets up to this length. Returns the exit status.
fn send_with<T: PacketWriter>(
    rt: &HostRuntime,
    arguments: &Arguments<'_>,
    mut defaults: Defaults,
    place: &Place,
    writer: T,
    longest: usize,
) -> ExitCode {
    let capacity = arguments.options.capacity;
    if capacity > longest {
        return exit_with_error(rt, 2, TooMuch(capacity, longest, place));
    }
    defaults.longest = longest;
    let (alloc, outlet) = (rt.alloc(), Outlet::Target(&place.text, place.source));
    if !arguments.words.is_empty() {
        let Ok(mut lines) = LineBuffer::new(alloc, writer, capacity) else {
            return exit_with_error(rt, 3, OUT_OF_MEMORY);
        };
        return send_words(rt, arguments, &defaults, &mut lines, outlet);
    }
    let board = LossBoard::new();
    let lasting = LastingWriter::new(alloc, writer, outlet, rt.stderr(), &board);
    let Ok(mut lines) = LineBuffer::new(alloc, lasting, capacity) else {
        return exit_with_error(rt, 3, OUT_OF_MEMORY);
    };
    let mut input = match asked_input(rt, &arguments.options) {
        Ok(input) => input,
        Err(why) => return exit_without_sample(rt, why),
    };
    let Ok(mut pace) = asked_pace(rt, &arguments.options) else {
        return exit_with_error(rt, 3, OUT_OF_MEMORY);
    };
    let mut errors = rt.stderr();
    let mut sending = Sending {
        alloc: &alloc,
        defaults: &defaults,
        errors: &mut errors,
        pace: &mut pace,
        board: &board,
    };
    if !arguments.options.is_adding_up {
        return ExitCode::from(sending.run_stream(&mut lines, &mut input, outlet));
    }
    let Ok(mut sums) = SummedPacker::new(alloc, asked_limits(&arguments.options), lines, &board)
    else {
        return exit_with_error(rt, 3, OUT_OF_MEMORY);
    };
    ExitCode::from(sending.run_summed(&mut sums, &mut input, outlet))
}

// Sends the line of the words, or only reads them if the option `--sample` leaves it out. Returns the exit status.
fn send_words<T: PacketWriter>(
    rt: &HostRuntime,
    arguments: &Arguments<'_>,
    defaults: &Defaults,
    lines: &mut LineBuffer<T, Global>,
    outlet: Outlet<'_>,
) -> ExitCode {
    let (alloc, mut errors) = (rt.alloc(), rt.stderr());
    let (words, fields) = (arguments.words.as_slice(), &arguments.options.fields);
    let mut sampler = match asked_sampler(rt, &arguments.options) {
        Ok(sampler) => sampler,
        Err(why) => return exit_without_sample(rt, why),
    };
    if sampler.chooses() {
        let status = run_words(&alloc, defaults, fields, lines, words, outlet, &mut errors);
        return ExitCode::from(status);
    }
    let Ok(nowhere) = PacketPrinter::new(alloc, Vec::new(alloc)) else {
        return exit_with_error(rt, 3, OUT_OF_MEMORY);
    };
    let Ok(mut lines) = LineBuffer::new(alloc, nowhere, arguments.options.capacity) else {
        return exit_with_error(rt, 3, OUT_OF_MEMORY);
    };
    let status = run_words(
        &alloc,
        defaults,
        fields,
        &mut lines,
        words,
        outlet,
        &mut errors,
    );
    ExitCode::from(status)
}
