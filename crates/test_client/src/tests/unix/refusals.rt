//! Paths and packets that are refused, and each request for memory refused in turn.
use super::sending::io_kind;
use cadence::prelude::*;
use cadence::types::SinkError;
use cadence::{ErrorKind, MetricError, MetricResult, StatsdClient};
use cadence_agent::{PathError, UnixSocket, buffered_unix_sink, check_path, unix_sink};
use cadence_sinks::{MAX_PACKET, PathSocket};
use std::alloc::Global;
use std::io;
use std::net::Net;
use std::sync::Wait;
use std::test::Fail;
use test_tools::{RefusingAllocator, each_refused};

// A text of 107 bytes, which is a path, and one of 108 bytes, which is none.
const LONGEST: &str =
    "/nowhere/aaaaaaaaaaaaaaaaaaaaaaaaaaaaaaaaaaaaaaaaaaaaaaaaaaaaaaaaaaaaaaaaaaaaaaaaaaaaaaaaaaaaaaaaaaaaaaaaaa";

const TOO_LONG: &str =
    "/nowhere/aaaaaaaaaaaaaaaaaaaaaaaaaaaaaaaaaaaaaaaaaaaaaaaaaaaaaaaaaaaaaaaaaaaaaaaaaaaaaaaaaaaaaaaaaaaaaaaaaaa";

// The texts that are no paths, each with its fault and with what its error says.
const FAULTS: &[(&str, PathError, &str)] = &[
    ("", PathError::Empty, "the path of a Unix socket is empty"),
    (
        "\0",
        PathError::Nul,
        "the path of a Unix socket has a NUL inside",
    ),
    (
        "/s\0",
        PathError::Nul,
        "the path of a Unix socket has a NUL inside",
    ),
    (
        TOO_LONG,
        PathError::TooLong,
        "the path of a Unix socket has more than 107 bytes",
    ),
];

// Returns the text of the error with which a sink is not made for a path.
fn text_of_sink<R: Net + Wait + Clone + Drop>(
    rt: &R,
    alloc: Global,
    path: &str,
) -> Result<String, Fail> {
    match unix_sink(rt, alloc, path) {
        Err(error) if error.kind() == ErrorKind::InvalidInput => Ok(error.to_string(alloc)?),
        _ => Err(Fail::new("a sink is made, or another error")),
    }
}

// Returns the text of the error with which a socket sends nothing to a path.
fn text_of_socket(alloc: Global, socket: &UnixSocket, path: &str) -> Result<String, Fail> {
    match socket.send_to(b"a:1|c", path) {
        Err(SinkError::Io(error)) if error.kind() == io::ErrorKind::InvalidInput => {
            Ok(error.to_string(alloc)?)
        }
        _ => Err(Fail::new("a packet is sent, or another error")),
    }
}

#[test]
fn a_text_that_is_no_path_is_refused(rt: HostRuntime) -> Result<(), Fail> {
    let socket = UnixSocket::new(&rt)?;
    for (path, fault, text) in FAULTS {
        assert_eq!(rt; check_path(path), Err(*fault));
        assert_eq!(rt; text_of_sink(&rt, rt.alloc(), path)?.as_str(), *text);
        assert_eq!(rt; text_of_socket(rt.alloc(), &socket, path)?.as_str(), *text);
    }
    Ok(())
}

#[test]
fn the_longest_path_is_a_path(rt: HostRuntime) -> Result<(), Fail> {
    if check_path(LONGEST).is_err() {
        return Err(Fail::new("a path of 107 bytes is refused"));
    }
    let sink = unix_sink(&rt, rt.alloc(), LONGEST)?;
    let client = StatsdClient::from_sink(rt.alloc(), "p", sink)?;
    if io_kind(client.incr("a")) != Some(io::ErrorKind::NotFound) {
        return Err(Fail::new("an error of another kind"));
    }
    Ok(())
}

#[test]
fn a_buffer_that_no_datagram_holds_is_refused(rt: HostRuntime) -> Result<(), Fail> {
    let _largest = buffered_unix_sink(&rt, rt.alloc(), LONGEST, MAX_PACKET)?;
    let Err(error) = buffered_unix_sink(&rt, rt.alloc(), LONGEST, MAX_PACKET + 1) else {
        return Err(Fail::new("a sink is made"));
    };
    let says = error.to_string(rt.alloc())?;
    let text = "the capacity is more than a datagram holds, 65507 bytes";
    assert!(rt; error.kind() == ErrorKind::InvalidInput && says.as_str() == text);
    Ok(())
}

// Returns whether there was memory for both sinks, a client and a line.
fn sinks_have_memory<R: Net + Wait + Clone + Drop>(
    rt: &R,
    heap: RefusingAllocator<Global>,
) -> MetricResult<bool> {
    let _buffered = buffered_unix_sink(rt, heap.clone()?, LONGEST, 16)?;
    let plain = unix_sink(rt, heap.clone()?, LONGEST)?;
    let client = StatsdClient::from_sink(heap, "p", plain)?;
    Ok(io_kind(client.incr("a")).is_some())
}

// Returns whether there was memory. Only a refused request may be why there was none.
fn sinks_are_made<R: Net + Wait + Clone + Drop>(
    rt: &R,
    heap: RefusingAllocator<Global>,
) -> Result<bool, Fail> {
    match sinks_have_memory(rt, heap) {
        Err(MetricError::Sink(SinkError::OutOfMemory)) => Ok(false),
        answer => Ok(answer?),
    }
}

#[test]
fn each_request_for_memory_may_be_refused(rt: HostRuntime) -> Result<(), Fail> {
    let granted = each_refused(rt.alloc(), |heap| sinks_are_made(&rt, heap))?;
    assert!(rt; granted.is_some());
    Ok(())
}
