//! Clients that send to a server, and what they return if it restarts, is gone or doesn't read.
use super::server::{bind_server, unlink};
use cadence::prelude::*;
use cadence::types::SinkError;
use cadence::{MetricError, MetricResult, MetricSink, StatsdClient};
use cadence_agent::{BufferedUnixSink, UnixSink, buffered_unix_sink, unix_sink};
use std::alloc::Global;
use std::fs::Files;
use std::io::ErrorKind;
use std::net::Net;
use std::process;
use std::sync::Wait;
use std::test::Fail;

/// Returns a path of this process and this test.
pub fn path_of(rt: &HostRuntime, name: &str) -> Result<String, Fail> {
    let id = process::id(rt.process());
    Ok(format!(in rt.alloc(); "/tmp/cadence-{id}-{name}")?)
}

// A client that sends each line to a path.
type UnixClient<R> = StatsdClient<Global, UnixSink<R>>;

// Makes a client that sends each line to a path.
fn client_to<R: Net + Wait + Clone + Drop>(
    rt: &R,
    alloc: Global,
    path: &str,
) -> MetricResult<UnixClient<R>> {
    StatsdClient::from_sink(alloc, "p", unix_sink(rt, alloc, path)?)
}

// Returns the kind of the system's error, if the call failed with one.
pub fn io_kind<T: Drop>(answer: MetricResult<T>) -> Option<ErrorKind> {
    match answer {
        Err(MetricError::Sink(SinkError::Io(error))) => Some(error.kind()),
        _ => None,
    }
}

// Counts under these keys, and flushes.
fn count_each<S: MetricSink>(client: &StatsdClient<Global, S>, keys: &[&str]) -> MetricResult<()> {
    for key in keys {
        client.incr(key)?;
    }
    client.flush()
}

// Sends a counter and a gauge.
fn send_two<S: MetricSink>(client: &StatsdClient<Global, S>) -> MetricResult<()> {
    client.incr("a")?;
    client.gauge("b", 7)?;
    Ok(())
}

#[test]
fn a_client_sends_each_line(rt: HostRuntime) -> Result<(), Fail> {
    let path = path_of(&rt, "each")?;
    let server = bind_server(&rt, &path)?;
    send_two(&client_to(&rt, rt.alloc(), &path)?)?;
    unlink(&rt, &path)?;
    server.assert_datagrams(&["p.a:1|c", "p.b:7|g"])
}

// Makes a client whose packets to a path have at most 16 bytes.
fn packing_client_to<R: Net + Wait + Clone + Drop>(
    rt: &R,
    alloc: Global,
    path: &str,
) -> MetricResult<StatsdClient<Global, BufferedUnixSink<R>>> {
    StatsdClient::from_sink(alloc, "p", buffered_unix_sink(rt, alloc, path, 16)?)
}

#[test]
fn a_buffered_client_packs_lines(rt: HostRuntime) -> Result<(), Fail> {
    let path = path_of(&rt, "packed")?;
    let server = bind_server(&rt, &path)?;
    count_each(
        &packing_client_to(&rt, rt.alloc(), &path)?,
        &["a", "b", "c"],
    )?;
    unlink(&rt, &path)?;
    server.assert_datagrams(&["p.a:1|c\np.b:1|c\n", "p.c:1|c\n"])
}

// Sends a line to a server that is bound to the path now, and closes the server.
fn assert_reaches<R: Files + Net + Wait + Drop>(
    rt: &R,
    client: &UnixClient<R>,
    path: &str,
) -> Result<(), Fail> {
    let server = bind_server(rt, path)?;
    client.incr("a")?;
    server.assert_datagrams(&["p.a:1|c"])
}

// Asserts that a call fails with this kind of the system's error.
fn assert_fails<R: Wait + Drop>(client: &UnixClient<R>, kind: ErrorKind) -> Result<(), Fail> {
    match io_kind(client.incr("a")) {
        Some(found) if found == kind => Ok(()),
        _ => Err(Fail::new(format_args!("no error of the kind {kind:?}"))),
    }
}

// Sends before a server is there, to a server, after it is closed, after its file is removed, and to another server.
fn assert_finds_again<R: Files + Net + Wait + Drop>(
    rt: &R,
    client: &UnixClient<R>,
    path: &str,
) -> Result<(), Fail> {
    assert_fails(client, ErrorKind::NotFound)?;
    assert_reaches(rt, client, path)?;
    assert_fails(client, ErrorKind::ConnectionRefused)?;
    unlink(rt, path)?;
    assert_fails(client, ErrorKind::NotFound)?;
    assert_reaches(rt, client, path)?;
    unlink(rt, path)
}

#[test]
fn a_server_that_restarts_is_found_again(rt: HostRuntime) -> Result<(), Fail> {
    let path = path_of(&rt, "restarts")?;
    let client = client_to(&rt, rt.alloc(), &path)?;
    assert_finds_again(&rt, &client, &path)?;
    let stats = client.sink().stats();
    if stats.packets_sent != 2 || stats.packets_dropped != 3 {
        return Err(Fail::new("other counts"));
    }
    Ok(())
}

// Sends lines until one is refused, and returns the kind of its error.
fn first_refusal<R: Wait + Drop>(client: &UnixClient<R>) -> Option<ErrorKind> {
    for _ in 0..1_000_000 {
        let sent = client.incr("a");
        if sent.is_err() {
            return io_kind(sent);
        }
    }
    None
}

#[test]
fn a_server_that_does_not_read_is_not_waited_for(rt: HostRuntime) -> Result<(), Fail> {
    let path = path_of(&rt, "full")?;
    let _server = bind_server(&rt, &path)?;
    let client = client_to(&rt, rt.alloc(), &path)?;
    let refused = first_refusal(&client);
    unlink(&rt, &path)?;
    if refused != Some(ErrorKind::WouldBlock) {
        return Err(Fail::new("a full queue is an error of another kind"));
    }
    Ok(())
}

// Makes and drops sockets, and returns the number of the last one's file descriptor.
fn last_descriptor(net: &impl Net) -> MetricResult<i32> {
    let mut last = 0;
    for _ in 0..5000 {
        last = descriptor_of(cadence_agent::UnixSocket::new(net)?);
    }
    Ok(last)
}

fn descriptor_of(socket: cadence_agent::UnixSocket) -> i32 {
    use std::os::fd::{AsRawFd, OwnedFd};
    OwnedFd::from(socket).as_raw_fd()
}

#[test]
fn a_dropped_socket_is_closed(rt: HostRuntime) -> Result<(), Fail> {
    if last_descriptor(&rt)? >= 1000 {
        return Err(Fail::new("dropped sockets stay open"));
    }
    Ok(())
}
