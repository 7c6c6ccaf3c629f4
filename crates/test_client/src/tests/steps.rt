//! Steps of tests that assert their result: what a sink takes and passes on, what a spy or a socket receives, and what
//! is made.
use cadence::Runtime;
use cadence::sinks::{MetricSink, SpyReceiver};
use cadence::types::{MetricError, MetricResult, SinkError};
use std::net::UdpSocket;
use std::sync::Wait;
use std::sync::atomic::{AtomicU64, Ordering};
use std::test::Fail;
use std::thread;
use std::time::Duration;

/// Emits these lines, which have white space between them, and asserts that each answer is the line's length.
pub fn assert_takes<S: MetricSink>(sink: &S, lines: &str) -> Result<(), Fail> {
    for line in lines.split_whitespace() {
        if sink.emit(line)? != line.len() {
            return Err(Fail::new("another count of bytes"));
        }
    }
    Ok(())
}

/// Asserts that the messages of a spy are these lines, which have white space between them, and no more. It doesn't wait
/// for a message.
pub fn assert_got<R: Wait + Drop>(receiver: &SpyReceiver<R>, lines: &str) -> Result<(), Fail> {
    for line in lines.split_whitespace() {
        match receiver.try_recv() {
            Some(message) if message.as_slice() == line.as_bytes() => {}
            _ => return Err(Fail::new(format_args!("another line than {line}"))),
        }
    }
    if receiver.is_empty() {
        Ok(())
    } else {
        Err(Fail::new("one line too many"))
    }
}

/// Waits for a message of a spy, and asserts that it is this line, and that no other message waits behind it.
pub fn assert_gets<R: Wait + Drop>(receiver: &SpyReceiver<R>, line: &str) -> Result<(), Fail> {
    match receiver.recv() {
        Some(message) if message.as_slice() == line.as_bytes() => assert_got(receiver, ""),
        _ => Err(Fail::new(format_args!("another line than {line}"))),
    }
}

/// Asserts that a sink has the counts 1 to 4 and five dropped lines, and that its flush writes nothing.
pub fn assert_passes_on<S: MetricSink>(sink: &S) -> Result<(), Fail> {
    let stats = sink.stats();
    let is_sent = stats.bytes_sent == 1 && stats.packets_sent == 2;
    let is_dropped = stats.bytes_dropped == 3 && stats.packets_dropped == 4;
    if !is_sent || !is_dropped || sink.dropped_lines() != 5 {
        return Err(Fail::new("another count"));
    }
    match sink.flush() {
        Err(SinkError::NothingWritten) => Ok(()),
        _ => Err(Fail::new("another answer of a flush")),
    }
}

/// Waits until a handler has been called, five seconds at most, and returns whether it was.
pub fn is_called<R: Runtime>(rt: &R, calls: &AtomicU64) -> bool {
    for _ in 0..5000u64 {
        if calls.load(Ordering::SeqCst) > 0 {
            return true;
        }
        thread::sleep(rt, Duration::from_millis(1));
    }
    false
}

/// Asserts that the next datagram that the server receives is this text.
pub fn assert_receives(server: &UdpSocket, text: &str) -> Result<(), Fail> {
    let mut bytes = [0u8; 64];
    let (length, _from) = server.recv_from(&mut bytes)?;
    if bytes.get(..length) != Some(text.as_bytes()) {
        return Err(Fail::new(format_args!("another datagram than {text}")));
    }
    Ok(())
}

/// Returns whether something was made. It may only be refused because memory runs out.
pub fn is_made<T: Drop>(answer: MetricResult<T>) -> Result<bool, Fail> {
    match answer {
        Ok(_) => Ok(true),
        Err(MetricError::Sink(SinkError::OutOfMemory)) => Ok(false),
        Err(_) => Err(Fail::new("another error")),
    }
}
