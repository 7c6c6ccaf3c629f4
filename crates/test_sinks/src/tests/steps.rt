//! Calls of a sink and of a spy's receiver that assert their result, and a wait for a number.
use cadence_errors::SinkError;
use cadence_flow::MetricSink;
use cadence_flow::stats::SinkStats;
use cadence_resolve::Runtime;
use cadence_sinks::{SpyMetricSink, SpyReceiver};
use std::alloc::{Allocator, Global};
use std::sync::Wait;
use std::sync::atomic::{AtomicU64, Ordering};
use std::test::Fail;
use std::thread;
use std::time::{Clock, Duration};
use test_tools::moved_clock::PATIENCE;

/// Four counts, each unlike the others, of a sink that counts nothing.
pub const COUNTS: SinkStats = SinkStats {
    bytes_sent: 1,
    packets_sent: 2,
    bytes_dropped: 3,
    packets_dropped: 4,
};

/// Makes a spy, and the receiver of its messages.
pub fn make_spy<R: Wait + Clone + Drop>(
    rt: &R,
    alloc: Global,
) -> Result<(SpyReceiver<R>, SpyMetricSink<R>), Fail> {
    Ok(SpyMetricSink::new(rt.clone()?, alloc)?)
}

/// The error that a test expects, by the name of its variant in `SinkError`.
#[derive(Clone, Copy, Debug, PartialEq)]
pub enum WantedError {
    ChannelFull,
    ChannelDisconnected,
    Io,
    PacketRefused,
    Other,
}

fn name_of(error: &SinkError) -> WantedError {
    match error {
        SinkError::ChannelFull => WantedError::ChannelFull,
        SinkError::ChannelDisconnected => WantedError::ChannelDisconnected,
        SinkError::Io(_) => WantedError::Io,
        SinkError::PacketRefused => WantedError::PacketRefused,
        _ => WantedError::Other,
    }
}

/// Emits the lines, and asserts that the sink accepts each of them and returns this number of bytes.
pub fn assert_accepts<S: MetricSink>(sink: &S, lines: &[(&str, usize)]) -> Result<(), Fail> {
    for (line, count) in lines {
        if sink.emit(line)? != *count {
            return Err(Fail::new("another count of bytes"));
        }
    }
    Ok(())
}

/// Emits a line, and asserts that the sink refuses it with this error.
pub fn assert_refuses<S: MetricSink>(
    sink: &S,
    line: &str,
    wanted: WantedError,
) -> Result<(), Fail> {
    match sink.emit(line) {
        Err(error) if name_of(&error) == wanted => Ok(()),
        answer => Err(Fail::new(format_args!("emit: {answer:?}"))),
    }
}

/// Asserts that the sink flushes without an error.
pub fn assert_flushes<S: MetricSink>(sink: &S) -> Result<(), Fail> {
    sink.flush()?;
    Ok(())
}

/// Asserts that the sink refuses a flush with this error.
pub fn assert_refuses_flush<S: MetricSink>(sink: &S, wanted: WantedError) -> Result<(), Fail> {
    match sink.flush() {
        Err(error) if name_of(&error) == wanted => Ok(()),
        answer => Err(Fail::new(format_args!("flush: {answer:?}"))),
    }
}

/// Asserts the counts of a sink: the bytes and packets sent, and the bytes and packets dropped.
pub fn assert_counts<S: MetricSink>(sink: &S, wanted: [u64; 4]) -> Result<(), Fail> {
    let SinkStats {
        bytes_sent,
        packets_sent,
        bytes_dropped,
        packets_dropped,
    } = sink.stats();
    let found = [bytes_sent, packets_sent, bytes_dropped, packets_dropped];
    if found != wanted {
        return Err(Fail::new(format_args!("the counts are {found:?}")));
    }
    Ok(())
}

/// Receives all messages that wait, and asserts that they are exactly these, the oldest first.
pub fn assert_messages<R: Wait + Drop, A: Allocator>(
    receiver: &SpyReceiver<R, A>,
    wanted: &[&str],
) -> Result<(), Fail> {
    for text in wanted {
        let message = receiver.try_recv().ok_or("nothing")?;
        if message.as_slice() != text.as_bytes() {
            return Err(Fail::new("another message"));
        }
    }
    if !receiver.is_empty() {
        return Err(Fail::new("a message more"));
    }
    Ok(())
}

/// Waits for the next message, and asserts that it is this one.
pub fn assert_next_message<R: Wait + Drop>(
    receiver: &SpyReceiver<R>,
    wanted: &str,
) -> Result<(), Fail> {
    let message = receiver.recv().ok_or("gone")?;
    if message.as_slice() != wanted.as_bytes() {
        return Err(Fail::new("another message"));
    }
    Ok(())
}

/// Waits for the next message, and asserts that it is this one and the last one, because the sink is gone.
pub fn assert_last_message<R: Wait + Drop>(
    receiver: &SpyReceiver<R>,
    wanted: &str,
) -> Result<(), Fail> {
    assert_next_message(receiver, wanted)?;
    if receiver.recv().is_some() {
        return Err(Fail::new("a message more"));
    }
    Ok(())
}

/// Waits until a number is at least as large as wanted, but not for ever.
pub fn assert_reaches<R: Clock>(rt: &R, number: &AtomicU64, wanted: u64) -> Result<(), Fail> {
    for _ in 0..PATIENCE {
        if number.load(Ordering::SeqCst) >= wanted {
            return Ok(());
        }
        thread::sleep(rt, Duration::from_millis(1));
    }
    Err(Fail::new(format_args!("a number doesn't reach {wanted}")))
}
