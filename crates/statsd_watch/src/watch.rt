//! Receives packets, and prints or counts their lines.
use crate::arguments::Arguments;
use crate::batch::Batch;
use crate::drops::Drops;
use crate::printer::Printer;
use crate::receiver::Receiver;
use crate::stop::Stop;
use std::time::{Duration, Instant};

// Returns how long to wait for the next packet, or `None` if the time is over. If the clock fails, the time is over.
fn time_left(
    rt: &HostRuntime,
    arguments: &Arguments<'_>,
    start: Option<Instant>,
) -> Option<Duration> {
    let Some(seconds) = arguments.seconds else {
        return Some(Duration::from_secs(3600));
    };
    let passed = Instant::now(rt).ok()?.duration_since(start?);
    let left = Duration::from_secs(seconds).saturating_sub(passed);
    if left.is_zero() { None } else { Some(left) }
}

// Returns the shorter of two durations, or the first one if there is no second one.
fn shorter(left: Duration, other: Option<Duration>) -> Duration {
    match other {
        Some(other) => left.min(other),
        None => left,
    }
}

/// Receives packets until as many came as are asked for, or until the time is over, and prints or counts their lines: each
/// time it receives all that waits, and then prints it. Returns the exit status: 0 if a server can read all lines, 1 if the
/// system dropped packets, and otherwise 2.
///
/// # Errors
/// After an error of the socket the lines of the packets before it are printed.
pub fn receive_all(
    rt: &HostRuntime,
    arguments: &Arguments<'_>,
    receiver: &mut Receiver,
) -> Result<u8, Stop> {
    let mut drops = Drops::new(rt, receiver)?;
    let mut printer = Printer::new(rt)?;
    let received = receive_each(rt, arguments, receiver, &mut drops, &mut printer);
    if arguments.top.is_some() {
        printer.print_counts(rt, arguments)?;
    }
    received?;
    let status = if printer.is_whole() { 0 } else { 2 };
    Ok(if drops.look(rt) { 1 } else { status })
}

// Receives packets, as `receive_all` does, and prints or counts their lines.
fn receive_each(
    rt: &HostRuntime,
    arguments: &Arguments<'_>,
    receiver: &mut Receiver,
    drops: &mut Drops,
    printer: &mut Printer,
) -> Result<(), Stop> {
    let start = Instant::now(rt).ok();
    let mut batch = Batch::new(rt.alloc(), receiver.most(), arguments.has_time)?;
    for _ in 0..u64::MAX {
        let most = arguments
            .count
            .unwrap_or(u64::MAX)
            .saturating_sub(printer.number());
        let Some(left) = time_left(rt, arguments, start) else {
            break;
        };
        if most == 0 {
            break;
        }
        let left = shorter(shorter(left, drops.left()), printer.left(rt, arguments));
        let is_waiting = match receiver.wait(left) {
            Ok(is_waiting) => is_waiting,
            Err(why) => return Err(Stop::Socket(why)),
        };
        if is_waiting {
            let received = batch.receive(rt, receiver, most);
            printer.print_batch(rt, arguments, &batch)?;
            received?;
        }
        if printer.left(rt, arguments) == Some(Duration::ZERO) {
            printer.print_counts(rt, arguments)?;
        }
        if !is_waiting || drops.note_packets(rt) {
            drops.look(rt);
        }
    }
    Ok(())
}
