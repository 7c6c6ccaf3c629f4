//! Prints the report of a run, line by line.
use cadence_cli::push_text;
use cadence_flow::io::{Answer, PacketLog};
use cadence_flow::stats::SinkStats;
use cadence_queue::QueueCore;
use cadence_schedule::Reply;
use std::alloc::{AllocError, Allocator};

/// What the report of a run shows.
#[derive(Clone, Copy)]
pub struct Shown<'a, A: Allocator> {
    /// The replies, one to each step.
    pub replies: &'a [Reply],
    /// The packets that the log took.
    pub log: &'a PacketLog<A>,
    /// The text that the packer holds.
    pub held: &'a [u8],
    /// The lines that the aggregator holds.
    pub aggregated: &'a [String],
    /// The queue, with the lines that wait.
    pub queue: &'a QueueCore<String<A>, A>,
    /// The line in hand.
    pub in_hand: Option<&'a str>,
    /// How many lines each packet has, and then the held text.
    pub cut: &'a [usize],
    /// The bytes and packets sent and dropped.
    pub stats: SinkStats,
}

// Adds the line of one step's reply.
fn push_reply<A: Allocator>(out: &mut String<A>, reply: &Reply) -> Result<(), AllocError> {
    match reply {
        Reply::Called(Ok(length)) => writeln!(out, "call ok {length}"),
        Reply::CallDropped(length, dropped) => {
            writeln!(out, "call ok {length} dropped {dropped}")
        }
        Reply::Called(Err(error)) => writeln!(out, "call err {error}"),
        Reply::Text(length) => writeln!(out, "take text {length}"),
        Reply::Empty => out.push_str("take empty\n"),
        Reply::Ended => out.push_str("take ended\n"),
        Reply::Busy => out.push_str("take busy\n"),
        Reply::Handed(Ok(count)) => writeln!(out, "hand ok {count}"),
        Reply::Handed(Err(error)) => writeln!(out, "hand err {error}"),
        Reply::Nothing => out.push_str("hand nothing\n"),
        Reply::Flushed(Ok(())) => out.push_str("flush ok\n"),
        Reply::Flushed(Err(error)) => writeln!(out, "flush err {error}"),
        Reply::Stopped => out.push_str("stop\n"),
    }
}

// Adds the line `cut`, with the number of lines in each packet, and last in the held text. These numbers are not known
// if the script has a short answer, and the line says so then.
fn push_cut<A: Allocator>(
    out: &mut String<A>,
    cut: &[usize],
    answers: &[Answer],
) -> Result<(), AllocError> {
    if answers
        .iter()
        .any(|answer| matches!(answer, Answer::Short(_)))
    {
        return out.push_str("cut unknown\n");
    }
    out.push_str("cut")?;
    for count in cut {
        write!(out, " {count}")?;
    }
    out.push('\n')
}

// Adds the lines that wait in the queue, and then the line that the worker has in hand.
fn push_waiting<A: Allocator>(
    out: &mut String<A>,
    queue: &QueueCore<String<A>, A>,
    in_hand: Option<&str>,
) -> Result<(), AllocError> {
    for index in 0..queue.waiting() {
        if let Some(text) = queue.get(index) {
            push_text(out, "waiting", text.as_bytes())?;
        }
    }
    match in_hand {
        Some(text) => push_text(out, "inhand", text.as_bytes()),
        None => Ok(()),
    }
}

/// Returns the text of a report: a line for each reply, the packets, the held text, the lines that the aggregator
/// holds, the lines that wait, the line in hand, the cut, and the sums of bytes and packets that were sent and
/// dropped.
pub fn report_text<A: Allocator>(
    alloc: A,
    shown: &Shown<'_, A>,
    answers: &[Answer],
) -> Result<String<A>, AllocError> {
    let mut out = String::new(alloc);
    for reply in shown.replies {
        push_reply(&mut out, reply)?;
    }
    for packet in shown.log.packets() {
        push_text(&mut out, "packet", packet)?;
    }
    push_text(&mut out, "held", shown.held)?;
    for line in shown.aggregated {
        push_text(&mut out, "aggregated", line.as_bytes())?;
    }
    push_waiting(&mut out, shown.queue, shown.in_hand)?;
    push_cut(&mut out, shown.cut, answers)?;
    let stats = shown.stats;
    let (sent, packets) = (stats.bytes_sent, stats.packets_sent);
    let (dropped, refusals) = (stats.bytes_dropped, stats.packets_dropped);
    writeln!(out, "stats {sent} {packets} {dropped} {refusals}")?;
    Ok(out)
}
