//! Packers of lines: a writer that is replaced, lent and given back, the flush of a drop, and each request for memory
//! refused. The contracts say what a packer does with each line and flush.
use cadence_errors::SinkError;
use cadence_flow::io::{MultiLineWriter, PacketLog, PacketWriter};
use std::alloc::Global;
use std::test::Fail;
use test_tools::{RefusingAllocator, each_refused};

// Returns whether the log took exactly these packets.
fn has_packets(log: &PacketLog, packets: &[&str]) -> bool {
    let taken = log.packets();
    if taken.len() != packets.len() {
        return false;
    }
    for (packet, text) in taken.iter().zip(packets) {
        if packet.as_slice() != text.as_bytes() {
            return false;
        }
    }
    true
}

// Returns whether the answer is this number of bytes.
fn is_count(answer: Result<usize, SinkError>, count: usize) -> bool {
    match answer {
        Ok(taken) => taken == count,
        Err(_) => false,
    }
}

// A writer with a lifetime. No contract speaks of its packets.
#[derive(Drop)]
struct LentWriter<'a> {
    into: &'a mut Vec<u8>,
}

impl<'a> PacketWriter for LentWriter<'a> {
    ghost use Rattle.test_core.specs.SilentWriter.{no_history, silent_kind};

    ghost history = { λ _. no_history };

    ghost kind = { λ _. silent_kind };

    fn write_packet(&mut self, packet: &[u8]) -> Result<usize, SinkError> {
        let _ = self.into.extend_from_slice(packet);
        Ok(packet.len())
    }
}

// Writes two lines to a packer, and drops it. Returns whether both lines were taken.
fn takes_two_lines(alloc: Global, into: &mut Vec<u8>) -> bool {
    match MultiLineWriter::new(alloc, LentWriter { into }, 64) {
        Ok(mut p) => is_count(p.write(b"foo:54|c"), 8) && is_count(p.write(b"foo:67|c"), 8),
        Err(_) => false,
    }
}

#[test]
fn drop_flushes(rt: HostRuntime) -> Result<(), Fail> {
    let mut bytes = Vec::new(rt.alloc());
    assert!(rt; takes_two_lines(rt.alloc(), &mut bytes));
    assert!(rt; bytes.as_slice() == b"foo:54|c\nfoo:67|c\n".as_slice());
    Ok(())
}

type Heap = RefusingAllocator<Global>;

// Returns a log that took one packet, so that it differs from a new one.
fn used_log(alloc: Global) -> PacketLog {
    let mut log = PacketLog::new(alloc, Vec::new(alloc));
    let _ = log.write_packet(b"before");
    log
}

// Makes a packer of 16 bytes. If there is no memory, the log has to come back.
fn make_packer(
    alloc: Global,
    heap: Heap,
) -> Result<Option<MultiLineWriter<PacketLog, Heap>>, Fail> {
    match MultiLineWriter::with_ending(heap, used_log(alloc), 16, "\n") {
        Ok(packer) => Ok(Some(packer)),
        Err(back) if has_packets(&back, &["before"]) => Ok(None),
        Err(_) => Err(Fail::new("another log")),
    }
}

// Writes a line, and puts a new log in place of the old one. Returns whether the old log comes back with the held line,
// or the new one because there is no memory; nothing has changed then.
fn replaces_log(
    packer: &mut MultiLineWriter<PacketLog, Heap>,
    alloc: Global,
    heap: Heap,
) -> Result<bool, Fail> {
    let is_held = is_count(packer.write(b"foo:54|c"), 8);
    let (is_replaced, is_right) = match packer.replace_writer(
        heap,
        PacketLog::new(alloc, Vec::new(alloc)),
    ) {
        Ok((old, text)) => (
            true,
            has_packets(&old, &["before"]) && text.as_slice() == b"foo:54|c\n".as_slice(),
        ),
        Err(back) => (
            false,
            has_packets(&back, &[]) && packer.held() == b"foo:54|c\n".as_slice(),
        ),
    };
    if !is_held || !is_right {
        return Err(Fail::new("another line or log"));
    }
    Ok(is_replaced)
}

// Writes a line to a packer with a new log, flushes it, and writes a packet to the log directly. Returns whether the
// packer then gives back the log with both, and the line that it holds.
fn gives_back_log(mut packer: MultiLineWriter<PacketLog, Heap>) -> bool {
    let is_sent = is_count(packer.write(b"third data"), 10) && packer.flush().is_ok();
    let is_direct = is_count(packer.get_mut().write_packet(b"direct"), 6);
    let is_held = is_count(packer.write(b"a:1|c"), 5);
    let (log, text) = packer.into_parts();
    is_sent
        && is_direct
        && is_held
        && has_packets(&log, &["third data\n", "direct"])
        && text.as_slice() == b"a:1|c\n".as_slice()
}

// Returns whether there is memory for a packer and for a new log in place of its own.
fn has_all_memory(alloc: Global, heap: Heap) -> Result<bool, Fail> {
    let Some(mut packer) = make_packer(alloc, heap.clone()?)? else {
        return Ok(false);
    };
    if !replaces_log(&mut packer, alloc, heap)? {
        return Ok(false);
    }
    if !gives_back_log(packer) {
        return Err(Fail::new("another packet or line"));
    }
    Ok(true)
}

// The requests of a new packer (2), and of a replacement for its log (1).
const REQUESTS: u64 = 2 + 1;

#[test]
fn each_request_of_a_packer_may_be_refused(rt: HostRuntime) -> Result<(), Fail> {
    let granted = each_refused(rt.alloc(), |heap| has_all_memory(rt.alloc(), heap))?;
    assert_eq!(rt; granted, Some(REQUESTS));
    Ok(())
}
