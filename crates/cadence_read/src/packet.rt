//! Reads the metrics of a packet, and of the packets of a run.
ghost use Rattle.std.specs.Prelude.{◌≡◌, ◌==◌, ◌∷◌, ◌++◌, [], List, Err, IfOk, map};
ghost use Rattle.std.specs.List.{slice_split};
ghost use Rattle.cadence_text.specs.Metric.{Metric};
ghost use Rattle.cadence_text.specs.Owned.{metrics_of};
ghost use Rattle.cadence_read.specs.Listed.{AreListed, IsListOf, ReadsPacket};
ghost use Rattle.cadence_read.specs.Reads.{ReadsMetrics};
ghost use Rattle.cadence_read.specs.Faults.{not_metrics};

use crate::fault::{NotMetrics, ReadFault};
use crate::line::{read_line, read_named};
use crate::splitting::{split_first, split_piece};
use cadence_text::line::OwnedMetric;
use std::alloc::Allocator;

// The most metrics for which room is made before the first one is read.
const MOST_ROOM: usize = 1024;

// The length of a short line in bytes.
const SHORT_LINE: usize = 16;

// Returns for how many metrics to make room: for as many as there would be if all lines were short. There is a limit,
// because most packets have longer lines, and because anybody may have sent the packet.
fn room_for(lines: &[u8]) -> usize {
    (lines.len() / SHORT_LINE).min(MOST_ROOM - 1) + 1
}

// Reads the metrics of the lines between the newlines.
fn read_lines<A: Allocator + Clone>(
    alloc: &A,
    lines: &[u8],
) -> Result<Vec<OwnedMetric<A>, A>, ReadFault>
    ensures { ReadsMetrics (slice_split (λ byte. byte == 10) lines.now) result }
{
    let mut metrics = Vec::with_capacity(alloc.clone()?, room_for(lines))?;
    let mut left = Some(lines);
    while let Some(text) = left {
        let Some((name, rest)) = split_first(text, b':') else {
            return Err(ReadFault::Unusable(NotMetrics));
        };
        let (fields, others) = split_piece(rest, b'\n');
        let metric = read_named(alloc, name, fields)?;
        metrics.push(metric)?;
        left = others;
    }
    Ok(metrics)
}

// Reads the metrics of a packet: lines that each end in a newline, or one line without a newline.
fn read_list<A: Allocator + Clone>(
    alloc: &A,
    packet: &[u8],
) -> Result<Vec<OwnedMetric<A>, A>, ReadFault>
    ensures { ReadsPacket packet.now result }
{
    if packet.is_empty() {
        return Ok(Vec::new(alloc.clone()?));
    }
    if let Some(lines) = packet.strip_suffix(b"\n") {
        return read_lines(alloc, lines);
    }
    let metric = read_line(alloc, packet)?;
    let mut metrics = Vec::new(alloc.clone()?);
    metrics.push(metric)?;
    Ok(metrics)
}

/// Reads the metrics of a packet: lines that each end in a newline, or one line without a newline. There is at most one
/// list of metrics with this packet.
///
/// ```
/// let metrics = read_packet(alloc, b"app.visits:1|c\napp.load:0.5|g\n")?;
/// ```
///
/// The metrics own their texts and lists, in memory of `alloc`. If `alloc` is an arena that is emptied after each
/// packet, reading takes no memory from the heap once the arena has room.
///
/// # Errors
/// `Unusable(NotMetrics)` if the bytes are not the packet of any metrics, and `OutOfMemory`.
pub fn read_packet<A: Allocator + Clone>(
    alloc: A,
    packet: &[u8],
) -> Result<Vec<OwnedMetric<A>, A>, ReadFault>
    ensures found { IfOk result (λ metrics. IsListOf packet.now (metrics_of metrics)) }
    ensures only { IfOk result (λ metrics. (others : List Metric) →
        IsListOf packet.now others → others ≡ metrics_of metrics) }
    ensures refused { result ≡ Err not_metrics →
        (metrics : List Metric) → IsListOf packet.now metrics → ⊥ }
{
    read_list(&alloc, packet)
}

/// Reads the metrics of several packets, in order, and then those of the text that a packer still holds after the last
/// packet, into one list.
///
/// # Errors
/// `Unusable(NotMetrics)` if a packet or the held text is not the packet of any metrics, and `OutOfMemory`.
pub fn read_run<A: Allocator + Clone>(
    alloc: A,
    packets: &[Vec<u8, A>],
    held: &[u8],
) -> Result<Vec<OwnedMetric<A>, A>, ReadFault>
    ensures found { IfOk result (λ metrics.
        AreListed (map (λ packet. packet.items) packets.now ++ held.now ∷ [])
        (metrics_of metrics)) }
    ensures only { IfOk result (λ metrics. (others : List Metric) →
        AreListed (map (λ packet. packet.items) packets.now ++ held.now ∷ []) others →
        others ≡ metrics_of metrics) }
    ensures refused { result ≡ Err not_metrics → (metrics : List Metric) →
        AreListed (map (λ packet. packet.items) packets.now ++ held.now ∷ []) metrics → ⊥ }
{
    let mut metrics = Vec::new(alloc.clone()?);
    for packet in packets {
        let mut list = read_list(&alloc, packet)?;
        metrics.append(&mut list)?;
    }
    let mut last = read_list(&alloc, held)?;
    metrics.append(&mut last)?;
    Ok(metrics)
}
