//! Writes lines to a packer.

use crate::arguments::Arguments;
use crate::counting::CountingWriter;
use crate::done::{BlackBox, Done, Note};
use cadence::MetricResult;
use cadence::ext::MultiLineWriter;
use std::alloc::{AllocError, Global};
use std::time::Instant;

/// Returns a text that looks like a counter's line. It has `length` bytes, but at least four.
pub fn make_line(alloc: Global, length: usize) -> Result<String, AllocError> {
    let mut text = "k".repeat(alloc, length.saturating_sub(4))?;
    text.push_str(":1|c")?;
    Ok(text)
}

/// Writes lines to a packer over a writer that counts.
pub fn write_lines(rt: &HostRuntime, alloc: Global, arguments: &Arguments) -> MetricResult<Done> {
    let line = make_line(alloc, arguments.length)?;
    let counting = CountingWriter {
        bytes: 0,
        packets: 0,
    };
    let Ok(mut writer) = MultiLineWriter::new(alloc, counting, arguments.capacity) else {
        return Err(AllocError.into());
    };
    let hidden = BlackBox::new();
    let start = Instant::now(rt)?;
    for _ in 0..arguments.calls {
        writer.write(hidden.text(&line).as_bytes())?;
    }
    writer.flush()?;
    let time = start.elapsed(rt)?;
    let CountingWriter { bytes, packets } = writer.get_ref();
    Ok(Done {
        time,
        check: bytes.wrapping_mul(1_000_003).wrapping_add(*packets),
        note: Note::Packets(*packets),
    })
}
