//! The engine of `statsd_listen` over a reader, writers and memory that fail. A run has to end with the status and the
//! message of its failure, and to print a first part of its lines or none.
use cadence_listen::run_listen;
use std::alloc::Global;
use std::test::Fail;
use test_tools::reader::{ByteReader, FailingReader};
use test_tools::writer::{ByteWriter, FailingWriter};
use test_tools::{RefusingAllocator, each_refused};

// Two metrics, the first with every field.
const PACKET: &[u8] = b"a:1:2.5|ms|@0.5|#k:v,w|c:id|T7\nb:3|c\n";

// What is printed for them: the length of each line, and the line.
const LINES: &[u8] = b"line 30 a:1:2.5|ms|@0.5|#k:v,w|c:id|T7\nline 5 b:3|c\n";

// The number of reads: one for each byte of the packet, and one that finds its end.
const READS: u64 = 38;

// The number of writes: one for each byte of the lines, and the flush.
const WRITES: u64 = 53;

// Returns whether a run whose reader fails after `passed` reads has the right status, output and errors.
fn has_right_end_after_reads(alloc: Global, passed: u64) -> bool {
    let mut input = FailingReader::after(ByteReader::new(PACKET), passed);
    let (mut output, mut errors) = (Vec::new(alloc), Vec::new(alloc));
    let status = run_listen(alloc, &mut input, &mut output, &mut errors);
    let message: &[u8] = b"statsd_listen: input: cannot read\n";
    let none: &[u8] = b"";
    let wanted = if passed < READS {
        (2, none, message)
    } else {
        (0, LINES, none)
    };
    (status, output.as_slice(), errors.as_slice()) == wanted
}

// Returns whether a run whose writer fails after `passed` writes of one byte has the right status, output and errors.
fn has_right_end_after_writes(alloc: Global, passed: u64) -> bool {
    let mut input = PACKET;
    let mut output = FailingWriter::after(ByteWriter::new(alloc), passed);
    let mut errors = Vec::new(alloc);
    let status = run_listen(alloc, &mut input, &mut output, &mut errors);
    let taken = output.get_ref().taken();
    let count = LINES.len().min(passed as usize);
    let is_start = taken.len() == count && LINES.starts_with(taken);
    is_start && errors.is_empty() && status == u8::from(passed < WRITES)
}

#[test]
fn each_read_and_write_may_fail(rt: HostRuntime) {
    for passed in 0..=WRITES {
        assert!(rt;
            has_right_end_after_reads(rt.alloc(), passed),
            "{passed} reads"
        );
        assert!(rt;
            has_right_end_after_writes(rt.alloc(), passed),
            "{passed} writes"
        );
    }
}

// Returns whether a run with this memory prints the lines. If it doesn't, it must print nothing and report that memory
// ran out.
fn prints_lines_with(alloc: Global, heap: RefusingAllocator<Global>) -> Result<bool, Fail> {
    let mut input = PACKET;
    let (mut output, mut errors) = (Vec::new(alloc), Vec::new(alloc));
    let status = run_listen(heap, &mut input, &mut output, &mut errors);
    let message = b"statsd_listen: out of memory\n".as_slice();
    match (status, output.as_slice(), errors.as_slice()) {
        (0, lines, []) if lines == LINES => Ok(true),
        (3, [], errors) if errors == message => Ok(false),
        _ => Err(Fail::new("another end")),
    }
}

#[test]
fn each_request_may_be_refused(rt: HostRuntime) -> Result<(), Fail> {
    let granted = each_refused(rt.alloc(), |heap| prints_lines_with(rt.alloc(), heap))?;
    assert!(rt; granted.is_some_and(|granted| granted > 8));
    Ok(())
}
