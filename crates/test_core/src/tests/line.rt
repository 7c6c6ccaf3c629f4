//! Records: the comparison of long lines, and the one request for a line's memory. The program `test_scripts` shows
//! which line a record has.
use cadence_errors::{MetricError, SinkError};
use cadence_text::line::{MetricType, Record, Tag};
use cadence_value::value::MetricValue;
use std::alloc::{AllocError, Global};
use std::test::Fail;
use test_tools::{RefusingAllocator, each_refused};

// Returns a record with 41 tags; `last` is the last of them. Its line is longer than the part that `same_line` compares
// at once.
fn long_record<'a>(alloc: Global, last: &'a str) -> Result<Record<'a>, AllocError> {
    let value = MetricValue::Signed(1);
    let mut record = Record::new(alloc, "prefix.", "key", MetricType::Counter, value);
    for _ in 0..40 {
        record.add_tag(Tag {
            key: Some("twelve.bytes"),
            text: "twelve.bytes",
        })?;
    }
    record.add_tag(Tag {
        key: None,
        text: last,
    })?;
    Ok(record)
}

#[test]
fn long_lines_are_compared_whole(rt: HostRuntime) -> Result<(), Fail> {
    let record = long_record(rt.alloc(), "x")?;
    assert!(rt; record.same_line(&long_record(rt.alloc(), "x")?));
    assert!(rt; !record.same_line(&long_record(rt.alloc(), "y")?));
    Ok(())
}

// Returns whether the record's line is made. It may only be refused because memory runs out.
fn is_made(record: &Record<'_>, heap: RefusingAllocator<Global>) -> Result<bool, Fail> {
    match record.format(heap) {
        Ok(line) if record.line_len() == Some(line.len()) => Ok(true),
        Ok(_) => Err(Fail::new("another line")),
        Err(MetricError::Sink(SinkError::OutOfMemory)) => Ok(false),
        Err(_) => Err(Fail::new("another error")),
    }
}

#[test]
fn a_line_is_one_request(rt: HostRuntime) -> Result<(), Fail> {
    let record = long_record(rt.alloc(), "x")?;
    let granted = each_refused(rt.alloc(), |heap| is_made(&record, heap))?;
    assert!(rt; granted == Some(1));
    Ok(())
}
