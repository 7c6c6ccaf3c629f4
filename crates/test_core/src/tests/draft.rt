//! Drafts, which are lines whose options come in any order, in memory of their own and in a buffer that is used again.
//! The expected lines follow from the grammar: kind, rate, tags, container, timestamp.
use cadence_text::line::{DraftLine, Head, MetricType, Tag};
use cadence_value::decimal::Decimal;
use cadence_value::value::MetricValue;
use std::alloc::{AllocError, Allocator, Global};
use std::test::Fail;
use test_tools::{RefusingAllocator, each_refused};

// An option that is set in a draft. A tag has no key here, and the rate is 0.5.
#[derive(Clone, Copy)]
enum Choice {
    Tag(&'static str),
    Rate,
    Container(&'static str),
    Time(u64),
}

// The tags that a draft begins with, the options that are set in it, and its line.
type Row = (&'static str, &'static [Choice], &'static str);

const ROWS: &[Row] = &[
    ("", &[], "p.k:54|c"),
    (
        "|#a:b",
        &[Choice::Rate, Choice::Tag("x"), Choice::Tag("y")],
        "p.k:54|c|@0.5|#a:b,x,y",
    ),
    (
        "",
        &[Choice::Time(10), Choice::Tag("x"), Choice::Container("id")],
        "p.k:54|c|#x|c:id|T10",
    ),
];

// Returns the head of each line: a counter `p.k` of 54.
fn head() -> Head<'static> {
    Head {
        prefix: "p.",
        key: "k",
        value: MetricValue::Signed(54),
        kind: MetricType::Counter,
    }
}

fn set_all<A: Allocator>(
    draft: &mut DraftLine<'_, A>,
    choices: &[Choice],
) -> Result<(), AllocError> {
    for choice in choices {
        match *choice {
            Choice::Tag(text) => draft.add_tag(Tag { key: None, text })?,
            Choice::Rate => {
                let Ok(half) = Decimal::new(5, 1) else {
                    return Err(AllocError);
                };
                draft.set_rate(half);
            }
            Choice::Container(id) => draft.set_container_as(id, false),
            Choice::Time(time) => draft.set_time(time),
        }
    }
    Ok(())
}

// Returns the line of a row, in memory of its own.
fn text_of<A: Allocator>(alloc: A, row: &Row) -> Result<String<A>, AllocError> {
    let mut draft = DraftLine::new(alloc, &head(), row.0, None, 0)?;
    set_all(&mut draft, row.1)?;
    draft.into_text()
}

// Returns the line of a row, made in this buffer.
fn line_in<A: Allocator>(buffer: Vec<u8, A>, row: &Row) -> Result<Vec<u8, A>, AllocError> {
    let mut draft = DraftLine::in_buffer(buffer, &head(), row.0, None, 0)?;
    set_all(&mut draft, row.1)?;
    draft.into_bytes()
}

// Returns whether the row's line is made. It may only be refused because memory runs out.
fn is_made(row: &Row, heap: RefusingAllocator<Global>) -> Result<bool, Fail> {
    match text_of(heap, row) {
        Ok(line) if line.as_str() == row.2 => Ok(true),
        Ok(_) => Err(Fail::new("another line")),
        Err(AllocError) => Ok(false),
    }
}

#[test]
fn each_request_of_a_draft_may_be_refused(rt: HostRuntime) -> Result<(), Fail> {
    for row in ROWS {
        let granted = each_refused(rt.alloc(), |heap| is_made(row, heap))?;
        assert!(rt; granted.is_some());
    }
    Ok(())
}

// The buffer has 64 bytes, and no line is longer. The heap refuses the second request, so no line may ask for memory.
#[test]
fn a_buffer_that_is_used_again_asks_for_no_memory(rt: HostRuntime) -> Result<(), Fail> {
    let mut buffer = Vec::with_capacity(RefusingAllocator::after(rt.alloc(), rt.alloc(), 1)?, 64)?;
    for row in ROWS {
        buffer = line_in(buffer, row)?;
        assert!(rt; buffer.as_slice() == row.2.as_bytes());
    }
    Ok(())
}
