//! The engine of `statsd_watch`: what is printed of the lines of a packet, which lines a filter keeps, counts, a writer that
//! fails, and requests for memory that are refused.
use cadence_listen::{
    Counts, Filter, Origin, WatchError, WatchFormat, count_packet, cut_line, print_packet,
    push_row, remark_on,
};
use std::alloc::Global;
use std::test::Fail;
use test_tools::writer::{ByteWriter, FailingWriter};
use test_tools::{RefusingAllocator, each_refused};

const PACKET: &[u8] = b"a:1|c|#k:v\r\nb:2:x|ms\n\n_sc|web|0\nbad\n";

const ROWS: &[u8] = b"7.5\tme\tmetric\ta\t1\tc\t|#k:v
7.5\tme\tmetric\tb\t2:x\tms\t\tbyte 5: statsd_listen wants a number, as 1 or -0.5, and then a bar
7.5\tme\tcheck\t_sc|web|0
7.5\tme\tunreadable\tbad
";

const MESSAGE: &[u8] = b"statsd_watch: packet 3, line 5: wants NAME:VALUE|TYPE: bad\n";

const ORIGIN: Origin<'static> = Origin {
    number: 3,
    time: Some("7.5"),
    sender: Some("me"),
};

#[test]
fn each_line_is_printed(rt: HostRuntime) {
    let (alloc, format) = (rt.alloc(), WatchFormat::default());
    let (mut output, mut errors) = (Vec::new(alloc), Vec::new(alloc));
    let printed = print_packet(alloc, PACKET, ORIGIN, format, &mut output, &mut errors);
    assert!(rt; matches!(printed, Ok(false)));
    assert!(rt; output.as_slice() == ROWS);
    assert!(rt; errors.as_slice() == MESSAGE);
}

#[test]
fn each_write_may_fail(rt: HostRuntime) {
    let (alloc, format) = (rt.alloc(), WatchFormat::default());
    for passed in 0..ROWS.len() {
        let mut output = FailingWriter::after(ByteWriter::new(alloc), passed as u64);
        let mut errors = Vec::new(alloc);
        let printed = print_packet(alloc, PACKET, ORIGIN, format, &mut output, &mut errors);
        assert!(rt;
            matches!(printed, Err(WatchError::Output(_))),
            "{passed} writes"
        );
        assert!(rt; output.get_ref().taken() == ROWS.get(..passed).unwrap_or(&[]));
    }
}

#[test]
fn a_strict_format_prints_no_line(rt: HostRuntime) {
    let alloc = rt.alloc();
    let format = WatchFormat {
        is_strict: true,
        ..WatchFormat::default()
    };
    let (mut output, mut errors) = (Vec::new(alloc), Vec::new(alloc));
    let printed = print_packet(alloc, PACKET, ORIGIN, format, &mut output, &mut errors);
    assert!(rt; matches!(printed, Ok(false)));
    assert!(rt; output.is_empty() && errors.as_slice() == MESSAGE);
}

#[test]
fn lines_are_counted(rt: HostRuntime) -> Result<(), Fail> {
    let alloc = rt.alloc();
    let (mut counts, mut errors) = (Counts::new(alloc), Vec::new(alloc));
    let format = WatchFormat::default();
    for packet in [PACKET, b"b:3|c\nb:4|g"] {
        count_packet(alloc, packet, 3, format, &mut counts, &mut errors)?;
    }
    let table = "3\tmetric\tb\n1\tcheck\n1\tmetric\ta\n1\tunreadable\n";
    assert!(rt; counts.table(alloc, 4)?.as_str() == table);
    let first = "3\tmetric\tb\n1\tcheck\n2\tof other names\n";
    assert!(rt; counts.table(alloc, 2)?.as_str() == first);
    assert!(rt; counts.table(alloc, 0)?.as_str() == "6\tof other names\n");
    assert!(rt; errors.as_slice() == MESSAGE);
    Ok(())
}

// Returns a filter that keeps metrics with such a name.
fn named(pattern: &[u8]) -> Filter<'_> {
    Filter {
        name: Some(pattern),
        ..Filter::default()
    }
}

#[test]
fn a_filter_keeps_lines(rt: HostRuntime) {
    let line = cut_line(b"app.visits:1|c|#env:prod,web");
    let check = cut_line(b"_sc|web|0");
    assert!(rt; named(b"app.*").keeps(line));
    assert!(rt; named(b"app.visits").keeps(line));
    assert!(rt; !named(b"app").keeps(line));
    assert!(rt; !named(b"*").keeps(check));
    assert!(rt; Filter::default().keeps(check));
}

// Returns whether there was enough of this memory for the row of a line. If there was, the row must be the right one.
fn makes_row(heap: RefusingAllocator<Global>) -> Result<bool, Fail> {
    let mut row = String::new(heap);
    if push_row(&mut row, cut_line(b"a:1:2.5|ms|@0.5|#k:v,w")).is_err() {
        return Ok(false);
    }
    if row.as_str() == "metric\ta\t1:2.5\tms\t|@0.5|#k:v,w" {
        Ok(true)
    } else {
        Err(Fail::new("another row"))
    }
}

#[test]
fn each_request_may_be_refused(rt: HostRuntime) -> Result<(), Fail> {
    let granted = each_refused(rt.alloc(), makes_row)?;
    assert!(rt; granted.is_some_and(|granted| granted > 0));
    Ok(())
}

const NUMBER: &str = "a number, as 1 or -0.5, and then a bar";

const TYPE: &str = "the type c, ms, g, m, h, s or d";

const FIELDS: &str = "@RATE, #TAGS, c:CONTAINER and TTIME, in this order";

// Lines, the first byte of each that the reader can't read, and what it wants there.
const REMARKED: &[(&[u8], usize, &str)] = &[
    (b"load:+3|g", 6, NUMBER),
    (b"a:-0|g", 5, NUMBER),
    (b"a:1::2|ms", 5, NUMBER),
    (b"a:-0.50|g", 8, NUMBER),
    (b"a:0.5e3|g", 6, NUMBER),
    (b"aa\xc3\xb6:x|c", 6, NUMBER),
    (b"gr\xc3\xb6\xc3\x9fe.w\xc3\xa4rme:+3|g", 16, NUMBER),
    (b"\xe2\x82\xac\xe2\x82\xac:1|x", 10, TYPE),
    (b"a:1|mx", 6, TYPE),
    (b"a:1|c|#\xc3\xb6:\xe2\x82\xac,\xe2\x82\xac:b:c", 20, FIELDS),
    (b"a:1|c|@-0", 10, FIELDS),
    (b"a:1|c|@0.50|#a", 12, FIELDS),
    (b"a:1|c|#a|c:\xe2\x82\xac|T1|", 18, FIELDS),
    (b"a:1|c|T18446744073709551616", 27, FIELDS),
    (b"a,b:1|c", 2, "a name and then a colon"),
    (b"ab\xc3:1|c", 3, "a name and then a colon"),
    (b"ab\x80:1|c", 3, "a name and then a colon"),
    (b"a:1|c|#\xc3\xb6\xff", 10, FIELDS),
];

#[test]
fn a_remark_has_the_place(rt: HostRuntime) -> Result<(), Fail> {
    let alloc = rt.alloc();
    for (line, byte, why) in REMARKED {
        let wanted = format!(in alloc; "byte {byte}: statsd_listen wants {why}")?;
        let remark = remark_on(alloc, line)?;
        assert!(rt;
            remark.is_some_and(|remark| remark.as_str() == wanted.as_str()),
            "{wanted}"
        );
    }
    assert!(rt; remark_on(alloc, b"load:3|g")?.is_none());
    Ok(())
}
