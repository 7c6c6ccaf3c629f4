//! The engine of `statsd_send` over a reader, writers, packets and memory that fail. A run has to end with the status
//! and the message of its failure, and to send the lines before it.
use super::stream::{OUTLET, Waiting};
use cadence_flow::io::{Answer, LineBuffer, PacketLog, PacketWriter};
use cadence_send::{LossBoard, Options, PacketPrinter, Sending, Setting, run_words};
use cadence_text::line::OwnedTag;
use cadence_words::{Defaults, Fields};
use std::alloc::{Allocator, Global};
use std::io::{Read, Write};
use std::test::Fail;
use test_tools::reader::{ByteReader, FailingReader};
use test_tools::writer::{ByteWriter, FailingWriter};
use test_tools::{RefusingAllocator, each_refused};

// Three lines of input, what is sent for them, and what is sent for the first two.
const TEXT: &[u8] = b"c a 1 k:v\nms b 12,250\ng c 0.5\n";

const LINES: &[u8] = b"p.a:1|c|#x,k:v|c:id\np.b:12:250|ms|#x|c:id\np.c:0.5|g|#x|c:id\n";

const TWO_LINES: &[u8] = b"p.a:1|c|#x,k:v|c:id\np.b:12:250|ms|#x|c:id\n";

// Options that take memory: a prefix, a tag and a container for each line.
const OPTIONS: &[(Setting, &str)] = &[
    (Setting::Prefix, "p"),
    (Setting::Tag, "x"),
    (Setting::Container, "id"),
];

// The words of the first line, and what is sent and printed for them.
const WORDS: &[&str] = &["c", "a", "1", "k:v"];

const LINE: &[u8] = b"p.a:1|c|#x,k:v|c:id\n";

// The words of an event and of a service check, the fields that they have, and what is sent for them. The event is
// longer than a packet.
const EVENT: &[&str] = &["event", "t", "x\n", "k:v"];

const EVENT_LINE: &[u8] = b"_e{1,3}:t|x\\n|h:h|#x,k:v|c:id";

const CHECK: &[&str] = &["check", "w", "warning", "k:v"];

const CHECK_LINE: &[u8] = b"_sc|w|1|h:h|#x,k:v|c:id\n";

// The words of a gauge that is set below 0, and the two lines that are sent for them in one packet.
const LEVEL: &[&str] = &["g", "b", "=-0.5", "k:v"];

const LEVEL_LINES: &[u8] = b"p.b:0|g|#x,k:v|c:id\np.b:-0.5|g|#x,k:v|c:id";

// Words with separators, which are cleaned, and the line that is sent for them.
const UNCLEAN: &[&str] = &["c", "a:b", "1", "k|x:v"];

const CLEANED_LINE: &[u8] = b"p.a_b:1|c|#x,k_x:v|c:id\n";

const FIELDS: Fields<'static> = Fields {
    host: Some("h"),
    key: None,
    priority: None,
    source: None,
    alert: None,
    message: None,
};

const SHOWN: &[u8] = b"packet 20 p.a:1|c|#x,k:v|c:id\\n\n";

// No words, so that the input is read.
const NONE: &[&str] = &[];

// Answers of a log that takes one byte of each packet, one for each byte of `LINES`.
const SHORT: [Answer; 60] = [Answer::Short(1); 60];

// More than the requests for memory of any run. The countdown of a heap that refused one has passed 0, and is greater.
const MOST_REQUESTS: u64 = 1000;

// More than the writes of one byte of any run.
const MOST_WRITES: u64 = 300;

// The messages of errors.
const UNREAD: &[u8] = b"statsd_send: input: cannot read: ";

const REFUSED: &[u8] = b"statsd_send: cannot send to host:1 (--to): packet refused\n";

const NO_VALUE: &[u8] = b"statsd_send: VALUE of c is a whole number, as in `c visits 1`\n";

const NO_EVENT: &[u8] =
    b"statsd_send: wants event TITLE TEXT [TAG ..], as in `event Deploy 'version 2.1'`\n";

const NO_CHECK: &[u8] = b"statsd_send: wants check NAME STATUS [TAG ..], as in `check web ok`\n";

const NO_STATUS: &[u8] =
    b"statsd_send: STATUS is ok, warning, critical, unknown or 0 to 3, as in `check web critical`\n";

const NO_METRICS: &[u8] =
    b"statsd_send: line 2: wants KIND NAME VALUE [TAG ..], as in `c visits 1 page:home`
statsd_send: line 3: KIND is c, ms, g, m, h, s, d or the name of one, as in `count visits 1`
statsd_send: 2 of 3 lines: cannot read\n";

// Returned in place of a status if the writer refused nothing, but text is still held at the end of the run.
const LOST: u8 = 9;

// Returned in place of a status if memory was refused before the run began.
const BEFORE: u8 = 4;

// Returns the fields that the options give each line, or `None` if memory was refused. Words with a bar are cleaned.
fn defaults_of<A: Allocator + Clone>(alloc: &A, words: &[&str]) -> Option<Defaults<A>> {
    let mut options = Options::new(alloc.clone().ok()?);
    options.is_cleaning = words.iter().any(|word| word.contains('|'));
    for (setting, value) in OPTIONS {
        options.set(*setting, value).ok()?;
    }
    let none: Vec<OwnedTag<A>, A> = Vec::new(alloc.clone().ok()?);
    options.defaults(alloc.clone().ok()?, &none).ok()
}

// Runs the lines of the input over a packer. Returns the status.
fn run_lines<A: Allocator + Clone, T: PacketWriter, I: Read, E: Write>(
    alloc: &A,
    defaults: &Defaults<A>,
    lines: &mut LineBuffer<T, A>,
    input: &mut I,
    errors: &mut E,
) -> u8 {
    let mut unhurried: Option<Waiting> = None;
    let board = LossBoard::new();
    let mut sending = Sending {
        alloc,
        defaults,
        errors,
        pace: &mut unhurried,
        board: &board,
    };
    sending.run_input(lines, input, OUTLET)
}

// Runs the words, or the input if there are no words, over a packer whose packets hold one line. Returns the status,
// whether no text is held at the end, and the writer. Returns `None` if memory was refused before the run.
fn drive<A: Allocator + Clone, T: PacketWriter, I: Read, E: Write>(
    alloc: A,
    writer: T,
    words: &[&str],
    input: &mut I,
    errors: &mut E,
) -> Option<(u8, bool, T)> {
    let Ok(mut lines) = LineBuffer::new(alloc.clone().ok()?, writer, 24) else {
        return None;
    };
    let defaults = defaults_of(&alloc, words)?;
    let status = if words.is_empty() {
        run_lines(&alloc, &defaults, &mut lines, input, errors)
    } else {
        run_words(
            &alloc, &defaults, &FIELDS, &mut lines, words, OUTLET, errors,
        )
    };
    let (writer, held) = lines.into_parts();
    Some((status, held.is_empty(), writer))
}

// Runs the words, or the input if there are no words, over a log with these answers. Returns the status and the bytes
// of all packets.
fn run_over_log<A: Allocator + Clone, I: Read, E: Write>(
    alloc: A,
    plain: Global,
    answers: &[Answer],
    words: &[&str],
    input: &mut I,
    errors: &mut E,
) -> Result<(u8, Vec<u8>), Fail> {
    let log = PacketLog::new(plain, Vec::from_slice(plain, answers)?);
    let mut all = Vec::new(plain);
    let Some((status, is_sent, log)) = drive(alloc, log, words, input, errors) else {
        return Ok((BEFORE, all));
    };
    for packet in log.packets() {
        all.extend_from_slice(packet)?;
    }
    let is_whole = is_sent || status == 1;
    Ok((if is_whole { status } else { LOST }, all))
}

// Runs the words over a writer that prints their packet, and returns the status. Returns `None` if memory was refused
// before the run.
fn print_packet<A: Allocator + Clone, O: Write + Drop>(
    alloc: A,
    output: O,
    errors: &mut Vec<u8>,
) -> Option<u8> {
    let printed = PacketPrinter::new(alloc.clone().ok()?, output).ok()?;
    let mut none = ByteReader::new(b"");
    let (status, _is_sent, _printed) = drive(alloc, printed, WORDS, &mut none, errors)?;
    Some(status)
}

// Returns the first `count` lines of `LINES`.
fn first_lines(count: usize) -> &'static [u8] {
    match count {
        0 => b"",
        1 => LINE,
        2 => TWO_LINES,
        _ => LINES,
    }
}

// The number of reads: one for each byte of the text, and one that finds its end.
const READS: u64 = 31;

// Returns whether a run whose reader fails after `passed` reads has the right status, sends the lines before that, and
// reports the failure.
fn has_right_end_after_reads(alloc: Global, passed: u64) -> Result<bool, Fail> {
    let mut input = FailingReader::after(ByteReader::new(TEXT), passed);
    let mut errors = Vec::new(alloc);
    let (status, sent) = run_over_log(alloc, alloc, &[], NONE, &mut input, &mut errors)?;
    let taken = TEXT.iter().take(passed as usize);
    let lines = first_lines(taken.filter(|byte| **byte == b'\n').count());
    let (failed, message) = if passed < READS {
        (1, UNREAD)
    } else {
        (0, b"".as_slice())
    };
    let is_told = errors.starts_with(message) && errors.is_empty() == message.is_empty();
    Ok(status == failed && sent.as_slice() == lines && is_told)
}

#[test]
fn each_read_may_fail(rt: HostRuntime) -> Result<(), Fail> {
    for passed in 0..=READS {
        assert!(rt;
            has_right_end_after_reads(rt.alloc(), passed)?,
            "{passed} reads"
        );
    }
    Ok(())
}

// Words, or a text if there are no words, and the answers of the log; then the status, what is sent, and the message.
type Row = (
    &'static [&'static str],
    &'static [u8],
    &'static [Answer],
    u8,
    &'static [u8],
    &'static [u8],
);

// Text that is still held when a packet is refused is sent at the end.
const ROWS: &[Row] = &[
    (NONE, TEXT, &SHORT, 0, LINES, b""),
    (WORDS, b"", &SHORT, 0, LINE, b""),
    (
        NONE,
        TEXT,
        &[Answer::Whole, Answer::Whole, Answer::Refuse],
        1,
        TWO_LINES,
        REFUSED,
    ),
    (
        NONE,
        TEXT,
        &[Answer::Whole, Answer::Refuse],
        1,
        TWO_LINES,
        REFUSED,
    ),
    (NONE, TEXT, &[Answer::Refuse], 1, LINE, REFUSED),
    (WORDS, b"", &[Answer::Refuse], 1, b"", REFUSED),
    (&["c", "a", "k:v"], b"", &[], 2, b"", NO_VALUE),
    (NONE, b"c a 1 k:v\nc\nx y 1\n", &[], 2, LINE, NO_METRICS),
    (EVENT, b"", &[], 0, EVENT_LINE, b""),
    (EVENT, b"", &[Answer::Refuse], 1, b"", REFUSED),
    (CHECK, b"", &SHORT, 0, CHECK_LINE, b""),
    (LEVEL, b"", &[], 0, LEVEL_LINES, b""),
    (LEVEL, b"", &[Answer::Refuse], 1, b"", REFUSED),
    (UNCLEAN, b"", &SHORT, 0, CLEANED_LINE, b""),
    (&["event", "t"], b"", &[], 2, b"", NO_EVENT),
    (&["check", "w"], b"", &[], 2, b"", NO_CHECK),
    (&["check", "w", "4"], b"", &[], 2, b"", NO_STATUS),
];

// Returns whether the run of a row has the right status and sends the right lines, although standard error fails after
// `passed` writes. If no write fails, the message is compared too.
fn has_right_end_after_errors(alloc: Global, row: &Row, passed: u64) -> Result<bool, Fail> {
    let (words, text, answers, status, lines, message) = *row;
    let mut input = ByteReader::new(text);
    let mut errors = FailingWriter::after(ByteWriter::new(alloc), passed);
    let (ended, sent) = run_over_log(alloc, alloc, answers, words, &mut input, &mut errors)?;
    let is_reported = passed < MOST_WRITES || errors.get_ref().taken() == message;
    Ok(ended == status && sent.as_slice() == lines && is_reported)
}

#[test]
fn each_answer_is_reported_and_each_write_of_a_message_may_fail(
    rt: HostRuntime,
) -> Result<(), Fail> {
    for row in ROWS {
        for passed in 0..=MOST_WRITES {
            assert!(rt; has_right_end_after_errors(rt.alloc(), row, passed)?);
        }
    }
    Ok(())
}

// Returns whether no request of a run with this memory was refused, in which case the run must send the lines. A run
// with a refused request must send the first lines, or none, and report that memory ran out.
fn sends_lines_with(
    alloc: Global,
    heap: RefusingAllocator<Global>,
    words: &[&str],
    lines: &[u8],
) -> Result<bool, Fail> {
    let left = heap.clone()?;
    let (mut input, mut errors) = (ByteReader::new(TEXT), Vec::new(alloc));
    let (status, sent) = run_over_log(heap, alloc, &[], words, &mut input, &mut errors)?;
    let message = match status {
        0 if sent.as_slice() == lines => b"".as_slice(),
        3 => b"statsd_send: out of memory\n",
        BEFORE => b"",
        _ => return Err(Fail::new("another end")),
    };
    let is_start = (0..4).any(|count| first_lines(count) == sent.as_slice());
    let is_known = is_start || sent.as_slice() == lines;
    if !is_known || errors.as_slice() != message {
        return Err(Fail::new("another text"));
    }
    Ok(left.left() <= MOST_REQUESTS)
}

// Returns whether a run with these words ends as it should with each request refused, and makes more requests than
// these.
fn requests_may_be_refused(
    alloc: Global,
    words: &[&str],
    lines: &[u8],
    fewer: u64,
) -> Result<bool, Fail> {
    let granted = each_refused(alloc, |heap| sends_lines_with(alloc, heap, words, lines))?;
    Ok(granted.is_some_and(|granted| granted > fewer))
}

// A run asks for more memory than the packer, which makes two requests.
#[test]
fn each_request_may_be_refused(rt: HostRuntime) -> Result<(), Fail> {
    assert!(rt; requests_may_be_refused(rt.alloc(), NONE, LINES, 8)?);
    assert!(rt; requests_may_be_refused(rt.alloc(), WORDS, LINE, 2)?);
    assert!(rt; requests_may_be_refused(rt.alloc(), EVENT, EVENT_LINE, 2)?);
    assert!(rt; requests_may_be_refused(rt.alloc(), CHECK, CHECK_LINE, 2)?);
    assert!(rt; requests_may_be_refused(rt.alloc(), LEVEL, LEVEL_LINES, 2)?);
    assert!(rt; requests_may_be_refused(rt.alloc(), UNCLEAN, CLEANED_LINE, 2)?);
    Ok(())
}

// Returns whether a packet is printed over a writer that fails after `passed` writes. If it isn't, the run must end
// with status 1 and a message.
fn is_printed_after_writes(alloc: Global, passed: u64) -> Result<bool, Fail> {
    let mut output = FailingWriter::after(ByteWriter::new(alloc), passed);
    let mut errors = Vec::new(alloc);
    let status = print_packet(alloc, &mut output, &mut errors);
    let shown = output.get_ref().taken();
    if !SHOWN.starts_with(shown) || shown.len() as u64 != passed {
        return Err(Fail::new("another text"));
    }
    match status {
        Some(0) if shown == SHOWN && errors.is_empty() => Ok(true),
        Some(1) if errors.starts_with(b"statsd_send: cannot send to host:1 (--to): ") => Ok(false),
        _ => Err(Fail::new("another end")),
    }
}

#[test]
fn each_write_of_a_printed_packet_may_fail(rt: HostRuntime) -> Result<(), Fail> {
    for passed in 0..MOST_WRITES {
        if is_printed_after_writes(rt.alloc(), passed)? {
            return Ok(());
        }
    }
    Err(Fail::new("always failed"))
}

// Returns whether a packet is printed with this memory, and no request was refused. If the packet isn't printed,
// nothing may be printed.
fn is_printed_with(alloc: Global, heap: RefusingAllocator<Global>) -> Result<bool, Fail> {
    let left = heap.clone()?;
    let (mut output, mut errors) = (Vec::new(alloc), Vec::new(alloc));
    let status = print_packet(heap, &mut output, &mut errors);
    match (status, output.as_slice()) {
        (Some(0), shown) if shown == SHOWN => Ok(left.left() <= MOST_REQUESTS),
        (Some(3) | None, []) => Ok(false),
        _ => Err(Fail::new("another end")),
    }
}

#[test]
fn each_request_of_a_printed_packet_may_be_refused(rt: HostRuntime) -> Result<(), Fail> {
    let granted = each_refused(rt.alloc(), |heap| is_printed_with(rt.alloc(), heap))?;
    assert!(rt; granted.is_some());
    Ok(())
}
