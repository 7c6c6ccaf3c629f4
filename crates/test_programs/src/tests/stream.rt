//! Streams of `statsd_send`: what is sent and counted as lost over a writer that refuses packets, and when held lines
//! are sent before more input comes.
use cadence_aggregating::Limits;
use cadence_flow::io::{Answer, LineBuffer, PacketLog};
use cadence_send::{LastingWriter, LossBoard, Options, Outlet, Pace, Sending, SummedPacker};
use std::alloc::Global;
use std::io::Write;
use std::num::NonZeroUsize;
use std::test::Fail;
use test_tools::reader::ByteReader;

// The place that the messages name.
pub(crate) const OUTLET: Outlet<'static> = Outlet::Target("host:1", "--to");

// One context of each kind is held.
const LIMITS: Limits = Limits {
    most_contexts: NonZeroUsize::MIN,
    most_bytes: 24,
    packs_values: false,
};

// A pace for which lines are due each time that they would wait for input. It counts how often it was asked to wait.
#[derive(Drop)]
pub(crate) struct Waiting {
    waits: u64,
}

impl Pace for Waiting {
    fn is_due(&mut self) -> bool {
        false
    }

    fn wait_until_due(&mut self) -> bool {
        self.waits = self.waits.saturating_add(1);
        true
    }
}

// Whether the lines are added up, and the answers of a log; and then the status, what it takes of three lines, and the
// message.
type LossRow = (bool, &'static [Answer], u8, &'static [u8], &'static [u8]);

const LOSS_ROWS: &[LossRow] = &[
    (false, &[], 0, b"a:1|c\na:2|c\nb:3|c\n", b""),
    (true, &[], 0, b"a:3|c\nb:3|c\n", b""),
    (
        false,
        &[Answer::Refuse],
        1,
        b"b:3|c\n",
        b"statsd_send: cannot send to host:1 (--to): packet refused: packets are dropped
statsd_send: 1 of 2 packets were lost, with 2 lines\n",
    ),
    (
        true,
        &[Answer::Refuse],
        1,
        b"",
        b"statsd_send: cannot send to host:1 (--to): packet refused: packets are dropped
statsd_send: 1 of 1 packets were lost, with 2 lines, \
the sums of at most 3 lines of the input\n",
    ),
    (
        false,
        &[Answer::Whole, Answer::Short(3)],
        1,
        b"a:1|c\na:2|c\nb:3",
        b"statsd_send: 1 of 2 packets were lost, with 1 lines\n",
    ),
    (
        false,
        &[Answer::Refuse, Answer::Refuse],
        1,
        b"",
        b"statsd_send: cannot send to host:1 (--to): packet refused: packets are dropped
statsd_send: 2 of 2 packets were lost, with 3 lines\n",
    ),
];

// A stream: whether its lines are added up, the answers of its log, and its text.
type Stream<'a> = (bool, &'a [Answer], &'a [u8]);

// Runs a stream with packets of 12 bytes, and returns the status and the bytes of all packets that the log took.
fn run_stream<E: Write + Drop, P: Pace>(
    alloc: Global,
    stream: Stream<'_>,
    outlet: Outlet<'_>,
    told: E,
    errors: &mut Vec<u8>,
    pace: &mut P,
) -> Result<(u8, Vec<u8>), Fail> {
    let (is_summed, answers, text) = stream;
    let defaults = Options::new(alloc).defaults(alloc, &[])?;
    let log = PacketLog::new(alloc, Vec::from_slice(alloc, answers)?);
    let board = LossBoard::new();
    let lasting = LastingWriter::new(alloc, log, outlet, told, &board);
    let Ok(mut lines) = LineBuffer::new(alloc, lasting, 12) else {
        return Err(Fail::new("no packer"));
    };
    let mut input = ByteReader::new(text);
    let mut sending = Sending {
        alloc: &alloc,
        defaults: &defaults,
        errors,
        pace,
        board: &board,
    };
    if is_summed {
        let mut sums = SummedPacker::new(alloc, LIMITS, lines, &board)?;
        let status = sending.run_summed(&mut sums, &mut input, outlet);
        return Ok((status, sums.get_ref().get_ref().packets().concat(alloc)?));
    }
    let status = sending.run_stream(&mut lines, &mut input, outlet);
    Ok((status, lines.get_ref().get_ref().packets().concat(alloc)?))
}

// Returns whether a stream of three lines, two in a packet, ends as a row says.
fn has_losses(alloc: Global, row: &LossRow) -> Result<bool, Fail> {
    let (is_summed, answers, wanted, packets, message) = *row;
    let (mut told, mut errors) = (Vec::new(alloc), Vec::new(alloc));
    let mut unhurried: Option<Waiting> = None;
    let stream = (is_summed, answers, b"c a 1\nc a 2\nc b 3".as_slice());
    let (status, taken) = run_stream(
        alloc,
        stream,
        OUTLET,
        &mut told,
        &mut errors,
        &mut unhurried,
    )?;
    told.extend_from_slice(&errors)?;
    Ok(status == wanted && taken.as_slice() == packets && told.as_slice() == message)
}

#[test]
fn a_stream_outlives_refusals_and_counts_what_is_lost(rt: HostRuntime) -> Result<(), Fail> {
    for row in LOSS_ROWS {
        assert!(rt; has_losses(rt.alloc(), row)?);
    }
    Ok(())
}

// A pace that sends each line at once. Its clock shows a minute more for each.
#[derive(Drop)]
struct Ticking {
    now: u64,
}

impl Pace for Ticking {
    fn is_due(&mut self) -> bool {
        self.now = self.now.saturating_add(60);
        true
    }

    fn wait_until_due(&mut self) -> bool {
        true
    }

    fn seconds(&mut self) -> Option<u64> {
        Some(self.now)
    }
}

// Losses are told a minute after the first one, and at once if a packet is sent again.
#[test]
fn losses_are_told_while_a_stream_goes_on(rt: HostRuntime) -> Result<(), Fail> {
    let alloc = rt.alloc();
    let (mut told, mut errors, mut pace) = (Vec::new(alloc), Vec::new(alloc), Ticking { now: 0 });
    let answers: &[Answer] = &[
        Answer::Refuse,
        Answer::Refuse,
        Answer::Whole,
        Answer::Refuse,
    ];
    let stream = (
        false,
        answers,
        b"c a 1\nc b 2\nc c 3\nc d 4\nc e 5\n".as_slice(),
    );
    let (status, taken) = run_stream(alloc, stream, OUTLET, &mut told, &mut errors, &mut pace)?;
    assert_eq!(rt; status, 1);
    assert!(rt; taken.as_slice() == b"c:3|c\ne:5|c\n".as_slice());
    let wanted = b"statsd_send: so far 2 of 2 packets were lost, with 2 lines
statsd_send: sending works again: so far 2 of 3 packets were lost, with 2 lines
statsd_send: sending works again: so far 3 of 5 packets were lost, with 3 lines
statsd_send: 3 of 5 packets were lost, with 3 lines\n";
    assert!(rt; errors.as_slice() == wanted.as_slice());
    Ok(())
}

// The reader gives one byte at a time, so that a line waits for input after its newline.
#[test]
fn a_pace_waits_only_while_a_line_is_held(rt: HostRuntime) -> Result<(), Fail> {
    let alloc = rt.alloc();
    let defaults = Options::new(alloc).defaults(alloc, &[])?;
    let log = PacketLog::new(alloc, Vec::new(alloc));
    let Ok(mut lines) = LineBuffer::new(alloc, log, 512) else {
        return Err(Fail::new("no packer"));
    };
    let (mut pace, board) = (Waiting { waits: 0 }, LossBoard::new());
    let (mut input, mut errors) = (ByteReader::new(b"c a 1\n\nc b 2\n"), Vec::new(alloc));
    let mut sending = Sending {
        alloc: &alloc,
        defaults: &defaults,
        errors: &mut errors,
        pace: &mut pace,
        board: &board,
    };
    sending.send_input(&mut lines, &mut input)?;
    let (log, held) = lines.into_parts();
    assert_eq!(rt; pace.waits, 2);
    assert!(rt; held.is_empty() && log.packets().len() == 2);
    Ok(())
}
