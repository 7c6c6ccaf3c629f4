//! Takes the lines of an input as it arrives, with any reader, any writer of packets and any writer of errors.
ghost use Rattle.std.specs.Prelude.{◌≡◌, ◌∷◌, ◌++◌, [], IfNone, IfSome, OnErr, OnOk};
ghost use Rattle.cadence_send.specs.Fed.{Feeds, FeedsSome, IsOneText};
ghost use Rattle.cadence_send.specs.Sent.{TakesFirst, TakesTexts, texts_of_input, without_return};

use crate::board::LossBoard;
use crate::error::RunError;
use crate::pace::Pace;
use crate::taker::LineTaker;
use crate::tidings::Tidings;
use cadence_words::{Defaults, Part, WordError, write_line_of_text};
use memchr::memchr;
use std::alloc::Allocator;
use std::io;
use std::io::{ErrorKind, Read, Write};

// The most bytes that are read at once.
const CHUNK: usize = 16384;

/// How many lines of the input were taken, and how many of them can't be read.
#[derive(Clone, Copy, Debug, PartialEq, Eq)]
pub struct TextCounts {
    /// All lines of the input. An empty text after the last newline is not a line.
    pub texts: u64,
    /// The lines that have words, but can't be read as a metric.
    pub unread: u64,
}

impl TextCounts {
    // Counts one more line of the input. If it can't be read, its number and the reason are written to `errors`.
    fn count_text<E: Write>(&mut self, unread: Option<Part>, errors: &mut E) {
        self.texts = self.texts.saturating_add(1);
        if let Some(part) = unread {
            self.unread = self.unread.saturating_add(1);
            let number = self.texts;
            let _ = writeln!(errors, "statsd_send: line {number}: {part}");
        }
    }
}

// Returns whether the text has no words.
fn is_blank(text: &[u8]) -> bool {
    text.iter().all(|byte| *byte == b' ')
}

// Buffers that are used again for each line of the input.
#[derive(Drop)]
struct Buffers<A: Allocator> {
    // The beginning of a line whose end was not read yet.
    waiting: Vec<u8, A>,
    // The metric's line.
    line: Vec<u8, A>,
}

// Returns the text without the carriage return at its end, if it has one.
fn without_return(text: &[u8]) -> &[u8]
    ensures { result.now ≡ without_return text.now }
{
    let length = text.len();
    if length > 0 && text[length - 1] == b'\r' {
        return &text[..length - 1];
    }
    text
}

// Writes the metric's line of a text into the buffer, and gives it to what takes lines, unless the line is longer than a
// line may be. A carriage return at the end of the text is no part of it. Returns `None` if a line was given or if the text
// has no words. Otherwise it returns the part of the text that is wrong.
fn take_text<L: LineTaker, A: Allocator + Clone>(
    alloc: &A,
    defaults: &Defaults<A>,
    lines: &mut L,
    buffer: &mut Vec<u8, A>,
    text: &[u8],
) -> Result<Option<Part>, RunError>
    ensures taken { OnOk result
        (TakesTexts defaults.now L.takes lines.old lines.new (text.now ∷ [])) }
    ensures kept { OnErr result (L.takes lines.old lines.new []) }
{
    let text = without_return(text);
    match write_line_of_text(alloc, defaults, buffer, text) {
        Ok(()) => {
            if buffer.len() > defaults.longest {
                return Ok(Some(Part::Length));
            }
            lines.take(buffer)?;
            Ok(None)
        }
        Err(WordError::Unusable(part)) => Ok(if is_blank(text) { None } else { Some(part) }),
        Err(WordError::OutOfMemory) => Err(RunError::OutOfMemory),
    }
}

// Takes the text that begins with the waiting bytes and ends with these. Afterwards no bytes wait.
fn take_text_end<L: LineTaker, A: Allocator + Clone>(
    alloc: &A,
    defaults: &Defaults<A>,
    lines: &mut L,
    buffers: &mut Buffers<A>,
    end: &[u8],
) -> Result<Option<Part>, RunError>
    ensures taken { OnOk result (TakesTexts defaults.now L.takes lines.old lines.new
        ((buffers.old.waiting.items ++ end.now) ∷ [])) }
    ensures kept { OnErr result (L.takes lines.old lines.new []) }
    ensures none { OnOk result (buffers.new.waiting.items ≡ []) }
{
    if buffers.waiting.is_empty() {
        return take_text(alloc, defaults, lines, &mut buffers.line, end);
    }
    buffers.waiting.extend_from_slice(end)?;
    let unread = take_text(alloc, defaults, lines, &mut buffers.line, &buffers.waiting)?;
    buffers.waiting.clear();
    Ok(unread)
}

// Returns the bytes before the first newline, and those after it. This is `cadence_value::bytes::split_once` with
// `memchr`, which is faster for long texts.
pub(crate) fn split_line(bytes: &[u8]) -> Option<(&[u8], &[u8])>
    ensures none { IfNone result (IsOneText bytes.now) }
    ensures front { IfSome result (λ parts. IsOneText parts.0.now) }
    ensures whole { IfSome result (λ parts. bytes.now ≡ parts.0.now ++ 10 ∷ parts.1.now) }
{
    let at = memchr(b'\n', bytes)?;
    Some((&bytes[..at], &bytes[at + 1..]))
}

// Takes each text that a newline of these bytes ends. The bytes after the last newline wait.
fn feed<L: LineTaker, E: Write, A: Allocator + Clone>(
    alloc: &A,
    defaults: &Defaults<A>,
    lines: &mut L,
    errors: &mut E,
    counts: &mut TextCounts,
    buffers: &mut Buffers<A>,
    bytes: &[u8],
) -> Result<(), RunError>
    requires { IsOneText buffers.old.waiting.items }
    ensures all { OnOk result (Feeds defaults.now L.takes lines.old lines.new
        buffers.old.waiting.items bytes.now buffers.new.waiting.items) }
    ensures some { OnErr result (FeedsSome defaults.now L.takes lines.old lines.new
        buffers.old.waiting.items bytes.now) }
{
    let mut left = bytes;
    while let Some((front, others)) = split_line(left) {
        let unread = take_text_end(alloc, defaults, lines, buffers, front)?;
        counts.count_text(unread, errors);
        left = others;
    }
    buffers.waiting.extend_from_slice(left)?;
    Ok(())
}

// Returns whether what is held is to be sent before more input is read. Input without a whole line begins no period.
fn is_due<L: LineTaker, P: Pace>(lines: &L, pace: &mut P) -> bool {
    lines.is_holding() && (pace.is_due() || pace.wait_until_due())
}

// Sends what is held if it is due before more input is read.
fn keep_pace<L: LineTaker, P: Pace>(lines: &mut L, pace: &mut P) -> Result<(), RunError>
    ensures { L.takes lines.old lines.new [] }
{
    if !is_due(lines, pace) {
        return Ok(());
    }
    lines.send()
}

/// What a run over an input needs besides the input and the `LineTaker`.
#[derive(Drop)]
pub struct Sending<'a, E, P, A: Allocator> {
    /// The memory of the buffers.
    pub alloc: &'a A,
    /// What each metric gets besides its words: a prefix, tags and other fields.
    pub defaults: &'a Defaults<A>,
    /// What is wrong with a line or a run is written to this. An error of `errors` is ignored.
    pub errors: &'a mut E,
    /// When what is held is sent before more input is read.
    pub pace: &'a mut P,
    /// Counts what was lost. The run writes the counts to `errors` from time to time.
    pub board: &'a LossBoard,
}

impl<E: Write, P: Pace, A: Allocator + Clone> Sending<'_, E, P, A> {
    /// Reads the lines of the input, and gives the metric's line of each to what takes them. For a line that can't be
    /// read, its number and the reason are written to `errors`. After each piece of input, what is held is sent if the
    /// pace says that it is due, now or before more input comes. What is held at the end of the input is not sent.
    ///
    /// The counts of what was lost are written to `errors`, at most once a minute. If packets are sent again, they are
    /// written at once, and otherwise a minute after the first loss that was not yet written.
    ///
    /// # Errors
    /// `Input` if the reader fails, `Writer` if a packet is refused, and `OutOfMemory`. The lines before the error were
    /// taken, and none of the others: what a writer refused of them is still held.
    pub fn take_input<L: LineTaker, I: Read>(
        &mut self,
        lines: &mut L,
        input: &mut I,
    ) -> Result<TextCounts, RunError>
        ensures all { OnOk result (IfSome (I.remaining input.old) (λ text.
            TakesTexts self.old.defaults.now L.takes lines.old lines.new (texts_of_input text))) }
        ensures first { OnErr result (IfSome (I.remaining input.old) (λ text.
            TakesFirst self.old.defaults.now L.takes lines.old lines.new (texts_of_input text))) }
    {
        let (alloc, defaults) = (self.alloc, self.defaults);
        let mut counts = TextCounts {
            texts: 0,
            unread: 0,
        };
        let mut buffers = Buffers {
            waiting: Vec::new(alloc.clone()?),
            line: Vec::new(alloc.clone()?),
        };
        let mut tidings = Tidings::default();
        let mut buffer = [0u8; CHUNK];
        for _ in 0..u64::MAX {
            match input.read(&mut buffer) {
                Ok(0) => {
                    let is_text = !buffers.waiting.is_empty();
                    let unread = take_text_end(alloc, defaults, lines, &mut buffers, b"")?;
                    if is_text {
                        counts.count_text(unread, self.errors);
                    }
                    return Ok(counts);
                }
                Ok(count) => feed(
                    alloc,
                    defaults,
                    lines,
                    self.errors,
                    &mut counts,
                    &mut buffers,
                    &buffer[..count],
                )?,
                Err(error) => return Err(RunError::Input(error)),
            }
            keep_pace(lines, self.pace)?;
            tidings.follow(self.board, self.pace, self.errors);
        }
        Err(RunError::Input(io::Error::from(ErrorKind::Other)))
    }
}
