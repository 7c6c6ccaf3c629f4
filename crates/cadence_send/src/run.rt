//! Sends the line of some words, or the metrics of an input, and returns the exit status.
ghost use Rattle.std.specs.Prelude.{◌≡◌, ◌≤◌, ◌⊎◌, [], IfSome, IsOk, OnErr, OnOk, IfOk, map};
ghost use Rattle.cadence_send.specs.Losses.{lasting_kind, losses_of};
ghost use Rattle.cadence_send.specs.Sent.{SendsTexts, SendsWords, TakesFirst, texts_of_input};
ghost use Rattle.cadence_send.specs.Streams.{Accounts, AccountsFirst, fates_in, given_history};
ghost use Rattle.cadence_send.specs.Summed.{IsAllSent, HoldsSummary, TakesSummed, packer_below};

use crate::board::{LossReport, Losses};
use crate::engine::{Sending, TextCounts};
use crate::error::RunError;
use crate::lasting::LastingWriter;
use crate::outlet::Outlet;
use crate::pace::Pace;
use crate::summed::SummedPacker;
use crate::taker::LineTaker;
use cadence_flow::io::{LineBuffer, PacketWriter};
use cadence_words::{Defaults, Fields, Part, WordError, line_of_command};
use std::alloc::Allocator;
use std::io::{Read, Write};

/// Sends the text that is held, and then the line for which the words ask: that of a metric, or of an event or a service
/// check, which has these fields. If the words ask for no line, or the line is longer than a line may be, this function
/// sends nothing and returns the part that can't be read.
///
/// # Errors
/// `Writer` if a packet is refused, and `OutOfMemory`.
pub fn send_words<'a, T: PacketWriter, A: Allocator + Clone>(
    alloc: &A,
    defaults: &Defaults<A>,
    fields: &Fields<'a>,
    lines: &mut LineBuffer<T, A>,
    words: &[&'a str],
) -> Result<Option<Part>, RunError>
    ensures { IfOk result (SendsWords defaults.now fields.now T.kind T.history lines.old lines.new
        (map (λ w. w.now) words.now)) }
{
    match line_of_command(alloc, defaults, fields, words) {
        Ok(line) => {
            if line.len() > defaults.longest {
                return Ok(Some(Part::Length));
            }
            lines.take(&line)?;
            lines.send()?;
            Ok(None)
        }
        Err(WordError::Unusable(part)) => Ok(Some(part)),
        Err(WordError::OutOfMemory) => Err(RunError::OutOfMemory),
    }
}

// Writes the error to `errors`, and returns its exit status. For a refused packet it names the place.
fn report_error<E: Write>(error: RunError, outlet: Outlet<'_>, errors: &mut E) -> u8
    ensures { (result ≡ 1) ⊎ (result ≡ 3) }
{
    let status = error.status();
    let _ = match error {
        RunError::Writer(fault) => writeln!(errors, "statsd_send: cannot {outlet}: {fault}"),
        other => writeln!(errors, "statsd_send: {other}"),
    };
    status
}

/// Sends the line of the words with `send_words`, and returns the exit status of the program: 0 if the line was sent, 1
/// if a packet was refused, 2 if the words ask for no line, and 3 if memory ran out. For every status but 0, one line is
/// written to `errors`. An error of `errors` is ignored.
pub fn run_words<'a, T: PacketWriter, E: Write, A: Allocator + Clone>(
    alloc: &A,
    defaults: &Defaults<A>,
    fields: &Fields<'a>,
    lines: &mut LineBuffer<T, A>,
    words: &[&'a str],
    outlet: Outlet<'_>,
    errors: &mut E,
) -> u8
    ensures { result ≤ 3 }
{
    match send_words(alloc, defaults, fields, lines, words) {
        Ok(None) => 0,
        Ok(Some(part)) => {
            let _ = writeln!(errors, "statsd_send: {part}");
            2
        }
        Err(error) => report_error(error, outlet, errors),
    }
}

// Writes to `errors` that a run over an input ended with an error, or that it couldn't read all lines, if that is so.
// Returns the exit status.
fn report_end<E: Write>(
    ended: Result<TextCounts, RunError>,
    outlet: Outlet<'_>,
    errors: &mut E,
) -> u8
    ensures most { result ≤ 3 }
    ensures ok { (result ≡ 0) ⊎ (result ≡ 2) → IsOk ended }
{
    let TextCounts { texts, unread } = match ended {
        Ok(counts) => counts,
        Err(error) => return report_error(error, outlet, errors),
    };
    if unread == 0 {
        return 0;
    }
    let _ = writeln!(
        errors,
        "statsd_send: {unread} of {texts} lines: cannot read"
    );
    2
}

// Writes to `errors` how much was lost, if anything was, with an upper bound for the lines of the input whose sums were
// in it. Returns the exit status of a run that ended with `status`: 1 in place of 0 or 2 if anything was lost.
fn report_losses<E: Write>(status: u8, losses: Losses, lost_sums: u64, errors: &mut E) -> u8
    requires { status ≤ 3 }
    ensures most { result ≤ 3 }
    ensures none { (result ≡ 0) ⊎ (result ≡ 2) → (losses.packets ≡ 0) × (result ≡ status) }
{
    if losses.packets == 0 {
        return status;
    }
    let report = LossReport { losses, lost_sums };
    let _ = writeln!(errors, "statsd_send: {report}");
    if status == 3 { 3 } else { 1 }
}

impl<E: Write, P: Pace, A: Allocator + Clone> Sending<'_, E, P, A> {
    /// Sends the metrics of the input's lines. It calls `take_input`, and then sends what is held, also after an error of
    /// `take_input`.
    ///
    /// # Errors
    /// Those of `take_input`, which says what becomes of the lines then.
    pub fn send_input<L: LineTaker, I: Read>(
        &mut self,
        lines: &mut L,
        input: &mut I,
    ) -> Result<TextCounts, RunError>
        ensures all { OnOk result (IfSome (I.remaining input.old) (λ text.
            SendsTexts self.old.defaults.now L.takes L.is_sent
            lines.old lines.new (texts_of_input text))) }
        ensures first { OnErr result (IfSome (I.remaining input.old) (λ text.
            TakesFirst self.old.defaults.now L.takes lines.old lines.new (texts_of_input text))) }
    {
        let taken = self.take_input(lines, input);
        let flushed = lines.send();
        let counts = taken?;
        flushed?;
        Ok(counts)
    }

    /// Sends the metrics of the input's lines with `send_input`, and returns the exit status of the program: 0 if the
    /// metrics of all lines were sent, 1 if the reader failed or a packet was refused, 2 if some lines can't be read and
    /// the metrics of the others were sent, and 3 if memory ran out. For every status but 0, the reason is written to
    /// `errors`, with the outlet if a packet was refused.
    pub fn run_input<L: LineTaker, I: Read>(
        &mut self,
        lines: &mut L,
        input: &mut I,
        outlet: Outlet<'_>,
    ) -> u8
        ensures status { result ≤ 3 }
        ensures sent { (result ≡ 0) ⊎ (result ≡ 2) → IfSome (I.remaining input.old) (λ text.
            SendsTexts self.old.defaults.now L.takes L.is_sent
            lines.old lines.new (texts_of_input text)) }
    {
        let ended = self.send_input(lines, input);
        report_end(ended, outlet, self.errors)
    }

    /// Sends the metrics of the input's lines with `send_input`, over a writer that outlives refusals. Afterwards the
    /// packets that the writer was given, sent or lost, are the lines of the whole input and nothing else, and the
    /// writer's `losses` are those of these packets.
    ///
    /// # Errors
    /// `Input` if the reader fails, and `OutOfMemory`. The first lines of the input are then in packets or still held,
    /// and none of the others.
    pub fn send_stream<T: PacketWriter, F: Write + Drop, I: Read>(
        &mut self,
        lines: &mut LineBuffer<LastingWriter<'_, T, F, A>, A>,
        input: &mut I,
    ) -> Result<TextCounts, RunError>
        ensures whole { OnOk result (IfSome (I.remaining input.old) (λ text.
            Accounts self.old.defaults.now lines.old lines.new (texts_of_input text))) }
        ensures none_held { OnOk result
            (IfSome (I.remaining input.old) (λ _. lines.new.held ≡ [])) }
        ensures first { OnErr result (IfSome (I.remaining input.old) (λ text.
            AccountsFirst self.old.defaults.now lines.old lines.new (texts_of_input text))) }
    {
        self.send_input(lines, input)
    }

    /// Sends the metrics of the input's lines with `send_stream`, and returns the exit status of the program. It is that
    /// of `run_input`, except that it is 1 in place of 0 or 2 if packets were lost (but not 2^64, or a multiple of that).
    /// How many packets and lines were lost is written to `errors`.
    pub fn run_stream<T: PacketWriter, F: Write + Drop, I: Read>(
        &mut self,
        lines: &mut LineBuffer<LastingWriter<'_, T, F, A>, A>,
        input: &mut I,
        outlet: Outlet<'_>,
    ) -> u8
        ensures status { result ≤ 3 }
        ensures sent { (result ≡ 0) ⊎ (result ≡ 2) → IfSome (I.remaining input.old) (λ text.
            Accounts self.old.defaults.now lines.old lines.new (texts_of_input text)) }
        ensures none_lost { (result ≡ 0) ⊎ (result ≡ 2) →
            (losses_of (fates_in lines.new.writer)).packets ≡ 0 }
    {
        let ended = self.send_stream(lines, input);
        let status = report_end(ended, outlet, self.errors);
        report_losses(status, lines.get_ref().losses(), 0, self.errors)
    }

    /// Sends the metrics of the input's lines with `send_input`, added up before they are packed, and returns the exit
    /// status of the program as `run_stream` does. The lines that the packer took and those that wait, with what is
    /// held, are a summary of the lines that were added up. If packets were lost, `errors` also gets an upper bound for
    /// the lines of the input whose sums were in these packets: all lines that were taken between two times at which
    /// everything was sent, if a packet was lost between them.
    pub fn run_summed<T: PacketWriter, F: Write + Drop, I: Read>(
        &mut self,
        lines: &mut SummedPacker<'_, LastingWriter<'_, T, F, A>, A>,
        input: &mut I,
        outlet: Outlet<'_>,
    ) -> u8
        ensures status { result ≤ 3 }
        ensures sent { (result ≡ 0) ⊎ (result ≡ 2) → IfSome (I.remaining input.old) (λ text.
            SendsTexts self.old.defaults.now (TakesSummed (λ _. lasting_kind) given_history)
            IsAllSent lines.old lines.new (texts_of_input text)) }
        ensures summary { HoldsSummary lines.new }
        ensures none_lost { (result ≡ 0) ⊎ (result ≡ 2) →
            (losses_of (fates_in (packer_below lines.new).writer)).packets ≡ 0 }
    {
        let ended = self.send_input(lines, input);
        lines.keeps_the_record();
        let status = report_end(ended, outlet, self.errors);
        let lost_sums = self.board.lost_sums();
        report_losses(status, lines.get_ref().losses(), lost_sums, self.errors)
    }
}
