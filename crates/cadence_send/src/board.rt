//! Counts the packets and lines that are lost while an input is sent, which is called a stream here.
use std::cell::Cell;
use std::fmt;

/// How many packets a stream gave to its writer, and how many of them were lost, each modulo 2^64.
#[derive(Clone, Copy, Debug, Default, PartialEq, Eq)]
pub struct Losses {
    /// The packets that were given, including the lost ones.
    pub given: u64,
    /// The packets that were lost.
    pub packets: u64,
    /// The lines of the lost packets.
    pub lines: u64,
}

/// Counts what a stream has lost. The writer of packets counts each packet here, and the run reads the counts.
#[derive(Drop)]
pub struct LossBoard {
    losses: Cell<Losses>,
    is_failing: Cell<bool>,
    added: Cell<AddedLines>,
}

// How many lines of the input were added up.
#[derive(Clone, Copy, Debug, Default)]
struct AddedLines {
    // All of them.
    taken: u64,
    // How many of them were added up before the last time that everything was sent, and how many packets had been lost
    // by then.
    sent: u64,
    lost_packets: u64,
    // How many of them were added up between two times that everything was sent, if a packet was lost in between.
    lost: u64,
}

impl LossBoard {
    /// Returns a board for a stream that has lost nothing.
    pub fn new() -> LossBoard {
        LossBoard {
            losses: Cell::new(Losses::default()),
            is_failing: Cell::new(false),
            added: Cell::new(AddedLines::default()),
        }
    }

    // Notes the losses after one more packet, and whether that one was lost.
    pub(crate) fn note_packet(&self, losses: Losses, is_lost: bool) {
        self.losses.set(losses);
        self.is_failing.set(is_lost);
    }

    // Notes that a line of the input was added up.
    pub(crate) fn note_added(&self) {
        let mut added = self.added.get();
        added.taken = added.taken.wrapping_add(1);
        self.added.set(added);
    }

    // Notes that everything was sent that was added up.
    pub(crate) fn note_sent(&self) {
        let mut added = self.added.get();
        added.lost = self.lost_sums();
        added.sent = added.taken;
        added.lost_packets = self.losses.get().packets;
        self.added.set(added);
    }

    // Returns an upper bound for the lines of the input whose sums were in lost packets. A packet that is lost after
    // everything was sent has sums of lines that were added up since then.
    pub(crate) fn lost_sums(&self) -> u64 {
        let added = self.added.get();
        if self.losses.get().packets == added.lost_packets {
            return added.lost;
        }
        added
            .lost
            .wrapping_add(added.taken.wrapping_sub(added.sent))
    }

    // Returns how many packets were lost.
    pub(crate) fn lost_packets(&self) -> u64 {
        self.losses.get().packets
    }

    // Returns whether the last packet was lost.
    pub(crate) fn is_failing(&self) -> bool {
        self.is_failing.get()
    }

    // Returns what was lost, as messages say it.
    pub(crate) fn report(&self) -> LossReport {
        LossReport {
            losses: self.losses.get(),
            lost_sums: self.lost_sums(),
        }
    }
}

// What was lost, as messages say it.
#[derive(Clone, Copy, Debug)]
pub(crate) struct LossReport {
    pub losses: Losses,
    // An upper bound for the lines of the input whose sums were in lost packets.
    pub lost_sums: u64,
}

impl fmt::Display for LossReport {
    fn fmt<W: fmt::Write>(&self, f: &mut fmt::Formatter<W>) -> fmt::Result {
        let Losses {
            given,
            packets,
            lines,
        } = self.losses;
        write!(
            f,
            "{packets} of {given} packets were lost, with {lines} lines"
        )?;
        let sums = self.lost_sums;
        if sums == 0 {
            return Ok(());
        }
        write!(f, ", the sums of at most {sums} lines of the input")
    }
}
