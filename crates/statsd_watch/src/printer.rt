//! Prints the lines of packets, or counts them and prints the counts.
use crate::arguments::Arguments;
use crate::batch::{Batch, Packet};
use crate::stop::Stop;
use cadence_listen::{Counts, Origin, WatchError, count_packet, print_packet};
use std::io::{BufWriter, Stdout, Write};
use std::time::{Duration, Instant};

/// Prints the lines of packets, or counts them and prints the counts.
#[derive(Drop)]
pub struct Printer {
    output: BufWriter<Stdout>,
    counts: Counts,
    // When the counts were printed last. Before that it is the start.
    last: Option<Instant>,
    number: u64,
    is_whole: bool,
}

// Returns the text if it is to be printed.
fn shown(is_asked: bool, text: &str) -> Option<&str> {
    if is_asked { Some(text) } else { None }
}

impl Printer {
    /// Returns what has printed nothing yet.
    ///
    /// # Errors
    /// The output's, or that memory ran out.
    pub fn new(rt: &HostRuntime) -> Result<Printer, Stop> {
        let output = match BufWriter::new(rt.alloc(), rt.stdout()) {
            Ok(output) => output,
            Err(why) => return Err(Stop::Output(why)),
        };
        Ok(Printer {
            output,
            counts: Counts::new(rt.alloc()),
            last: Instant::now(rt).ok(),
            number: 0,
            is_whole: true,
        })
    }

    /// Returns how many packets came so far.
    pub fn number(&self) -> u64 {
        self.number
    }

    /// Returns whether a server can read all lines that came so far.
    pub fn is_whole(&self) -> bool {
        self.is_whole
    }

    /// Returns how long it is until the counts are to be printed, if they are printed again and again. If the clock fails,
    /// they are not.
    pub fn left(&self, rt: &HostRuntime, arguments: &Arguments<'_>) -> Option<Duration> {
        let seconds = arguments.top?;
        if seconds == 0 {
            return None;
        }
        let passed = Instant::now(rt).ok()?.duration_since(self.last?);
        Some(Duration::from_secs(seconds).saturating_sub(passed))
    }

    /// Prints the counts, and an empty line.
    ///
    /// # Errors
    /// The output's, or that memory ran out.
    pub fn print_counts(
        &mut self,
        rt: &HostRuntime,
        arguments: &Arguments<'_>,
    ) -> Result<(), Stop> {
        self.last = Instant::now(rt).ok();
        let mut text = self.counts.table(rt.alloc(), arguments.names)?;
        text.push('\n')?;
        if let Err(why) = self.output.write_all(text.as_bytes()) {
            return Err(Stop::Output(why));
        }
        self.flush()
    }

    // Hands all that was printed to the system.
    fn flush(&mut self) -> Result<(), Stop> {
        match self.output.flush() {
            Ok(()) => Ok(()),
            Err(why) => Err(Stop::Output(why)),
        }
    }

    /// Prints or counts the lines of the packets.
    ///
    /// # Errors
    /// The output's, or that memory ran out.
    pub fn print_batch(
        &mut self,
        rt: &HostRuntime,
        arguments: &Arguments<'_>,
        batch: &Batch,
    ) -> Result<(), Stop> {
        let mut start = 0;
        for packet in batch.packets() {
            self.number = self.number.saturating_add(1);
            let (bytes, end) = batch.bytes_from(start, packet);
            start = end;
            let is_whole = if packet.is_cut {
                let (number, most) = (self.number, bytes.len());
                let _ = eprintln!(rt;
                    "statsd_watch: packet {number}: has {most} bytes or more: wants fewer"
                );
                false
            } else if arguments.top.is_some() {
                self.count_one(rt, arguments, bytes)?
            } else {
                self.print_one(rt, arguments, packet, bytes)?
            };
            self.is_whole = self.is_whole && is_whole;
        }
        self.flush()
    }

    // Counts the lines of a packet. Returns whether a server can read all of them.
    fn count_one(
        &mut self,
        rt: &HostRuntime,
        arguments: &Arguments<'_>,
        bytes: &[u8],
    ) -> Result<bool, WatchError> {
        let (number, format) = (self.number, arguments.format);
        let is_whole = count_packet(
            rt.alloc(),
            bytes,
            number,
            format,
            &mut self.counts,
            &mut rt.stderr(),
        )?;
        Ok(is_whole)
    }

    // Prints the lines of a packet. Returns whether a server can read all of them.
    fn print_one(
        &mut self,
        rt: &HostRuntime,
        arguments: &Arguments<'_>,
        packet: &Packet,
        bytes: &[u8],
    ) -> Result<bool, WatchError> {
        let alloc = rt.alloc();
        let (mut time, mut sender) = (String::new(alloc), String::new(alloc));
        if let Some(since) = packet.time {
            let (seconds, millis) = (since.as_secs(), since.subsec_millis());
            write!(time, "{seconds}.{millis:03}")?;
        }
        if arguments.has_sender {
            match packet.sender {
                Some(address) => write!(sender, "{address}")?,
                None => sender.push_str("unix")?,
            }
        }
        let origin = Origin {
            number: self.number,
            time: shown(arguments.has_time, &time),
            sender: shown(arguments.has_sender, &sender),
        };
        print_packet(
            alloc,
            bytes,
            origin,
            arguments.format,
            &mut self.output,
            &mut rt.stderr(),
        )
    }
}
