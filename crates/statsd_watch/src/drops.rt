//! How many packets the system dropped, because they came faster than they are printed.
use crate::receiver::Receiver;
use std::alloc::AllocError;
use std::fs;
use std::time::{Duration, Instant};

// Returns how often the count is looked at while packets come.
fn period() -> Duration {
    Duration::from_secs(1)
}

/// The count of the packets that the system dropped.
#[derive(Drop)]
pub struct Drops {
    // The number of the socket in the table of the system, and the file of that table.
    place: Option<(String, &'static str)>,
    told: u64,
    // Whether a packet came since the count was looked at, and when that was.
    is_due: bool,
    last: Option<Instant>,
}

// Returns how many packets of a socket the system dropped, by its table of sockets: the tenth word of a line is the number
// of the socket, and the thirteenth the count.
fn dropped_in(table: &str, number: &str) -> Option<u64> {
    for line in table.lines() {
        let mut words = line.split_ascii_whitespace();
        let Some(word) = words.nth(9) else {
            continue;
        };
        if word == number {
            return words.nth(2)?.parse::<u64>().ok();
        }
    }
    None
}

// Returns the number of the socket in the system's table of sockets, and the file of that table. Returns `None` for a
// Unix socket, of which the system drops no packet, and if the number can't be read.
fn find_place(
    rt: &HostRuntime,
    receiver: &Receiver,
) -> Result<Option<(String, &'static str)>, AllocError> {
    let Some((fd, table)) = receiver.counted() else {
        return Ok(None);
    };
    let alloc = rt.alloc();
    let path = format!(in alloc; "/proc/self/fd/{fd}")?;
    let Ok(link) = fs::read_link(rt, path.as_str()) else {
        return Ok(None);
    };
    let number = link
        .as_str()
        .strip_prefix("socket:[")
        .and_then(|rest| rest.strip_suffix("]"));
    match number {
        Some(number) => Ok(Some((String::from_str(alloc, number)?, table))),
        None => Ok(None),
    }
}

impl Drops {
    /// Returns a count of what the system drops at this socket.
    pub fn new(rt: &HostRuntime, receiver: &Receiver) -> Result<Drops, AllocError> {
        Ok(Drops {
            place: find_place(rt, receiver)?,
            told: 0,
            is_due: false,
            last: None,
        })
    }

    /// Returns how long the program may wait for a packet before it looks at the count. Returns `None` if it needn't
    /// look, because no packet came since it last did, or because the system has no count for this socket.
    pub fn left(&self) -> Option<Duration> {
        if self.is_due { Some(period()) } else { None }
    }

    /// Notes that packets came. Returns whether the count is to be looked at now.
    pub fn note_packets(&mut self, rt: &HostRuntime) -> bool {
        self.is_due = self.place.is_some();
        match (Instant::now(rt), self.last) {
            (Ok(now), Some(last)) => self.is_due && now.duration_since(last) >= period(),
            _ => self.is_due,
        }
    }

    /// Looks at the count, and reports it if it grew. Returns whether packets were dropped so far. If the system
    /// doesn't give the count, nothing is reported.
    pub fn look(&mut self, rt: &HostRuntime) -> bool {
        if self.is_due {
            self.is_due = false;
            self.last = Instant::now(rt).ok();
            let dropped = self.dropped(rt).unwrap_or(0);
            if dropped > self.told {
                self.told = dropped;
                let _ = eprintln!(rt;
                    "statsd_watch: the system dropped {dropped} packets: they came faster than they are printed"
                );
            }
        }
        self.told > 0
    }

    // Returns how many packets the system dropped.
    fn dropped(&self, rt: &HostRuntime) -> Option<u64> {
        let (number, table) = self.place.as_ref()?;
        let text = fs::read_to_string(rt, *table).ok()?;
        dropped_in(&text, number)
    }
}
