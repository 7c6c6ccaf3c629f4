//! The words of the command line.

use std::env::Args;

/// A call of a client.
#[derive(Clone, Copy)]
pub enum Calling {
    /// A counter without tags.
    Count,
    /// A counter with three tags of the call's own.
    CountTags,
    /// A counter with all options of a call.
    Options,
    /// A histogram of four values.
    Histogram4,
    /// A counter whose call has `size` tags of its own.
    Tags,
    /// A histogram of `size` values.
    Values,
    /// A counter whose key has `size` bytes.
    Key,
}

/// Which packets are read, and into what.
#[derive(Clone, Copy)]
pub enum Reading {
    /// Packets of plain counters.
    Counters,
    /// Packets of lines with every field.
    Full,
    /// Packets of plain counters, read into an arena that is emptied after each packet.
    CountersInArena,
    /// Packets of lines with every field, read into an arena that is emptied after each packet.
    FullInArena,
    /// Packets of plain counters, whose lines are cut as those of any client.
    CutCounters,
    /// Packets of lines with every field, which are cut as those of any client.
    CutFull,
}

/// Where lines go, and from how many threads.
#[derive(Clone, Copy)]
pub enum Emitting {
    /// Lines into a buffered UDP sink.
    Udp,
    /// Lines of one caller into a queue.
    Queue,
    /// Lines of several callers into a queue.
    Callers,
    /// Lines of several callers that a full queue refuses.
    Refused,
    /// Lines of several callers into a buffered UDP sink.
    UdpCallers,
}

/// What the program does.
#[derive(Clone, Copy)]
pub enum Mode {
    /// Calls of a client over a sink that does nothing.
    Client(Calling),
    /// Counters of a client with `size` default tags.
    DefaultTags,
    /// Counters with three tags of a strict client.
    StrictTags,
    /// Lines into a packer.
    Packer,
    /// Packets that are read.
    Read(Reading),
    /// Lines into a sink or a queue.
    Emit(Emitting),
    /// Counters of several callers through a queue into a buffered UDP sink.
    Service,
    /// Counters by `size` keys of a client whose calls make no line, with three tags or without.
    Keys(bool),
}

// The modes, each with its word.
const MODES: [(Mode, &str); 24] = [
    (Mode::Client(Calling::Count), "count"),
    (Mode::Client(Calling::CountTags), "count_tags"),
    (Mode::Client(Calling::Options), "options"),
    (Mode::Client(Calling::Histogram4), "histogram4"),
    (Mode::Client(Calling::Tags), "tags"),
    (Mode::DefaultTags, "dtags"),
    (Mode::StrictTags, "strict_tags"),
    (Mode::Client(Calling::Values), "values"),
    (Mode::Client(Calling::Key), "key"),
    (Mode::Packer, "packer"),
    (Mode::Read(Reading::Counters), "read"),
    (Mode::Read(Reading::Full), "read_full"),
    (Mode::Read(Reading::CountersInArena), "read_arena"),
    (Mode::Read(Reading::FullInArena), "read_full_arena"),
    (Mode::Read(Reading::CutCounters), "cut"),
    (Mode::Read(Reading::CutFull), "cut_full"),
    (Mode::Emit(Emitting::Udp), "udp"),
    (Mode::Emit(Emitting::Queue), "queue"),
    (Mode::Emit(Emitting::Callers), "callers"),
    (Mode::Emit(Emitting::Refused), "refused"),
    (Mode::Emit(Emitting::UdpCallers), "udp_callers"),
    (Mode::Service, "service"),
    (Mode::Keys(false), "keys"),
    (Mode::Keys(true), "keys_tags"),
];

// Returns the mode that a word names, and the word.
fn mode_of(word: &str) -> Option<(Mode, &'static str)> {
    for (mode, name) in &MODES {
        if *name == word {
            return Some((*mode, *name));
        }
    }
    None
}

/// What the program does, how often, and with which sizes.
#[derive(Clone, Copy)]
pub struct Arguments {
    /// What the program does.
    pub mode: Mode,
    /// The word of the mode.
    pub name: &'static str,
    /// How often it does that.
    pub calls: u64,
    /// How many tags or values a call has, or how many bytes its key.
    pub size: usize,
    /// The capacity of a packer, of a sink or of a packet that is read, in bytes, or that of a queue, in lines. A queue
    /// of capacity 0 has no bound.
    pub capacity: usize,
    /// The length of a line, in bytes.
    pub length: usize,
    /// How many callers work at the same time.
    pub callers: usize,
}

/// The text that is printed if the words name no work.
pub const USAGE: &str = "bench count|count_tags|options|strict_tags|histogram4 N
bench tags|dtags|values|key|keys|keys_tags N [SIZE]
bench packer|udp|queue N [CAP LEN]
bench read|read_full|read_arena|read_full_arena|cut|cut_full N [CAP LEN]
bench callers|refused|udp_callers N [CAP LEN CALLERS]
bench service N [CAP CALLERS]";

// A run over UDP sends this many lines at most.
const MOST_DATAGRAMS: u64 = 200_000;

fn parse_number(word: Option<String>) -> Option<u64> {
    word?.as_str().parse::<u64>().ok()
}

/// Returns the arguments that the words name, or `None` if the first word names no mode. A missing number has a
/// default: one call, and a size of 3, or a capacity of 512, lines of 20 bytes and 2 callers.
pub fn parse(words: &mut Args) -> Option<Arguments> {
    let word = words.next()?;
    let (mode, name) = mode_of(&word)?;
    let calls = parse_number(words.next()).unwrap_or(1);
    let (first, second) = (parse_number(words.next()), parse_number(words.next()));
    let callers = match mode {
        Mode::Emit(Emitting::Queue) => Some(1),
        Mode::Service => second,
        _ => parse_number(words.next()),
    };
    Some(Arguments {
        mode,
        name,
        calls: match mode {
            Mode::Emit(Emitting::Udp | Emitting::UdpCallers) => calls.min(MOST_DATAGRAMS),
            _ => calls,
        },
        size: first.unwrap_or(3) as usize,
        capacity: first.unwrap_or(512) as usize,
        length: second.unwrap_or(20) as usize,
        callers: callers.unwrap_or(2).max(1) as usize,
    })
}
