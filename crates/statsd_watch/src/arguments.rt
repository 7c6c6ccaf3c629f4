//! The words of the command line.
use cadence_environment::read_port;
use cadence_listen::{Filter, WatchFormat};
use clap::error::ErrorKind;
use clap::{Arg, ArgAction, ArgMatches, Command, Error, value_parser};
use std::alloc::{AllocError, Global};
use std::fmt;

const USAGE: &str = "statsd_watch [OPTIONS] [HOST:PORT | *:PORT | PORT | unix:PATH]";

const ABOUT: &str =
    "Receives packets, by default at 127.0.0.1:8125, and prints each line as it comes.";

const NOTES: &str =
    "A line is printed as columns with a tab between each two. Of a metric they are the word metric, the name, the
values, the type, the other fields, and perhaps a remark. Of an event, a service check and a line that no
server can read they are the word event, check or unreadable, and the whole line.

The remark is on a metric that statsd_listen can't read, with the first byte that it can't read, and what it
wants there. Servers may read the line all the same. A line that no server can read is also reported on
the standard error. With --only, --kind or --tag only metrics are printed; a * at the end stands for any text.

*:PORT, or :PORT, receives at all addresses of IPv4, and PORT at 127.0.0.1. The file of a Unix socket
to which nobody listens any more is replaced.

Status: 0 all was read, 1 the socket or the output failed, or the system dropped packets, because they came
faster than they are printed, 2 words that can't be read, or lines that no server can read, 3 memory.
As in: statsd_watch --only 'my.service.*' 127.0.0.1:8125";

const TIME: &str = "prints when the packet came, in seconds since 1970";

const JSON: &str = "prints each line as a JSON object in one line";

const ONLY: &str = "prints only metrics of this name, as in --only 'my.service.*'";

const KIND: &str = "prints only metrics of this type, as in --kind ms";

const TAG: &str = "prints only metrics with this tag, as in --tag 'env:*'";

const STRICT: &str = "prints no line of a packet with a line that no server can read";

const TOP: &str = "counts the lines of each name in place of printing them; after each
SECONDS seconds and at the end it prints the counts since the start,
with 0 only at the end; it can't be used with --json, --time or
--sender";

const NAMES: &str = "with --top, prints only the N names with the most lines, and then how
many lines the others have together";

/// Where packets are received.
#[derive(Clone, Copy, Debug)]
pub enum Place<'a> {
    /// A host without brackets, and a port.
    Host(&'a str, u16),
    /// The path of a Unix datagram socket.
    Path(&'a str),
}

impl fmt::Display for Place<'_> {
    fn fmt<W: fmt::Write>(&self, f: &mut fmt::Formatter<W>) -> fmt::Result {
        match self {
            Place::Host(host, port) => write!(f, "{host}:{port}"),
            Place::Path(path) => write!(f, "unix:{path}"),
        }
    }
}

/// What the command line asks for.
#[derive(Drop)]
pub struct Arguments<'a> {
    /// Where packets are received.
    pub place: Place<'a>,
    /// How many packets are received, if there is an end.
    pub count: Option<u64>,
    /// For how many seconds packets are received, if there is an end.
    pub seconds: Option<u64>,
    /// Whether the time at which a packet came is printed.
    pub has_time: bool,
    /// Whether the sender of a packet is printed.
    pub has_sender: bool,
    /// Which lines are printed, and how.
    pub format: WatchFormat<'a>,
    /// After how many seconds the counts are printed again, if the lines are counted in place of being printed. With 0 they
    /// are printed only at the end.
    pub top: Option<u64>,
    /// How many names have a count of their own when the counts are printed.
    pub names: usize,
}

/// Why the command line can't be followed.
#[derive(Drop)]
pub enum ArgumentError<'a> {
    /// The words ask for help or for the version, or are not those of this program.
    Refused(Error),
    /// This is no place.
    Place(&'a str),
    /// Memory ran out.
    OutOfMemory,
}

impl From<Error> for ArgumentError<'_> {
    fn from(error: Error) -> Self {
        if error.kind() == ErrorKind::OutOfMemory {
            return ArgumentError::OutOfMemory;
        }
        ArgumentError::Refused(error)
    }
}

impl From<AllocError> for ArgumentError<'_> {
    fn from(_error: AllocError) -> Self {
        ArgumentError::OutOfMemory
    }
}

// Returns an option without a value.
fn flag<'a>(alloc: Global, name: &'a str, help: &'a str) -> Arg<'a> {
    Arg::new(alloc, name)
        .long(name)
        .action(ArgAction::SetTrue)
        .help(help)
}

// Returns an option whose value is a whole number.
fn number<'a>(alloc: Global, name: &'a str, value: &'a str, help: &'a str) -> Arg<'a> {
    Arg::new(alloc, name)
        .long(name)
        .value_name(value)
        .value_parser(value_parser!(u64))
        .help(help)
}

// Returns an option whose value is a pattern.
fn pattern<'a>(alloc: Global, name: &'a str, value: &'a str, help: &'a str) -> Arg<'a> {
    Arg::new(alloc, name)
        .long(name)
        .value_name(value)
        .help(help)
}

// Returns what the command line may have.
fn command<'a>(alloc: Global) -> Result<Command<'a>, AllocError> {
    let top = number(alloc, "top", "SECONDS", TOP)
        .conflicts_with("json")?
        .conflicts_with("time")?
        .conflicts_with("sender")?;
    let names = number(alloc, "names", "N", NAMES).requires_arg("top")?;
    Command::new(alloc, "statsd_watch")
        .version("0.9.0")
        .about(ABOUT)
        .override_usage(USAGE)
        .after_help(NOTES)
        .arg(Arg::new(alloc, "place").hide(true))?
        .arg(number(alloc, "count", "N", "ends after N packets"))?
        .arg(number(alloc, "for", "SECONDS", "ends after SECONDS seconds"))?
        .arg(flag(alloc, "time", TIME))?
        .arg(flag(alloc, "sender", "prints who sent the packet"))?
        .arg(flag(alloc, "json", JSON))?
        .arg(pattern(alloc, "only", "NAME", ONLY))?
        .arg(pattern(alloc, "kind", "TYPE", KIND))?
        .arg(pattern(alloc, "tag", "TAG", TAG))?
        .arg(top)?
        .arg(names)?
        .arg(flag(alloc, "strict", STRICT))
}

// Reads HOST:PORT, *:PORT, :PORT, PORT or unix:PATH. Before a host there may be `udp://`.
fn read_place(text: &str) -> Option<Place<'_>> {
    if let Some(path) = text.strip_prefix("unix:") {
        return if path.is_empty() {
            None
        } else {
            Some(Place::Path(path))
        };
    }
    if let Some(port) = read_port(text) {
        return Some(Place::Host("127.0.0.1", port));
    }
    let text = text.strip_prefix("udp://").unwrap_or(text);
    let (host, port) = text.rsplit_once(':')?;
    let port = read_port(port)?;
    if host.is_empty() || host == "*" {
        return Some(Place::Host("0.0.0.0", port));
    }
    let inner = match host.strip_prefix('[') {
        Some(inner) => inner.strip_suffix(']')?,
        None => host,
    };
    if inner.is_empty() {
        return None;
    }
    Some(Place::Host(inner, port))
}

// Returns the pattern of an option, if it is there.
fn pattern_of<'a>(matches: &ArgMatches<'a>, name: &str) -> Option<&'a [u8]> {
    Some(matches.get_str(name)?.as_bytes())
}

// Returns how many names have a count of their own, which is all of them if nothing is said.
fn most_names(asked: Option<u64>) -> usize {
    match asked {
        Some(most) => usize::try_from(most).unwrap_or(usize::MAX),
        None => usize::MAX,
    }
}

/// Reads the command line: the name of the program, and then its words.
///
/// # Errors
/// `Refused` if the words ask for help or for the version, or are not those of this program; `Place` if the word that is
/// no option is no place; and `OutOfMemory`.
pub fn read_arguments<'a>(
    alloc: Global,
    words: &'a [String],
) -> Result<Arguments<'a>, ArgumentError<'a>> {
    let matches = command(alloc)?.try_get_matches_from(words)?;
    let text = matches.get_str("place").unwrap_or("127.0.0.1:8125");
    let Some(place) = read_place(text) else {
        return Err(ArgumentError::Place(text));
    };
    Ok(Arguments {
        place,
        count: matches.get_one::<u64>("count"),
        seconds: matches.get_one::<u64>("for"),
        has_time: matches.get_flag("time"),
        has_sender: matches.get_flag("sender"),
        top: matches.get_one::<u64>("top"),
        names: most_names(matches.get_one::<u64>("names")),
        format: WatchFormat {
            filter: Filter {
                name: pattern_of(&matches, "only"),
                kind: pattern_of(&matches, "kind"),
                tag: pattern_of(&matches, "tag"),
            },
            is_json: matches.get_flag("json"),
            is_strict: matches.get_flag("strict"),
        },
    })
}
