//! The words of the command line: the options, which may stand before and after the other words.
use cadence_errors::InputError;
use cadence_send::{Misplaced, OptionError, Options, Setting};
use cadence_words::subject_of;
use clap::{Arg, ArgAction, ArgMatches, Command, Error};
use std::alloc::{AllocError, AllocFailed, Global};

/// The version of this program.
pub const VERSION: &str = "0.9.0";

const USAGE: &str = "statsd_send [OPTIONS] KIND NAME VALUE [TAG ..]   sends one metric
       statsd_send [OPTIONS] event TITLE TEXT [TAG ..]   sends an event
       statsd_send [OPTIONS] check NAME STATUS [TAG ..]   sends a service check
       statsd_send [OPTIONS]   reads one metric a line, and packs them";

const NOTES: &str =
    "KIND   c, ms, g, m, h, s, d, or count, time, gauge, meter, histogram, set, distribution
VALUE  c      a whole number
       s      a member of a set, as alice or 42
       m      a whole number from 0
       ms     milliseconds from 0, as 12.5, or a duration, as 1250ms or 1.25s
       g, d   a number, as 1 or 0.75
       h      a number, or a duration, which is sent in nanoseconds: 1.5ms is 1500000
       ms, h and d take several values, as 12,250, which a DogStatsD server of version 1.1 reads
       Most Statsd servers read a gauge with a minus as a decrement, DogStatsD as the value.
       A gauge with a plus is a change: g load +3 adds 3, and g load 3 sets it to 3.
       A gauge with = is set, also below 0, by two lines in one packet: g load =-3.
       Numbers, but not those of durations, may be as tools print them: .5, +1, 1e+06.
TAG    K:V or V; behind --, and in --tag=TAG, also one that begins with a dash
STATUS ok, warning, critical, unknown, or 0 to 3, as the status of a plugin of Nagios

Status: 0 sent, 1 input or sending failed, or packets were lost, 2 words or lines that can't be read, 3 memory.
As in: tail -F access.log | sed -un 's/.* \\([0-9][0-9]*\\) [0-9]*$/c hits 1 code:\\1/p' | statsd_send --flush-every 0
A signal loses the lines that wait to be sent. So let the last command of a pipe be
(trap '' TERM INT HUP; exec statsd_send ..), which sends all lines when the commands before it end.
";

const DROP: &str = "drops a packet if a Unix socket has no room for it, as --wait 0 does";

const WAIT: &str = "how long a pipe waits for room at a Unix socket; after that packets are
lost until the socket takes one again [by default it waits for ever]";

const STRICT: &str = "tests the tags of the environment for separators once more";

const CLEAN: &str = "sends an underscore for each separator in a name, a tag or a field
of an event or a check, also of --prefix, --tag, --container and the
environment, in place of refusing it";

const TARGET: &str = "Target";

const METRICS: &str = "Each metric";

const LINES: &str = "Each line";

const EVENTS: &str = "An event or a service check";

const PACKETS: &str = "Packets";

const TO: &str = "where to send, also as udp://HOST:PORT or unix:PATH [by default
DD_DOGSTATSD_URL of the environment, else DD_DOGSTATSD_SOCKET, else
DD_AGENT_HOST and DD_DOGSTATSD_PORT, else STATSD_HOST and
STATSD_PORT, else 127.0.0.1:8125]";

const PREFIX: &str = "begins the name of each metric, with a dot after it";

const TAG: &str = "adds a tag, after those of DD_ENV, DD_SERVICE, DD_VERSION,
DD_TAGS and DD_ENTITY_ID";

const CONTAINER: &str = "adds the id of a container";

const CARDINALITY: &str = "none, low, orchestrator or high: which tags of the container a
Datadog agent adds";

const TIME: &str = "adds a time, in seconds since 1970";

const RATE: &str = "adds this rate to each line, for lines that are a sample already,
so that the server multiplies them; it leaves out no line";

const SAMPLE: &str = "sends each line with this chance, such as 0.1, and adds it as the
rate; the other lines are left out";

const CAPACITY: &str = "how much a packet holds [by default 512]";

const FLUSH_EVERY: &str = "sends buffered lines after each MS milliseconds, also while no
input comes; with 0 no line waits; without this option lines wait
until a packet is full or the input ends";

const AGGREGATE: &str = "adds up the counters, gauges and sets of the input, and sends the
sums after each --flush-every [by default 10000], and at the end of
the input; other lines are not added up";

const HOST: &str = "the name of the host";

const KEY: &str = "the aggregation key of an event: a server groups events
that have the same one";

const PRIORITY: &str = "low or normal: how much an event matters";

const SOURCE: &str = "the source type of an event, as jenkins";

const ALERT: &str = "error, warning, info or success: what kind of news an event is";

const MESSAGE: &str = "why a service is in its state";

// Returns the argument of an option that has a value. It may be there several times.
fn option<'a>(
    alloc: Global,
    name: &'a str,
    value: &'a str,
    help: &'a str,
    section: &'a str,
) -> Arg<'a> {
    Arg::new(alloc, name)
        .long(name)
        .action(ArgAction::Append)
        .value_name(value)
        .help(help)
        .help_heading(section)
}

// Returns the argument of an option without a value. It may be there several times.
fn flag<'a>(
    alloc: Global,
    name: &'a str,
    help: &'a str,
    section: &'a str,
) -> Result<Arg<'a>, AllocError> {
    Arg::new(alloc, name)
        .long(name)
        .action(ArgAction::SetTrue)
        .help(help)
        .help_heading(section)
        .overrides_with(name)
}

// Adds the options that only events and service checks have.
fn with_event_options<'a>(alloc: Global, command: Command<'a>) -> Result<Command<'a>, AllocError> {
    command
        .arg(option(alloc, "host", "NAME", HOST, EVENTS))?
        .arg(option(alloc, "aggregation-key", "TEXT", KEY, EVENTS))?
        .arg(option(alloc, "priority", "PRIORITY", PRIORITY, EVENTS))?
        .arg(option(alloc, "source", "TEXT", SOURCE, EVENTS))?
        .arg(option(alloc, "alert", "TYPE", ALERT, EVENTS))?
        .arg(option(alloc, "message", "TEXT", MESSAGE, EVENTS))
}

// Returns what the command line may have.
// It lives as long as the words that it reads, because the checker takes no longer lifetime for a shorter one here.
fn command<'a>(alloc: Global) -> Result<Command<'a>, AllocError> {
    let words = Arg::new(alloc, "words").num_args(0..).hide(true);
    let sample = option(alloc, "sample", "CHANCE", SAMPLE, METRICS).conflicts_with("rate")?;
    let clean = flag(alloc, "clean", CLEAN, LINES)?.conflicts_with("strict")?;
    let command = Command::new(alloc, "statsd_send")
        .version(VERSION)
        .override_usage(USAGE)
        .after_help(NOTES)
        .arg(words)?
        .arg(option(alloc, "to", "HOST:PORT", TO, TARGET))?
        .arg(option(alloc, "tag", "TAG", TAG, LINES))?
        .arg(option(alloc, "container", "ID", CONTAINER, LINES))?
        .arg(option(alloc, "time", "SECONDS", TIME, LINES))?
        .arg(option(alloc, "prefix", "NAME", PREFIX, METRICS))?
        .arg(option(alloc, "cardinality", "WORD", CARDINALITY, METRICS))?
        .arg(option(alloc, "rate", "NUMBER", RATE, METRICS))?
        .arg(sample)?
        .arg(option(alloc, "capacity", "BYTES", CAPACITY, PACKETS))?
        .arg(option(alloc, "flush-every", "MS", FLUSH_EVERY, PACKETS))?
        .arg(flag(alloc, "aggregate", AGGREGATE, PACKETS)?)?
        .arg(option(alloc, "wait", "MS", WAIT, TARGET))?
        .arg(flag(alloc, "drop", DROP, TARGET)?)?
        .arg(flag(alloc, "print", "prints the packets, and sends none", TARGET)?)?
        .arg(flag(alloc, "strict", STRICT, LINES)?)?
        .arg(clean)?;
    with_event_options(alloc, command)
}

/// What the command line asks for.
#[derive(Drop)]
pub struct Arguments<'a> {
    /// The options.
    pub options: Options<'a, Global>,
    /// The words that are no options.
    pub words: Vec<&'a str>,
}

/// Why the command line asks for no metrics.
#[derive(Drop)]
pub enum ArgumentError<'a> {
    /// The words ask for help or for the version, or an option is not one of this program.
    Refused(Error),
    /// An option can't have its value.
    Value(OptionError<'a>),
    /// An option is of no use with the words.
    Misplaced(Misplaced),
    /// Memory ran out.
    OutOfMemory,
}

impl From<Error> for ArgumentError<'_> {
    fn from(error: Error) -> Self {
        if error.kind() == clap::error::ErrorKind::OutOfMemory {
            return ArgumentError::OutOfMemory;
        }
        ArgumentError::Refused(error)
    }
}

impl From<AllocError> for ArgumentError<'_> {
    fn from(_error: AllocError) -> Self {
        ArgumentError::OutOfMemory
    }
}

impl<T: Drop> From<AllocFailed<T>> for ArgumentError<'_> {
    fn from(_error: AllocFailed<T>) -> Self {
        ArgumentError::OutOfMemory
    }
}

impl<'a> From<InputError<OptionError<'a>>> for ArgumentError<'a> {
    fn from(error: InputError<OptionError<'a>>) -> Self {
        match error {
            InputError::Unusable(why) => ArgumentError::Value(why),
            InputError::OutOfMemory => ArgumentError::OutOfMemory,
        }
    }
}

/// Returns a word with a space before it if the word begins with a space, or with a dash and a digit or a dot. So a number
/// below zero, as `-.5` or `-1,2`, is not taken for an option.
pub fn guarded(alloc: Global, word: String) -> Result<String, AllocError> {
    let is_guarded = match word.as_bytes() {
        [b' ', ..] => true,
        [b'-', b'0'..=b'9' | b'.', ..] => true,
        _ => false,
    };
    if !is_guarded {
        return Ok(word);
    }
    format!(in alloc; " {word}")
}

// Returns the word that `guarded` returned this for.
fn unguarded(word: &str) -> &str {
    word.strip_prefix(' ').unwrap_or(word)
}

// Sets the options that the matches have. The option `--clean` comes first, because it decides which values others can
// have.
fn set_options<'a>(
    options: &mut Options<'a, Global>,
    matches: &ArgMatches<'a>,
) -> Result<(), InputError<OptionError<'a>>> {
    options.is_cleaning = matches.get_flag("clean");
    for setting in Setting::ALL {
        let Some(values) = matches.get_strs(setting.name()) else {
            continue;
        };
        for value in values {
            options.set(setting, unguarded(value))?;
        }
    }
    options.is_adding_up = matches.get_flag("aggregate");
    options.is_dropping = matches.get_flag("drop");
    options.is_printing = matches.get_flag("print");
    options.is_strict = matches.get_flag("strict");
    Ok(())
}

/// Reads the command line: the name of the program, and then its words, each of them guarded.
///
/// # Errors
/// `Refused` if the words ask for help or for the version, or have an option that this program lacks; `Value` if an
/// option can't have its value; `Misplaced` if it is of no use with the words; and `OutOfMemory`.
pub fn read_arguments<'a>(
    alloc: Global,
    given: &'a [String],
) -> Result<Arguments<'a>, ArgumentError<'a>> {
    let matches = command(alloc)?.try_get_matches_from(given)?;
    let mut options = Options::new(alloc);
    set_options(&mut options, &matches)?;
    let mut words = Vec::new(alloc);
    if let Some(found) = matches.get_strs("words") {
        for word in found {
            words.push(unguarded(word))?;
        }
    }
    if let Some(misplaced) = options.misplaced(subject_of(&words)) {
        return Err(ArgumentError::Misplaced(misplaced));
    }
    Ok(Arguments { options, words })
}
