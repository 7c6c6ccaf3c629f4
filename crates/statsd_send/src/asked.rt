//! What the options ask for besides the target: when to send, which lines, and whether they are added up.
use crate::arguments::Arguments;
use crate::pace::Every;
use crate::unix::Patience;
use cadence_aggregating::Limits;
use cadence_send::Options;
use cadence_words::{SampledReader, Sampler};
use rand::make_rng;
use rand::rngs::SmallRng;
use std::alloc::{AllocError, Global};
use std::io;
use std::io::Stdin;
use std::num::NonZeroUsize;
use std::time::Duration;

// How many contexts of each kind are held with `--aggregate`.
const MOST_CONTEXTS: usize = 4096;

// After how many milliseconds sums are sent with `--aggregate`, if `--flush-every` doesn't say it.
const PERIOD_OF_SUMS: u64 = 10_000;

/// Returns what is held with the option `--aggregate`: lines that fit a packet.
pub fn asked_limits(options: &Options<'_, Global>) -> Limits {
    Limits {
        most_contexts: NonZeroUsize::new(MOST_CONTEXTS).unwrap_or(NonZeroUsize::MIN),
        most_bytes: options.capacity,
        packs_values: false,
    }
}

/// Returns the pace of the option `--flush-every`. Without it sums are sent after each ten seconds, and other lines don't
/// leave by time. The only error is that there is no memory for the clock.
pub fn asked_pace(
    rt: &HostRuntime,
    options: &Options<'_, Global>,
) -> Result<Every<HostRuntime, Stdin>, AllocError> {
    let (clock, input) = (rt.clone()?, rt.stdin());
    if options.is_adding_up && options.flush_every.is_none() {
        let period = Duration::from_millis(PERIOD_OF_SUMS);
        return Ok(Every::after(clock, input, period));
    }
    let period = match options.flush_every {
        Some(millis) => Some(Duration::from_millis(millis)),
        None => None,
    };
    Ok(Every::new(clock, input, period))
}

/// Returns how long packets wait for room at a Unix socket: the line of the command line not at all, and those of an
/// input as the options `--drop` and `--wait` say.
pub fn asked_patience(arguments: &Arguments<'_>) -> Patience {
    let options = &arguments.options;
    if !arguments.words.is_empty() || options.is_dropping {
        return Patience::None;
    }
    match options.wait {
        None => Patience::Endless,
        Some(0) => Patience::None,
        Some(millis) => Patience::For(Duration::from_millis(millis)),
    }
}

/// Returns the sampler of the option `--sample`, which chooses every line if the option is not set.
pub fn asked_sampler(
    rt: &HostRuntime,
    options: &Options<'_, Global>,
) -> io::Result<Sampler<SmallRng>> {
    let Some(chance) = options.sample else {
        return Ok(Sampler::all());
    };
    Ok(Sampler::new(chance, make_rng(rt)?))
}

/// Returns the lines of the standard input that the option `--sample` lets pass.
pub fn asked_input(
    rt: &HostRuntime,
    options: &Options<'_, Global>,
) -> io::Result<SampledReader<Stdin, SmallRng>> {
    Ok(SampledReader::new(rt.stdin(), asked_sampler(rt, options)?))
}
