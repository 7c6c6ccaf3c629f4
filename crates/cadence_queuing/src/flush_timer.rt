//! When a worker that flushes by time has to flush.
ghost use Rattle.std.specs.Prelude.{◌≡◌, ◌+◌, ◌-◌, ◌≤◌, ◌<◌, false, true, IfNone, IfSome, is_some};
ghost use Rattle.std.specs.Duration.{as_nanos};
ghost use Rattle.std.specs.Time.{instant_nanos};
ghost use Rattle.cadence_queuing.specs.FlushTimes.{IsTimeLeft, IsRetryWait, CountsAs, CountsAsIfAny, shortest_wait};

use std::time::{Duration, Instant};

/// The shortest time that a worker waits between two tries of a flush, in milliseconds.
const SHORTEST_WAIT: u64 = 1;

/// The period of a worker that flushes its sink by time, when it last did so, and whether it has handed on a line
/// since. It reads no clock: each call is given the time, or `None` if the clock couldn't be read.
#[derive(Drop)]
pub struct FlushTimer {
    /// The longest time between two flushes, if lines come. Without a period no flush is ever owed.
    pub period: Option<Duration>,
    /// When the sink was last flushed, or else when the worker began. `None` if the clock couldn't be read then.
    pub last: Option<Instant>,
    /// Whether there is a period, and a line was handed on since the last flush that succeeded.
    pub owes_flush: bool,
}

/// Returns a time that a worker can wait for, if some is left: this one, or a millisecond if it is shorter.
pub fn at_least_shortest(time: Duration) -> Duration
    ensures long { shortest_wait ≤ as_nanos result }
    ensures same { shortest_wait ≤ as_nanos time → result ≡ time }
{
    let shortest = Duration::from_millis(SHORTEST_WAIT);
    if time < shortest { shortest } else { time }
}

// Returns how much of the period is left, or `None` if nothing is left.
fn time_left(period: Duration, last: Instant, now: Instant) -> Option<Duration>
    ensures left { IfSome result (λ left.
        as_nanos left + (instant_nanos now - instant_nanos last) ≡ as_nanos period) }
    ensures some { IfSome result (λ left. 0 < as_nanos left) }
    ensures due { IfNone result (as_nanos period ≤ instant_nanos now - instant_nanos last) }
{
    let left = period.checked_sub(now.duration_since(last))?;
    if left.is_zero() { None } else { Some(left) }
}

// Returns the period that a worker keeps if it is given this one.
fn kept_period(period: Duration) -> Duration
    ensures { CountsAs period result }
{
    if period.is_zero() {
        period
    } else {
        at_least_shortest(period)
    }
}

impl FlushTimer {
    /// Starts a period at this time, if there is one. No line was handed on yet. A period above 0 and below one
    /// millisecond counts as one millisecond.
    pub fn start(period: Option<Duration>, now: Option<Instant>) -> FlushTimer
        ensures period { CountsAsIfAny period result.period }
        ensures last { result.last ≡ now }
        ensures owes { result.owes_flush ≡ false }
    {
        let period = match period {
            Some(period) => Some(kept_period(period)),
            None => None,
        };
        FlushTimer {
            period,
            last: now,
            owes_flush: false,
        }
    }

    /// Notes that a line was handed on. If there is a period, a flush is owed then.
    pub fn note_line(&mut self)
        ensures owes { self.new.owes_flush ≡ is_some self.new.period }
        ensures same { (self.new.period ≡ self.old.period) × (self.new.last ≡ self.old.last) }
    {
        self.owes_flush = self.period.is_some();
    }

    /// Notes that the sink was flushed at this time. If the flush failed, the next one is still owed.
    pub fn note_flush(&mut self, now: Option<Instant>, has_succeeded: bool)
        ensures last { self.new.last ≡ now }
        ensures period { self.new.period ≡ self.old.period }
        ensures done { has_succeeded ≡ true → self.new.owes_flush ≡ false }
        ensures failed { has_succeeded ≡ false → self.new.owes_flush ≡ self.old.owes_flush }
    {
        self.last = now;
        if has_succeeded {
            self.owes_flush = false;
        }
    }

    /// Returns how much of the period since the last flush is left at this time. `None` means that nothing is left,
    /// that the clock couldn't be read, or that there is no period.
    pub fn left(&self, now: Option<Instant>) -> Option<Duration>
        ensures { IsTimeLeft self.now.period self.now.last now result }
    {
        match (self.period, self.last, now) {
            (Some(period), Some(last), Some(now)) => time_left(period, last, now),
            _ => None,
        }
    }

    /// Returns how long a worker waits for lines at this time, before it tries a flush again that failed: the rest of
    /// the period, but at least one millisecond, even if the period is 0 or the clock couldn't be read.
    pub fn wait_before_retry(&self, now: Option<Instant>) -> Duration
        ensures { IsRetryWait self.now.period self.now.last now result }
    {
        let left = self.left(now).unwrap_or(Duration::ZERO);
        at_least_shortest(left)
    }
}
