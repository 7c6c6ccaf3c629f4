//! A pace that follows the clock.
use cadence_agent::wait_for_input;
use cadence_send::Pace;
use std::os::fd::AsFd;
use std::time::{Clock, Duration, Instant};

/// A pace that sends if the period has passed since it last did, also while no input comes. If the period is zero or the
/// clock fails, it always sends. Without a period it never sends.
#[derive(Drop)]
pub struct Every<R: Clock + Drop, I: AsFd + Drop> {
    rt: R,
    input: I,
    period: Option<Duration>,
    // When the time was asked for first.
    start: Option<Instant>,
    last: Option<Instant>,
}

impl<R: Clock + Drop, I: AsFd + Drop> Every<R, I> {
    /// Returns a pace that sends after the first piece of this input, and then after each period.
    pub fn new(rt: R, input: I, period: Option<Duration>) -> Every<R, I> {
        Every {
            rt,
            input,
            period,
            start: None,
            last: None,
        }
    }

    /// Returns a pace that sends after each period, the first time when the first period is over.
    pub fn after(rt: R, input: I, period: Duration) -> Every<R, I> {
        let last = Instant::now(&rt).ok();
        Every {
            rt,
            input,
            period: Some(period),
            start: None,
            last,
        }
    }

    // Returns how much is left of the period.
    fn left(&self, period: Duration) -> Duration {
        match (Instant::now(&self.rt), self.last) {
            (Ok(now), Some(last)) => period.saturating_sub(now.duration_since(last)),
            _ => Duration::ZERO,
        }
    }
}

impl<R: Clock + Drop, I: AsFd + Drop> Pace for Every<R, I> {
    fn is_due(&mut self) -> bool {
        let Some(period) = self.period else {
            return false;
        };
        let Ok(now) = Instant::now(&self.rt) else {
            return true;
        };
        if let Some(last) = self.last {
            if now.duration_since(last) < period {
                return false;
            }
        }
        self.last = Some(now);
        true
    }

    fn wait_until_due(&mut self) -> bool {
        let Some(period) = self.period else {
            return false;
        };
        for _ in 0..u64::MAX {
            match wait_for_input(self.input.as_fd(), self.left(period)) {
                Ok(false) => {}
                // If the system can't wait, the lines wait for input.
                Ok(true) | Err(_) => return false,
            }
            if self.is_due() {
                return true;
            }
        }
        true
    }

    fn seconds(&mut self) -> Option<u64> {
        let now = Instant::now(&self.rt).ok()?;
        let start = self.start.unwrap_or(now);
        self.start = Some(start);
        Some(now.duration_since(start).as_secs())
    }

    // If the system can't wait, what waits for this time waits for input.
    fn wait(&mut self, most: u64) {
        let _ = wait_for_input(self.input.as_fd(), Duration::from_secs(most));
    }
}
