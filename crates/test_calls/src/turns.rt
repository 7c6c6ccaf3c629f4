//! Waits that give up after a time.

use std::alloc::AllocError;
use std::thread;
use std::time::{Clock, Duration};

// A wait gives up after this many milliseconds.
const MOST_MILLISECONDS: u32 = 20_000;

/// Waits until `is_so` returns `true`, and returns whether it did in time. It is called every millisecond.
pub fn holds_in_time<R: Clock, F: Fn() -> bool>(rt: &R, is_so: &F) -> bool
    requires { F.IsAlwaysCallable is_so.now }
{
    for _ in 0..MOST_MILLISECONDS {
        if is_so() {
            return true;
        }
        thread::sleep(rt, Duration::from_millis(1));
    }
    false
}

/// Adds a line that says `yes` or `no`.
pub fn push_whether(text: &mut String, what: &str, holds: bool) -> Result<(), AllocError> {
    text.push_str("  ")?;
    text.push_str(what)?;
    text.push_str(if holds { " yes\n" } else { " no\n" })
}
