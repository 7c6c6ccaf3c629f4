//! A runtime with a clock that stands still until a test moves it, and with environment variables that the test gives.
use crate::given::fill_from;
use std::alloc::{AllocError, Global};
use std::env::{Env, FillError};
use std::io;
use std::io::ErrorKind;
use std::net::{Net, SocketAddr, TcpListener, TcpStream};
use std::sync::atomic::{AtomicBool, AtomicU64, Ordering};
use std::sync::{Arc, Wait};
use std::thread::{self, Threads};
use std::time::{Clock, Duration};

/// How many milliseconds a test waits for something that has to happen.
pub const PATIENCE: u32 = 10_000;

/// What a test sets and sees of a moved clock.
#[derive(Drop)]
pub struct Dial {
    /// The time that the clock shows, in milliseconds.
    pub now: AtomicU64,
    /// How often the clock was read.
    pub readings: AtomicU64,
    /// Whether the clock can't be read.
    pub is_broken: AtomicBool,
    // The variables of the environment, as in `DD_ENV=prod;DD_TAGS=beta`.
    variables: String,
}

/// A runtime with a clock that a test moves. It sleeps in real time, and makes no socket of its own.
#[derive(Drop)]
pub struct MovedClock<R> {
    /// The test's own runtime.
    pub rt: R,
    /// The clock, which clones share.
    pub dial: Arc<Dial>,
}

impl<R: Wait> Wait for MovedClock<R> {}

impl<R: Threads> Threads for MovedClock<R> {}

impl<R: Clone> Clone for MovedClock<R> {
    fn clone(&self) -> Result<MovedClock<R>, AllocError> {
        let dial = self.dial.clone()?;
        let rt = self.rt.clone()?;
        Ok(MovedClock { rt, dial })
    }
}

impl<R: Clock> Clock for MovedClock<R> {
    fn monotonic(&self) -> io::Result<Duration> {
        self.dial.readings.fetch_add(1, Ordering::SeqCst);
        if self.dial.is_broken.load(Ordering::SeqCst) {
            return Err(io::Error::from(ErrorKind::Unsupported));
        }
        Ok(Duration::from_millis(self.dial.now.load(Ordering::SeqCst)))
    }

    fn since_1970(&self) -> io::Result<Duration> {
        self.monotonic()
    }

    fn sleep(&self, duration: Duration) {
        self.rt.sleep(duration)
    }
}

impl<R> Net for MovedClock<R> {
    type Stream = TcpStream;

    type Listener = TcpListener;

    fn bind(&self, _addr: SocketAddr) -> io::Result<TcpListener> {
        Err(io::Error::from(ErrorKind::Unsupported))
    }

    fn connect(&self, _addr: SocketAddr) -> io::Result<TcpStream> {
        Err(io::Error::from(ErrorKind::Unsupported))
    }
}

impl<R> Env for MovedClock<R> {
    fn arg(&self, _i: usize, _buffer: &mut [u8]) -> Result<usize, FillError> {
        Err(FillError::NotPresent)
    }

    fn var(&self, name: &str, buffer: &mut [u8]) -> Result<usize, FillError> {
        fill_from(self.dial.variables.as_bytes(), name, buffer)
    }

    fn var_at(&self, _i: usize, _buffer: &mut [u8]) -> Result<usize, FillError> {
        Err(FillError::NotPresent)
    }
}

impl<R: Clock + Drop> MovedClock<R> {
    /// Makes a runtime with these variables, whose clock shows 0.
    pub fn new(rt: R, alloc: Global, variables: String) -> Result<MovedClock<R>, AllocError> {
        let dial = Dial {
            now: AtomicU64::new(0),
            readings: AtomicU64::new(0),
            is_broken: AtomicBool::new(false),
            variables,
        };
        let dial = Arc::new(alloc, dial)?;
        Ok(MovedClock { rt, dial })
    }

    /// Moves the clock to this time, in milliseconds.
    pub fn move_to(&self, now: u64) {
        self.dial.now.store(now, Ordering::SeqCst);
    }

    /// Waits until a number is at least as large as wanted, but not for ever. Returns whether it is.
    pub fn reaches(&self, number: &AtomicU64, wanted: u64) -> bool {
        for _ in 0..PATIENCE {
            if number.load(Ordering::SeqCst) >= wanted {
                return true;
            }
            thread::sleep(&self.rt, Duration::from_millis(1));
        }
        false
    }

    /// Waits until the clock was read this often more, but not for ever.
    ///
    /// # Errors
    /// A text if it wasn't.
    pub fn assert_reads(&self, more: u64) -> Result<(), &'static str> {
        let readings = &self.dial.readings;
        let wanted = readings.load(Ordering::SeqCst).wrapping_add(more);
        if self.reaches(readings, wanted) {
            Ok(())
        } else {
            Err("it doesn't wait for the clock")
        }
    }
}
