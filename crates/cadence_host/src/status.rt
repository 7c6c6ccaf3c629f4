//! The statuses that calls of C return, and the copy of a text into a buffer of C.
ghost use Rattle.std.specs.Prelude.{◌≡◌, ◌≢◌, ◌≤◌, ◌<◌, length, take};
ghost use Rattle.cadence_host.specs.Status.{CADENCE_OK, CADENCE_TOO_SMALL, code_of, error_of, status};
ghost use Rattle.cadence_host.specs.declared.status.StatusError.TheVariants.{NoMemory};

use cadence_events::{LineError, Unfit};
use std::alloc::AllocError;

/// Why a call of C did nothing.
#[derive(Clone, Copy)]
pub enum StatusError {
    /// Memory ran out.
    NoMemory,
    /// The queue has no room for the packets that the call makes.
    Full,
    /// No kind or policy has the number, fewer than two packets may wait, a decimal has more than 30 places, or the
    /// kind has no durations.
    Invalid,
    /// A text is not UTF-8.
    NotUtf8,
    /// No packet waits.
    NoPacket,
    /// The text is longer than the buffer.
    TooSmall,
    /// The settings are strict, and a text has a colon, a comma, a bar or a newline.
    Separator,
    /// A variable of the environment can't be used.
    Variable,
    /// A text can't stand in the line of an event or a service check.
    Unfit(Unfit),
}

/// `CADENCE_OK`: the call succeeded.
pub const OK: u32 = 0;
/// `CADENCE_NO_CLIENT`: the handle has no client. It is no `StatusError`, because only calls with a handle return it.
pub const NO_CLIENT: u32 = 1;

impl StatusError {
    /// Returns the status of the error.
    pub fn code(self) -> u32
        ensures { result ≡ code_of self }
    {
        match self {
            StatusError::NoMemory => 2,
            StatusError::Full => 3,
            StatusError::Invalid => 4,
            StatusError::NotUtf8 => 5,
            StatusError::NoPacket => 6,
            StatusError::TooSmall => 7,
            StatusError::Separator => 8,
            StatusError::Variable => 9,
            StatusError::Unfit(Unfit::Name) => 10,
            StatusError::Unfit(Unfit::Host) => 11,
            StatusError::Unfit(Unfit::AggregationKey) => 12,
            StatusError::Unfit(Unfit::SourceType) => 13,
            StatusError::Unfit(Unfit::Tags) => 14,
            StatusError::Unfit(Unfit::Container) => 15,
            StatusError::Unfit(Unfit::Message) => 16,
        }
    }
}

/// A refused allocation is `NoMemory`.
impl From<AllocError> for StatusError {
    ghost from_gives = { λ _ e. e ≡ NoMemory };

    fn from(_error: AllocError) -> StatusError {
        StatusError::NoMemory
    }
}

/// A line that was not made is `Unfit`, or `NoMemory`.
impl From<LineError> for StatusError {
    ghost from_gives = { λ said e. e ≡ error_of said };

    fn from(error: LineError) -> StatusError {
        match error {
            LineError::Unusable(why) => StatusError::Unfit(why),
            LineError::OutOfMemory => StatusError::NoMemory,
        }
    }
}

/// Returns `OK`, or the status of the error.
pub fn status_of(outcome: Result<(), StatusError>) -> u32
    ensures { result ≡ status outcome }
{
    match outcome {
        Ok(()) => OK,
        Err(error) => error.code(),
    }
}

/// Copies a text into the first bytes of `out` and writes its length into `size`. If the text is longer than `out`, it
/// writes the length alone and returns the status of `TooSmall`.
pub fn copy_out(text: &[u8], out: &mut [u8], size: &mut usize) -> u32
    ensures copied { result ≡ CADENCE_OK → take size.new out.new ≡ text.now }
    ensures within { result ≡ CADENCE_OK → size.new ≤ length out.new }
    ensures told { size.new ≡ length text.now }
    ensures small { result ≢ CADENCE_OK →
        (result ≡ CADENCE_TOO_SMALL) × (length out.new < size.new) }
{
    *size = text.len();
    if out.len() < text.len() {
        return StatusError::TooSmall.code();
    }
    out[..text.len()].copy_from_slice(text);
    OK
}
