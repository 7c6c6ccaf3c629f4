//! Receivers of the errors of flushes.
ghost use Rattle.std.specs.Prelude.{◌≡◌};

use cadence_errors::SinkError;
use cadence_flow::Handler;

/// Receives the error of each flush of an aggregating sink that fails: of a flush of the sink's thread, of a flush of a
/// caller, who also gets it as the result, and the last error of the sink's drop. It runs in the thread that flushes,
/// while no lock of the sink is held.
///
/// Implement it on a type of your own to avoid a box.
pub trait FlushErrorHandler: Drop {
    /// Receives one error.
    fn handle(&self, error: &SinkError);
}

/// Drops each error. A sink for which no handler is set has this one.
#[derive(Drop)]
pub struct NopFlushErrorHandler;

impl FlushErrorHandler for NopFlushErrorHandler {
    fn handle(&self, _error: &SinkError) {}
}

// Returns the same error once more.
fn copy_of(error: &SinkError) -> SinkError
    ensures { result ≡ error.now }
{
    match error {
        SinkError::ChannelFull => SinkError::ChannelFull,
        SinkError::ChannelDisconnected => SinkError::ChannelDisconnected,
        SinkError::Io(error) => SinkError::Io(*error),
        SinkError::PacketRefused => SinkError::PacketRefused,
        SinkError::NothingWritten => SinkError::NothingWritten,
        SinkError::OutOfMemory => SinkError::OutOfMemory,
        SinkError::NoAddresses => SinkError::NoAddresses,
    }
}

/// A closure in a box.
impl FlushErrorHandler for Handler {
    fn handle(&self, error: &SinkError) {
        Handler::handle(self, copy_of(error));
    }
}
