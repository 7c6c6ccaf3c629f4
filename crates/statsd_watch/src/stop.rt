//! Why no more packets are received and printed.
use crate::batch::ReceiveError;
use cadence_listen::WatchError;
use std::alloc::AllocError;
use std::io;

/// Why no more packets are received and printed.
#[derive(Drop)]
pub enum Stop {
    /// The socket failed.
    Socket(io::Error),
    /// The output failed.
    Output(io::Error),
    /// Memory ran out.
    OutOfMemory,
}

impl From<AllocError> for Stop {
    fn from(_error: AllocError) -> Self {
        Stop::OutOfMemory
    }
}

impl From<ReceiveError> for Stop {
    fn from(error: ReceiveError) -> Self {
        match error {
            ReceiveError::Socket(why) => Stop::Socket(why),
            ReceiveError::OutOfMemory => Stop::OutOfMemory,
        }
    }
}

impl From<WatchError> for Stop {
    fn from(error: WatchError) -> Self {
        match error {
            WatchError::Output(why) => Stop::Output(why),
            WatchError::OutOfMemory => Stop::OutOfMemory,
        }
    }
}
