//! Sinks for tests, whose lines or packets a receiver reads back as messages.

mod buffered;
mod channel;
mod unbuffered;

pub use buffered::{BufferedSpyMetricSink, SpyLines};
pub use channel::SpyReceiver;
pub use unbuffered::SpyMetricSink;
