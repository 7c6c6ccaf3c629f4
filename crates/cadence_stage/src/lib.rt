//! What takes lines one after the other, and what shows that it was called.
//!
//! A stage under a lock answers each call with a receipt, which nobody else can make, and which only the one body of each
//! `emit` and `flush` can let go. A log is a list of what happened. It exists in proofs only: it costs neither memory
//! nor time.
//!
//! - `stage`: the trait of what takes lines one after the other, and calls that make no line
//! - `kept`: a stage whose calls leave receipts
//! - `locked`: such a stage under a lock
//! - `answering_sink`: the sinks of the library, which answer with a receipt
//! - `one_call`: one call of a sink that is still to be made
//! - `emit`: the one body of `emit` and of `flush` of the library's own sinks
//! - `entry`: what the log of a stage keeps of a call
//! - `ghost_texts`: a list of texts that exists in proofs only
//! - `ghost_log`: such a list that only grows, and the one right to add to it
//! - `names`: the names of such lists, by which two locks speak of the same ones
//! - `lock`: how a lock is taken
//! - `latch`: a mark that one thread sets and that others wait for
#![tactic(auto)]

mod answering_sink;
mod emit;
mod entry;
mod ghost_log;
mod ghost_texts;
mod kept;
mod latch;
mod lock;
mod locked;
mod names;
mod one_call;
mod stage;

pub use answering_sink::AnsweringSink;
pub use emit::closed::{Closed, Opener};
pub use emit::{emit_by, flush_by};
pub use entry::Entry;
pub use ghost_log::{Log, OwnLog, Right, Seen, twins};
pub use ghost_texts::GhostTexts;
pub use kept::Receipt;
pub use latch::Latch;
pub use lock::{acquire, spin};
pub use locked::Locked;
pub use names::{Logs, Named, Names, Unnamed};
pub use one_call::OneCall;
pub use stage::{LinelessCall, Stage};
