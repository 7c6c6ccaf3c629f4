//! What tests share: allocators, readers and writers that fail once, and a clock and an environment of a test's own.
//!
//! With those that fail once, a test can let each request, read and write fail in turn. Each of them counts its calls
//! down, and the call that finds the countdown at 0 fails. The calls before it and after it are passed on.
//!
//! - `given`: an environment of a test's own.
//! - `memory`: an allocator that refuses one request, and a function that runs an attempt with each request refused.
//! - `moved_clock`: a runtime with such an environment, whose clock a test moves.
//! - `reader`: a reader that fails once, and one that reads one byte at a time.
//! - `writer`: a writer that fails once, and one that writes one byte at a time.
#![tactic(auto)]

pub mod given;
pub mod memory;
pub mod moved_clock;
pub mod reader;
pub mod writer;

pub use memory::{RefusingAllocator, each_refused};
