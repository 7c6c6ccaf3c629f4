//! The tests.
//!
//! - `error`: texts and kinds of errors.
//! - `decimal`, `value`: numbers and values, and their texts.
//! - `event`: lines of events and of service checks. `cleaned_event`: those of cleaned ones.
//! - `line`: records of metrics. `draft`: lines that are made in a buffer.
//! - `io`: packers of lines and their writers.
//! - `queue`: the shared queue, and the end mark of its worker.
//! - `give_way`: that a caller gives way to the worker at a full queue.
//! - `taker`: the taker of a shared queue. `taker_memory`: the memory of texts that it gives back.
//! - `stats`: counts that clones share.
//! - `record_sizes`: the records that only proofs read take no memory.
//! - `audited`: the audited queue.

mod audited;
mod cleaned_event;
mod decimal;
mod draft;
mod error;
mod event;
mod give_way;
mod io;
mod line;
mod queue;
mod record_sizes;
mod stats;
mod taker;
mod taker_memory;
mod value;
