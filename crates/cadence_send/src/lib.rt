//! The engine of `statsd_send`: it takes the lines of metrics, packs them and sends the packets.
//!
//! - `board`: counts the packets and lines that are lost while an input is sent.
//! - `engine`: takes the lines of an input, as it arrives.
//! - `error`: why a run ended early.
//! - `lasting`: a writer of packets that outlives refusals, and counts what is lost.
//! - `nowhere`: a record of packets that exists in proofs only.
//! - `options`: the options of the command line, and what they add to each metric.
//! - `outlet`: the place to which packets go, as messages name it.
//! - `pace`: when buffered lines are sent before more input is read.
//! - `packets`: prints packets.
//! - `run`: sends the line of some words, or the metrics of an input, and returns the exit status.
//! - `setting`: the options that have a value, and what is wrong with such an option.
//! - `summed`: lines that are added up before a packer takes them.
//! - `taker`: what takes the lines of the engine: a packer, or sums over a packer.
//! - `tidings`: reports how much was lost while a run goes on, at most once a minute.
#![tactic(auto)]

mod board;
mod engine;
mod error;
mod lasting;
mod nowhere;
mod options;
mod outlet;
mod pace;
mod packets;
mod run;
mod setting;
mod summed;
mod taker;
mod tidings;

pub use board::{LossBoard, Losses};
pub use engine::{Sending, TextCounts};
pub use error::RunError;
pub use lasting::LastingWriter;
pub use options::{Destination, Options};
pub use outlet::Outlet;
pub use pace::Pace;
pub use packets::PacketPrinter;
pub use run::{run_words, send_words};
pub use setting::{Misplaced, OptionError, Setting};
pub use summed::SummedPacker;
pub use taker::LineTaker;
