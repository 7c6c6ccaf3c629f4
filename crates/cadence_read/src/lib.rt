//! Reads the metrics of a client's packets.
//!
//! - `any_line`: cuts the line of any client into its parts.
//! - `text_parts`: cuts a line that is in UTF-8 into texts.
//! - `values`: reads the values of a metric's line.
//! - `splitting`: splits a line at its separators.
//! - `fault`: why no metrics were read.
//! - `fields`: reads the fields of a line.
//! - `line`: reads the metric of a line.
//! - `packet`: reads the metrics of a packet, and of the packets of a run.
#![tactic(auto)]

mod any_line;
mod fault;
mod fields;
mod line;
mod packet;
mod splitting;
mod text_parts;
mod values;

pub use any_line::{AnyLine, MetricParts, cut_line, cuts_event_lines, cuts_own_lines};
pub use fault::{NotMetrics, ReadFault};
pub use line::read_line;
pub use packet::{read_packet, read_run};
pub use text_parts::{TextParts, cut_text_field, cut_text_metric};
pub use values::{are_numbers, is_number, whole_number};
