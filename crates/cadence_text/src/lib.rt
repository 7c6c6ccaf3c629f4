//! The text of a metric: one line of the Statsd format, with the fields that DogStatsD adds.
//!
//! ```text
//! web.requests:3|c|@0.5|#route:home,beta|c:4bb1|T1656581400
//! ```
//!
//! This is the name `web.requests`, the number 3, the type text `c` of a counter, the sampling rate 0.5, two tags (one
//! with the key `route`, one without a key), the container id `4bb1` and a timestamp. The last four are optional.
//!
//! - `line`: the kinds of metrics, metrics before they are text, and the lines that are made of them.
//! - `laws`: what the grammar of lines implies, for proofs in other crates.
#![tactic(auto)]

pub mod laws;
pub mod line;
