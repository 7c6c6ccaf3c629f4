//! Events and service checks of DogStatsD: their lines.
//!
//! ```text
//! _e{6,11}:Deploy|version 2.1|d:1656581400|h:web-1|p:low|t:info|#env:prod|c:4bb1
//! _sc|web|2|d:1656581400|h:web-1|#env:prod|c:4bb1|m:no answer
//! ```
//!
//! - `event`: an event, its line and the length of the line
//! - `service_check`: a service check, its line and the length of the line
//! - `lined`: what both have in common: optional fields, and how a line is measured and made
//! - `refusal`: why a line was not made
//! - `escapes`: newlines in texts, and `m:` in a message
//! - `cleaning`: texts with an underscore in place of each separator
//! - `fields`: how optional fields are written
//! - `writers`: what a line is written to, piece by piece
#![tactic(auto)]

mod cleaning;
mod escapes;
mod event;
mod fields;
mod lined;
mod refusal;
mod service_check;
mod writers;

pub use event::{AlertType, Event, Priority};
pub use lined::{Common, Lined, line_with};
pub use refusal::{LineError, Unfit};
pub use service_check::{ServiceCheck, ServiceStatus};
