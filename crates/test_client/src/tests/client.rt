//! Tests of the client: `sending` with the calls of sinks and handlers counted, `memory` refused, and `events` with
//! service checks. The rows of the program `test_calls` say which line or error each call of a metric has.

mod events;
mod memory;
mod sending;
