//! Tests of metrics that are added up before they are sent: `sinks` for the aggregating sink, `clients` for clients
//! whose calls make no line, `handlers` for the errors of flushes, `named` for a queue over sums, and `passing` for what
//! both pass on to the wrapped sink. The rows of the program `test_calls` say which lines are sent of which.

mod clients;
mod handlers;
mod named;
mod passing;
mod sinks;
