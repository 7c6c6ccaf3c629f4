//! Tests of what the environment says: `refusals` of memory, and `sending` to real sockets. The rows of the program
//! `test_calls` say what is read from which variables.

mod refusals;
mod sending;
