//! Tests of the resolvers and the sinks, through the public calls of `cadence_resolve` and `cadence_sinks`.
//!
//! They test what no contract can say: datagrams that arrive at a socket, messages that a spy receives, a worker that
//! works beside the caller, handlers that are called, and the memory that is asked for. Two worked rows show, packet by
//! packet, that a buffered sink, alone and behind a queue, sends what the contract of the packer says. The program
//! `test_scripts` refuses the memory of each constructor.
#![tactic(auto)]

#[cfg(test)]
mod tests;
