//! Tests of `cadence_listen` and `cadence_send`, the engines of the programs `statsd_listen` and `statsd_send`, and of
//! `cadence_words`, through their public calls.
#![tactic(auto)]

#[cfg(test)]
mod tests;
