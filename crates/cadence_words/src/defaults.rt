//! What a command line adds to each metric.
use cadence_settings::ClientSettings;
use cadence_value::decimal::Decimal;
use std::alloc::{Allocator, Global};

/// What the command line adds to each metric.
#[derive(Drop)]
pub struct Defaults<A: Allocator = Global> {
    /// The prefix, the default tags and the container.
    pub settings: ClientSettings<A>,
    /// The sampling rate.
    pub rate: Option<Decimal>,
    /// The time in seconds since 1970.
    pub time: Option<u64>,
    /// The most bytes that a metric's line may have.
    pub longest: usize,
}
