//! The traits of the metrics. A service imports them all by `use cadence::prelude::*;`.

pub use crate::client::{
    Counted, CountedExt, Distributed, Gauged, GaugedExt, Histogrammed, Metered, MetricClient,
    Setted, SettedExt, Timed,
};
