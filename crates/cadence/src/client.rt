//! The client (`statsd_client`) and its builder (`client_builder`), the traits of its metrics (`traits`, `text_traits` for
//! values that are texts, all as one in `metric_client`), their builder (`builder`) and how it is sent (`sending`), its
//! events (`event_builder`) and service checks (`service_check_builder`) and what both share (`lined_builder`), how a
//! metric is sent (`backend`), receivers of errors (`handler`).

mod backend;
mod builder;
mod client_builder;
mod event_builder;
mod handler;
mod lined_builder;
mod metric_client;
mod sending;
mod service_check_builder;
mod statsd_client;
mod text_traits;
mod traits;

pub use backend::MetricBackend;
pub use builder::MetricBuilder;
pub use cadence_events::{AlertType, Priority, ServiceStatus};
pub use cadence_settings::{ClientSettings, DraftError, Separator};
pub use client_builder::StatsdClientBuilder;
pub use event_builder::EventBuilder;
pub use handler::{BoxedErrorHandler, BoxedHandler, ErrorHandler, NopErrorHandler};
pub use lined_builder::LinedBuilder;
pub use metric_client::MetricClient;
pub use service_check_builder::ServiceCheckBuilder;
pub use statsd_client::{BoxedSink, StatsdClient};
pub use text_traits::{GaugedExt, SettedExt};
pub use traits::{Counted, CountedExt, Distributed, Gauged, Histogrammed, Metered, Setted, Timed};
