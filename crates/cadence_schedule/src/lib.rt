//! The proved run of a schedule: a list of steps of a client, a queue, a worker and a packer. Its contract is the
//! headline theorem. With an aggregator before the packer the same run has a contract of its own.
//!
//! - `steps`: the steps of a schedule, and the replies to them
//! - `run`: the run of a schedule, whose contract is the headline
//! - `aggregated`: the run with an aggregator between the worker's hand and the packer
//! - `make_steps`: how the steps are made, one after the other
//! - `running`: the state of a run between two steps, and what each step does to it
//! - `packing`: the packer, with the numbers of lines in its packets
//! - `packer_sink`: the packer, as the sink to which the aggregator sends lines
//! - `packed_sums`: lines that are added up before the packer
//! - `reports` and `aggregated_report`: what the runs return
//! - `plan`: plans that say how many lines each packet has
//! - `laws`: laws that follow from the definitions
#![tactic(auto)]

mod aggregated;
mod aggregated_report;
mod laws;
mod make_steps;
mod packed_sums;
mod packer_sink;
mod packing;
mod plan;
mod reports;
mod run;
mod running;
mod steps;

pub use aggregated::run_schedule_aggregated;
pub use aggregated_report::AggregatedReport;
pub use laws::{flushes_send_all, packets_read_one_way, tight_is_fewest};
pub use plan::{check_plan, plan_packets};
pub use reports::Report;
pub use run::{run_schedule, run_schedule_with};
pub use steps::{Reply, Step};
