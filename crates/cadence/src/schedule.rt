//! Calls as data, the proved run of a client, a queue and a packer, and plans of packets.

pub use cadence_schedule::{
    Reply, Report, Step, check_plan, packets_read_one_way, plan_packets, run_schedule,
    run_schedule_with, tight_is_fewest,
};
pub use cadence_settings::{Call, CallOption, CallValue};
