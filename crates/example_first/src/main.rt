//! The first program of docs/rattle.md: a client that packs lines into UDP datagrams for a server on this machine.
//!
//! It prints 82, the bytes of the three lines `my.service.visits:1|c` (21), `my.service.visits:1|c|#page:home` (32) and
//! `my.service.startup:1250|ms` (26), each with its newline. It doesn't show that a server receives them.
#![tactic(auto)]

use cadence::prelude::*;
use cadence::ready::{buffered_udp_client, host};
use cadence::{DEFAULT_PORT, MetricResult, MetricSink};
use std::time::Duration;

fn main(rt: HostRuntime) -> MetricResult<()> {
    let target = host(rt.alloc(), "localhost", DEFAULT_PORT)?;
    let client = buffered_udp_client(&rt, rt.alloc(), "my.service", target, 512)?;
    client.count("visits", 1)?;
    client
        .count_with_tags("visits", 1)
        .with_tag("page", "home")
        .try_send()?;
    client.time("startup", Duration::from_millis(1250))?;
    client.flush()?;
    println!(rt; "sent {} bytes", client.sink().stats().bytes_sent)?;
    Ok(())
}
