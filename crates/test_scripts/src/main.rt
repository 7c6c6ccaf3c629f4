//! Runs worked scripts over `run_script`, the engine of `statsd_schedule`, and prints for each `ok` or what differs.
//!
//! The files in `data/` say what is expected; it was worked out by hand from docs/statsd_schedule.md.
//!
//! - `index` has the names of the worked rows, one in each line. `NAME.in` is a script, `NAME.out` what it has to
//!   print, `NAME.err` its message on standard error (none if there is no such file) and `NAME.status` its exit status
//!   (0 if there is no such file).
//! - Each line of `unreadable` is a script that has to be refused.
//! - Each line of `plans` is a plan, and whether `check_plan` accepts it and `plan_packets` makes it.
//!
//! Then each worked script is run again and again, and in each turn one thing fails: a request for memory, a read or a
//! write. The program prints how many turns ended in which way; the last number, of wrong ends, has to be 0. At last
//! each request for memory of each constructor of a sink, a queue or a client is refused in turn.
//!
//! The program calls the engine and not the program `statsd_schedule`, which `.ci/programs` runs over the same rows, and
//! `.ci/model` over generated scripts too, with each answer of the writer refused in turn.
//!
//! - `scripts`: runs a script and compares the outcome. `plans`: tests a plan.
//! - `turns`: runs a script with one failure in each turn.
//! - `makers`, `udp_makers`: the constructors. `memory`: whether a new sink has memory for a line and a flush.
#![tactic(auto)]

mod makers;
mod memory;
mod plans;
mod scripts;
mod turns;
mod udp_makers;

use cadence::MetricResult;
use std::fs;
use std::net::{Ipv4Addr, SocketAddr, UdpSocket};
use turns::{EndCounts, fail_in_turn};

fn main(rt: HostRuntime) -> MetricResult<()> {
    print_rows(&rt)?;
    print_unreadable(&rt)?;
    print_plans(&rt)?;
    print_turns_of_rows(&rt)?;
    println!(rt; "turns of a constructor, with a line and a flush, for want of memory:")?;
    let server = UdpSocket::bind(&rt, SocketAddr::from((Ipv4Addr::LOCALHOST, 0)))?;
    print!(rt;
        "{}",
        makers::report_makers(&rt, rt.alloc(), server.local_addr()?)?
    )?;
    Ok(())
}

// Runs each worked row, and prints what differs from the outcome that it must have, or `ok` if nothing does.
fn print_rows(rt: &HostRuntime) -> MetricResult<()> {
    for name in fs::read_to_string(rt, "index")?.lines() {
        let difference = scripts::row_difference(rt, name)?;
        println!(rt; "{name} {}", difference.unwrap_or("ok"))?;
    }
    Ok(())
}

// Runs each script that has to be refused, and prints whether it was.
fn print_unreadable(rt: &HostRuntime) -> MetricResult<()> {
    for line in fs::read_to_string(rt, "unreadable")?.split_terminator('\n') {
        let difference = scripts::unreadable_difference(rt.alloc(), line)?;
        let printable = scripts::printable(rt.alloc(), line)?;
        println!(rt; "unreadable {printable} {}", difference.unwrap_or("ok"))?;
    }
    Ok(())
}

// Prints for each plan whether `check_plan` and `plan_packets` return what they have to return for it.
fn print_plans(rt: &HostRuntime) -> MetricResult<()> {
    for line in fs::read_to_string(rt, "plans")?.lines() {
        if !line.starts_with('#') {
            let difference = plans::plan_difference(rt.alloc(), line)?;
            println!(rt; "plan {line} {}", difference.unwrap_or("ok"))?;
        }
    }
    Ok(())
}

// Lets everything of each worked row fail in turn, and prints how the turns ended.
fn print_turns_of_rows(rt: &HostRuntime) -> MetricResult<()> {
    let mut ends = EndCounts::zero();
    for name in fs::read_to_string(rt, "index")?.lines() {
        let script = scripts::read_script(rt, name)?;
        fail_in_turn(rt.alloc(), &script, &mut ends)?;
    }
    println!(rt; "turns of the rows: {ends}")?;
    Ok(())
}
