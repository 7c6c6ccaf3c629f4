//! `statsd_schedule`: reads a script, runs its schedule and prints the report.
#![tactic(auto)]

use cadence_script::run_script;
use std::env;
use std::io::Write;
use std::process::ExitCode;

const HELP: &str = "Usage: statsd_schedule [-h | --help] < SCRIPT

Reads a script from its input: settings and then steps, one a line. Runs the steps over a log of packets
in memory, and prints an answer for each step, and then the packets, what is still held, and the counts.
docs/statsd_schedule.md of the source has all lines of a script and of the report.

Status: 0 the report was printed, 1 the output failed, 2 the input or a line can't be read, 3 memory.
As in: printf 'call c visits i:1\\ntake\\nhand\\nflush\\n' | statsd_schedule
";

// Returns whether a word of the command line asks for help. The others are ignored.
fn asks_for_help(rt: &HostRuntime) -> bool {
    let Ok(words) = env::args(rt) else {
        return false;
    };
    for word in words.skip(1) {
        if word.as_str() == "-h" || word.as_str() == "--help" {
            return true;
        }
    }
    false
}

fn main(rt: HostRuntime) -> ExitCode {
    if asks_for_help(&rt) {
        return match rt.stdout().write_all(HELP.as_bytes()) {
            Ok(()) => ExitCode::from(0),
            Err(_) => ExitCode::from(1),
        };
    }
    let status = run_script(
        rt.alloc(),
        rt.alloc(),
        &mut rt.stdin(),
        &mut rt.stdout(),
        &mut rt.stderr(),
    );
    ExitCode::from(status)
}
