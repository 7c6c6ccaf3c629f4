//! `statsd_listen`: reads one packet and prints the line of each of its metrics.
#![tactic(auto)]

use cadence_listen::run_listen;
use std::env;
use std::io::Write;
use std::process::ExitCode;

const HELP: &str = "Usage: statsd_listen [-h | --help] < PACKET

Reads one packet from its input, and prints a line for each of its metrics: the word line, the length
of the metric's line in bytes, and that line, with escapes for what is not printable ASCII.

Status: 0 the lines were printed, 1 the output failed, 2 the input can't be read or is no packet of
metrics, 3 memory.
As in: printf 'visits:1|c\\n' | statsd_listen
";

// Returns whether a word of the command line asks for help. The others are ignored.
fn asks_for_help(rt: &HostRuntime) -> bool {
    let Ok(words) = env::args(rt) else {
        return false;
    };
    for word in words.skip(1) {
        if word.as_str() == "-h" || word.as_str() == "--help" {
            return true;
        }
    }
    false
}

fn main(rt: HostRuntime) -> ExitCode {
    if asks_for_help(&rt) {
        return match rt.stdout().write_all(HELP.as_bytes()) {
            Ok(()) => ExitCode::from(0),
            Err(_) => ExitCode::from(1),
        };
    }
    let status = run_listen(
        rt.alloc(),
        &mut rt.stdin(),
        &mut rt.stdout(),
        &mut rt.stderr(),
    );
    ExitCode::from(status)
}
