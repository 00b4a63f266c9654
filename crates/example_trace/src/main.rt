//! `example_trace`: prints the packets of the trace on standard input, as `milter_tool trace` does.
//!
//! It is the smallest program over these crates. `./milter_tool trace` runs it where the proved program isn't built,
//! since a program without a command line is run from its source in half the time. It ends with status 0, or with 1
//! and a line on standard error.
#![tactic(auto)]

use milter_trace::trace_run;
use std::io::{self, Write};
use std::process::ExitCode;

fn main(rt: HostRuntime) -> ExitCode {
    let mut reader = rt.reader();
    let mut writer = io::writer(&rt);
    match trace_run(rt.alloc(), &mut reader, &mut writer) {
        Ok(()) => ExitCode::SUCCESS,
        Err(fault) => {
            let _ = writeln!(rt.stderr(), "{fault}");
            ExitCode::FAILURE
        }
    }
}
