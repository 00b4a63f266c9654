//! `example_loop_guard`: a filter that refuses mail that loops between mail servers, as an example of a policy.
//!
//! It serves one connection on standard input and output, and ends with status 0, or with 1 and a line on standard
//! error.
#![tactic(auto)]

mod policy;

use crate::policy::LoopGuard;
use anyhow::bail;
use milter_filter::{Served, serve};
use std::io;

fn main(rt: HostRuntime) -> anyhow::Result<()> {
    let mut reader = rt.reader();
    let mut writer = io::writer(&rt);
    match serve(rt.alloc(), &LoopGuard, &mut reader, &mut writer) {
        Served::Quit | Served::Ended(0) => Ok(()),
        Served::Ended(_) => bail!("the input ends within a packet"),
        Served::Failed(fault) => bail!("{fault}"),
        Served::ReadFault => bail!("read fault"),
        Served::WriteFault => bail!("write fault"),
        Served::TurnLimit => bail!("too many reads"),
    }
}
