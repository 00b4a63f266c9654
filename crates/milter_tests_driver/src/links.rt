//! A session, played over links that fail to a filter that lets all mail go on. The input is a session file, a line
//! `%%`, and lines for what the links are and for each thing that fails, in words as the lines of session files are.
//! What is offered has no action and no protocol bit, so that each command is sent and answered, and a message whose
//! filter is lost is refused for now.
//!
//! - `tcp`, `unix`: each link is a connection over TCP or over a Unix socket, of which this process holds both ends;
//!   else links are in memory.
//! - `dialled`: a connection was made before.
//! - `closed`: the far end of each link is closed at once.
//! - `pieces READ WRITE`: a read and a write move so many bytes at most.
//! - `dial FIRST COUNT`: so many dials fail, from the one with the number FIRST on. Dials, reads and writes are counted
//!   from 1, each over all links.
//! - `read FIRST COUNT HOW`, `write FIRST COUNT HOW`: so many reads or writes fail. HOW is the kind of their error,
//!   `timed-out`, `would-block`, `reset` or `interrupted`, or `nothing`, by which they move no byte.
//!
//! The reports are printed, and then how often it was dialled. Where a filter's end is refused memory, the program is
//! out of memory, and prints no reports.

mod failing_links;
mod filter_ends;
mod script;
mod socket_links;

use crate::input::{config_without_bits, mta_core, session_and_script};
use anyhow::bail;
use failing_links::{FailingDial, Network};
use filter_ends::FilterDial;
use milter_filter::Pass;
use milter_mta::{MtaCore, Reports};
use milter_mta_client::{Dial, converse, write_reports};
use script::{Script, Way, script_in};
use socket_links::{TcpLinks, UnixLinks};
use std::alloc::Global;
use std::{io, process};

/// Plays a session over the links of `dial`, which fail by the network's script.
fn play_over<D: Dial + Drop>(
    alloc: Global,
    core: MtaCore,
    network: &Network<'_>,
    dial: D,
) -> Reports {
    converse(alloc, core, &mut FailingDial::new(network, dial))
}

/// Plays a session over links of the network's script. A link over a Unix socket has this path.
fn play(rt: &HostRuntime, network: &Network<'_>, path: &str, core: MtaCore) -> Reports {
    let filters = FilterDial::new(rt.alloc(), network, &Pass);
    match network.way() {
        Way::Memory => play_over(rt.alloc(), core, network, filters),
        Way::Tcp => play_over(rt.alloc(), core, network, TcpLinks { rt, filters }),
        Way::Unix => play_over(rt.alloc(), core, network, UnixLinks { rt, path, filters }),
    }
}

/// Prints what comes of a session over links of the network's script.
fn print_session(
    rt: &HostRuntime,
    network: &Network<'_>,
    path: &str,
    core: MtaCore,
) -> anyhow::Result<()> {
    let reports = play(rt, network, path, core);
    if network.is_out_of_memory() {
        bail!("out of memory");
    }
    write_reports(rt.alloc(), &mut io::writer(rt), &reports)?;
    println!(rt; "dials {}", network.dials())?;
    Ok(())
}

/// The mail server's end of a session file, with a connection where the script has one before the first dial.
fn core_in(alloc: Global, script: &Script, file: &[u8]) -> anyhow::Result<MtaCore> {
    let mut core = mta_core(alloc, config_without_bits()?, file)?;
    if script.is_dialled {
        core.dialled();
    }
    Ok(core)
}

/// Plays a session file over links of the script, and prints what comes of it.
fn print_file(rt: &HostRuntime, script: &Script, file: &[u8]) -> anyhow::Result<()> {
    let process_id = process::id(rt.process());
    let path = format!(in rt.alloc(); "/tmp/milter_tests_driver.{process_id}")?;
    let core = core_in(rt.alloc(), script, file)?;
    print_session(rt, &Network::new(script), &path, core)
}

/// Plays the session of the input, and prints its reports and how often it was dialled. The path of a link over a Unix
/// socket has the id of this process, so that programs that run at once have paths of their own.
pub fn print_played(rt: &HostRuntime, input: &[u8]) -> anyhow::Result<()> {
    let (file, lines) = session_and_script(input)?;
    let script = script_in(rt.alloc(), lines.as_bytes())?;
    print_file(rt, &script, file.as_bytes())
}
