//! A loop over both ends of a session, which are in memory: the example of a mail server's end.

use crate::input::{config_without_bits, mta_core};
use anyhow::bail;
use milter_filter::{FilterCore, Pass};
use milter_mta::{MtaCore, Want};
use std::alloc::Global;

/// More turns than a session of any size takes.
const TURNS_MAX: u64 = 1_099_511_627_776;

/// What the mail server's end sends next comes to the filter.
fn send(core: &mut MtaCore, filter: &mut FilterCore<'_, Pass>) -> anyhow::Result<()> {
    core.advance()?;
    let len = core.pending().len();
    if filter.feed(core.pending())? != len {
        bail!("the filter's replies wait to be sent");
    }
    core.sent(len);
    Ok(())
}

/// The filter's replies come to the mail server's end.
fn receive(core: &mut MtaCore, filter: &mut FilterCore<'_, Pass>) -> anyhow::Result<()> {
    let len = filter.pending().len();
    core.feed(filter.pending())?;
    filter.sent(len);
    Ok(())
}

/// Plays the session of a mail server's end to a filter, to its end.
fn play(core: &mut MtaCore, filter: &mut FilterCore<'_, Pass>) -> anyhow::Result<()> {
    for _ in 0..TURNS_MAX {
        match core.want() {
            Want::Dial => core.dialled(),
            Want::Send => send(core, filter)?,
            Want::Receive => receive(core, filter)?,
            Want::Done => return Ok(()),
        }
    }
    bail!("too many turns")
}

/// Plays the session of a mail server's end to a new filter.
fn play_to_filter(alloc: Global, core: &mut MtaCore) -> anyhow::Result<()> {
    let mut filter = FilterCore::new(alloc, &Pass)?;
    play(core, &mut filter)
}

/// Plays a session file, and answers how many messages were settled.
pub fn count_played(alloc: Global, file: &[u8]) -> anyhow::Result<usize> {
    let mut core = mta_core(alloc, config_without_bits()?, file)?;
    play_to_filter(alloc, &mut core)?;
    Ok(core.settled())
}
