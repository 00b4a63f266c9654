//! A session, played in memory to a filter that lets all mail go on while events happen.

mod counting_filter;

use crate::input::config_without_bits;
use crate::printed::print_number;
use anyhow::bail;
use counting_filter::Counting;
use milter_filter::{CommandOrder, Pass};
use milter_mail_file::read_session;
use milter_world::{Event, play, run, run_in_order};
use std::alloc::Global;

/// How often the filter, which takes commands in this order, is asked while the events happen.
fn count_asked(
    alloc: Global,
    order: CommandOrder,
    file: &[u8],
    events: &[Event],
) -> anyhow::Result<u64> {
    let filter = Counting::new();
    let config = config_without_bits()?;
    let session = read_session(alloc, file)?;
    run_in_order(alloc, config, session, &filter, order, events)?;
    Ok(filter.asked())
}

/// Plays the session file while the first of the events happen, one more each time, and prints how often the filter was
/// asked, which is as often in either order.
pub fn print_asked(rt: &HostRuntime, file: &[u8], events: &[Event]) -> anyhow::Result<()> {
    for count in 1..=events.len() {
        let asked = count_asked(rt.alloc(), CommandOrder::Strict, file, &events[..count])?;
        if asked != count_asked(rt.alloc(), CommandOrder::Lenient, file, &events[..count])? {
            bail!("a filter is asked another number of times in the lenient order");
        }
        print_number(rt, asked)?;
    }
    Ok(())
}

/// How many messages the events settle.
pub fn count_run(alloc: Global, file: &[u8], events: &[Event]) -> anyhow::Result<usize> {
    let config = config_without_bits()?;
    let session = read_session(alloc, file)?;
    let reports = run(alloc, config, session, &Pass, events)?;
    Ok(reports.messages().len())
}

/// How many messages are settled over one connection on which everything arrives.
pub fn count_played(alloc: Global, file: &[u8]) -> anyhow::Result<usize> {
    let config = config_without_bits()?;
    let session = read_session(alloc, file)?;
    let reports = play(alloc, config, session, &Pass)?;
    Ok(reports.messages().len())
}
