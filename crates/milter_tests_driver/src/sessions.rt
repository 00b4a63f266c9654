//! A session, which is the input as a session file, read or played in memory to a filter that lets all mail go on. What
//! is offered has no action and no protocol bit, so that each command is sent and answered.
//!
//! - `pair read`, `stages read`, `world read`: the number of its messages is printed.
//! - `pair play`: it is played over one connection by a loop over both ends, and the number of messages that are
//!   settled is printed.
//! - `stages play`: its client and each of its messages are shown on one connection stage by stage, and the number of
//!   messages is printed.
//! - `world play`: it is played over one connection on which everything arrives, and the number of messages that are
//!   settled is printed. `world run EVENT ..`: it is played while events happen, each of which is a line of a file of
//!   events, and the number of messages that these settle is printed.
//! - `world asked EVENT ..`: for each event it is printed how often the filter was asked up to it, in either order of
//!   commands, which shows that a world asks no sooner than the bytes come.

use crate::printed::print_number;
use crate::texts::value_in;
use crate::{pair, stages, world};
use anyhow::{Context, bail};
use milter_mail_file::read_session;
use milter_world::{Event, read_events};
use std::alloc::Global;

/// What is done with a session.
#[derive(Clone, Copy)]
enum Work {
    Read,
    Pair,
    Stages,
    Arrival,
    Events,
    Asked,
}

/// What is done by the word after `pair`.
const OF_PAIR: [(&str, Work); 2] = [("read", Work::Read), ("play", Work::Pair)];

/// What is done by the word after `stages`.
const OF_STAGES: [(&str, Work); 2] = [("read", Work::Read), ("play", Work::Stages)];

/// What is done by the word after `world`.
const OF_WORLD: [(&str, Work); 4] = [
    ("read", Work::Read),
    ("play", Work::Arrival),
    ("run", Work::Events),
    ("asked", Work::Asked),
];

/// What these words ask for.
fn work_of(first: &str, second: &str) -> Option<Work> {
    if first == "pair" {
        return value_in(&OF_PAIR, second);
    }
    if first == "stages" {
        return value_in(&OF_STAGES, second);
    }
    value_in(&OF_WORLD, second)
}

/// The events of these lines.
fn events_in(alloc: Global, lines: &[String]) -> anyhow::Result<Vec<Event>> {
    let mut file = Vec::new(alloc);
    for line in lines {
        file.extend_from_slice(line.as_bytes())?;
        file.push(b'\n')?;
    }
    Ok(read_events(alloc, &file)?)
}

/// How many messages the session file has.
fn count_read(alloc: Global, file: &[u8]) -> anyhow::Result<usize> {
    let session = read_session(alloc, file)?;
    Ok(session.messages().len())
}

/// The number of messages that is asked for of a session file.
fn count(alloc: Global, work: Work, file: &[u8], events: &[Event]) -> anyhow::Result<usize> {
    match work {
        Work::Read => count_read(alloc, file),
        Work::Pair => pair::count_played(alloc, file),
        Work::Stages => stages::count_shown(alloc, file),
        Work::Arrival => world::count_played(alloc, file),
        Work::Events | Work::Asked => world::count_run(alloc, file, events),
    }
}

/// Prints what is asked for of a session file while these events happen.
fn print_work(rt: &HostRuntime, work: Work, file: &[u8], events: &[Event]) -> anyhow::Result<()> {
    if matches!(work, Work::Asked) {
        return world::print_asked(rt, file, events);
    }
    print_number(rt, count(rt.alloc(), work, file, events)? as u64)
}

/// Prints what the first word and those after it ask for of a session file.
pub fn print_counts(
    rt: &HostRuntime,
    first: &str,
    more: &[String],
    file: &[u8],
) -> anyhow::Result<()> {
    let [second, lines @ ..] = more else {
        bail!("usage: milter_tests_driver pair|stages|world WORD EVENT.. <SESSION");
    };
    let work = work_of(first, second).context("unknown words")?;
    let events = events_in(rt.alloc(), lines)?;
    print_work(rt, work, file, &events)
}
