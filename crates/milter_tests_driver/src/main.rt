//! `milter_tests_driver`: exercises the libraries on standard input, for what no command of `milter_tool` plays: rows
//! of tables, tests, and what `bench/` measures. The first word is a subcommand. The module of its name has the words
//! after it, the form of the input, and what is printed.
//!
//! - `edits`: the edits of streams of packets are applied to messages, for the tables `edits_*.table`,
//!   `tests/test_edits.py` and `bench/edits.sh`.
//! - `faults`: a filter's end takes a stream of packets up to its fault, for the table `filter_faults.table`.
//! - `packets`: a stream of packets is read as often as it is asked for, for the table `packets_totals.table` and
//!   `bench/wire.sh`.
//! - `mta`: a mail server's end is played by the commands of a script, for the tables `mta_*.table`,
//!   `tests/test_captures.py` and `bench/core.sh`.
//! - `connection`: a mail server's end that is called stage by stage, or a filter's end whose caller answers, is played
//!   by the lines of a script, for the tables `connection_*.table` and `questions_*.table`, and
//!   `tests/test_captures.py`.
//! - `links`: a session is played over links that fail by a script, for the tables `links_*.table` and
//!   `tests/test_links.py`.
//! - `pair`, `stages`, `world`: a session is played to a filter in memory by a loop over both ends, stage by stage, or
//!   while events happen, for `bench/core.sh` and `bench/world.sh`. The module `sessions` has their words.
//! - `host`: a filter has its questions answered by another program, for `tests/test_host.py`. It has no input.
#![tactic(auto)]

mod connection;
mod edits;
mod faults;
mod host;
mod input;
mod links;
mod mta;
mod packets;
mod pair;
mod printed;
mod script;
mod sessions;
mod stages;
mod texts;
mod world;

use crate::texts::value_in;
use anyhow::{Context, bail};
use std::env;
use std::io::Read;

/// What the program does with its input.
#[derive(Clone, Copy)]
enum Subcommand {
    Edits,
    Faults,
    Packets,
    Mta,
    Connection,
    Links,
    Sessions,
}

/// The subcommand of each first word but `host`, which reads no input.
const SUBCOMMANDS: [(&str, Subcommand); 9] = [
    ("edits", Subcommand::Edits),
    ("faults", Subcommand::Faults),
    ("packets", Subcommand::Packets),
    ("mta", Subcommand::Mta),
    ("connection", Subcommand::Connection),
    ("links", Subcommand::Links),
    ("pair", Subcommand::Sessions),
    ("stages", Subcommand::Sessions),
    ("world", Subcommand::Sessions),
];

/// The bytes of standard input.
fn input_of(rt: &HostRuntime) -> anyhow::Result<Vec<u8>> {
    let mut input = Vec::new(rt.alloc());
    rt.reader().read_to_end(&mut input)?;
    Ok(input)
}

/// Plays the input by the subcommand of this word, with the words after it.
fn play_on(
    rt: &HostRuntime,
    subcommand: Subcommand,
    word: &str,
    more: &[String],
    input: &[u8],
) -> anyhow::Result<()> {
    match subcommand {
        Subcommand::Edits => edits::print_edited(rt, more, input),
        Subcommand::Faults => faults::print_faults(rt, more, input),
        Subcommand::Packets => packets::print_total(rt, more, input),
        Subcommand::Mta => mta::print_played(rt, input),
        Subcommand::Connection => connection::print_played(rt, input),
        Subcommand::Links => links::print_played(rt, input),
        Subcommand::Sessions => sessions::print_counts(rt, word, more, input),
    }
}

/// Plays standard input by a subcommand that has one.
fn play(
    rt: &HostRuntime,
    subcommand: Subcommand,
    word: &str,
    more: &[String],
) -> anyhow::Result<()> {
    let input = input_of(rt)?;
    play_on(rt, subcommand, word, more, &input)
}

/// Does what the words ask for.
fn run(rt: &HostRuntime, words: &[String]) -> anyhow::Result<()> {
    let [_, word, more @ ..] = words else {
        bail!("usage: milter_tests_driver SUBCOMMAND WORD.. <INPUT");
    };
    if word.as_str() == "host" {
        return host::serve(rt, more);
    }
    let subcommand = value_in(&SUBCOMMANDS, word).context("unknown subcommand")?;
    play(rt, subcommand, word, more)
}

fn main(rt: HostRuntime) -> anyhow::Result<()> {
    let words: Vec<String> = env::args(&rt)?.collect(rt.alloc())?;
    run(&rt, &words)
}
