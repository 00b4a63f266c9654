//! A mail server's end, played by a script. The input is a session file, a line `%%`, and a command a line, in words as
//! the lines of session files are. HEX are hexadecimal digits, two a byte.
//!
//! - `config ACTIONS PROTOCOL ON_LOSS`, the first: the bits that are offered, in hexadecimal digits, and `accept`,
//!   `tempfail` or `reject`. `no config` is printed where these bits can't be offered, and nothing more is done.
//! - `dialled`, `advance`, `sent NUMBER` (all that is pending where that is less), `lost reset|timeout|memory`: the
//!   calls of these names.
//! - `send`: the next packet is made, printed as HEX, and sent.
//! - `pass NUMBER`: so many packets are sent, and those that have a reply are answered: the offer by options without
//!   bits, and commands by a verdict that goes on. Nothing is printed.
//! - `feed HEX`: one piece; `ok` or the loss is printed. `feed_bytes HEX`: the same of a piece for each byte, up to the
//!   first loss. `feed_times NUMBER HEX`: the same of a piece that comes so many times, up to the first loss.
//! - `converse START=REPLY ..`: until nothing is wanted, it is dialled, and packets are sent and answered where they
//!   have a reply: one that begins with a START by its REPLY, both HEX, and others as by `pass`. Where memory is
//!   refused for a packet, the filter is lost. Nothing is printed.
//! - `want`, `pending`, `settled`: what is wanted, the bytes that wait to be sent as HEX, and how many messages are
//!   settled, are printed.
//! - `reports`: a line is printed for each report. It has the verdicts that were acted on, what became of the message,
//!   and what settled it. `reports messages`: after the line of a message that is released comes its text.

mod commands;
mod exchanges;
mod report_lines;

use crate::input::{mta_core, session_and_script};
use crate::printed::print_line;
use crate::script::{first_texts, obey_lines};
use crate::texts::{bits_in, str_of, value_in};
use anyhow::{Context, bail};
use milter_mta::{Config, MtaCore};
use milter_mta_outcome::OnLoss;
use milter_text::LineCursor;
use milter_wire::{Actions, Protocol, Text};
use std::alloc::Global;

/// What a lost filter leaves, by its word.
const ON_LOSS: [(&str, OnLoss); 3] = [
    ("accept", OnLoss::Accept),
    ("tempfail", OnLoss::Tempfail),
    ("reject", OnLoss::Reject),
];

/// The configuration of a line `config ACTIONS PROTOCOL ON_LOSS`; none where the bits can't be offered.
fn config_of(texts: &[Text]) -> anyhow::Result<Option<Config>> {
    let [_, actions, protocol, on_loss] = texts else {
        bail!("config ACTIONS PROTOCOL ON_LOSS is to be the first line");
    };
    let on_loss = value_in(&ON_LOSS, str_of(on_loss)?).context("nothing that a loss leaves")?;
    let actions = Actions(bits_in(actions)?);
    Ok(Config::new(actions, Protocol(bits_in(protocol)?), on_loss))
}

/// The configuration of the next line.
fn config_in(alloc: Global, lines: &mut LineCursor<'_>) -> anyhow::Result<Option<Config>> {
    let texts = first_texts(alloc, lines)?;
    config_of(&texts)
}

/// Plays the script of the input, and prints what its commands ask for.
pub fn print_played(rt: &HostRuntime, input: &[u8]) -> anyhow::Result<()> {
    let (file, script) = session_and_script(input)?;
    let mut lines = LineCursor::new(script.as_bytes());
    let Some(config) = config_in(rt.alloc(), &mut lines)? else {
        return print_line(rt, "no config");
    };
    let mut core: MtaCore = mta_core(rt.alloc(), config, file.as_bytes())?;
    obey_lines(rt, &mut core, &mut lines)
}
