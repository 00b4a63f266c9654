//! The parts of the input that several subcommands have, and the mail server's end that is made of them.

use anyhow::{Context, bail};
use milter_mail_file::read_session;
use milter_mta::{Config, MtaCore};
use milter_mta_outcome::OnLoss;
use milter_wire::{Actions, Protocol};
use std::alloc::Global;
use std::str::from_utf8;

/// The text that the input is.
pub fn text_in(input: &[u8]) -> anyhow::Result<&str> {
    from_utf8(input).ok().context("the input is no text")
}

/// The session file of an input, and the script after it: a line `%%` is between them.
pub fn session_and_script(input: &[u8]) -> anyhow::Result<(&str, &str)> {
    text_in(input)?
        .split_once("%%\n")
        .context("a line %% is to follow the session file")
}

/// An offer of no action and no protocol bit, so that each command is sent and answered. A message whose filter is lost
/// is refused for now.
pub fn config_without_bits() -> anyhow::Result<Config> {
    Config::new(Actions(0), Protocol(0), OnLoss::Tempfail).context("no configuration")
}

/// The mail server's end of a session file before its first connection.
pub fn mta_core(alloc: Global, config: Config, session_file: &[u8]) -> anyhow::Result<MtaCore> {
    let session = read_session(alloc, session_file)?;
    match MtaCore::new(alloc, config, session) {
        Ok(core) => Ok(core),
        Err(_) => bail!("out of memory"),
    }
}
