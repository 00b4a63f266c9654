//! The commands of a script after its first.

use crate::mta::exchanges::{converse, feed_bytes, feed_times, pass, send_some};
use crate::mta::report_lines::print_reports;
use crate::printed::{print_hex, print_line, print_number};
use crate::script::{Line, Player};
use crate::texts::{number_in, one_of, piece_in, str_of, value_in};
use anyhow::{Context, bail};
use milter_mta::{MtaCore, Want};
use milter_mta_outcome::Loss;
use milter_wire::Text;
use std::str::from_utf8;

/// What a line asks for.
#[derive(Clone, Copy)]
enum Command {
    Dialled,
    Advance,
    Pass,
    Feed,
    FeedBytes,
    FeedTimes,
    Converse,
    Lost,
    Want,
    Settled,
    Reports,
}

/// The first words of lines.
const COMMANDS: [(&str, Command); 11] = [
    ("dialled", Command::Dialled),
    ("advance", Command::Advance),
    ("pass", Command::Pass),
    ("feed", Command::Feed),
    ("feed_bytes", Command::FeedBytes),
    ("feed_times", Command::FeedTimes),
    ("converse", Command::Converse),
    ("lost", Command::Lost),
    ("want", Command::Want),
    ("settled", Command::Settled),
    ("reports", Command::Reports),
];

/// How the filter is lost, by its word.
const LOSSES: [(&str, Loss); 3] = [
    ("reset", Loss::Reset),
    ("timeout", Loss::Timeout),
    ("memory", Loss::Memory),
];

/// The word for what is wanted.
fn word_of(want: Want) -> &'static str {
    match want {
        Want::Dial => "dial",
        Want::Send => "send",
        Want::Receive => "receive",
        Want::Done => "done",
    }
}

/// How the filter is lost.
fn loss_in(texts: &[Text]) -> anyhow::Result<Loss> {
    let word = from_utf8(one_of(texts)?).unwrap_or("");
    value_in(&LOSSES, word).context("no loss")
}

/// Prints what came of feeding.
fn print_fed(rt: &HostRuntime, fed: Result<(), Loss>) -> anyhow::Result<()> {
    match fed {
        Ok(()) => print_line(rt, "ok"),
        Err(loss) => Ok(println!(rt; "{loss}")?),
    }
}

/// Feeds a piece, and prints what comes of it.
fn feed_whole(rt: &HostRuntime, core: &mut MtaCore, texts: &[Text]) -> anyhow::Result<()> {
    let piece = piece_in(rt.alloc(), texts)?;
    print_fed(rt, core.feed(&piece))
}

/// Feeds a piece byte by byte, and prints what comes of it.
fn feed_bytewise(rt: &HostRuntime, core: &mut MtaCore, texts: &[Text]) -> anyhow::Result<()> {
    let piece = piece_in(rt.alloc(), texts)?;
    print_fed(rt, feed_bytes(core, &piece))
}

/// Feeds a piece so many times as the texts have it, and prints what comes of it.
fn feed_again(rt: &HostRuntime, core: &mut MtaCore, texts: &[Text]) -> anyhow::Result<()> {
    let [count, digits @ ..] = texts else {
        bail!("feed_times NUMBER HEX");
    };
    let count = number_in(str_of(count)?)?;
    let piece = piece_in(rt.alloc(), digits)?;
    print_fed(rt, feed_times(core, count, &piece))
}

/// Does what a line asks for.
fn obey_command(
    rt: &HostRuntime,
    core: &mut MtaCore,
    command: Command,
    texts: &[Text],
) -> anyhow::Result<()> {
    match command {
        Command::Dialled => Ok(core.dialled()),
        Command::Advance => Ok(core.advance()?),
        Command::Pass => pass(core, texts),
        Command::Feed => feed_whole(rt, core, texts),
        Command::FeedBytes => feed_bytewise(rt, core, texts),
        Command::FeedTimes => feed_again(rt, core, texts),
        Command::Converse => converse(rt.alloc(), core, texts),
        Command::Lost => Ok(core.lost(loss_in(texts)?)),
        Command::Want => print_line(rt, word_of(core.want())),
        Command::Settled => print_number(rt, core.settled() as u64),
        Command::Reports => print_reports(rt, core.reports(), !texts.is_empty()),
    }
}

impl Player for MtaCore {
    fn pending(&self) -> &[u8] {
        self.pending()
    }

    fn sent(&mut self, count: usize) {
        send_some(self, count);
    }

    /// Makes the next packet, prints it, and notes that it was sent.
    fn send(&mut self, rt: &HostRuntime) -> anyhow::Result<()> {
        self.advance()?;
        let printed = print_hex(rt, self.pending());
        send_some(self, usize::MAX);
        printed
    }

    fn obey(&mut self, rt: &HostRuntime, line: Line<'_>) -> anyhow::Result<()> {
        let command = value_in(&COMMANDS, line.word).context("unknown command")?;
        obey_command(rt, self, command, line.texts)
    }
}
