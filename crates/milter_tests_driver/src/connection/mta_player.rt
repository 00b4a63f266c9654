//! A script of a mail server's end, and the connection on which it is played.

use crate::connection::answers::{check_memory, phase_words, print_answer, print_fed, want_word};
use crate::connection::calls::answer_to;
use crate::connection::edits::{print_edited, print_edits};
use crate::printed::{print_line, print_packets};
use crate::script::{Line, Player, obey_lines};
use crate::texts::{options_in, pair_in, piece_in, str_of, value_in};
use anyhow::bail;
use milter_mta_connection::{FilterEvent, MtaConnection};
use milter_text::LineCursor;
use milter_wire::{Options, Pair, Text};

/// A connection, and the macros of its next call.
#[derive(Drop)]
struct MtaPlayer {
    connection: MtaConnection,
    macros: Vec<Pair>,
}

/// What a line asks for that is no call.
#[derive(Clone, Copy)]
enum Command {
    Macro,
    Lost,
    Feed,
    FeedBytes,
    Want,
    Phase,
    UnderWay,
    Edits,
    TakeEdits,
    Edited,
}

/// The first words of these lines.
const COMMANDS: [(&str, Command); 10] = [
    ("macro", Command::Macro),
    ("lost", Command::Lost),
    ("feed", Command::Feed),
    ("feed_bytes", Command::FeedBytes),
    ("want", Command::Want),
    ("phase", Command::Phase),
    ("under_way", Command::UnderWay),
    ("edits", Command::Edits),
    ("take_edits", Command::TakeEdits),
    ("edited", Command::Edited),
];

/// Feeds a piece, and prints what comes of it.
fn feed(rt: &HostRuntime, connection: &mut MtaConnection, piece: &[u8]) -> anyhow::Result<()> {
    let fed = connection.feed(piece);
    check_memory(connection, &fed)?;
    print_fed(rt, connection, &fed)
}

/// Feeds one byte, and prints what comes of it, unless that is nothing.
fn feed_byte(rt: &HostRuntime, connection: &mut MtaConnection, byte: u8) -> anyhow::Result<()> {
    let fed = connection.feed(&[byte]);
    check_memory(connection, &fed)?;
    if fed.event == FilterEvent::Nothing && fed.loss.is_none() {
        return Ok(());
    }
    print_fed(rt, connection, &fed)
}

/// Feeds each of these bytes as a piece.
fn feed_bytes(
    rt: &HostRuntime,
    connection: &mut MtaConnection,
    bytes: &[u8],
) -> anyhow::Result<()> {
    for byte in bytes {
        feed_byte(rt, connection, *byte)?;
    }
    Ok(())
}

impl MtaPlayer {
    /// Makes a call with the macros that were given for it, and prints what is answered.
    fn call(&mut self, rt: &HostRuntime, line: Line<'_>) -> anyhow::Result<()> {
        let answer = answer_to(&mut self.connection, line, &self.macros)?;
        self.macros.clear();
        print_answer(rt, answer)
    }

    /// Does what a line asks for that is no call.
    fn command(
        &mut self,
        rt: &HostRuntime,
        command: Command,
        texts: &[Text],
    ) -> anyhow::Result<()> {
        match command {
            Command::Macro => Ok(self.macros.push(pair_in(rt.alloc(), texts)?)?),
            Command::Lost => Ok(self.connection.lost()),
            Command::Feed => feed(rt, &mut self.connection, &piece_in(rt.alloc(), texts)?),
            Command::FeedBytes => feed_bytes(
                rt,
                &mut self.connection,
                &piece_in(rt.alloc(), texts)?,
            ),
            _ => self.print(rt, command, texts),
        }
    }

    /// Prints what a line asks for of the connection.
    fn print(&mut self, rt: &HostRuntime, command: Command, texts: &[Text]) -> anyhow::Result<()> {
        let connection = &mut self.connection;
        match command {
            Command::Want => print_line(rt, want_word(connection.want())),
            Command::Phase => print_line(rt, phase_words(connection.phase())),
            Command::UnderWay if connection.is_message_under_way() => print_line(rt, "yes"),
            Command::UnderWay => print_line(rt, "no"),
            Command::Edits => print_edits(rt, connection.edits()),
            Command::TakeEdits => print_edits(rt, connection.take_edits().as_slice()),
            _ => print_edited(rt, connection, texts),
        }
    }
}

impl Player for MtaPlayer {
    fn pending(&self) -> &[u8] {
        self.connection.pending()
    }

    fn sent(&mut self, count: usize) {
        let count = self.connection.pending().len().min(count);
        self.connection.sent(count);
    }

    fn send(&mut self, rt: &HostRuntime) -> anyhow::Result<()> {
        let printed = print_packets(rt, self.connection.pending());
        let count = self.connection.pending().len();
        self.connection.sent(count);
        printed
    }

    fn obey(&mut self, rt: &HostRuntime, line: Line<'_>) -> anyhow::Result<()> {
        match value_in(&COMMANDS, line.word) {
            Some(command) => self.command(rt, command, line.texts),
            None => self.call(rt, line),
        }
    }
}

/// What a filter is offered, by the texts of the first line.
fn offer_in(texts: &[Text]) -> anyhow::Result<Options> {
    let [word, version, actions, protocol] = texts else {
        bail!("offer VERSION ACTIONS PROTOCOL is to be the first line");
    };
    if str_of(word)? != "offer" {
        bail!("offer is to be the first word");
    }
    options_in(version, actions, protocol)
}

/// Plays a script whose first line is this, and prints what its lines ask for.
pub fn play(rt: &HostRuntime, first: &[Text], lines: &mut LineCursor<'_>) -> anyhow::Result<()> {
    let connection = MtaConnection::new(rt.alloc(), offer_in(first)?)?;
    let macros = Vec::new(rt.alloc());
    obey_lines(rt, &mut MtaPlayer { connection, macros }, lines)
}
