//! A script of a filter's end, and the connection on which it is played.

use crate::edits::edit_of;
use crate::printed::{print_line, print_number, print_packets};
use crate::script::{Line, Player, obey_lines};
use crate::texts::{bits_in, one_of, options_in, piece_in, str_of, text_of, value_in, verdict_in};
use anyhow::{Context, bail};
use milter_filter::{
    Answer, AnswerFault, CommandOrder, Edits, FilterConnection, FilterFault, NextStep, Seen, Wants,
};
use milter_message::Edit;
use milter_text::LineCursor;
use milter_wire::{Packet, SymList, SymLists, Text, Verdict};
use std::alloc::Global;

/// A connection, and the edits of its next answer.
#[derive(Drop)]
struct FilterPlayer {
    connection: FilterConnection,
    edits: Vec<Edit>,
}

/// What a line asks for.
#[derive(Clone, Copy)]
enum Command {
    Feed,
    FeedBytes,
    Edit,
    Answer,
    Progress,
    Next,
    Unread,
    Shown,
    Macro,
    Release,
    Restart,
}

/// The first words of lines.
const COMMANDS: [(&str, Command); 11] = [
    ("feed", Command::Feed),
    ("feed_bytes", Command::FeedBytes),
    ("edit", Command::Edit),
    ("answer", Command::Answer),
    ("progress", Command::Progress),
    ("next", Command::Next),
    ("unread", Command::Unread),
    ("shown", Command::Shown),
    ("macro", Command::Macro),
    ("release", Command::Release),
    ("restart", Command::Restart),
];

/// The orders in which commands are taken.
const ORDERS: [(&str, CommandOrder); 2] = [
    ("strict", CommandOrder::Strict),
    ("lenient", CommandOrder::Lenient),
];

/// Feeds a piece, and prints how many bytes are taken where that isn't all, or why the connection is given up.
fn feed(rt: &HostRuntime, connection: &mut FilterConnection, piece: &[u8]) -> anyhow::Result<()> {
    match connection.feed(piece) {
        Ok(count) if count == piece.len() => Ok(()),
        Ok(count) => Ok(println!(rt; "taken {count} of {}", piece.len())?),
        Err(FilterFault::NoMemory) => bail!("out of memory"),
        Err(fault) => Ok(println!(rt; "{fault}")?),
    }
}

/// Feeds each byte of a piece, as long as bytes are taken.
fn feed_bytes(
    rt: &HostRuntime,
    connection: &mut FilterConnection,
    piece: &[u8],
) -> anyhow::Result<()> {
    for byte in piece {
        feed(rt, connection, &[*byte])?;
    }
    Ok(())
}

/// Prints why an answer isn't taken.
fn print_answered(rt: &HostRuntime, answered: Result<(), AnswerFault>) -> anyhow::Result<()> {
    match answered {
        Ok(()) => Ok(()),
        Err(fault) => Ok(println!(rt; "{fault}")?),
    }
}

/// Reports progress, once more where memory is refused for that, and prints why that isn't done.
fn progress(rt: &HostRuntime, connection: &mut FilterConnection) -> anyhow::Result<()> {
    let mut answered = connection.progress();
    if answered == Err(AnswerFault::NoMemory) {
        answered = connection.progress();
    }
    print_answered(rt, answered)
}

impl FilterPlayer {
    /// The answer of the edits that were given for it, and of this verdict.
    fn answer_of(&self, alloc: Global, verdict: &Verdict) -> anyhow::Result<Answer> {
        let mut edits = Vec::new(alloc);
        for edit in &self.edits {
            edits.push(edit.copy(alloc)?)?;
        }
        let verdict = verdict.copy(alloc)?;
        Ok(Answer {
            edits: Edits::new(edits),
            verdict,
        })
    }

    /// Answers the question that is open. Where memory is refused the question has to be open still and nothing more
    /// pending.
    fn answer_once(
        &mut self,
        alloc: Global,
        verdict: &Verdict,
    ) -> anyhow::Result<Result<(), AnswerFault>> {
        let asked = self.connection.asked();
        let pending = self.connection.pending().len();
        let answer = self.answer_of(alloc, verdict)?;
        let answered = self.connection.answer(answer);
        let is_same = self.connection.asked() == asked
            && self.connection.pending().len() == pending;
        if answered == Err(AnswerFault::NoMemory) && !is_same {
            bail!("an answer for which memory is refused changes the connection");
        }
        Ok(answered)
    }

    /// Answers the question that is open, once more where memory is refused, and prints why the answer isn't taken.
    fn answer(&mut self, rt: &HostRuntime, verdict: &Verdict) -> anyhow::Result<()> {
        let mut answered = self.answer_once(rt.alloc(), verdict)?;
        if answered == Err(AnswerFault::NoMemory) {
            answered = self.answer_once(rt.alloc(), verdict)?;
        }
        self.edits.clear();
        print_answered(rt, answered)
    }

    /// Adds an edit of the next answer: the one that this packet asks for.
    fn add_edit(&mut self, alloc: Global, packet: &[u8]) -> anyhow::Result<()> {
        let Some(packet) = Packet::first_of(packet) else {
            bail!("an edit is to be a packet");
        };
        Ok(self.edits.push(edit_of(alloc, packet)?)?)
    }

    /// Does what the line asks for, but for what prints something of the connection.
    fn command(
        &mut self,
        rt: &HostRuntime,
        command: Command,
        texts: &[Text],
    ) -> anyhow::Result<()> {
        match command {
            Command::Feed => feed(rt, &mut self.connection, &piece_in(rt.alloc(), texts)?),
            Command::FeedBytes => {
                feed_bytes(rt, &mut self.connection, &piece_in(rt.alloc(), texts)?)
            }
            Command::Edit => self.add_edit(rt.alloc(), &piece_in(rt.alloc(), texts)?),
            Command::Answer => self.answer(rt, &verdict_of(rt.alloc(), texts)?),
            Command::Progress => progress(rt, &mut self.connection),
            _ => self.print(rt, command, texts),
        }
    }

    /// Prints what the line asks for of the connection, or has it begin again.
    fn print(&mut self, rt: &HostRuntime, command: Command, texts: &[Text]) -> anyhow::Result<()> {
        let connection = &mut self.connection;
        match command {
            Command::Next => print_next(rt, connection.next_step()),
            Command::Unread => print_number(rt, connection.unread() as u64),
            Command::Shown => print_shown(rt, connection.seen()),
            Command::Macro => print_macro(rt, connection.seen(), texts),
            Command::Release => Ok(connection.release()),
            _ => Ok(connection.restart(order_of(texts)?)),
        }
    }
}

impl Player for FilterPlayer {
    fn pending(&self) -> &[u8] {
        self.connection.pending()
    }

    fn sent(&mut self, count: usize) {
        let count = self.connection.pending().len().min(count);
        self.connection.sent(count);
    }

    fn send(&mut self, rt: &HostRuntime) -> anyhow::Result<()> {
        let printed = print_packets(rt, self.connection.pending());
        let count = self.connection.pending().len();
        self.connection.sent(count);
        printed
    }

    fn obey(&mut self, rt: &HostRuntime, line: Line<'_>) -> anyhow::Result<()> {
        let command = value_in(&COMMANDS, line.word).context("unknown word")?;
        self.command(rt, command, line.texts)
    }
}

/// Prints what the caller of a connection does next.
fn print_next(rt: &HostRuntime, next: NextStep) -> anyhow::Result<()> {
    match next {
        NextStep::Feed => print_line(rt, "feed"),
        NextStep::Send => print_line(rt, "send"),
        NextStep::Answer(stage) => Ok(println!(rt; "answer {}", text_of(stage.name()))?),
        NextStep::Done => print_line(rt, "done"),
    }
}

/// Prints the sender, and how much is shown of the rest of a message.
fn print_shown(rt: &HostRuntime, seen: &Seen) -> anyhow::Result<()> {
    match seen.sender() {
        Some(sender) => print!(rt; "sender {}", text_of(sender.address.as_slice()))?,
        None => print!(rt; "no sender")?,
    }
    let recipients = seen.recipients().len();
    let fields = seen.headers().len();
    let bytes = seen.body().len();
    println!(rt; ", {recipients} recipients, {fields} fields, {bytes} bytes")?;
    Ok(())
}

/// Prints the value of a macro.
fn print_macro(rt: &HostRuntime, seen: &Seen, texts: &[Text]) -> anyhow::Result<()> {
    match seen.macro_value(one_of(texts)?) {
        Some(value) => print_line(rt, text_of(value)),
        None => print_line(rt, "no value"),
    }
}

/// A verdict, with the text of a code.
fn verdict_of(alloc: Global, texts: &[Text]) -> anyhow::Result<Verdict> {
    match texts {
        [word] => verdict_in(str_of(word)?).context("unknown verdict"),
        [word, text] if str_of(word)? == "code" => {
            Ok(Verdict::Code(Text::copy_of(alloc, text.as_slice())?))
        }
        _ => bail!("a verdict is to follow"),
    }
}

/// The order in which commands are taken.
fn order_of(texts: &[Text]) -> anyhow::Result<CommandOrder> {
    let [word] = texts else {
        bail!("an order is to follow");
    };
    value_in(&ORDERS, str_of(word)?).context("an order is to be strict or lenient")
}

/// Symbol lists, by the numbers of their stages and their names.
fn lists_in(alloc: Global, texts: &[Text]) -> anyhow::Result<SymLists> {
    let mut lists = Vec::new(alloc);
    for pair in texts.chunks_exact(2) {
        if let [stage, names] = pair {
            let stage = bits_in(stage)?;
            let names = Text::copy_of(alloc, names.as_slice())?;
            lists.push(SymList { stage, names })?;
        }
    }
    Ok(SymLists::new(lists))
}

/// Plays lines on a new connection of a filter that wants this.
fn play_on(
    rt: &HostRuntime,
    wants: Wants,
    order: CommandOrder,
    lines: &mut LineCursor<'_>,
) -> anyhow::Result<()> {
    let connection = FilterConnection::new(rt.alloc(), wants, order);
    let edits = Vec::new(rt.alloc());
    obey_lines(rt, &mut FilterPlayer { connection, edits }, lines)
}

/// Plays a script whose first line is this, and prints what its lines ask for.
pub fn play(rt: &HostRuntime, first: &[Text], lines: &mut LineCursor<'_>) -> anyhow::Result<()> {
    let [_, version, actions, protocol, order, lists @ ..] = first else {
        bail!("wants VERSION ACTIONS PROTOCOL ORDER is to be the first line");
    };
    let options = options_in(version, actions, protocol)?;
    let order = value_in(&ORDERS, str_of(order)?).context("no order")?;
    match Wants::new(options, lists_in(rt.alloc(), lists)?) {
        Ok(wants) => play_on(rt, wants, order, lines),
        Err(fault) => Ok(println!(rt; "{fault}")?),
    }
}
