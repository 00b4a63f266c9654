//! The lines of a script, whoever obeys them.

use crate::printed::print_hex;
use crate::texts::{number_of, str_of};
use anyhow::{Context, bail};
use milter_text::{LineCursor, Word};
use milter_wire::Text;
use std::alloc::Global;

/// What a line asks for.
#[derive(Clone, Copy)]
pub struct Line<'a> {
    /// Its first word.
    pub word: &'a str,
    /// The texts after it.
    pub texts: &'a [Text],
}

/// One end of a connection, on which a script is played.
pub trait Player {
    /// The bytes that wait to be sent.
    fn pending(&self) -> &[u8];

    /// Notes that so many of the bytes that are pending were sent, or all of them where they are fewer.
    fn sent(&mut self, count: usize);

    /// Prints the packets that wait to be sent, and notes that they were.
    fn send(&mut self, rt: &HostRuntime) -> anyhow::Result<()>;

    /// Does what the line asks for, and prints what comes of it.
    fn obey(&mut self, rt: &HostRuntime, line: Line<'_>) -> anyhow::Result<()>;
}

/// The texts of words.
fn texts_of(alloc: Global, words: Vec<Word>) -> anyhow::Result<Vec<Text>> {
    let mut texts = Vec::new(alloc);
    for word in words {
        texts.push(word.text)?;
    }
    Ok(texts)
}

/// The texts of the words of the next line, if there is one.
pub fn next_texts(alloc: Global, lines: &mut LineCursor<'_>) -> anyhow::Result<Option<Vec<Text>>> {
    match lines.next(alloc)? {
        Some(line) => Ok(Some(texts_of(alloc, line.words)?)),
        None => Ok(None),
    }
}

/// The texts of the words of the first line.
pub fn first_texts(alloc: Global, lines: &mut LineCursor<'_>) -> anyhow::Result<Vec<Text>> {
    next_texts(alloc, lines)?.context("no line")
}

/// The first of some texts, and the others.
pub fn line_of(texts: &[Text]) -> anyhow::Result<Line<'_>> {
    let [word, texts @ ..] = texts else {
        bail!("a line is to have a word");
    };
    Ok(Line {
        word: str_of(word)?,
        texts,
    })
}

/// Does what a line asks for, and prints what comes of it.
fn obey_line<P: Player>(rt: &HostRuntime, player: &mut P, line: Line<'_>) -> anyhow::Result<()> {
    match line.word {
        "pending" => print_hex(rt, player.pending()),
        "send" => player.send(rt),
        "sent" => Ok(player.sent(number_of(line.texts)?)),
        _ => player.obey(rt, line),
    }
}

/// Does what the line of these texts asks for.
fn obey_texts<P: Player>(rt: &HostRuntime, player: &mut P, texts: &[Text]) -> anyhow::Result<()> {
    obey_line(rt, player, line_of(texts)?)
}

/// Does what each line asks for.
pub fn obey_lines<P: Player>(
    rt: &HostRuntime,
    player: &mut P,
    lines: &mut LineCursor<'_>,
) -> anyhow::Result<()> {
    for _ in 0..u64::MAX {
        match next_texts(rt.alloc(), lines)? {
            Some(texts) => obey_texts(rt, player, &texts)?,
            None => break,
        }
    }
    Ok(())
}
