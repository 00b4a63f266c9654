//! A line of a file that is at fault, and what stands before it.

use milter_text::{LineCursor, LineFault, Word};
use milter_wire::NoMemory;
use std::alloc::Global;

/// What a line has.
#[derive(Drop)]
pub(crate) enum Content {
    /// Words.
    Words(Vec<Word>),
    /// Letters that are no words.
    NoWords,
    /// Nothing: it comes after the last line.
    End,
}

/// A line of a file, and what stands before it.
#[derive(Drop)]
pub(crate) struct FaultyLine {
    /// What it has.
    pub(crate) content: Content,
    /// The words of the line before it that isn't skipped; none where it is the first.
    pub(crate) before: Option<Vec<Word>>,
}

/// The line with this number in a file of these bytes.
pub(crate) fn line_at(alloc: Global, bytes: &[u8], number: u64) -> Result<FaultyLine, NoMemory> {
    let mut lines = LineCursor::new(bytes);
    let mut before = None;
    for _ in 0..u64::MAX {
        let content = next_content(alloc, &mut lines, number)?;
        match content {
            Passed::Words(words) => before = Some(words),
            Passed::Reached(content) => return Ok(FaultyLine { content, before }),
        }
    }
    Ok(FaultyLine {
        content: Content::End,
        before,
    })
}

/// What the cursor passed.
#[derive(Drop)]
enum Passed {
    /// A line before the one that is looked for.
    Words(Vec<Word>),
    /// The line that is looked for, or the end.
    Reached(Content),
}

/// The next line that isn't skipped.
fn next_content(
    alloc: Global,
    lines: &mut LineCursor<'_>,
    number: u64,
) -> Result<Passed, NoMemory> {
    match lines.next(alloc) {
        Ok(Some(line)) if line.number < number => Ok(Passed::Words(line.words)),
        Ok(Some(line)) => Ok(Passed::Reached(Content::Words(line.words))),
        Ok(None) => Ok(Passed::Reached(Content::End)),
        Err(LineFault::NotInWords(_)) => Ok(Passed::Reached(Content::NoWords)),
        Err(LineFault::NoMemory) => Err(NoMemory),
    }
}

/// The first word of a line, where it is plain; nothing where there is none.
pub(crate) fn first_word(words: &[Word]) -> &[u8] {
    match words {
        [first, ..] => first.keyword().unwrap_or(b""),
        [] => b"",
    }
}
