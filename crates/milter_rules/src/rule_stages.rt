//! The lines of a rule file that are rules.

ghost use Rattle.std.specs.Prelude.{◌<◌, IfOk, IfSome, length};

use milter_text::{FileLine, LineCursor, LineFault, Word};
use milter_wire::{NoMemory, Stage};
use std::alloc::Global;

/// The line of a rule.
#[derive(Clone, Copy)]
pub struct RuleLine {
    /// Its number.
    pub number: u64,
    /// The stage of the rule.
    pub stage: Stage,
}

/// The lines of a file that are rules by their first two words, up to the first line that isn't in words.
pub fn rule_lines(alloc: Global, bytes: &[u8]) -> Result<Vec<RuleLine>, NoMemory> {
    let mut found = Vec::new(alloc);
    let mut lines = LineCursor::new(bytes);
    while let Some(line) = next_line(alloc, &mut lines)? {
        if let Some(stage) = stage_of(line.words.as_slice()) {
            let number = line.number;
            found.push(RuleLine { number, stage })?;
        }
    }
    Ok(found)
}

/// The next line that isn't skipped; none where it isn't in words, and at the end of the file.
fn next_line(alloc: Global, lines: &mut LineCursor<'_>) -> Result<Option<FileLine>, NoMemory>
    ensures { IfOk result (λ found. IfSome found (λ _. length lines.new.lines < length lines.old.lines)) }
{
    match lines.next(alloc) {
        Ok(line) => Ok(line),
        Err(LineFault::NotInWords(_)) => Ok(None),
        Err(LineFault::NoMemory) => Err(NoMemory),
    }
}

/// The stage of the rule that begins with these words.
fn stage_of(words: &[Word]) -> Option<Stage> {
    match words {
        [first, stage, ..] if first.is_keyword(b"at") => Stage::from_name(stage.keyword()?),
        _ => None,
    }
}
