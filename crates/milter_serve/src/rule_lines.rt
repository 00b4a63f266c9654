//! The lines of a rule file that are rules.

use milter_filter::Seen;
use milter_rules::Rules;
use milter_wire::{NoMemory, Stage};
use std::alloc::Global;

/// The word with which the line of a rule begins.
const AT: &[u8] = b"at";

/// The line of a rule.
#[derive(Clone, Copy)]
struct RuleLine {
    stage: Stage,
    number: u64,
}

/// The lines of the rules of a file, in its order.
#[derive(Drop)]
pub struct RuleLines {
    lines: Vec<RuleLine>,
}

impl RuleLines {
    /// No lines. Doesn't allocate.
    pub fn none(alloc: Global) -> Self {
        RuleLines {
            lines: Vec::new(alloc),
        }
    }

    /// The lines of the rules of a file with these bytes, in which no line is at fault; `NoMemory` where memory is
    /// refused.
    pub fn of(alloc: Global, bytes: &[u8]) -> Result<Self, NoMemory> {
        let mut lines = Vec::new(alloc);
        let mut number = 0u64;
        for line in bytes.split(|byte| *byte == b'\n') {
            number = number.saturating_add(1);
            if let Some(stage) = stage_of(line) {
                lines.push(RuleLine { stage, number })?;
            }
        }
        Ok(RuleLines { lines })
    }

    /// The number of the line, from 1, of the rule with this index, from 0, among those of the stage; `None` where none
    /// has it. Doesn't allocate.
    pub(crate) fn number(&self, stage: Stage, index: usize) -> Option<u64> {
        let mut left = index;
        for line in self.lines.as_slice() {
            if line.stage == stage {
                if left == 0 {
                    return Some(line.number);
                }
                left -= 1;
            }
        }
        None
    }
}

/// The stage of the rule in this line; `None` where it has no rule.
fn stage_of(line: &[u8]) -> Option<Stage> {
    let mut words = line
        .split(|byte| *byte == b' ' || *byte == b'\t')
        .filter(|word| !word.is_empty());
    if words.next()? != AT {
        return None;
    }
    stage_named(words.next()?)
}

/// The stage that has this name in rule files.
fn stage_named(name: &[u8]) -> Option<Stage> {
    for stage in Stage::ALL {
        if stage.name() == name {
            return Some(stage);
        }
    }
    None
}

/// Rules of which it is known which one decides.
pub trait Deciding {
    /// The index, from 0 among those of the stage, of the rule that has the verdict; `None` where no rule has one, or
    /// memory is refused.
    fn deciding(&self, alloc: Global, at: Stage, seen: &Seen) -> Option<usize>;
}

impl Deciding for Rules {
    fn deciding(&self, alloc: Global, at: Stage, seen: &Seen) -> Option<usize> {
        match self.deciding_rule(alloc, at, seen) {
            Ok(index) => index,
            Err(NoMemory) => None,
        }
    }
}
