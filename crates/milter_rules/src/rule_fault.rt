//! What can be wrong with a rule file.

ghost use Rattle.std.specs.Prelude.{◌≡◌};
ghost use Rattle.milter_text.specs.declared.line_fault.LineFault.{LineFault};
ghost use Rattle.milter_rules.specs.RuleFault.{of_line_fault, of_source_fault, rule_fault_line, rule_fault_number};

use milter_lists::SourceFault;
use milter_text::LineFault;
use thiserror::Error;

/// Why a rule file has no rules: the first line that is at fault, and what is wrong with it. Lines are numbered from 1,
/// the skipped ones too. Of several faults of a line the one with the lowest number is meant.
#[derive(Clone, Copy, Debug, PartialEq, Eq, Error)]
pub enum RuleFault {
    /// The line is not in words, or its first word isn't known; or it is a bad or a repeated line of options.
    #[error("line {0}: unknown word")]
    UnknownWord(u64),
    /// The stage of a rule is missing, or isn't one.
    #[error("line {0}: bad stage")]
    BadStage(u64),
    /// What stands before `do` isn't conditions, or there is no `do`.
    #[error("line {0}: bad condition")]
    BadCondition(u64),
    /// What stands after `do` isn't an action, or a text of it has a NUL, which only a body may have.
    #[error("line {0}: bad action")]
    BadAction(u64),
    /// The action may not be done at this stage.
    #[error("line {0}: action not here")]
    ActionNotHere(u64),
    /// A packet would be too long, or all edits together, or this is one rule too many.
    #[error("line {0}: too large")]
    TooLarge(u64),
    /// The memory that was asked for was refused.
    #[error("out of memory")]
    NoMemory,
    /// The list of this line is missing, or a line of its file isn't an entry of its kind, or it is too large.
    #[error("line {0}: bad list")]
    BadList(u64),
}

impl RuleFault {
    /// The fault's number, from 1 for `UnknownWord` to 8 for `BadList`.
    pub fn number(&self) -> u8
        ensures { result ≡ rule_fault_number self.now }
    {
        match self {
            RuleFault::UnknownWord(_) => 1,
            RuleFault::BadStage(_) => 2,
            RuleFault::BadCondition(_) => 3,
            RuleFault::BadAction(_) => 4,
            RuleFault::ActionNotHere(_) => 5,
            RuleFault::TooLarge(_) => 6,
            RuleFault::NoMemory => 7,
            RuleFault::BadList(_) => 8,
        }
    }

    /// The number of the line that is at fault; none for `NoMemory`.
    pub fn line(&self) -> Option<u64>
        ensures { result ≡ rule_fault_line self.now }
    {
        match self {
            RuleFault::UnknownWord(line)
            | RuleFault::BadStage(line)
            | RuleFault::BadCondition(line)
            | RuleFault::BadAction(line)
            | RuleFault::ActionNotHere(line)
            | RuleFault::TooLarge(line)
            | RuleFault::BadList(line) => Some(*line),
            RuleFault::NoMemory => None,
        }
    }
}

impl<E: Into<LineFault>> From<E> for RuleFault {
    ghost from_gives = { λ error e. (fault : LineFault) × E.converts error fault × (e ≡ of_line_fault fault) };

    fn from(error: E) -> RuleFault {
        match error.into() {
            LineFault::NotInWords(line) => RuleFault::UnknownWord(line),
            LineFault::NoMemory => RuleFault::NoMemory,
        }
    }
}

/// The same fault of a line of a list.
pub(crate) fn of_source_fault(fault: SourceFault) -> RuleFault
    ensures { result ≡ of_source_fault fault }
{
    match fault {
        SourceFault::UnknownWord(line) => RuleFault::UnknownWord(line),
        SourceFault::TooLarge(line) => RuleFault::TooLarge(line),
        SourceFault::NoMemory => RuleFault::NoMemory,
    }
}
