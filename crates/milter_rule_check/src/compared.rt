//! What becomes of conditions whose text isn't found.

use milter_filter_rules::{Test, TextCheck};
use milter_rules::{Compared, Notes, Span};
use milter_wire::NoMemory;

/// Whether a condition with this test is met where no text of it is found.
pub(crate) fn is_met_unfound(negated: bool, test: Test) -> bool {
    (test == Test::Lacks) != negated
}

/// What becomes of the condition where its text is never found.
pub(crate) fn outcome_unfound(compared: Compared<'_>) -> &'static [u8] {
    outcome_by(is_met_unfound(compared.negated, compared.test))
}

/// What becomes of a condition that is always met, or never.
pub(crate) fn outcome_by(is_met: bool) -> &'static [u8] {
    if is_met {
        b" always holds"
    } else {
        b" never holds"
    }
}

/// Says that the text is never found, for this reason, and which condition is to be written instead, if one is.
pub(crate) fn say_unfound<'x>(
    notes: &mut Notes<'_>,
    compared: Compared<'x>,
    reason: &'x [u8],
    instead: Option<Compared<'x>>,
) -> Result<(), NoMemory> {
    let condition = Span::Compared(compared);
    let outcome = Span::Plain(outcome_unfound(compared));
    let colon = Span::Plain(b": ");
    let reason = Span::Plain(reason);
    match instead {
        Some(instead) => {
            let write = Span::Plain(b"; write ");
            notes.say(&[
                condition,
                outcome,
                colon,
                reason,
                write,
                Span::Compared(instead),
            ])
        }
        None => notes.say(&[condition, outcome, colon, reason]),
    }
}

/// Says of an empty text that is compared with a whole value that it isn't found where there is no value.
pub(crate) fn say_empty(notes: &mut Notes<'_>, compared: Compared<'_>) -> Result<(), NoMemory> {
    let is_for_empty = matches!(compared.test, Test::Is | Test::Like | Test::Under);
    if !compared.text.is_empty() || !is_for_empty || compared.negated {
        return Ok(());
    }
    let name = Span::Plain(compared.field.name());
    let middle = Span::Plain(b" doesn't hold where there is no ");
    let end = Span::Plain(b" lacks \"\" does");
    let semicolon = Span::Plain(b"; ");
    notes.say(&[Span::Compared(compared), middle, name, semicolon, name, end])
}

/// The condition that finds this text in a part of a value.
pub(crate) fn part_of<'a>(compared: Compared<'a>, text: &'a [u8]) -> Compared<'a> {
    let test = match compared.test {
        Test::Lacks => Test::Lacks,
        _ => Test::Has,
    };
    Compared {
        negated: compared.negated,
        field: compared.field,
        test,
        any_case: compared.any_case,
        text,
    }
}

/// Whether an empty value is found by a text of the check, whose test isn't `like`.
pub(crate) fn finds_empty(check: &TextCheck) -> bool {
    check
        .texts
        .as_slice()
        .iter()
        .any(|text| text.as_slice().is_empty())
}
