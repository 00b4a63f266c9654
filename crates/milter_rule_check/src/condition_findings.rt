//! What is said of the conditions of a rule.

ghost use Rattle.std.specs.Prelude.{◌<◌, IfSome, length};

use crate::compared::{finds_empty, is_met_unfound};
use crate::file_findings::bit_among;
use milter_filter_rules::{Check, Condition, Field, Joint};
use milter_protocol::rank_of;
use milter_rules::{Notes, Span};
use milter_wire::{NoMemory, Options, Protocol, Stage, Text};

/// Why a field has no value.
#[derive(Clone, Copy)]
enum Absence {
    /// Its stage is left out, by this bit.
    NotSent(Protocol),
    /// Its stage comes later.
    NotYet,
}

/// The stage of a rule, and what its filter asks for.
#[derive(Clone, Copy)]
struct Place {
    /// What the filter asks for.
    options: Options,
    /// The stage.
    stage: Stage,
}

/// What becomes of conditions at a stage, as far as that is known from the fields that have no value there.
#[derive(Clone, Copy)]
enum Certainty {
    /// They are never met.
    Never,
    /// They are always met.
    Always,
    /// It isn't known.
    Open,
}

impl Certainty {
    /// What becomes of two conditions of a group, both of which are to be met.
    fn and(self, other: Self) -> Self {
        match (self, other) {
            (Certainty::Never, _) | (_, Certainty::Never) => Certainty::Never,
            (Certainty::Always, Certainty::Always) => Certainty::Always,
            _ => Certainty::Open,
        }
    }

    /// What becomes of two groups, one of which is to be met.
    fn or(self, other: Self) -> Self {
        match (self, other) {
            (Certainty::Always, _) | (_, Certainty::Always) => Certainty::Always,
            (Certainty::Never, Certainty::Never) => Certainty::Never,
            _ => Certainty::Open,
        }
    }
}

/// The word of what the check looks at.
fn name_of(check: &Check) -> &'static [u8] {
    match check {
        Check::Text(check) => check.field.name(),
        Check::Within(_) => b"address",
        Check::Over(measure, _) => measure.name(),
        Check::In(field, _) => field.name(),
    }
}

/// Whether the condition is met where what it looks at has no value.
fn is_met_absent(condition: &Condition) -> bool {
    match &condition.check {
        Check::Text(check) => is_met_unfound(condition.negated, check.test),
        Check::Within(_) | Check::Over(..) | Check::In(..) => condition.negated,
    }
}

/// Whether the check is one that an empty body meets.
fn finds_empty_body(check: &Check) -> bool {
    match check {
        Check::Text(check) => matches!(check.field, Field::Body) && finds_empty(check),
        Check::Within(_) | Check::Over(..) | Check::In(..) => false,
    }
}

/// Says of each group of conditions of a rule of this stage which one is never met; or where none is which one always
/// is, though it looks at a field. Of several groups it says what becomes of the rule by that. Answers whether there is
/// something to be said.
pub(crate) fn say_conditions(
    notes: &mut Notes<'_>,
    options: Options,
    stage: Stage,
    conditions: &[Condition],
) -> Result<bool, NoMemory> {
    let place = Place { options, stage };
    let mut certainty = Certainty::Never;
    let mut is_said = false;
    let mut rest = conditions;
    while let Some((group, after)) = first_group(rest) {
        is_said = say_group(notes, place, group)? || is_said;
        certainty = certainty.or(certainty_of_group(place, group));
        rest = after;
    }
    if conditions
        .iter()
        .any(|condition| condition.joint == Joint::Or)
    {
        say_certainty(notes, certainty)?;
    }
    Ok(is_said)
}

/// The first group of the conditions, and the conditions after it; none where there are no conditions.
fn first_group(conditions: &[Condition]) -> Option<(&[Condition], &[Condition])>
    ensures { IfSome result (λ x. length x.1.now < length conditions.now) }
{
    let [_, others @ ..] = conditions else {
        return None;
    };
    match others.iter().position(|other| other.joint == Joint::Or) {
        Some(end) => Some((&conditions[..end + 1], &others[end..])),
        None => Some((conditions, &[])),
    }
}

/// Says what becomes of a rule with several groups of conditions, where that is known.
fn say_certainty(notes: &mut Notes<'_>, certainty: Certainty) -> Result<(), NoMemory> {
    let text: &[u8] = match certainty {
        Certainty::Never =>
            b"this rule never applies: each group of its conditions has one that never holds",
        Certainty::Always => b"this rule always applies: the conditions of one group always hold",
        Certainty::Open => return Ok(()),
    };
    notes.say(&[Span::Plain(text)])
}

/// Says which condition of a group is never met, or where none is which one always is; answers whether there is one.
fn say_group(notes: &mut Notes<'_>, place: Place, group: &[Condition]) -> Result<bool, NoMemory> {
    let never = first_absent(group, place, false);
    match never.or_else(|| first_absent(group, place, true)) {
        Some((condition, absence)) => {
            say_absent(notes, place.stage, condition, absence)?;
            Ok(true)
        }
        None => Ok(false),
    }
}

/// The first condition whose field has no value at this place, of those that are met by that, or of the others.
fn first_absent(
    conditions: &[Condition],
    place: Place,
    is_met: bool,
) -> Option<(&Condition, Absence)> {
    for condition in conditions {
        if is_met_absent(condition) == is_met
            && let Some(absence) = absence_of(condition, place)
        {
            return Some((condition, absence));
        }
    }
    None
}

/// What becomes of the conditions of a group at this place.
fn certainty_of_group(place: Place, group: &[Condition]) -> Certainty {
    group
        .iter()
        .fold(Certainty::Always, |certainty, condition| {
            certainty.and(certainty_of(place, condition))
        })
}

/// What becomes of the condition at this place.
fn certainty_of(place: Place, condition: &Condition) -> Certainty {
    if absence_of(condition, place).is_none() {
        Certainty::Open
    } else if is_met_absent(condition) {
        Certainty::Always
    } else {
        Certainty::Never
    }
}

/// Why the field of the condition has no value at this place; none where it may have one. A body that wasn't seen is
/// empty, and may so be found.
fn absence_of(condition: &Condition, place: Place) -> Option<Absence> {
    let first = condition.check.stage()?;
    if finds_empty_body(&condition.check) {
        return None;
    }
    if let Some(bit) = bit_among(place.options, first.not_sent()) {
        return Some(Absence::NotSent(bit));
    }
    if rank_of(first) > rank_of(place.stage) {
        return Some(Absence::NotYet);
    }
    None
}

/// Says that the condition never holds, or always does, since its field has no value.
fn say_absent<'x>(
    notes: &mut Notes<'_>,
    stage: Stage,
    condition: &'x Condition,
    absence: Absence,
) -> Result<(), NoMemory> {
    let condition_span = Span::Condition(condition);
    let holds: &[u8] = if is_met_absent(condition) {
        b" always holds: "
    } else {
        b" never holds: "
    };
    let holds = Span::Plain(holds);
    let field = Span::Plain(name_of(&condition.check));
    match absence {
        Absence::NotSent(bit) => {
            let sent = Span::Plain(b" isn't sent, by ");
            let end = Span::Plain(b" in the protocol line");
            let bit = Span::Protocol(bit);
            notes.say(&[condition_span, holds, field, sent, bit, end])
        }
        Absence::NotYet => {
            let known = Span::Plain(b" isn't known yet at ");
            let stage = Span::Plain(stage.name());
            notes.say(&[condition_span, holds, field, known, stage])
        }
    }
}

/// Says which condition looks for a header field by what is no name of one.
pub(crate) fn say_condition_names(
    notes: &mut Notes<'_>,
    conditions: &[Condition],
) -> Result<(), NoMemory> {
    for condition in conditions {
        if let Check::Text(check) = &condition.check
            && let Field::Header(name) = &check.field
            && !is_header_name(name)
        {
            return say_header_name(notes, name);
        }
    }
    Ok(())
}

/// Whether the text may be the name of a header field: one or more visible ASCII characters, and no colon.
pub(crate) fn is_header_name(name: &Text) -> bool {
    let name = name.as_slice();
    !name.is_empty()
        && name
            .iter()
            .all(|byte| byte.is_ascii_graphic() && *byte != b':')
}

/// Says that the text is no name of a header field.
pub(crate) fn say_header_name(notes: &mut Notes<'_>, name: &Text) -> Result<(), NoMemory> {
    let end = b" is no name of a header field: that is visible ASCII characters without a colon";
    notes.say(&[Span::Quoted(name.as_slice()), Span::Plain(end)])
}
