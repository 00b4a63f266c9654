//! What is said of the rules of a file that is read.

use crate::action_findings::say_action;
use crate::condition_findings::{say_condition_names, say_conditions};
use crate::file_findings::{bit_among, has_stage, say_stages};
use crate::text_findings::say_texts;
use milter_filter_rules::{Action, Rule, RuleAction, Rules};
use milter_protocol::rank_of;
use milter_rules::{FileForm, Notes, RuleLine, Span, form_of_file, rule_lines};
use milter_wire::{NoMemory, Options, Stage};

/// A rule file that is read.
#[derive(Clone, Copy)]
pub(crate) struct CheckedFile<'a> {
    /// Its rules.
    pub(crate) rules: &'a Rules,
    /// Its form.
    pub(crate) form: FileForm,
}

/// How far the rules of a stage were looked at.
#[derive(Clone, Copy)]
struct Progress {
    /// How many were.
    count: usize,
    /// The line of the first of them after which no other is looked at.
    last: Option<u64>,
}

/// Says what is to be said of the rules, and of their file, which is these bytes.
pub fn say_findings(notes: &mut Notes<'_>, bytes: &[u8], rules: &Rules) -> Result<(), NoMemory> {
    let form = form_of_file(notes.alloc(), bytes)?;
    let file = CheckedFile { rules, form };
    let lines = rule_lines(notes.alloc(), bytes)?;
    // The stages by their ranks, of which none is 0.
    let mut stages = [Progress {
        count: 0,
        last: None,
    }; 10];
    for line in &lines {
        let rank = usize::from(rank_of(line.stage));
        stages[rank] = say_next(notes, file, line, stages[rank])?;
    }
    notes.go_to(None);
    say_stages(notes, rules)
}

/// Says what is to be said of the next rule of its stage, which is this line.
fn say_next(
    notes: &mut Notes<'_>,
    file: CheckedFile<'_>,
    line: &RuleLine,
    progress: Progress,
) -> Result<Progress, NoMemory> {
    let Some(rule) = file.rules.at(line.stage).get(progress.count) else {
        return Ok(progress);
    };
    notes.go_to(Some(line.number));
    say_rule(notes, file, line.stage, progress.last, rule)?;
    let last = match progress.last {
        None if is_last(rule) => Some(line.number),
        last => last,
    };
    let count = progress.count.saturating_add(1);
    Ok(Progress { count, last })
}

/// Whether no rule after it is looked at, whatever is shown.
fn is_last(rule: &Rule) -> bool {
    rule.conditions.as_slice().is_empty()
        && matches!(rule.action, RuleAction::Fixed(Action::Verdict(_)))
}

/// Says what is to be said of a rule of the file, before which the rule in line `last` is the last one that is looked
/// at.
fn say_rule(
    notes: &mut Notes<'_>,
    file: CheckedFile<'_>,
    stage: Stage,
    last: Option<u64>,
    rule: &Rule,
) -> Result<(), NoMemory> {
    let options = file.rules.options();
    let conditions = rule.conditions.as_slice();
    let is_said = say_dead_rule(notes, options, stage, last)?
        || say_conditions(notes, options, stage, conditions)?;
    if !is_said {
        say_texts(notes, file, conditions)?;
    }
    say_condition_names(notes, conditions)?;
    say_action(notes, options, &rule.action)
}

/// Says why a rule of this stage never applies, whatever its conditions; answers whether that is so.
fn say_dead_rule(
    notes: &mut Notes<'_>,
    options: Options,
    stage: Stage,
    last: Option<u64>,
) -> Result<bool, NoMemory> {
    let never = Span::Plain(b"this rule never applies: ");
    let name = Span::Plain(stage.name());
    let by_line = Span::Plain(b" in the protocol line");
    if let Some(bit) = bit_among(options, stage.not_sent()) {
        let sent = Span::Plain(b" isn't sent, by ");
        notes.say(&[never, name, sent, Span::Protocol(bit), by_line])?;
    } else if !has_stage(options, stage) {
        let sent = Span::Plain(b" isn't sent before version 4");
        notes.say(&[never, name, sent])?;
    } else if let Some(bit) = bit_among(options, stage.not_answered()) {
        let no_effect = Span::Plain(b"this rule has no effect: ");
        let answered = Span::Plain(b" isn't answered, by ");
        notes.say(&[no_effect, name, answered, Span::Protocol(bit), by_line])?;
    } else if let Some(line) = last {
        let rule = Span::Plain(b"the rule in line ");
        let ends = Span::Plain(b" ends those of ");
        notes.say(&[never, rule, Span::Number(line), ends, name])?;
    } else {
        return Ok(false);
    }
    Ok(true)
}
