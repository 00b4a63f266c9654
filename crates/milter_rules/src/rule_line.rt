//! The lines of a rule file, each alone.

ghost use Rattle.std.specs.Prelude.{◌≡◌, IfErr, IfOk, IfSome, MatchResult, None, Some, option_map, true};
ghost use Rattle.milter_text.specs.declared.word.Word.{Word};
ghost use Rattle.milter_text.specs.WordValues.{plain_text};
ghost use Rattle.milter_wire.specs.declared.stage.Stage.{Stage};
ghost use Rattle.milter_filter_rules.specs.declared.rule.RuleAction.{RuleAction};
ghost use Rattle.milter_filter_rules.specs.declared.rule.Rule.{Rule};
ghost use Rattle.milter_rules.specs.declared.rule_fault.RuleFault.TheVariants as faults;
ghost use Rattle.milter_rules.specs.declared.rule_line.RuleLine.TheVariants as lines;
ghost use Rattle.milter_rules.specs.declared.rule_line.RuleLine.{RuleLine};
ghost use Rattle.milter_filter_rules.specs.ActionFits.{may_do};
ghost use Rattle.milter_rules.specs.ActionWords.{action_of};
ghost use Rattle.milter_rules.specs.RuleFault.{IsAt};
ghost use Rattle.milter_rules.specs.RuleForms.{FitsForm, has_action};
ghost use Rattle.milter_rules.specs.RuleLines.{Gives, HasRule, IsNoText, actions_of, macro_stage_of, option_line, protocol_of, stage_at, symbols_line, symbols_of, version_of, setting_of};

use crate::action_words::action_in;
use crate::condition_words::{conditions_in, words_after};
use crate::form::{Form, are_conditions, has_action};
use crate::rule_fault::RuleFault;
use milter_filter_rules::{Rule, RuleAction, has_room, is_allowed_at, is_string};
use milter_protocol::{VERSION_MAX, VERSION_MIN};
use milter_text::{FileLine, Word};
use milter_wire::{Actions, MacroStage, NoMemory, Protocol, Stage, SymList, Text};
use std::alloc::Global;

/// What a filter wants.
#[derive(Drop)]
pub(crate) enum Setting {
    /// This version.
    Version(u32),
    /// These actions.
    Actions(Actions),
    /// These bits of the protocol.
    Protocol(Protocol),
    /// These macros at a stage.
    Symbols(SymList),
}

/// What a line of a rule file gives.
#[derive(Drop)]
pub(crate) enum RuleLine {
    /// What the filter wants.
    Setting(Setting),
    /// A rule of a stage.
    At(Stage, Rule),
}

/// What the line of a file of this form gives. The fault is the first of these that is so: the first word isn't known,
/// or the line of options or macros is bad; the stage isn't one; the conditions aren't any; the action isn't one; it
/// may not be done at this stage; its packet would be too long.
pub(crate) fn line_in(alloc: Global, form: &Form, line: &FileLine) -> Result<RuleLine, RuleFault>
    ensures found { IfOk result (λ x. Gives line.now.words.items x × FitsForm form.now x) }
    ensures only { (x : RuleLine) → Gives line.now.words.items x → FitsForm form.now x →
        MatchResult result (λ y. y ≡ x) (λ e. e ≡ faults.NoMemory) }
    ensures at { IfErr result (λ e. IsAt line.now.number e) }
{
    let words = line.words.as_slice();
    if let Some(rest) = words_after(b"at", words) {
        let (stage, rule) = rule_in(alloc, form, rest, line.number)?;
        return Ok(RuleLine::At(stage, rule));
    }
    match setting_in(alloc, words)? {
        Some(setting) => Ok(RuleLine::Setting(setting)),
        None => Err(RuleFault::UnknownWord(line.number)),
    }
}

/// What a line of options or of a symbol list gives.
fn setting_in(alloc: Global, words: &[Word]) -> Result<Option<Setting>, NoMemory>
    ensures { IfOk result (λ setting. setting ≡ setting_of words.now) }
{
    match words {
        [first, value] => Ok(option_in(first, value)),
        [first, stage, names] => symbols_in(alloc, first, stage, names),
        _ => Ok(None),
    }
}

/// What a line of options gives.
fn option_in(first: &Word, value: &Word) -> Option<Setting>
    ensures { result ≡ option_line first.now value.now }
{
    if first.is_keyword(b"version") {
        version_in(value).map(Setting::Version)
    } else if first.is_keyword(b"actions") {
        actions_in(value).map(Setting::Actions)
    } else if first.is_keyword(b"protocol") {
        protocol_in(value).map(Setting::Protocol)
    } else {
        None
    }
}

/// The version that the word is.
fn version_in(word: &Word) -> Option<u32>
    ensures { result ≡ version_of word.now }
{
    let version = u32::try_from(word.number()?).ok()?;
    if (VERSION_MIN..=VERSION_MAX).contains(&version) {
        Some(version)
    } else {
        None
    }
}

/// The actions that the word names.
#[tactic(auto, using(crate::proofs::LineForms::no_actions))]
fn actions_in(word: &Word) -> Option<Actions>
    ensures { result ≡ actions_of word.now }
{
    Actions::from_names(plain_str(word)?)
}

/// The bits of the protocol that the word names.
#[tactic(auto, using(crate::proofs::LineForms::no_protocol))]
fn protocol_in(word: &Word) -> Option<Protocol>
    ensures { result ≡ protocol_of word.now }
{
    Protocol::from_names(plain_str(word)?)
}

/// The text of a plain word; none where it isn't UTF-8, which the words of a line are.
fn plain_str(word: &Word) -> Option<&str>
    ensures some { IfSome result (λ text. plain_text word.now ≡ Some text.now) }
    ensures none { result ≡ None → IsNoText word.now }
{
    str::from_utf8(word.keyword()?).ok()
}

/// What a line of a symbol list gives.
fn symbols_in(
    alloc: Global,
    first: &Word,
    stage: &Word,
    names: &Word,
) -> Result<Option<Setting>, NoMemory>
    ensures { IfOk result (λ setting. setting ≡ symbols_line first.now stage.now names.now) }
{
    if !first.is_keyword(b"symbols") {
        return Ok(None);
    }
    let (Some(stage), Some(names)) = (macro_stage_in(stage), names_in(names)) else {
        return Ok(None);
    };
    let names = Text::copy_of(alloc, names.as_slice())?;
    let stage = stage.number();
    Ok(Some(Setting::Symbols(SymList { stage, names })))
}

/// The stage that has macros, by its word.
fn macro_stage_in(word: &Word) -> Option<MacroStage>
    ensures { result ≡ macro_stage_of word.now }
{
    MacroStage::from_name(word.keyword()?)
}

/// The names of macros in the word, which have no NUL.
fn names_in(word: &Word) -> Option<&Text>
    ensures { option_map (λ names. names.now) result ≡ symbols_of word.now }
{
    let names = word.quoted_text()?;
    if is_string(names) { Some(names) } else { None }
}

/// The stage and the rule of the line with this number of a file of this form, by its words after the first.
#[tactic(auto, using(crate::proofs::LineForms::stage_read, crate::proofs::PlainWords::plain_words))]
fn rule_in(
    alloc: Global,
    form: &Form,
    words: &[Word],
    line: u64,
) -> Result<(Stage, Rule), RuleFault>
    ensures found { IfOk result (λ x. HasRule words.now x.0 x.1 × FitsForm form.now (lines.At x.0 x.1)) }
    ensures only { (stage : Stage) (rule : Rule) → HasRule words.now stage rule →
        FitsForm form.now (lines.At stage rule) →
        MatchResult result (λ x. x ≡ (stage, rule)) (λ e. e ≡ faults.NoMemory) }
    ensures at { IfErr result (λ e. IsAt line e) }
{
    let Some((stage, rest)) = stage_in(words) else {
        return Err(RuleFault::BadStage(line));
    };
    let Some((conditions, action)) = conditions_in(alloc, rest)? else {
        return Err(RuleFault::BadCondition(line));
    };
    if !are_conditions(form, conditions.as_slice()) {
        return Err(RuleFault::BadCondition(line));
    }
    let action = action_at(alloc, form, action, stage, line)?;
    Ok((stage, Rule { conditions, action }))
}

/// The stage that the words begin with, and the words after it.
fn stage_in(words: &[Word]) -> Option<(Stage, &[Word])>
    ensures { option_map (λ x. (x.0, x.1.now)) result ≡ stage_at words.now }
{
    let [word, rest @ ..] = words else {
        return None;
    };
    Some((Stage::from_name(word.keyword()?)?, rest))
}

/// The action of the words, which a file of this form may have, and which may be done at the stage.
#[tactic(auto, using(crate::proofs::LineForms::fields_of))]
fn action_at(
    alloc: Global,
    form: &Form,
    words: &[Word],
    stage: Stage,
    line: u64,
) -> Result<RuleAction, RuleFault>
    ensures found { IfOk result (λ a. (action_of words.now ≡ Some a) × (may_do stage a ≡ true)) }
    ensures form { IfOk result (λ a. has_action form.now a ≡ true) }
    ensures only { (a : RuleAction) → action_of words.now ≡ Some a → has_action form.now a ≡ true →
        may_do stage a ≡ true → MatchResult result (λ b. b ≡ a) (λ e. e ≡ faults.NoMemory) }
    ensures at { IfErr result (λ e. IsAt line e) }
{
    let Some(action) = action_in(alloc, words)? else {
        return Err(RuleFault::BadAction(line));
    };
    if !has_action(form, &action) {
        return Err(RuleFault::BadAction(line));
    }
    if !is_allowed_at(&action, stage) {
        return Err(RuleFault::ActionNotHere(line));
    }
    if !has_room(&action) {
        return Err(RuleFault::TooLarge(line));
    }
    Ok(action)
}
