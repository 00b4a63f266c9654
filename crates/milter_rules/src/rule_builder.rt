//! The rules of a file, as far as it was read.

ghost use Rattle.std.specs.Prelude.{◌≡◌, ◌+◌, ◌-◌, ◌^◌, ◌==◌, ◌++◌, ◌∷◌, IfErr, IsOk, None, OnErr, OnOk, [], Some, false, is_some, length, min, true};
ghost use Rattle.std.specs.List.{list_any};
ghost use Rattle.milter_rules.specs.declared.rule_fault.RuleFault.TheVariants as faults;
ghost use Rattle.milter_filter_rules.specs.ActionFits.{may_do};
ghost use Rattle.milter_rules.specs.RuleBuilder.{edits_weight_at, LineFits, LineFollows, ListFollows, RuleFollows, SettingFits, SettingFollows, with_line, with_list, with_rule_at, with_setting};
ghost use Rattle.milter_rules.specs.RuleFault.{IsAt};
ghost use Rattle.milter_rules.specs.RuleFile.{needed_actions, needed_for, needed_protocol, is_skip, parts_of, rules_of, wanted};
ghost use Rattle.milter_filter_rules.specs.RuleSet.{is_lawful, list_fits};
ghost use Rattle.milter_filter_rules.specs.RulesValue.{case_of, named_of, rule_set, states_protocol};
ghost use Rattle.milter_filter_rules.specs.ListedValues.{sources_of};
ghost use Rattle.milter_text.specs.declared.glob.TextCase.TheVariants.{Exact};

use crate::rule_fault::RuleFault;
use crate::rule_line::{RuleLine, Setting};
use milter_filter_rules::{Action, NamedLists, Rule, RuleAction, Rules, StageRules};
use milter_message::WEIGHT_MAX;
use milter_protocol::VERSION_MAX;
use milter_wire::{
    Actions, OPTIONS_LEN, Options, PAYLOAD_MAX, Protocol, Stage, SymList, SymLists, Verdict,
    sym_list_len, sym_lists_len,
};
use std::alloc::Global;
use std::marker::Model;

/// The most rules that a file may have.
pub const RULES_MAX: usize = 10_000;

/// What the lines of a file give together.
#[derive(Drop)]
pub(crate) struct Builder {
    version: Option<u32>,
    actions: Option<Actions>,
    protocol: Option<Protocol>,
    lists: SymLists,
    rules: StageRules,
    /// The number of rules.
    count: usize,
    /// The bytes of the packets of all edits.
    weight: usize,
}

impl Model for Builder {
    ghost use Rattle.std.specs.Prelude.{◌≡◌, ◌≤◌};
    ghost use Rattle.milter_rules.specs.declared.rule_builder.TheConstants.{RULES_MAX};
    ghost use Rattle.milter_filter_rules.specs.ActionFits.{edits_weight};
    ghost use Rattle.milter_rules.specs.RuleBuilder.{PartsFit};
    ghost use Rattle.milter_rules.specs.RuleFile.{FileParts};

    ghost Value = { FileParts };

    ghost view = { λ d. record {
      version = d.version;
      actions = d.actions;
      protocol = d.protocol;
      lists = d.lists;
      rules = d.rules;
      count = d.count;
    } };

    ghost invariant = { λ d. PartsFit (record {
      version = d.version;
      actions = d.actions;
      protocol = d.protocol;
      lists = d.lists;
      rules = d.rules;
      count = d.count;
    }) × (d.weight ≡ edits_weight d.rules.eob) × (d.count ≤ RULES_MAX) };
}

impl Builder {
    /// What no lines give.
    pub(crate) fn new(alloc: Global) -> Self
        ensures { result ≡ parts_of [] }
    {
        Builder {
            version: None,
            actions: None,
            protocol: None,
            lists: SymLists::new(Vec::new(alloc)),
            rules: StageRules::new(alloc),
            count: 0,
            weight: 0,
        }
    }

    /// Adds what a line gives. The fault is `UnknownWord` where that is there already, and `TooLarge` for one rule too
    /// many, or where all edits together are too long, or the reply with the symbol lists.
    pub(crate) fn add(&mut self, value: RuleLine, line: u64) -> Result<(), RuleFault>
        requires { LineFits value }
        ensures found { OnOk result (LineFollows value self.old × (self.new ≡ with_line value self.old)) }
        ensures only { LineFollows value self.old → IfErr result (λ e. e ≡ faults.NoMemory) }
        ensures at { IfErr result (λ e. IsAt line e) }
    {
        match value {
            RuleLine::Setting(setting) => self.add_setting(setting, line),
            RuleLine::At(stage, rule) => self.push_rule(stage, rule, line),
        }
    }

    /// Adds what a line of options or of a symbol list gives.
    fn add_setting(&mut self, setting: Setting, line: u64) -> Result<(), RuleFault>
        requires { SettingFits setting }
        ensures found { OnOk result (SettingFollows setting self.old × (self.new ≡ with_setting setting self.old)) }
        ensures only { SettingFollows setting self.old → IfErr result (λ e. e ≡ faults.NoMemory) }
        ensures at { IfErr result (λ e. IsAt line e) }
    {
        match setting {
            Setting::Version(version) => set_once(&mut self.version, version, line),
            Setting::Actions(actions) => set_once(&mut self.actions, actions, line),
            Setting::Protocol(protocol) => set_once(&mut self.protocol, protocol, line),
            Setting::Symbols(list) => self.push_list(list, line),
        }
    }

    /// Adds a symbol list.
    fn push_list(&mut self, list: SymList, line: u64) -> Result<(), RuleFault>
        requires { list_fits list ≡ true }
        ensures found { OnOk result (ListFollows list self.old.lists × (self.new ≡ with_list list self.old)) }
        ensures only { ListFollows list self.old.lists → IfErr result (λ e. e ≡ faults.NoMemory) }
        ensures at { IfErr result (λ e. IsAt line e) }
    {
        if has_list_of(self.lists.as_slice(), list.stage) {
            return Err(RuleFault::UnknownWord(line));
        }
        let len = sym_lists_len(self.lists.as_slice())
            .saturating_add(sym_list_len(&list))
            .saturating_add(OPTIONS_LEN);
        if len > PAYLOAD_MAX {
            return Err(RuleFault::TooLarge(line));
        }
        self.lists.push(list)?;
        Ok(())
    }

    /// Adds a rule of the stage.
    fn push_rule(&mut self, stage: Stage, rule: Rule, line: u64) -> Result<(), RuleFault>
        requires { may_do stage rule.action ≡ true }
        ensures found { OnOk result (RuleFollows stage rule self.old × (self.new ≡ with_rule_at stage rule self.old)) }
        ensures only { RuleFollows stage rule self.old → IfErr result (λ e. e ≡ faults.NoMemory) }
        ensures at { IfErr result (λ e. IsAt line e) }
    {
        let weight = self.weight.saturating_add(weight_at(stage, &rule));
        if self.count >= RULES_MAX {
            return Err(RuleFault::TooLarge(line));
        }
        if weight > WEIGHT_MAX {
            return Err(RuleFault::TooLarge(line));
        }
        self.rules.push(stage, rule)?;
        self.count += 1;
        self.weight = weight;
        Ok(())
    }

    /// The rules, with the options that the lines ask for, else those that the rules need, and with these lists.
    pub(crate) fn into_rules(self, named: NamedLists) -> Rules
        ensures set { rule_set result ≡ rules_of (sources_of named) self }
        ensures named { named_of result ≡ named }
        ensures case { case_of result ≡ Exact }
        ensures stated { states_protocol result ≡ is_some self.protocol }
    {
        let options = self.wanted();
        let is_stated = self.protocol.is_some();
        Rules::from_parts(options, self.lists, self.rules, named).with_protocol_stated(is_stated)
    }

    /// The options that the filter wants.
    fn wanted(&self) -> Options
        ensures { result ≡ wanted self.now }
    {
        let mut actions = match self.actions {
            Some(actions) => actions,
            None => needed_actions(self.rules.at(Stage::Eob)),
        };
        if !self.lists.as_slice().is_empty() {
            actions = Actions(actions.0 | Actions::SETSYMLIST.0);
        }
        let protocol = match self.protocol {
            Some(protocol) => protocol,
            None => needed_protocol(self.rules.at(Stage::Body)),
        };
        Options {
            version: self.version.unwrap_or(VERSION_MAX),
            actions,
            protocol,
        }
    }
}

/// Sets what must not be set yet.
fn set_once<T: Copy + Drop>(option: &mut Option<T>, value: T, line: u64) -> Result<(), RuleFault>
    ensures found { OnOk result ((option.old ≡ None) × (option.new ≡ Some value)) }
    ensures only { option.old ≡ None → IsOk result }
    ensures err { OnErr result (option.new ≡ option.old) }
    ensures at { IfErr result (λ e. e ≡ faults.UnknownWord line) }
{
    if option.is_some() {
        return Err(RuleFault::UnknownWord(line));
    }
    *option = Some(value);
    Ok(())
}

/// Whether one of the lists is of this stage.
fn has_list_of(lists: &[SymList], stage: u32) -> bool
    ensures { result ≡ list_any (λ list. list.stage == stage) lists.now }
{
    lists.iter().any(|list| list.stage == stage)
}

/// The bytes that a rule of the stage adds to the packets of all edits, or the greatest `usize` where there are more.
fn weight_at(stage: Stage, rule: &Rule) -> usize
    ensures { result ≡ min (edits_weight_at stage rule.now) (2 ^ 64 - 1) }
{
    match &rule.action {
        RuleAction::Fixed(Action::Edit(edit)) if stage == Stage::Eob => edit.weight(),
        _ => 0,
    }
}

/// The actions that the edits of the rules need.
fn needed_actions(rules: &[Rule]) -> Actions
    ensures { result.0 ≡ needed_actions rules.now }
{
    Actions(
        rules
            .iter()
            .fold(0, |bits, rule| bits | needed_for(&rule.action)),
    )
}

/// The bit that the action needs.
fn needed_for(action: &RuleAction) -> u32
    ensures { result ≡ needed_for action.now }
{
    match action {
        RuleAction::Fixed(Action::Edit(edit)) => edit.needs().0,
        RuleAction::Fixed(Action::Verdict(_)) => 0,
        RuleAction::DeleteHeader(_) | RuleAction::PrefixHeader(_) => Actions::CHGHDRS.0,
    }
}

/// The bits of the protocol that the rules need.
fn needed_protocol(rules: &[Rule]) -> Protocol
    ensures { result.0 ≡ needed_protocol rules.now }
{
    if has_skip(rules) {
        Protocol::SKIP
    } else {
        Protocol(0)
    }
}

/// Whether one of the rules skips the rest of a body.
fn has_skip(rules: &[Rule]) -> bool
    ensures { result ≡ list_any (λ rule. is_skip rule.action) rules.now }
{
    rules.iter().any(|rule| is_skip(&rule.action))
}

/// Whether the action is to skip the rest of a body.
fn is_skip(action: &RuleAction) -> bool
    ensures { result ≡ is_skip action.now }
{
    matches!(action, RuleAction::Fixed(Action::Verdict(Verdict::Skip)))
}
