//! The two forms of rule files, and which conditions and actions each may have.

ghost use Rattle.std.specs.Prelude.{◌≡◌, not};
ghost use Rattle.milter_rules.specs.RuleForms.{all_fit, are_conditions, begins_with_and, begins_with_dot, case_fits, check_fits, fits_first};
ghost use Rattle.milter_rules.specs.RuleForms.{fits_second, is_domain, is_first_check, is_first_field, is_header, is_network, is_of_first};
ghost use Rattle.milter_rules.specs.RuleForms.{form_sources, has_action, has_rule, kind_fits, limit_max, source_fits, test_fits};
ghost use Rattle.milter_lists.specs.ListLines.{is_list_name, source_named};
ghost use Rattle.milter_rules.specs.declared.form.Form.TheVariants.{First};
ghost use Rattle.milter_filter_rules.specs.Conditions.{has_form};
ghost use Rattle.milter_filter_rules.specs.RulesValue.{rule_set};
ghost use Rattle.std.specs.List.{list_all};

use milter_address::Network;
use milter_filter_rules::{
    Check, Condition, Field, Joint, ListKind, ListSource, ListSources, Measure, PathPart, Rule,
    RuleAction, Rules, Test, Texts,
};
use milter_lists::{is_list_name, source_named};
use milter_message::WEIGHT_MAX;
use milter_text::Word;
use milter_wire::{Stage, Text};
use std::alloc::Global;

/// The form of a rule file.
#[derive(Debug, Drop)]
pub(crate) enum Form {
    /// The form of files without a first line `rules 2`.
    First,
    /// The wider form of files with it, whose conditions may refer to these lists.
    Second(ListSources),
}

impl Form {
    /// The lists of a file of this form.
    pub(crate) fn into_sources(self, alloc: Global) -> ListSources
        ensures { result ≡ form_sources self }
    {
        match self {
            Form::First => ListSources::new(Vec::new(alloc)),
            Form::Second(sources) => sources,
        }
    }
}

/// Whether the rules are written in the first form: all of them have it, and they refer to no lists.
pub(crate) fn is_of_first(rules: &Rules) -> bool
    ensures { result ≡ is_of_first (rule_set rules.now) }
{
    rules.named_lists().is_empty() && all_fit_first(rules)
}

/// Whether all rules are of the first form.
fn all_fit_first(rules: &Rules) -> bool
    ensures { result ≡ all_fit First (rule_set rules.now).rules }
{
    for stage in &Stage::ALL {
        if !rules_fit_first(rules.at(*stage)) {
            return false;
        }
    }
    true
}

/// Whether these rules are of the first form.
fn rules_fit_first(rules: &[Rule]) -> bool
    ensures { result ≡ list_all (has_rule First) rules.now }
{
    rules.iter().all(|rule| rule_fits_first(rule))
}

/// Whether the rule is of the first form.
fn rule_fits_first(rule: &Rule) -> bool
    ensures { result ≡ has_rule First rule.now }
{
    conditions_fit_first(rule.conditions.as_slice()) && !rule.action.changes_seen()
}

/// Whether all conditions are of the first form.
fn conditions_fit_first(conditions: &[Condition]) -> bool
    ensures { result ≡ list_all fits_first conditions.now }
{
    conditions.iter().all(|condition| fits_first(condition))
}

/// Whether all conditions are of the second form, where there are these lists.
fn conditions_fit_second(sources: &[ListSource], conditions: &[Condition]) -> bool
    ensures { result ≡ list_all (fits_second sources.now) conditions.now }
{
    conditions
        .iter()
        .all(|condition| fits_second(sources, condition))
}

/// Whether the words are the first line of a file of the second form.
pub(crate) fn is_header(words: &[Word]) -> bool
    ensures { result ≡ is_header words.now }
{
    match words {
        [first, number] => first.is_keyword(b"rules") && number.is_keyword(b"2"),
        _ => false,
    }
}

/// Whether a rule of a file of this form may have these conditions.
pub(crate) fn are_conditions(form: &Form, conditions: &[Condition]) -> bool
    ensures { result ≡ are_conditions form.now conditions.now }
{
    match form {
        Form::First => conditions_fit_first(conditions),
        Form::Second(sources) => {
            begins_with_and(conditions) && conditions_fit_second(sources.as_slice(), conditions)
        }
    }
}

/// Whether a rule of a file of this form may have this action.
pub(crate) fn has_action(form: &Form, action: &RuleAction) -> bool
    ensures { result ≡ has_action form.now action.now }
{
    match form {
        Form::First => !action.changes_seen(),
        Form::Second(_) => true,
    }
}

/// Whether the first condition, if there is one, is joined by And.
fn begins_with_and(conditions: &[Condition]) -> bool
    ensures { result ≡ begins_with_and conditions.now }
{
    match conditions {
        [first, ..] => first.joint == Joint::And,
        [] => true,
    }
}

/// Whether the condition is of the first form.
fn fits_first(condition: &Condition) -> bool
    ensures { result ≡ fits_first condition.now }
{
    condition.joint == Joint::And && !condition.negated && is_first_check(&condition.check)
}

/// Whether the check is of the first form: a field, a test and one text.
fn is_first_check(check: &Check) -> bool
    ensures { result ≡ is_first_check check.now }
{
    match check {
        Check::Text(check) => {
            is_first_field(&check.field)
                && matches!(check.test, Test::Is | Test::Has | Test::Lacks)
                && !check.any_case
                && check.texts.as_slice().len() == 1
        }
        _ => false,
    }
}

/// Whether the field is of the first form.
fn is_first_field(field: &Field) -> bool
    ensures { result ≡ is_first_field field.now }
{
    match field {
        Field::Sender(part) | Field::Rcpt(part) => *part == PathPart::Sent,
        Field::Recipients(_) => false,
        _ => true,
    }
}

/// Whether the condition is of the second form, where there are these lists.
fn fits_second(sources: &[ListSource], condition: &Condition) -> bool
    ensures { result ≡ fits_second sources.now condition.now }
{
    check_fits(sources, &condition.check)
}

/// Whether the check is of the second form, where there are these lists.
fn check_fits(sources: &[ListSource], check: &Check) -> bool
    ensures { result ≡ check_fits sources.now check.now }
{
    match check {
        Check::Text(check) => {
            !check.texts.as_slice().is_empty()
                && test_fits(check.test, &check.field, &check.texts)
                && case_fits(check.test, &check.field, check.any_case)
        }
        Check::Within(networks) => {
            !networks.as_slice().is_empty() && are_networks(networks.as_slice())
        }
        Check::Over(measure, limit) => *limit <= limit_max(*measure),
        Check::In(field, name) => {
            is_list_name(name.as_slice()) && source_fits(sources, name.as_slice(), field)
        }
    }
}

/// Whether there is a list of this name, of a kind that fits the field.
fn source_fits(sources: &[ListSource], name: &[u8], field: &Field) -> bool
    ensures { result ≡ source_fits (source_named sources.now name.now) field.now }
{
    match source_named(sources, name) {
        Some(source) => kind_fits(source.kind, field),
        None => false,
    }
}

/// Whether the field may be in a list of this kind.
pub fn kind_fits(kind: ListKind, field: &Field) -> bool
    ensures { result ≡ kind_fits kind field.now }
{
    match kind {
        ListKind::Addresses => matches!(field.path_part(), Some(PathPart::Address)),
        ListKind::Domains => is_domain(field),
        ListKind::Networks => matches!(field, Field::Address),
        ListKind::Texts => !matches!(field, Field::Header(_) | Field::Body) && !has_form(field),
    }
}

/// Whether each text writes a network.
fn are_networks(texts: &[Text]) -> bool
    ensures { result ≡ list_all is_network texts.now }
{
    texts.iter().all(|text| is_network(text.as_slice()))
}

/// Whether the text writes a network.
fn is_network(text: &[u8]) -> bool
    ensures { result ≡ is_network text.now }
{
    Network::parse(text).is_some()
}

/// The largest limit that a condition may have of the number: 16,777,216 bytes, since a filter's end keeps no larger
/// body, and the largest number of 32 bits of recipients.
pub fn limit_max(measure: Measure) -> u32
    ensures { result ≡ limit_max measure }
{
    match measure {
        Measure::Size => WEIGHT_MAX as u32,
        Measure::Rcpts => u32::MAX,
    }
}

/// Whether the field has the test, with these texts.
fn test_fits(test: Test, field: &Field, texts: &Texts) -> bool
    ensures { result ≡ test_fits test field.now texts.now }
{
    match test {
        Test::Under => is_domain(field) && have_no_first_dot(texts.as_slice()),
        Test::Like => !matches!(field, Field::Body),
        _ => true,
    }
}

/// Whether no text begins with a dot.
fn have_no_first_dot(texts: &[Text]) -> bool
    ensures { result ≡ list_all (λ text. not (begins_with_dot text)) texts.now }
{
    texts.iter().all(|text| has_no_first_dot(text))
}

/// Whether the text doesn't begin with a dot.
fn has_no_first_dot(text: &Text) -> bool
    ensures { result ≡ not (begins_with_dot text.now) }
{
    match text.as_slice() {
        [first, ..] => *first != b'.',
        [] => true,
    }
}

/// Whether the values of the field are domains.
fn is_domain(field: &Field) -> bool
    ensures { result ≡ is_domain field.now }
{
    match field {
        Field::Host | Field::Helo => true,
        Field::Sender(part) | Field::Rcpt(part) | Field::Recipients(part) => {
            *part == PathPart::Domain
        }
        _ => false,
    }
}

/// Whether the case of letters may be ignored, where it is.
fn case_fits(test: Test, field: &Field, any_case: bool) -> bool
    ensures { result ≡ case_fits test field.now any_case }
{
    !any_case || test != Test::Under && !has_form(field)
}

/// Whether the values of the field have a form of their own.
fn has_form(field: &Field) -> bool
    ensures { result ≡ has_form field.now }
{
    matches!(
        field.path_part(),
        Some(PathPart::Address | PathPart::Domain)
    )
}
