//! Rule files: a filter's policy in lines of words. [`read_rules`] reads the rules of a file and of the files of its
//! lists, which are a [`Policy`](milter_filter_stream::Policy), and [`write_rules`] writes rules in canonical form.
//! [`Notes`] are lines that are said of such a file.
#![tactic(auto)]

mod action_words;
mod compared;
mod condition_words;
mod file_form;
mod form;
mod laws;
mod list_file;
mod list_lines;
mod notes;
mod rule_builder;
mod rule_fault;
mod rule_file;
mod rule_line;
mod rule_stages;
mod rules_text;
mod words_text;

pub use compared::Compared;
pub use file_form::{FileForm, form_of_file, is_form_line};
pub use form::{kind_fits, limit_max};
pub use laws::{lines_of_written_words, rule_limit, words_of_actions, written_rules};
pub use list_file::{ListFile, ListFileFault, lists_without_entries, read_list_files};
pub use milter_filter_rules::{
    Action, Check, Condition, Conditions, Field, Joint, ListKind, ListSource, ListSources, Measure,
    NamedList, NamedLists, PathPart, Rule, RuleList, Rules, StageRules, Test, TextCheck, TextList,
    Texts,
};
pub use milter_lists::LISTS_MAX;
pub use notes::{Notes, Severity, Span};
pub use rule_builder::RULES_MAX;
pub use rule_fault::RuleFault;
pub use rule_file::{list_sources, read_rule_lines, read_rules};
pub use rule_stages::{RuleLine, rule_lines};
pub use rules_text::write_rules;
