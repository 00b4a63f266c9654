//! Why a rule file can't be read, in lines that a person understands.
//!
//! docs/RULE_CHECK.md has the text of each line, and says when it is written.
#![tactic(auto)]

mod action_faults;
mod condition_faults;
mod condition_words;
mod file_head;
mod flag_faults;
mod form_faults;
mod known_words;
mod line_faults;
mod list_faults;
mod list_words;
mod misfits;
mod nearest;
mod number_faults;
mod number_words;
mod option_faults;
mod reference_faults;
mod word_faults;

pub use line_faults::say_fault;
