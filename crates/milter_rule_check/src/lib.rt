//! What a person should know of a rule file that is read: what of it can't be meant so. [`say_findings`] says a line
//! for each of these.
//!
//! docs/RULE_CHECK.md has the text of each line, and says when it is written.
#![tactic(auto)]

mod action_findings;
mod address_findings;
mod advice;
mod client_findings;
mod compared;
mod condition_findings;
mod file_findings;
mod macro_findings;
mod networks_meant;
mod path_findings;
mod reply_findings;
mod rule_findings;
mod text_findings;
mod wildcards;

pub use rule_findings::say_findings;
