//! Rules: a filter's policy as conditions on what the filter is shown, and what is done where they are met. [`Rules`]
//! is a [`Policy`](milter_filter_stream::Policy).
#![tactic(auto)]

mod action_fits;
mod comparison;
mod conditions;
mod decision;
mod edit_list;
mod formed_text;
mod header_values;
mod laws;
mod least_wants;
mod listed;
mod named_headers;
mod named_list;
mod networks;
mod places;
mod rows;
mod rule;
mod rule_list;
mod rules;
mod searches;
mod values;

pub use action_fits::{fields_fit, has_room, is_allowed_at, is_string};
pub use laws::{answers_of_actions, deleted_headers};
pub use milter_filter_stream::{PathPart, Test, TextCase};
pub use milter_lists::{ListFault, ListKind, ListSource, ListSources, SharedList, TextList};
pub use milter_protocol::Action;
pub use named_list::{NamedList, NamedLists};
pub use rule::{
    Check, Condition, Conditions, Field, Joint, Measure, Rule, RuleAction, TextCheck, Texts,
};
pub use rule_list::{RuleList, StageRules};
pub use rules::Rules;
