//! What both ends of the Sendmail milter protocol know of a connection: the order of its stages, a filter's answers
//! and which of them are permitted by what was negotiated, why a filter gives a connection up, and, for contracts, what
//! a filter is shown, its whole dialogue with a mail server, and its replies to the commands of any.
//!
//! Nothing here reads, writes, waits or takes memory.
#![tactic(auto)]

mod answer;
mod filter_end_laws;
mod filter_fault;
mod laws;
mod permitted;
mod question_laws;
mod rows;
mod stage_order;

pub use answer::{Action, Answer, Edits, is_final_at};
pub use filter_end_laws::{
    filter_ends_go_on, lenient_orders, order_states_go_on, order_states_of_filter_ends,
    orders_reply_the_same, parts_of_transcripts,
};
pub use filter_fault::{FilterFault, FilterState};
pub use laws::{dialogues, permitted_answers, seen_in_turn, stages_in_order, transcripts_cut};
pub use permitted::{
    ACTIONS_MAX, PROTOCOL_MAX, VERSION_MAX, VERSION_MIN, permits, permitted_verdict,
    protocol_limits,
};
pub use question_laws::{answers_in_turn, policies_answer};
pub use stage_order::{CommandOrder, may_follow, rank_of};
