//! What becomes of a message that a mail server shows a filter: the verdicts that it acted on, what they settle, and
//! what a lost filter leaves.
//!
//! A mail server plans a message by what was negotiated with the filter. A [`Transaction`] is a message under way: it
//! knows which command of the plan is the next one, and the verdicts that were acted on. Nothing here reads, writes or
//! waits.
#![tactic(auto)]

mod acted_verdicts;
mod disposition;
mod fallback;
mod laws;
mod loss;
mod outcome;
mod plan_cursor;
mod received_edits;
mod received_reply;
mod transaction;
mod transaction_laws;

pub use acted_verdicts::{Acted, ActedVerdicts, begin_acted, copy_acted, without_last};
pub use disposition::{is_refusal, kept_message, outcome_at_connection, outcome_of};
pub use fallback::{OnLoss, fall_back};
pub use laws::{received_options, received_replies};
pub use loss::{By, Loss, MtaFault};
pub use milter_protocol::Action;
pub use outcome::{Outcome, Refusal, Report};
pub use plan_cursor::{ClientInfo, Cursor};
pub use received_edits::ReceivedEdits;
pub use received_reply::{on_options, on_reply, on_verdict};
pub use transaction::Transaction;
pub use transaction_laws::{plans_by_stage, plans_in_order, plans_in_parts, transactions_begin};
