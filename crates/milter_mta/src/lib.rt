//! A mail server's end of the Sendmail milter protocol: an [`MtaCore`] plays a session to a filter, and says what
//! becomes of each message. It neither reads nor writes: its caller does what [`MtaCore::want`] asks for, until that is
//! [`Want::Done`], and then takes [`MtaCore::into_reports`].
//!
//! - [`Want::Dial`]: connect to the filter, and note it with [`MtaCore::dialled`].
//! - [`Want::Send`]: [`MtaCore::advance`] makes the next packet; write what is [`MtaCore::pending`], and note with
//!   [`MtaCore::sent`] how much of it was written.
//! - [`Want::Receive`]: read what the filter sends, and hand it to [`MtaCore::feed`].
//!
//! Where a connection can't be made, breaks, or takes too long, call [`MtaCore::lost`]: a message is settled by
//! default, and where others are left a new connection is wanted.
//!
//! Laws: whatever a filter sends, a message is settled at most once, by a dialogue through its plan or by default after
//! one; against a lawful filter it comes to what the dialogue with that filter is. Each law is the contract of a
//! function that does nothing.
#![tactic(auto)]

mod any_filter;
mod config;
mod dialogue_laws;
mod dialogue_rows;
mod disposition_laws;
mod exchange_laws;
mod laws;
mod loss_laws;
mod mta_core;
mod queue;
mod reply;
mod reports;
mod rows;
mod settle;
mod state;

pub use any_filter::{connections_are_reported, messages_are_settled_by_dialogues};
pub use config::Config;
pub use dialogue_laws::{
    dialogues_are_played, dialogues_begin_plans, lawful_filters_negotiate, lines_without_answers,
    offers_open_sessions, plans_are_sent,
};
pub use disposition_laws::{
    dialogues_settle_all, dialogues_settle_one, lost_dialogues_give_up, sessions_are_settled,
};
pub use exchange_laws::{
    closed_dialogues_rule, dialogues_go_on, dialogues_of_messages, exchanges_are_played,
};
pub use laws::{
    faults_are_received, losses_settle_one, pieces_go_on, replies_are_received,
    reply_prefixes_are_kept,
};
pub use loss_laws::{
    losses_depend_on_verdicts, part_answers_are_received, part_answers_settle_nothing,
    sending_settles_nothing, sent_bytes_add_up,
};
pub use milter_mta_outcome::{
    Acted, ActedVerdicts, By, Loss, MtaFault, OnLoss, Outcome, Refusal, Report,
};
pub use mta_core::{MtaCore, Want};
pub use reports::Reports;
