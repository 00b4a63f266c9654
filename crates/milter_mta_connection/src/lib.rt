//! A mail server's end of one connection to one filter, fed stage by stage.
//!
//! A mail server calls an [`MtaConnection`] with what its client does, as it does it, and has the filter's verdict on
//! each stage before it answers its client. It stands on an [`MtaChannel`], which encodes commands and decodes replies,
//! and knows nothing of the order of commands. Write what is `pending`, note with `sent` how much was written, and hand
//! what was read to `feed`: nothing here reads, writes or waits.
//!
//! Laws: against a lawful filter what is sent, and what a caller is given of it, is the dialogue with that filter;
//! after a loss nothing comes any more. Each law is the contract of a function that does nothing.
#![tactic(auto)]

mod answer_laws;
mod call_outcome;
mod channel_laws;
mod channel_state;
mod dialogue_laws;
mod filter_event;
mod laws;
mod method_laws;
mod mta_channel;
mod mta_connection;
mod packets;
mod pending;
mod phase;
mod piece_laws;

pub use answer_laws::{answers_are_received, replies_are_received};
pub use call_outcome::{CallFault, CallOutcome};
pub use channel_laws::{
    edits_were_negotiated, events_leave_channels, pieces_go_on, verdicts_follow_commands,
};
pub use channel_state::ExpectedReply;
pub use dialogue_laws::{
    aborts_end_messages, calls_are_exchanges, messages_are_dialogues, sessions_are_dialogues,
};
pub use filter_event::{Fed, FilterEvent};
pub use laws::{
    commands_come_in_order, connections_keep_order, losses_end_connections, verdicts_are_due,
};
pub use method_laws::methods_are_calls;
pub use mta_channel::MtaChannel;
pub use mta_connection::{MtaConnection, Want};
pub use phase::Phase;
pub use piece_laws::pieces_are_fed;
