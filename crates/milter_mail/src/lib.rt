//! Mail as a mail server sends it to a filter: sessions and their messages, how many bytes their packets are, and
//! edited messages as texts.
//!
//! A [`Session`] is what a mail server sends of one client, with its [`Message`]s. A [`Held`] message is one after all
//! edits, which [`write_message`] writes.
#![tactic(auto)]

mod by_macro_stage;
mod chosen_macros;
mod held_text;
mod laws;
mod message_lines;
mod session;
mod weight;

pub use by_macro_stage::{ByMacroStage, Macros};
pub use chosen_macros::pairs_asked_for;
pub use held_text::write_message;
pub use laws::{
    chosen_macros_fit, plans_fit, sendable_messages, weight_of_any_plan, weight_of_parts,
    weight_of_plan,
};
pub use message_lines::{put_line, put_message, put_text};
pub use milter_message::{
    CHUNK_LEN, Edit, Held, Message, MessageParts, WEIGHT_MAX, apply, changed_fields, edits_in_turn,
    edits_of_replies, leading_spaces, sent_value,
};
pub use milter_text::{TextFault, Word, WordFault, quote, words};
pub use session::{Session, SessionParts};
pub use weight::Overhead;
