//! Messages as SMTP carries them, and the edits of them that a filter may ask for.
//!
//! A [`Message`] is the envelope, the header and the body, each of which fits packets. An [`Edit`] is a change to a
//! message that a filter asks for, and [`apply`] gives the message after edits as a [`Held`] one.
#![tactic(auto)]

mod application;
mod copies;
mod deletions;
mod edit;
mod edited_fields;
mod header_edits;
mod indexed_edits;
mod insertions;
mod laws;
mod leading_space;
mod message;
mod name_numbers;
mod ordered_fields;
mod recipient_edits;
mod source;

pub use application::apply;
pub use edit::Edit;
pub use laws::{changed_fields, edits_in_turn, edits_of_replies, leading_spaces, message_limits};
pub use leading_space::{sent_header, sent_value};
pub use message::{CHUNK_LEN, Held, Message, MessageParts, WEIGHT_MAX};
