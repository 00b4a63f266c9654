//! What the functions of the library for C do with one object, or with none.
//!
//! A [`Handle`] is a place that a caller in C keeps, with one object or none: an object is of one kind of a few, so
//! what owns its memory is proved once for all of them. Beside it stand packets whose parts are looked at one by one, a
//! message that is put together and edited part by part, a mail server's end of a connection with its last event, the
//! numbers of answers, the texts that a filter is shown, and the edits of an answer.
#![tactic(auto)]

mod accessors;
mod command_parts;
mod decoded;
mod edit_parts;
mod edited;
mod edits;
mod faults;
mod handle;
mod mta_end;
mod mta_numbers;
mod numbers;
mod object;
mod part;
mod parts;
mod raw_box;
mod reply_parts;
mod shown;
mod slot;
pub mod status;

pub use accessors::{
    header_name as message_header_name, header_value as message_header_value,
    quarantine as message_quarantine, recipient, sender,
};
pub use decoded::Decoded;
pub use edit_parts::{EditParts, parts_of};
pub use edited::edit_message;
pub use edits::{
    add_header, add_recipient, change_header, change_sender, delete_recipient, insert_header,
    quarantine, replace_body, set_code,
};
pub use faults::{
    answer_fault_number, answer_status, filter_fault_number, memory_status, wants_fault_number,
    wire_fault_number,
};
pub use handle::Handle;
pub use mta_end::MtaEnd;
pub use mta_numbers::{
    call_status, event_number, loss_status, verdict_number, verdict_text, want_number,
};
pub use numbers::{origin_numbered, stage_number, state_status, step_number, verdict_numbered};
pub use object::Object;
pub use part::Part;
pub use parts::{
    PartFault, add_body, add_header as message_add_header, add_recipient as message_add_recipient,
    new_message,
};
pub use raw_box::Loose;
pub use shown::{
    Address, client_address, client_host, header_name, header_value, recipient_address,
    sender_address,
};
pub use slot::Slot;
