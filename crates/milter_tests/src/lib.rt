//! Tests of packets, options, lines, mail and faults, by values that were written out by hand; and worked examples of
//! the definitions that contracts name: each is what the definition computes.
#![tactic(auto)]

mod definitions;
#[cfg(test)]
mod tests;

pub use definitions::{
    asked_commands, edited_fields, edited_messages, largest_messages, message_texts, named_bits,
    negotiated_options, planned_connections, planned_macros, planned_sessions, planned_stages,
    sent_headers, symbol_lists,
};
