//! A filter's end of the Sendmail milter protocol, version 6.
//!
//! Over any reader and writer, [`serve`] asks a [`Policy`] until the connection ends, and a [`Connection`] asks its
//! caller, who answers when it can: one process can serve many. Apart from readers and writers, a [`FilterCore`] asks a
//! policy, and a [`FilterConnection`] asks its caller; neither reads, writes nor waits. All reply to the commands of
//! any mail server by the answers and by what was negotiated.
#![tactic(auto)]

mod connection;
mod conversation_laws;
mod cutting_laws;
mod filter_connection;
mod filter_core;
mod output;
mod policy;
mod steps;
mod stream_server;
mod turn;
mod turn_laws;

pub use connection::Connection;
pub use conversation_laws::{conversations_go_on, conversations_reply};
pub use cutting_laws::{cores_go_on, cores_reply, orders_reply_the_same_bytes};
pub use filter_connection::FilterConnection;
pub use filter_core::FilterCore;
pub use milter_filter_stream::{
    AnswerFault, Needle, NextStep, Pass, PathPart, Pattern, Policy, Search, Seen, Test, TextCase,
    Wants, WantsFault,
};
pub use milter_protocol::{
    ACTIONS_MAX, Answer, CommandOrder, Edits, FilterFault, FilterState, PROTOCOL_MAX, VERSION_MAX,
};
pub use milter_wire::read_buffer;
pub use policy::policy_wants;
pub use stream_server::{Server, serve, serve_in_order, serving_limits};
pub use turn::{Served, Turn};
pub use turn_laws::{connections_go_on, connections_reply};
