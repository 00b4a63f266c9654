//! The bytes of a filter's end, apart from who decides: a [`FilterStream`] takes the bytes of a mail server up to a
//! stage that is to be answered, keeps what is [`Seen`], and has the packets of the replies. `milter_filter` has the
//! two ends that stand on it.
//!
//! A [`Policy`] is what a filter's author writes: it answers at each stage by what is [`Seen`] there, which a filter's
//! end alone fills, command by command. What a filter [`Wants`] of a connection, and each answer, is checked against
//! the rules of the protocol.
#![tactic(auto)]

mod answer_check;
mod answer_fault;
mod answer_packets;
mod asker;
mod commands;
mod connection;
mod filter_stream;
mod macro_list;
mod macro_search;
mod macro_values;
mod pass;
mod pieces;
mod policy;
mod seen;
mod wants;
mod wants_fault;

pub use answer_check::check_answer;
pub use answer_fault::AnswerFault;
pub use answer_packets::{put_answer, put_continue, put_progress};
pub use filter_stream::{FilterStream, NextStep};
pub use milter_filter_search::{Needle, PathPart, Pattern, Test, TextCase};
pub use pass::Pass;
pub use policy::Policy;
pub use seen::{Search, Seen};
pub use wants::{Wants, WantsRef};
pub use wants_fault::WantsFault;
