//! How robust a filter is: [`probe`] sends a session to it plainly over connections that a
//! [`Dial`](milter_mta_client::Dial) makes, then makes trials, after each of which the session is sent plainly again,
//! and writes what broke.
//!
//! [`trials`] lists the trials of a conversation, which are [`Exchange`]s, and [`play_of`] says what is done in one.
#![tactic(auto)]

mod breakage;
mod exchange;
mod given;
mod kind;
mod mutation;
mod offers;
mod probe_run;
mod reference;
mod script;
mod script_end;
mod session_end;
mod tally;
mod trial;

pub use exchange::{Exchange, Place};
pub use given::{Difference, Given, first_difference};
pub use kind::Kind;
pub use probe_run::{Settings, probe};
pub use script::{Cut, Play, Script, Step, plain, play_of};
pub use trial::{TRIALS_MAX, Trial, chosen, trials};
