//! Both ends of the Sendmail milter protocol in memory, and the bytes between them.
//!
//! A [`World`] has a mail server's end with a session, a filter's end with a policy while one lives, and the bytes on
//! their way each way. [`World::step`] lets one [`Event`] happen; [`run`] plays a session while a list of events
//! happens, [`run_in_order`] does so to a filter's end that takes commands in a given order, and [`play`] plays over
//! one connection on which everything arrives. [`read_events`] reads events of a file. A world drives both ends by
//! their public calls alone: only a filter's end asks the policy, and only a mail server's end makes reports.
//!
//! Laws: the entries of a session are what passes over a connection that is never lost, and which reports each answer
//! adds; each event leaves both ends where the counts of a schedule over these entries say, however the bytes are cut.
//! Where a filter of rules wants no more than its rules need, messages come to the same as where it wants all. Each law
//! is the contract of a function that does nothing.
#![tactic(auto)]

mod any_schedule;
mod entries;
mod event_fault;
mod event_file;
mod event_line;
mod event_rows;
mod events;
mod filter_laws;
mod laws;
mod least_wants_laws;
mod moves;
mod mta_laws;
mod one_connection;
mod pieces;
mod rows;
mod scenario;
mod scenarios;
mod state;
mod world;

pub use any_schedule::{run, run_in_order};
pub use entries::{counts_of_bytes, entries_of_sessions};
pub use event_fault::EventFault;
pub use event_file::{EVENTS_MAX, read_events};
pub use event_line::Event;
pub use events::{
    answered_bytes_step, dialled_ends_step, events_without_effect, fresh_ends_begin,
    lost_ends_step, received_bytes_step, sent_bytes_step, taken_bytes_step,
};
pub use filter_laws::{
    bytes_are_answered, dialogues_are_answered, sessions_are_answered, sessions_are_replied_to,
    sessions_need_no_aborts,
};
pub use laws::{
    beginnings_are_acted_on, defaults_are_counted, event_limit, events_of_files,
    losses_settle_messages, rounds_move_on, schedules_report_dialogues,
    undisturbed_schedules_are_ruled, verdicts_were_given,
};
pub use least_wants_laws::least_wants_settle_alike;
pub use mta_laws::{
    dialogues_are_followed, ends_in_steps, entries_are_followed, pieces_are_followed,
    places_are_reported,
};
pub use one_connection::play;
pub use pieces::pieces_move;
pub use scenarios::scenarios_are_possible;
pub use state::{Counts, State};
pub use world::World;
