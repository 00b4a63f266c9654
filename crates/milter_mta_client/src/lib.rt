//! A mail server's end of the Sendmail milter protocol over connections that fail, and its reports as texts.
//!
//! [`converse`] plays a session to filters over links that a [`Dial`] makes, and settles every message: by what a
//! filter answers, or by default where it is lost; [`converse_observed`] shows each report to an [`Observer`] once its
//! message is settled. [`write_reports`] writes what became of the messages, and a text of expected reports is compared
//! with it line by line: a line [`GAP`] stands for any lines, and one that begins with [`LIKE`] for one that is like
//! its pattern.
//!
//! The core that it drives, and what it answers with, are those of `milter_mta`, which this crate re-exports.
#![tactic(auto)]

mod alignment;
mod client;
mod connection;
mod costs;
mod difference;
mod hunks;
mod laws;
mod link_calls;
mod observer;
mod pattern;
mod places;
mod play;
mod report_lines;
mod report_log;
mod reports_text;
mod rows;

pub use client::{converse, converse_observed};
pub use connection::{Dial, DialFault};
pub use difference::{first_difference, lines_of};
pub use hunks::difference_text;
pub use laws::{connection_limits, events_keep_to_dialogues, events_report_connections};
pub use milter_mta::{
    Acted, ActedVerdicts, By, Config, Loss, MtaCore, MtaFault, OnLoss, Outcome, Refusal, Report,
    Reports, Want,
};
pub use milter_text::TextFault as PlayFault;
pub use observer::{NoObserver, Observer};
pub use pattern::{GAP, LIKE};
pub use play::mta_run;
pub use reports_text::{ReportPlace, is_by_client, write_report, write_reports};
