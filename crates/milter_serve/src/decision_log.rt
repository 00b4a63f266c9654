//! The lines of the log about decisions: of each that isn't to go on, or of each message.

use crate::log_line::{LogKeys, LogLine};
use crate::rule_lines::{Deciding, RuleLines};
use crate::service_log::ServiceLog;
use milter_filter::{Policy, Seen};
use milter_message::Edit;
use milter_protocol::Answer;
use milter_text::TextFault;
use milter_wire::{NoMemory, Options, Origin, Stage, SymList, Verdict};
use std::alloc::Global;
use std::io::Write;

/// The macro with which mail servers name a message. Source: the libmilter callback documentation (smfi_getsymval).
const QUEUE_ID: &[u8] = b"i";

/// Which answers of rules have lines.
#[derive(Clone, Copy, PartialEq, Eq)]
pub enum LogDetail {
    /// None.
    Nothing,
    /// Those that aren't only to go on: with another verdict, or with edits.
    Decisions,
    /// These, and each at the end of a message: so each message that isn't ended before has a line.
    Messages,
}

impl LogDetail {
    /// Whether this answer at this stage has a line.
    fn has_line(self, at: Stage, answer: &Answer) -> bool {
        let goes_on = matches!(answer.verdict, Verdict::Continue | Verdict::Skip)
            && answer.edits.as_slice().is_empty();
        match self {
            LogDetail::Nothing => false,
            LogDetail::Decisions => !goes_on,
            LogDetail::Messages => !goes_on || at == Stage::Eob,
        }
    }
}

/// A decision of a policy, on the connection whose turn it is.
#[derive(Clone, Copy)]
struct Decision<'a> {
    /// The number of the connection.
    number: u32,
    /// The stage at which it was asked.
    at: Stage,
    /// What it was shown.
    seen: &'a Seen,
    /// The line of the rule that has the verdict, where it is known.
    line: Option<u64>,
    /// What it answered.
    answer: &'a Answer,
}

impl LogKeys for Decision<'_> {
    fn put_keys(&self, line: &mut LogLine<'_>) -> Result<(), TextFault> {
        line.put_number("connection", u64::from(self.number))?;
        put_client(line, self.seen)?;
        put_message(line, self.seen)?;
        line.put("stage", self.at.name())?;
        if let Some(number) = self.line {
            line.put_number("line", number)?;
        }
        put_answer(line, self.answer)
    }
}

/// Puts the host and the address of the client, as far as they are known.
fn put_client(line: &mut LogLine<'_>, seen: &Seen) -> Result<(), TextFault> {
    let Some(client) = seen.client() else {
        return Ok(());
    };
    line.put("host", client.host.as_slice())?;
    line.put_if_known("address", address_of(&client.origin))
}

/// The address that a client connects from; the path of a Unix socket.
fn address_of(origin: &Origin) -> Option<&[u8]> {
    match origin {
        Origin::Unknown => None,
        Origin::Unix { address, .. }
        | Origin::Inet { address, .. }
        | Origin::Inet6 { address, .. } => Some(address.as_slice()),
    }
}

/// Puts how the mail server names the message; its sender and its last recipient where it has not named it.
fn put_message(line: &mut LogLine<'_>, seen: &Seen) -> Result<(), TextFault> {
    if let Some(id) = seen.macro_value(QUEUE_ID) {
        return line.put("id", id);
    }
    let sender = seen.sender().map(|path| path.address.as_slice());
    line.put_if_known("sender", sender)?;
    let recipient = seen.recipients().last();
    line.put_if_known("recipient", recipient.map(|path| path.address.as_slice()))
}

/// Puts the verdict, the text of a code, and the names of the edits in their order.
fn put_answer(line: &mut LogLine<'_>, answer: &Answer) -> Result<(), TextFault> {
    line.put("verdict", answer.verdict.name())?;
    if let Verdict::Code(text) = &answer.verdict {
        line.put("text", text.as_slice())?;
    }
    for edit in answer.edits.as_slice() {
        line.put("edit", edit_name(edit))?;
    }
    Ok(())
}

/// The word of an edit, as rule files have it.
fn edit_name(edit: &Edit) -> &'static [u8] {
    match edit {
        Edit::AddHeader(_) => b"add-header",
        Edit::InsertHeader { .. } => b"insert-header",
        Edit::ChangeHeader { .. } => b"change-header",
        Edit::AddRcpt(_) => b"add-rcpt",
        Edit::AddRcptPar { .. } => b"add-rcpt-par",
        Edit::DelRcpt(_) => b"del-rcpt",
        Edit::ChangeFrom { .. } => b"change-from",
        Edit::ReplaceBody(_) => b"replace-body",
        Edit::Quarantine(_) => b"quarantine",
        Edit::Progress => b"progress",
    }
}

/// A policy whose decisions are logged. What it does is what the policy does.
#[derive(Drop)]
pub struct LoggedPolicy<'l, P: Policy + Deciding + Drop, W: Write + Drop> {
    /// The policy.
    pub policy: P,
    /// The lines of its rules.
    pub lines: RuleLines,
    /// Where its decisions are logged.
    pub log: &'l ServiceLog<W>,
}

impl<'l, P: Policy + Deciding + Drop, W: Write + Drop> LoggedPolicy<'l, P, W> {
    /// Logs this answer at this stage to what was shown, where it has a line.
    fn note(&self, alloc: Global, at: Stage, seen: &Seen, answer: &Answer) {
        if !self.log.detail().has_line(at, answer) {
            return;
        }
        let line = match self.policy.deciding(alloc, at, seen) {
            Some(index) => self.lines.number(at, index),
            None => None,
        };
        let decision = Decision {
            number: self.log.number(),
            at,
            seen,
            line,
            answer,
        };
        self.log.write(alloc, &decision);
    }
}

impl<'l, P: Policy + Deciding + Drop, W: Write + Drop> Policy for LoggedPolicy<'l, P, W> {
    ghost behavior = { λ logged. P.behavior logged.policy };

    ghost lawful = { λ logged. P.lawful logged.policy };

    fn wants(&self) -> Options {
        self.policy.wants()
    }

    fn lists(&self) -> &[SymList] {
        self.policy.lists()
    }

    fn prepare(&self, alloc: Global, at: Stage, seen: &mut Seen) {
        self.policy.prepare(alloc, at, seen)
    }

    fn decide(&self, alloc: Global, at: Stage, seen: &Seen) -> Result<Answer, NoMemory> {
        let answer = self.policy.decide(alloc, at, seen)?;
        self.note(alloc, at, seen, &answer);
        Ok(answer)
    }
}
