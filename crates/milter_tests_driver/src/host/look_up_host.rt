//! A host whose questions another program answers.

use crate::texts::verdict_in;
use milter_filter::{Answer, Pass, Served, Wants};
use milter_service::{
    AskedConnection, Given, Host, Interest, Key, MailServers, QuestionKey, Registry, ServiceError,
    Token, policy_wants,
};
use milter_wire::{NoMemory, Stage, Verdict};
use mio::net::UnixStream;
use std::alloc::Global;
use std::io::{self, Read, Write};
use std::ops::Range;
use std::str;

/// The most bytes that are read at once.
const PIECE: usize = 512;

/// A host that has recipients and the ends of messages looked up by a server of its own, to which it is connected. The
/// questions are numbered from 0.
///
/// | It writes | When |
/// |---|---|
/// | `asked QUESTION CONNECTION STAGE` | a recipient or the end of a message is to be looked up |
/// | `given QUESTION WORD` | an answer was `taken`, came `too late`, or was `refused` |
/// | `ended CONNECTION WORD after COUNT` | a connection ended so, on which so many questions were asked |
///
/// A line `QUESTION VERDICT` is an answer. Lines that can't be written at once are left out.
#[derive(Drop)]
pub struct LookUpHost {
    alloc: Global,
    server: UnixStream,
    // The questions that were asked, by their numbers.
    questions: Vec<QuestionKey>,
    // The beginning of a line that isn't whole.
    line: Vec<u8>,
}

impl LookUpHost {
    /// A host that is connected to the look-up server at this path.
    pub fn connect(rt: &HostRuntime, path: &str) -> io::Result<Self> {
        Ok(LookUpHost {
            alloc: rt.alloc(),
            server: UnixStream::connect(rt, path)?,
            questions: Vec::new(rt.alloc()),
            line: Vec::new(rt.alloc()),
        })
    }

    /// Writes a line to the look-up server.
    fn write_line(&self, line: &str) {
        let _ = (&self.server).write(line.as_bytes());
    }

    /// Takes what was read of the look-up server, and gives the answers in it.
    fn feed(
        &mut self,
        bytes: &[u8],
        mail_servers: &mut MailServers<u32>,
    ) -> Result<(), ServiceError> {
        for byte in bytes {
            if *byte == b'\n' {
                self.give(mail_servers)?;
                self.line.clear();
            } else if self.line.push(*byte).is_err() {
                return Err(ServiceError::NoMemory);
            }
        }
        Ok(())
    }

    /// Gives the answer of a whole line, and writes what became of it.
    fn give(&mut self, mail_servers: &mut MailServers<u32>) -> Result<(), ServiceError> {
        let Some((number, verdict)) = answer_in(self.line.as_slice()) else {
            return Ok(());
        };
        let Some(question) = self.questions.get(number).copied() else {
            return Ok(());
        };
        let given = mail_servers.give(question, Answer::of_verdict(self.alloc, verdict))?;
        let word = word_of(given);
        let line = format!(in self.alloc; "given {number} {word}\n")?;
        self.write_line(line.as_str());
        Ok(())
    }
}

impl Host for LookUpHost {
    /// How many questions were asked on the connection.
    type Session = u32;

    fn start(&mut self, registry: &Registry, tokens: Range<usize>) -> Result<(), ServiceError> {
        registry.register(&mut self.server, Token(tokens.start), Interest::READABLE)?;
        Ok(())
    }

    fn connect(&mut self, _key: Key) -> Result<(Wants, u32), NoMemory> {
        Ok((policy_wants(self.alloc, &Pass)?, 0))
    }

    fn asked(
        &mut self,
        question: QuestionKey,
        session: &mut u32,
        connection: &mut AskedConnection,
    ) -> Result<(), NoMemory> {
        *session = session.wrapping_add(1);
        let stage = match connection.asked() {
            Some(Stage::Rcpt) => "rcpt",
            Some(Stage::Eob) => "eob",
            _ => {
                let _ = connection.answer(Answer::of_verdict(self.alloc, Verdict::Continue));
                return Ok(());
            }
        };
        let number = self.questions.len();
        let of = question.connection().number();
        let line = format!(in self.alloc; "asked {number} {of} {stage}\n")?;
        self.questions.push(question)?;
        self.write_line(line.as_str());
        Ok(())
    }

    /// A recipient is refused; the end of a message can't be skipped.
    fn default_verdict(&self, stage: Stage) -> Verdict {
        match stage {
            Stage::Rcpt => Verdict::Reject,
            _ => Verdict::Skip,
        }
    }

    fn ready(
        &mut self,
        _token: Token,
        mail_servers: &mut MailServers<u32>,
    ) -> Result<(), ServiceError> {
        let mut piece = [0; PIECE];
        for _ in 0..u64::MAX {
            match (&self.server).read(&mut piece) {
                Ok(0) | Err(_) => return Ok(()),
                Ok(count) => self.feed(&piece[..count], mail_servers)?,
            }
        }
        Ok(())
    }

    fn ended(&mut self, key: Key, session: u32, served: Served) -> Result<(), ServiceError> {
        let number = key.number();
        let word = ending_of(served);
        let line = format!(in self.alloc; "ended {number} {word} after {session}\n")?;
        self.write_line(line.as_str());
        Ok(())
    }
}

/// The question that a line is about, and the verdict in it.
fn answer_in(line: &[u8]) -> Option<(usize, Verdict)> {
    let (number, word) = str::from_utf8(line).ok()?.split_once(' ')?;
    Some((number.parse().ok()?, verdict_in(word)?))
}

/// What became of an answer.
fn word_of(given: Given) -> &'static str {
    match given {
        Given::Taken => "taken",
        Given::TooLate => "too late",
        Given::Refused(_) => "refused",
    }
}

/// How a connection ended.
fn ending_of(served: Served) -> &'static str {
    match served {
        Served::Quit => "quit",
        Served::Ended(_) => "at the end",
        Served::Failed(_) => "by a fault",
        Served::ReadFault => "by a read fault",
        Served::WriteFault => "by a write fault",
        Served::TurnLimit => "by the turn limit",
    }
}
