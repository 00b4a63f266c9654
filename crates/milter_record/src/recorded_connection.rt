//! A connection that is passed on and recorded.

use crate::end::{Came, End};
use crate::fault::Fault;
use crate::sender::{Sender, trace_line};
use std::alloc::Global;
use std::io::{self, Write};

/// The most pieces that are passed on in one turn of a connection, before the others have theirs.
const PIECES_MAX: u32 = 64;

/// A connection that is passed on and recorded.
#[derive(Drop)]
pub(crate) struct RecordedConnection<F: Write + Drop> {
    /// Its number, from 1.
    pub(crate) number: u64,
    /// The trace.
    pub(crate) file: F,
    pub(crate) mail_server: End,
    pub(crate) filter: End,
    /// The number of the filter's address that is connected to.
    pub(crate) address: usize,
    /// Whether the filter is reached.
    pub(crate) is_made: bool,
    /// Whether it is to have a turn.
    pub(crate) is_due: bool,
}

impl<F: Write + Drop> RecordedConnection<F> {
    /// Passes on what has come, as far as can be without waiting; whether both ends have ended.
    pub(crate) fn run_turn(&mut self, alloc: Global, buffer: &mut [u8]) -> Result<bool, Fault> {
        self.is_due = false;
        if !self.is_made {
            return Ok(false);
        }
        for _ in 0..PIECES_MAX {
            let came = self.pass_to_filter(alloc, buffer)?;
            let answered = self.pass_to_mail_server(alloc, buffer)?;
            if self.mail_server.is_done() && self.filter.is_done() {
                return Ok(true);
            }
            if !came && !answered {
                return Ok(false);
            }
        }
        self.is_due = true;
        Ok(false)
    }

    /// Passes on some of what the mail server sent; whether there was something.
    fn pass_to_filter(&mut self, alloc: Global, buffer: &mut [u8]) -> Result<bool, Fault> {
        if !self.filter.piece.is_done() {
            return self.filter.write().map_err(|error| Fault::Filter(error));
        }
        let came = match self.mail_server.read(buffer) {
            Ok(came) => came,
            Err(error) => return Err(Fault::MailServer(error)),
        };
        pass(
            alloc,
            &mut self.file,
            Sender::MailServer,
            came,
            buffer,
            &mut self.filter,
        )
    }

    /// Passes on some of what the filter sent; whether there was something.
    fn pass_to_mail_server(&mut self, alloc: Global, buffer: &mut [u8]) -> Result<bool, Fault> {
        if !self.mail_server.piece.is_done() {
            return self
                .mail_server
                .write()
                .map_err(|error| Fault::MailServer(error));
        }
        let came = match self.filter.read(buffer) {
            Ok(came) => came,
            Err(error) => return Err(Fault::Filter(error)),
        };
        pass(
            alloc,
            &mut self.file,
            Sender::Filter,
            came,
            buffer,
            &mut self.mail_server,
        )
    }
}

/// Records what came, and has the other end get it; whether something came. The other end reads that no more comes once
/// the sender has ended.
fn pass<F: Write>(
    alloc: Global,
    file: &mut F,
    sender: Sender,
    came: Came,
    buffer: &[u8],
    other: &mut End,
) -> Result<bool, Fault> {
    match came {
        Came::Nothing => Ok(false),
        Came::Again => Ok(true),
        Came::End => {
            // One that has hung up needs no word of it.
            let _ = other.stream.end_writing();
            Ok(true)
        }
        Came::Bytes(count) => {
            let (bytes, _) = buffer.split_at(count.min(buffer.len()));
            let line = trace_line(alloc, sender, bytes)?;
            if let Err(error) = write_line(file, line.as_slice()) {
                return Err(Fault::Write(error));
            }
            other.piece.fill(bytes)?;
            Ok(true)
        }
    }
}

/// Writes a line.
fn write_line<F: Write>(file: &mut F, line: &[u8]) -> io::Result<()> {
    file.write_all(line)
}
