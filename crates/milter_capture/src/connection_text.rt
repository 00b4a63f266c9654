//! The lines of a connection.

use crate::connection::{Connection, Piece, Sender};
use crate::print_fault::PrintFault;
use crate::side_text::SideText;
use milter_text::write_text;
use milter_trace::{Direction, TraceForm};
use milter_wire::NoMemory;
use std::alloc::Global;
use std::fmt;
use std::io::Write;

/// The nanoseconds of a microsecond.
const MICROSECOND: u64 = 1_000;

/// The microseconds of a second.
const SECOND: u64 = 1_000_000;

/// So many nanoseconds, which are printed as seconds with six decimals; what is left of a microsecond is dropped.
#[derive(Clone, Copy, Drop)]
pub(crate) struct Elapsed(pub(crate) u64);

impl fmt::Display for Elapsed {
    fn fmt<W: fmt::Write>(&self, f: &mut fmt::Formatter<W>) -> fmt::Result {
        let all = self.0 / MICROSECOND;
        let (seconds, parts) = (all / SECOND, all % SECOND);
        write!(f, "{seconds}.{parts:06}")
    }
}

/// How many bytes are written at once, as far as lines allow it.
const WRITE_LEN: usize = 65_536;

/// Writes the lines of the connection of this number: its addresses, its packets, and what is missing of each side.
pub(crate) fn print_connection<W: Write>(
    alloc: Global,
    form: TraceForm,
    number: u64,
    connection: &Connection<'_>,
    writer: &mut W,
) -> Result<(), PrintFault> {
    let mut to_filter = SideText::new(alloc, form, Direction::ToFilter);
    let mut to_mta = SideText::new(alloc, form, Direction::ToMta);
    let mut text = head(alloc, number, connection)?;
    for piece in connection.pieces.as_slice() {
        let side = match piece.sender {
            Sender::Client => &mut to_filter,
            Sender::Server => &mut to_mta,
        };
        put_piece(connection.start, piece, side, &mut text)?;
        if text.len() >= WRITE_LEN {
            write_text(writer, text.as_slice())?;
            text.clear();
        }
    }
    put_end(
        alloc,
        &to_filter,
        connection.lost(Sender::Client),
        Direction::ToFilter,
        &mut text,
    )?;
    put_end(
        alloc,
        &to_mta,
        connection.lost(Sender::Server),
        Direction::ToMta,
        &mut text,
    )?;
    Ok(write_text(writer, text.as_slice())?)
}

/// The line of a connection.
fn head(alloc: Global, number: u64, connection: &Connection<'_>) -> Result<Vec<u8>, NoMemory> {
    let (client, server) = (connection.client, connection.server);
    let line = format!(in alloc; "connection {number} {client} {server}\n")?;
    Ok(Vec::from_slice(alloc, line.as_bytes())?)
}

/// Appends the lines of the packets that become whole with a piece, in a connection that began at this time.
fn put_piece(
    start: u64,
    piece: &Piece<'_>,
    side: &mut SideText,
    text: &mut Vec<u8>,
) -> Result<(), NoMemory> {
    let elapsed = Elapsed(piece.time.saturating_sub(start));
    side.put(elapsed, piece.bytes, text)
}

/// Appends what is missing of a side: so many bytes that the capture doesn't have, or the end of a packet.
fn put_end(
    alloc: Global,
    side: &SideText,
    lost: u64,
    direction: Direction,
    text: &mut Vec<u8>,
) -> Result<(), NoMemory> {
    let line = match (lost, side.unread()) {
        (0, 0) => return Ok(()),
        (0, unread) => format!(in alloc; "end: {direction} truncated {unread} bytes\n")?,
        (lost, _) => {
            let end = end_name(direction);
            format!(in alloc; "lost {lost} bytes to {end}\n")?
        }
    };
    text.extend_from_slice(line.as_bytes())?;
    Ok(())
}

/// What the end is called to which bytes of a direction go.
fn end_name(direction: Direction) -> &'static str {
    match direction {
        Direction::ToFilter => "the filter",
        Direction::ToMta => "the mail server",
    }
}
