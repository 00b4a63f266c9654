//! The calls for commands.

use crate::script::Line;
use crate::texts::{client_in, one_of, path_in, two_of, value_in};
use anyhow::{Context, bail};
use milter_mta_connection::{CallFault, CallOutcome, MtaConnection, Want};
use milter_wire::{HeaderRef, Pair, Text};

/// What a call answers.
type Answer = Result<CallOutcome, CallFault>;

/// The calls.
#[derive(Clone, Copy)]
enum Call {
    Connect,
    Helo,
    Mail,
    Rcpt,
    Data,
    Header,
    Eoh,
    Body,
    End,
    Unknown,
    Abort,
    Quit,
}

/// The names of the calls.
const CALLS: [(&str, Call); 12] = [
    ("connect", Call::Connect),
    ("helo", Call::Helo),
    ("mail", Call::Mail),
    ("rcpt", Call::Rcpt),
    ("data", Call::Data),
    ("header", Call::Header),
    ("eoh", Call::Eoh),
    ("body", Call::Body),
    ("end", Call::End),
    ("unknown", Call::Unknown),
    ("abort", Call::Abort),
    ("quit", Call::Quit),
];

/// Makes the call for a header field.
fn call_header(connection: &mut MtaConnection, texts: &[Text]) -> anyhow::Result<Answer> {
    let (name, value) = two_of(texts)?;
    Ok(connection.header(HeaderRef { name, value }))
}

/// Makes the call of the line, with these macros.
fn make_call(
    connection: &mut MtaConnection,
    line: Line<'_>,
    macros: &[Pair],
) -> anyhow::Result<Answer> {
    let texts = line.texts;
    Ok(match value_in(&CALLS, line.word).context("no call")? {
        Call::Connect => connection.connect(client_in(texts)?, macros),
        Call::Helo => connection.helo(one_of(texts)?, macros),
        Call::Mail => connection.mail(path_in(texts)?, macros),
        Call::Rcpt => connection.rcpt(path_in(texts)?, macros),
        Call::Data => connection.data(macros),
        Call::Header => call_header(connection, texts)?,
        Call::Eoh => connection.eoh(macros),
        Call::Body => connection.body(one_of(texts)?),
        Call::End => connection.end(macros),
        Call::Unknown => connection.unknown(one_of(texts)?, macros),
        Call::Abort => connection.abort(),
        Call::Quit => connection.quit(),
    })
}

/// Makes a call, and once more where memory was refused: the first one may have changed nothing.
pub fn answer_to(
    connection: &mut MtaConnection,
    line: Line<'_>,
    macros: &[Pair],
) -> anyhow::Result<Answer> {
    let phase = connection.phase();
    let answer = make_call(connection, line, macros)?;
    if answer != Err(CallFault::NoMemory) {
        return Ok(answer);
    }
    if connection.phase() != phase || connection.want() != Want::Command {
        bail!("a refused call changed the connection");
    }
    make_call(connection, line, macros)
}
