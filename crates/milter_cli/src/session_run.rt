//! The subcommand `session`: from a session file to its canonical form; and the sessions that other subcommands play.

ghost use Rattle.std.specs.Prelude.{IfErr, IfOk, OnOk};
ghost use Rattle.milter_mail_file.specs.SessionFile.{IsSessionFile};
ghost use Rattle.milter_mail_file.specs.SessionText.{session_text};
ghost use Rattle.milter_cli.specs.FileRun.{Has, HasNone, IsFileFault, IsOf, WritesCanonical};

use crate::file_error::{FileError, InputFile, fault_error, text_error};
use crate::file_input::read_file;
use milter_mail::Session;
use milter_mail_file::{read_session, write_session};
use std::alloc::Global;
use std::io::{Read, Write};

/// Reads a session file to its end. Memory is bounded by a small multiple of the file's size, which is at most
/// 134,217,728 bytes.
pub fn load_session<R: Read + Drop>(alloc: Global, reader: R) -> Result<Session, FileError>
    ensures found { IfOk result (Has IsSessionFile (R.remaining reader)) }
    // An error names no other kind of file.
    ensures named { IfErr result (IsOf InputFile.Session) }
    // A fault of the file comes only of a file that has no session.
    ensures fault { IfErr result (λ e. IsFileFault e → HasNone IsSessionFile (R.remaining reader)) }
{
    let file = read_file(alloc, InputFile::Session, reader)?;
    match read_session(alloc, file.as_slice()) {
        Ok(session) => Ok(session),
        Err(fault) => Err(fault_error(InputFile::Session, fault.line(), fault.number())),
    }
}

/// Reads a session file to its end, and writes its session in canonical form: without comments, each text in quotes as
/// it is written, the macros stage by stage, and each body as one text. Memory is bounded as by [`load_session`].
pub fn print_session<R: Read + Drop, W: Write>(
    alloc: Global,
    reader: R,
    writer: &mut W,
) -> Result<(), FileError>
    // The session of the file was written in canonical form, and nothing else.
    ensures done { OnOk result (WritesCanonical IsSessionFile session_text (R.remaining reader)
        (W.contents writer.old) (W.contents writer.new)) }
    // An error names no other kind of file.
    ensures named { IfErr result (IsOf InputFile.Session) }
    // A fault of the file comes only of a file that has no session.
    ensures fault { IfErr result (λ e. IsFileFault e → HasNone IsSessionFile (R.remaining reader)) }
{
    let session = load_session(alloc, reader)?;
    let written = write_session(alloc, writer, &session);
    drop(session);
    match written {
        Ok(()) => Ok(()),
        Err(fault) => Err(text_error(fault)),
    }
}
