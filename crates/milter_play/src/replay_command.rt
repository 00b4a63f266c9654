//! The subcommand `replay`: the mail server's side of a trace, sent to a filter again.

ghost use Rattle.std.specs.Prelude.{IfErr, IfOk, OnErr, OnOk};
ghost use Rattle.milter_cli.specs.FileRun.{IsOf};
ghost use Rattle.milter_replay.specs.Recordings.{AllFit};
ghost use Rattle.milter_replay.specs.Sending.{SendsAll, SendsSome};

use milter_cli::{FileError, InputFile, ToolError, fault_error, output_error, read_file};
use milter_replay::{Recording, read_trace, replay};
use std::alloc::Global;
use std::io::{Read, Write};

/// Reads a trace to its end, which has at most 134,217,728 bytes.
pub fn load_recording<R: Read + Drop>(alloc: Global, reader: R) -> Result<Recording, FileError>
    // Each command has an encoding.
    ensures fit { IfOk result (λ recording. AllFit recording.exchanges.items) }
    // An error names no other kind of file.
    ensures named { IfErr result (IsOf InputFile.Trace) }
{
    let file = read_file(alloc, InputFile::Trace, reader)?;
    match read_trace(alloc, file.as_slice()) {
        Ok(recording) => Ok(recording),
        Err(fault) => Err(fault_error(InputFile::Trace, fault.line(), fault.number())),
    }
}

/// Sends the commands of a recording to a filter, whose packets are read from `reader`, and writes the lines of
/// [`milter_replay::replay`]. The error names the line of the first command that was not answered as it was recorded,
/// or says that the lines were not all written.
pub fn replay_run<R: Read, L: Write, W: Write>(
    alloc: Global,
    recording: &Recording,
    reader: &mut R,
    link: &mut L,
    writer: &mut W,
) -> Result<(), ToolError>
    requires { AllFit recording.now.exchanges.items }
    // The commands of the recording were sent, in order, but for those that the filter doesn't want now;
    ensures done { OnOk result (SendsAll recording.now.exchanges.items (L.contents link.old) (L.contents link.new)) }
    // or a prefix of them, and nothing else.
    ensures begun { OnErr result (SendsSome recording.now.exchanges.items
        (L.contents link.old) (L.contents link.new)) }
{
    match replay(alloc, recording, reader, link, writer) {
        Ok(replayed) => match replayed.difference {
            Some(line) => Err(ToolError::Differs { line }),
            None => Ok(()),
        },
        Err(fault) => Err(output_error(fault)),
    }
}
