//! Reports that are compared with those that are expected.

ghost use Rattle.std.specs.Prelude.{◌≡◌, IfErr, IfOk, IfSome, MatchOption, OnOk};
ghost use Rattle.milter_play.specs.ExpectedReports.{AreExpected, DifferAt, EndsBeside};
ghost use Rattle.milter_cli.specs.FileRun.{IsFileFault, IsOf};

use milter_cli::{FileError, InputFile, ToolError, output_error, read_file};
use milter_fields::NoMemory;
use milter_mta_client::{first_difference, lines_of};
use milter_text::write_text;
use std::alloc::Global;
use std::io::{Read, Write};

/// Reads a file of reports to its end, which has at most 134,217,728 bytes.
pub fn load_reports<R: Read + Drop>(alloc: Global, reader: R) -> Result<Vec<u8>, FileError>
    ensures found { IfOk result (λ read. IfSome (R.remaining reader) (λ bytes. read.items ≡ bytes)) }
    // An error names no other kind of file, and none has a line.
    ensures named { IfErr result (IsOf InputFile.Reports) }
    ensures fault { IfErr result (λ e. ¬ IsFileFault e) }
{
    read_file(alloc, InputFile::Reports, reader)
}

/// Compares reports with those that are expected, of which a line may stand for others: `...` for any lines, none
/// too, and one that begins with `like ` for one that the rest of it is a pattern of. It writes nothing where they
/// are so; else it writes the reports, and the error names the first line with which they aren't. After another error
/// a prefix of them may have been written.
pub fn check_reports<W: Write>(
    alloc: Global,
    found: &[u8],
    expected: &[u8],
    writer: &mut W,
) -> Result<(), ToolError>
    ensures same { OnOk result (AreExpected expected.now found.now) }
    ensures silent { OnOk result (W.contents writer.new ≡ W.contents writer.old) }
    ensures other { IfErr result (EndsBeside expected.now found.now (W.contents writer.old) (W.contents writer.new)) }
{
    match difference_line(alloc, found, expected) {
        Ok(None) => Ok(()),
        Ok(Some(line)) => match write_text(writer, found) {
            Ok(()) => Err(ToolError::Differs { line }),
            Err(fault) => Err(output_error(fault)),
        },
        Err(NoMemory) => Err(ToolError::NoMemory),
    }
}

/// The first line of reports, counted from 1, with which they aren't those that are expected.
fn difference_line(alloc: Global, found: &[u8], expected: &[u8]) -> Result<Option<u64>, NoMemory>
    ensures { IfOk result (λ line. MatchOption line (AreExpected expected.now found.now)
        (DifferAt expected.now found.now)) }
{
    let expected = lines_of(alloc, expected)?;
    let found = lines_of(alloc, found)?;
    match first_difference(alloc, expected.as_slice(), found.as_slice())? {
        None => Ok(None),
        Some(place) => Ok(Some(place as u64 + 1)),
    }
}
