//! The reading of a whole file.

ghost use Rattle.std.specs.Prelude.{◌≡◌, ◌≤◌, IfErr, IfOk, IfSome, length};
ghost use Rattle.milter_cli.specs.FileRun.{IsFileFault, IsOf};

use crate::file_error::{FileError, InputFile, read_error};
use std::alloc::Global;
use std::io::Read;

/// The most bytes that a file has.
pub const FILE_MAX: u64 = 134_217_728;

/// The number that the clauses name: the most bytes of a file.
pub fn file_limit()
    ensures { FILE_MAX ≡ 134217728 }
{}

/// The bytes of a file. One that has more than 134,217,728 is refused.
pub fn read_file<R: Read + Drop>(
    alloc: Global,
    file: InputFile,
    reader: R,
) -> Result<Vec<u8>, FileError>
    ensures bytes { IfOk result (λ read. IfSome (R.remaining reader) (λ bytes. read.items ≡ bytes)) }
    ensures size { IfOk result (λ read. length read.items ≤ FILE_MAX) }
    ensures named { IfErr result (IsOf file) }
    ensures fault { IfErr result (λ e. ¬ IsFileFault e) }
{
    let mut bytes = Vec::new(alloc);
    match reader.take(FILE_MAX + 1).read_to_end(&mut bytes) {
        Ok(_) if bytes.len() as u64 <= FILE_MAX => Ok(bytes),
        Ok(_) => Err(FileError::Read(file)),
        Err(error) => Err(read_error(file, error.kind())),
    }
}
