//! Output: as many bytes as are written now.

ghost use Rattle.std.specs.Prelude.{◌≡◌, ◌≤◌, ◌<◌, length, take, true};
ghost use Rattle.std.specs.Io.KnownBytes.{Appends};

use std::io::{ErrorKind, Write};

/// What was written of some bytes.
#[derive(Clone, Copy)]
pub(crate) struct Written {
    /// How many of them.
    pub(crate) count: usize,
    /// Whether a write failed, or took nothing.
    pub(crate) failed: bool,
}

/// Writes bytes until all are written, nothing more is written now (`WouldBlock`), or a write fails or takes nothing.
pub(crate) fn write_now<W: Write>(bytes: &[u8], writer: &mut W) -> Written
    ensures within { result.count ≤ length bytes.now }
    ensures wrote { Appends (W.contents writer.old) (W.contents writer.new) (take result.count bytes.now) }
    ensures failed { result.failed ≡ true → result.count < length bytes.now }
{
    let mut count = 0;
    while count < bytes.len() {
        match writer.write(&bytes[count..]) {
            Ok(0) => return Written {
                count,
                failed: true,
            },
            Ok(more) => count += more,
            Err(error) => match error.kind() {
                ErrorKind::WouldBlock => return Written {
                    count,
                    failed: false,
                },
                _ => return Written {
                    count,
                    failed: true,
                },
            },
        }
    }
    Written {
        count,
        failed: false,
    }
}
