//! One call of a link: a read or a write, and what its failure means.

ghost use Rattle.std.specs.Prelude.{◌≡◌, ◌<◌, ◌≤◌, IfErr, IfOk, OnErr, length, take};
ghost use Rattle.std.specs.Io.KnownBytes.{Appends, Consumes, Keeps};
ghost use Rattle.milter_mta_client.specs.LinkCalls.{IsCallFailure, stop_of};

use milter_mta_outcome::Loss;
use std::io::{ErrorKind, Read, Write};

/// Why a mail server's end was not moved on by a call of its link.
#[derive(Clone, Copy, Debug, PartialEq, Eq)]
pub(crate) enum Stop {
    /// The call was interrupted, and may be made again.
    Interrupted,
    /// The connection is to be given up.
    Lost(Loss),
    /// There is nothing more to do on the connection.
    Over,
}

/// What an error of a read or a write means.
fn stop_of(kind: ErrorKind) -> Stop
    ensures { result ≡ stop_of kind }
{
    match kind {
        ErrorKind::Interrupted => Stop::Interrupted,
        ErrorKind::WouldBlock | ErrorKind::TimedOut => Stop::Lost(Loss::Timeout),
        _ => Stop::Lost(Loss::Reset),
    }
}

/// One read into the buffer. The end of the input is a loss.
pub(crate) fn read_once<R: Read>(link: &mut R, buffer: &mut [u8]) -> Result<usize, Stop>
    ensures count { IfOk result (λ count. (0 < count) × (count ≤ length buffer.new)) }
    ensures read { IfOk result (λ count.
        Consumes (R.remaining link.old) (R.remaining link.new) (take count buffer.new)) }
    ensures unread { OnErr result (Keeps (R.remaining link.old) (R.remaining link.new)) }
    ensures stop { IfErr result IsCallFailure }
{
    match link.read(buffer) {
        Ok(0) => Err(Stop::Lost(Loss::Reset)),
        Ok(count) => Ok(count),
        Err(error) => Err(stop_of(error.kind())),
    }
}

/// One write of a prefix of the bytes. A write that takes nothing is a loss.
pub(crate) fn write_once<W: Write>(link: &mut W, bytes: &[u8]) -> Result<usize, Stop>
    ensures count { IfOk result (λ count. (0 < count) × (count ≤ length bytes.now)) }
    ensures written { IfOk result (λ count.
        Appends (W.contents link.old) (W.contents link.new) (take count bytes.now)) }
    ensures unwritten { OnErr result (Keeps (W.contents link.old) (W.contents link.new)) }
    ensures stop { IfErr result IsCallFailure }
{
    match link.write(bytes) {
        Ok(0) => Err(Stop::Lost(Loss::Reset)),
        Ok(count) => Ok(count),
        Err(error) => Err(stop_of(error.kind())),
    }
}
