//! How the printing of a capture can end before its end.

use crate::fault::CaptureFault;
use milter_text::TextFault;
use milter_wire::NoMemory;

/// Why a capture was not printed to its end.
#[derive(Clone, Copy, Debug, PartialEq, Eq)]
pub enum PrintFault {
    /// A fault of the file, or refused memory. What the file has before the fault was printed.
    Capture(CaptureFault),
    /// The lines were not written, or memory was refused. A prefix of them was written.
    Text(TextFault),
}

impl From<TextFault> for PrintFault {
    fn from(fault: TextFault) -> PrintFault {
        PrintFault::Text(fault)
    }
}

impl From<NoMemory> for PrintFault {
    fn from(_error: NoMemory) -> PrintFault {
        PrintFault::Text(TextFault::NoMemory)
    }
}
