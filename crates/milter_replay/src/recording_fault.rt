//! Why a trace can't be played again.

ghost use Rattle.milter_replay.specs.RecordingFault.{recording_fault_line, recording_fault_number};
ghost use Rattle.milter_replay.specs.declared.recording_fault.RecordingFault.TheVariants as faults;
ghost use Rattle.milter_trace.specs.declared.fault.TraceFault.TheVariants.{NoMemory};
ghost use Rattle.std.specs.Prelude.{◌≡◌};

use milter_trace::TraceFault;
use milter_wire::RefusedMemory;

/// Why a trace can't be played again. Lines are numbered from 1, the skipped ones too; what is missing at the end of
/// the trace has the number after that of the last line that ends in an LF.
#[derive(Clone, Copy, Debug, PartialEq, Eq)]
pub enum RecordingFault {
    /// It is no trace: a line is none of a trace, or a packet is at fault; or memory was refused.
    Trace(TraceFault),
    /// The trace ends within a packet.
    Truncated(u64),
    /// It doesn't begin with the mail server's offer, the command `O`: the line of the first packet, or the end of a
    /// trace without packets.
    NoOffer(u64),
    /// The mail server makes a second offer, which no filter takes on the same connection.
    SecondOffer(u64),
}

impl RecordingFault {
    /// The fault's number: 1 for a line that is none of a trace, 2 for a packet, 3 for `Truncated`, 4 for `NoOffer`,
    /// 5 for `SecondOffer`, and 6 for any other fault.
    pub fn number(&self) -> u8
        ensures { result ≡ recording_fault_number self.now }
    {
        match self {
            RecordingFault::Trace(TraceFault::BadLine(_)) => 1,
            RecordingFault::Trace(TraceFault::Packet { .. }) => 2,
            RecordingFault::Truncated(_) => 3,
            RecordingFault::NoOffer(_) => 4,
            RecordingFault::SecondOffer(_) => 5,
            RecordingFault::Trace(_) => 6,
        }
    }

    /// The number of the line that is at fault; none where memory was refused.
    pub fn line(&self) -> Option<u64>
        ensures { result ≡ recording_fault_line self.now }
    {
        match self {
            RecordingFault::Trace(TraceFault::BadLine(line) | TraceFault::Packet { line, .. })
            | RecordingFault::Truncated(line)
            | RecordingFault::NoOffer(line)
            | RecordingFault::SecondOffer(line) => Some(*line),
            RecordingFault::Trace(_) => None,
        }
    }
}

impl<E: RefusedMemory> From<E> for RecordingFault {
    ghost from_gives = { λ _ e. e ≡ faults.Trace NoMemory };

    fn from(_error: E) -> RecordingFault {
        RecordingFault::Trace(TraceFault::NoMemory)
    }
}
