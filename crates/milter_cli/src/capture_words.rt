//! What is said of faults of a capture.

use milter_capture::CaptureFault;

/// What a fault means, and what is due; nothing where memory was refused.
pub(crate) fn capture_meaning(fault: CaptureFault) -> Option<&'static str> {
    match fault {
        CaptureFault::NotCapture => {
            Some("it begins neither as pcap nor as pcapng: tcpdump -w FILE writes a capture")
        }
        CaptureFault::Truncated(_) => {
            Some(
                "it ends within this record: bytes are missing at its end, or tcpdump still writes it",
            )
        }
        CaptureFault::BadRecord(_) => {
            Some(
                "the record has another form than that of a capture: bytes before it are missing or changed",
            )
        }
        CaptureFault::LinkType { .. } => {
            Some(
                "frames are read of Ethernet, raw IP, the loopback of BSD, and Linux's cooked captures, \
                 as tcpdump -i any makes them",
            )
        }
        CaptureFault::NoMemory => None,
    }
}
