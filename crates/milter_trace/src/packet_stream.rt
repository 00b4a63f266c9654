//! The packets of a direction that become whole in a line.

ghost use Rattle.std.specs.Prelude.{◌≡◌, ◌++◌, OnOk};
ghost use Rattle.milter_fields.specs.Stream.{IsUnfinished, divide};
ghost use Rattle.milter_trace.specs.TraceState.{AppendsTrace, division_trace, packet_fault};

use crate::direction::Direction;
use crate::fault::TraceFault;
use crate::form::TraceForm;
use crate::packet_line::put_packet_as;
use milter_wire::{Splitter, WireFault};
use std::alloc::Global;

/// Appends the lines of the packets that become whole with these bytes, up to the first fault.
pub(crate) fn print_packets(
    alloc: Global,
    form: TraceForm,
    line: u64,
    direction: Direction,
    splitter: &mut Splitter,
    bytes: &[u8],
    text: &mut Vec<u8>,
) -> Result<(), TraceFault>
    requires { IsUnfinished splitter.old }
    ensures appends { AppendsTrace (division_trace form line direction (divide (splitter.old
        ++ bytes.now))) text.old.items text.new.items result }
    ensures rest { OnOk result (splitter.new ≡ (divide (splitter.old ++ bytes.now)).rest) }
    ensures unfinished { OnOk result (IsUnfinished splitter.new) }
{
    let mut rest = bytes;
    while !rest.is_empty() {
        let taken = splitter.feed(rest)?;
        rest = &rest[taken..];
        match splitter.next() {
            Ok(None) => {}
            Ok(Some(packet)) => {
                if let Err(fault) = put_packet_as(alloc, form, direction, &packet, text) {
                    return Err(packet_fault(line, direction, fault));
                }
            }
            Err(fault) => return Err(packet_fault(line, direction, fault)),
        }
    }
    Ok(())
}

/// The fault of a trace by that of a packet that becomes whole in this line, or of a length: `NoMemory` where memory
/// was refused. Doesn't allocate.
pub fn packet_fault(line: u64, direction: Direction, fault: WireFault) -> TraceFault
    ensures { result ≡ packet_fault line direction fault }
{
    match fault {
        WireFault::NoMemory => TraceFault::NoMemory,
        _ => TraceFault::Packet {
            line,
            direction,
            fault,
        },
    }
}
