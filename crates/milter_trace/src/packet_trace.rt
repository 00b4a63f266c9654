//! The packets of a connection, printed as their bytes come.

ghost use Rattle.std.specs.Prelude.{◌≡◌, ◌≢◌, [], ◌++◌, Err, IfErr, IfSome, IsErrOf, None, OnOk, Some};
ghost use Rattle.milter_trace.specs.PrintedPackets.{bytes_trace, fresh_packets, printed};
ghost use Rattle.milter_trace.specs.declared.fault.TraceFault.TheVariants.{NoMemory};

use crate::direction::Direction;
use crate::fault::TraceFault;
use crate::form::TraceForm;
use crate::trace_printer::TracePrinter;
use std::alloc::Global;
use std::marker::Model;

/// The number that faults of packets have in place of that of a line.
const NO_LINE: u64 = 0;

/// Prints the packets of a connection as their bytes come: for each a line, as [`trace_run`](crate::trace_run) writes
/// them. Memory is bounded by one packet of each direction, and by the lines that aren't cleared.
#[derive(Drop)]
pub struct PacketTrace {
    printer: TracePrinter,
    fault: Option<TraceFault>,
}

impl Model for PacketTrace {
    ghost use Rattle.std.specs.Prelude.{◌≡◌, None};
    ghost use Rattle.milter_trace.specs.PrintedPackets.{PrintedPackets};
    ghost use Rattle.milter_trace.specs.PrinterState.{HasUnfinishedStreams, printer_state};

    ghost Value = { PrintedPackets };

    ghost view = { λ t. record {
      state = printer_state t.printer;
      text = t.printer.text.items;
      fault = t.fault;
    } };

    ghost invariant = { λ t. t.fault ≡ None → HasUnfinishedStreams t.printer };
}

impl PacketTrace {
    /// Of a connection of which nothing has come. Doesn't allocate.
    pub fn new(alloc: Global) -> PacketTrace
        ensures { result ≡ fresh_packets }
    {
        PacketTrace {
            printer: TracePrinter::new(alloc, TraceForm::plain()),
            fault: None,
        }
    }

    /// Adds the lines of the packets that become whole with these bytes of a direction, which may end within a packet.
    ///
    /// The fault is `TraceFault::Packet`, of the line 0, where a packet can't be read or a length is at fault: the
    /// lines before it were added. After `TraceFault::NoMemory` there are no lines. After either nothing more is
    /// printed, and each later call answers the same fault.
    pub fn feed(&mut self, direction: Direction, bytes: &[u8]) -> Result<(), TraceFault>
        ensures printed { self.old.fault ≡ None → OnOk result (self.new ≡ printed direction bytes.now self.old) }
        ensures whole { self.old.fault ≡ None → OnOk result ((bytes_trace direction bytes.now self.old).fault ≡ None) }
        ensures fault { self.old.fault ≡ None → IfErr result (λ fault. self.new.fault ≡ Some fault) }
        ensures cause { self.old.fault ≡ None → IfErr result (λ fault. fault ≢ NoMemory →
            (bytes_trace direction bytes.now self.old).fault ≡ Some fault) }
        ensures before { self.old.fault ≡ None → IfErr result (λ fault. fault ≢ NoMemory →
            self.new.text ≡ self.old.text ++ (bytes_trace direction bytes.now self.old).text) }
        ensures refused { self.old.fault ≡ None → IsErrOf result NoMemory → self.new.text ≡ [] }
        ensures stopped { IfSome self.old.fault (λ fault. (result ≡ Err fault) × (self.new ≡ self.old)) }
    {
        if let Some(fault) = self.fault {
            return Err(fault);
        }
        let printed = self.printer.print_bytes(NO_LINE, direction, bytes);
        if let Err(fault) = printed {
            self.fault = Some(fault);
            if let TraceFault::NoMemory = fault {
                self.printer.text.clear();
            }
        }
        printed
    }

    /// The lines so far. Doesn't allocate.
    pub fn text(&self) -> &[u8]
        ensures { result.now ≡ self.now.text }
    {
        self.printer.text.as_slice()
    }

    /// Drops the lines so far, and keeps their memory for the next. Doesn't allocate.
    pub fn clear_text(&mut self)
        ensures { self.new ≡ record self.old { text = [] } }
    {
        self.printer.text.clear();
    }
}
