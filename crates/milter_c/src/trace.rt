//! The lines of packets.

ghost use Rattle.std.specs.Prelude.{◌≡◌, ◌≢◌, ◌↔◌, [], IsSomeAnd, MatchOption, None, Some};
ghost use Rattle.milter_trace.specs.PrintedPackets.{fresh_packets, printed};
ghost use Rattle.milter_c_objects.specs.Objects.{IsKept, trace_of};
ghost use Rattle.milter_c.specs.Packets.{IsStopped, direction_numbered, trace_fault_number};
ghost use Rattle.milter_c.specs.Statuses.{kind_status};

use crate::view::{View, let_object};
use milter_c_objects::status::{BAD_ARGUMENT, NO_MEMORY, OK, TO_FILTER, TO_MTA, WRONG_KIND};
use milter_c_objects::{Handle, Object, memory_status, wire_fault_number};
use milter_trace::{Direction, PacketTrace, TraceFault};
use std::alloc::Global;

/// Puts a trace of a connection into the handle of which nothing has come.
#[unsafe(no_mangle)]
pub extern "C" fn deiruska_trace_new(alloc: Global, trace: &mut Handle) -> i32
    ensures done { result ≡ OK → trace_of trace.new ≡ Some fresh_packets }
    ensures kept { result ≢ OK → IsKept trace.old trace.new }
    ensures answers { result ≢ OK → result ≡ NO_MEMORY }
{
    memory_status(trace.put(alloc, Object::Trace(PacketTrace::new(alloc))))
}

/// Adds the lines of the packets that become whole with these bytes of a direction.
#[unsafe(no_mangle)]
pub extern "C" fn deiruska_trace_feed(trace: &mut Handle, direction: u32, piece: &[u8]) -> i32
    ensures done { result ≡ OK → IsSomeAnd (trace_of trace.old) (λ old. IsSomeAnd (direction_numbered direction) (λ to.
        trace_of trace.new ≡ Some (printed to piece.now old))) }
    ensures stopped { result ≢ OK → result ≢ WRONG_KIND → result ≢ BAD_ARGUMENT → IsSomeAnd (trace_of trace.old) (λ old.
        IsSomeAnd (direction_numbered direction) (λ to. IsSomeAnd (trace_of trace.new) (λ new.
        IsStopped to piece.now old new result))) }
    ensures wrong_kind { (result ≡ WRONG_KIND) ↔ (trace_of trace.old ≡ None) }
    ensures bad_argument { direction_numbered direction ≡ None → result ≢ OK → IsKept trace.old trace.new }
{
    let_object!(packets: Trace = trace);
    let to = match direction {
        TO_FILTER => Direction::ToFilter,
        TO_MTA => Direction::ToMta,
        _ => return BAD_ARGUMENT,
    };
    match packets.feed(to, piece) {
        Ok(()) => OK,
        Err(fault) => trace_fault_number(fault),
    }
}

/// The lines so far. Doesn't allocate.
#[unsafe(no_mangle)]
pub extern "C" fn deiruska_trace_text<'a>(trace: &'a mut Handle, out: &mut View<'a>) -> i32
    ensures text { MatchOption (trace_of trace.old) (result ≡ WRONG_KIND) (λ old.
        (result ≡ OK) × (out.new.bytes.now ≡ old.text)) }
    ensures unwritten { result ≢ OK → out.new ≡ out.old }
{
    let_object!(packets: Trace = trace);
    out.bytes = packets.text();
    OK
}

/// Drops the lines so far. Doesn't allocate.
#[unsafe(no_mangle)]
pub extern "C" fn deiruska_trace_clear(trace: &mut Handle) -> i32
    ensures done { result ≡ OK → IsSomeAnd (trace_of trace.old) (λ old.
        trace_of trace.new ≡ Some (record old { text = [] })) }
    ensures kept { result ≢ OK → IsKept trace.old trace.new }
    ensures status { result ≡ kind_status (trace_of trace.old) }
{
    let_object!(packets: Trace = trace);
    packets.clear_text();
    OK
}

/// The number of a fault for which packets aren't printed.
fn trace_fault_number(fault: TraceFault) -> i32
    ensures { result ≡ trace_fault_number fault }
{
    match fault {
        TraceFault::Packet { fault, .. } => wire_fault_number(fault),
        TraceFault::NoMemory => NO_MEMORY,
        _ => BAD_ARGUMENT,
    }
}
