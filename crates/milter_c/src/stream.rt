//! Streams of packets.

ghost use Rattle.std.specs.Prelude.{◌≡◌, ◌≢◌, ◌↔◌, ◌++◌, [], IfSome, IsSomeAnd, None, Some, option_map, take};
ghost use Rattle.milter_fields.specs.FirstPacket.{fed_len};
ghost use Rattle.milter_fields.specs.Stream.{IsFrame, IsUnfinished, frame_bytes, length_fault};
ghost use Rattle.milter_c_objects.specs.Faults.{wire_fault_number};
ghost use Rattle.milter_c_objects.specs.Objects.{IsKept, stream_of};
ghost use Rattle.milter_c.specs.Views.{frame_in};

use crate::view::{PacketView, let_object};
use milter_c_objects::status::{NO_MEMORY, NOTHING, OK, WRONG_KIND};
use milter_c_objects::{Handle, Object, memory_status, wire_fault_number};
use milter_fields::Splitter;
use std::alloc::Global;

/// Puts a stream into the handle of which nothing has come.
#[unsafe(no_mangle)]
pub extern "C" fn deiruska_stream_new(alloc: Global, stream: &mut Handle) -> i32
    ensures done { result ≡ OK → stream_of stream.new ≡ Some [] }
    ensures kept { result ≢ OK → IsKept stream.old stream.new }
    ensures answers { result ≢ OK → result ≡ NO_MEMORY }
{
    memory_status(stream.put(alloc, Object::Stream(Splitter::new(alloc))))
}

/// Takes bytes from the start of a piece, up to the end of the first packet that is whole then, and says how many.
#[unsafe(no_mangle)]
pub extern "C" fn deiruska_stream_feed(stream: &mut Handle, piece: &[u8], taken: &mut usize) -> i32
    ensures count { result ≡ OK → IsSomeAnd (stream_of stream.old) (λ old. taken.new ≡ fed_len old piece.now) }
    ensures fed { result ≡ OK → IsSomeAnd (stream_of stream.old) (λ old.
        stream_of stream.new ≡ Some (old ++ take taken.new piece.now)) }
    ensures kept { result ≢ OK → IsKept stream.old stream.new }
    ensures unwritten { result ≢ OK → taken.new ≡ taken.old }
    ensures wrong_kind { (result ≡ WRONG_KIND) ↔ (stream_of stream.old ≡ None) }
    ensures answers { result ≢ OK → result ≢ WRONG_KIND → result ≡ NO_MEMORY }
{
    let_object!(splitter: Stream = stream);
    match splitter.feed(piece) {
        Ok(count) => {
            *taken = count;
            OK
        }
        Err(_) => NO_MEMORY,
    }
}

/// Hands the next packet out, where it is whole. The fault of a length stays. Doesn't allocate.
#[unsafe(no_mangle)]
pub extern "C" fn deiruska_stream_next<'a>(stream: &'a mut Handle, out: &mut PacketView<'a>) -> i32
    ensures packet { result ≡ OK → IsSomeAnd (stream_of stream.old) (λ old.
        IsFrame (frame_in out.new) × (old ≡ frame_bytes (frame_in out.new))) }
    ensures none { result ≡ NOTHING → IsSomeAnd (stream_of stream.old) (λ old. IsUnfinished old) }
    ensures unfinished { IfSome (stream_of stream.old) (λ old. IsUnfinished old → result ≡ NOTHING) }
    ensures fault { result ≢ OK → result ≢ NOTHING → IfSome (stream_of stream.old) (λ old.
        option_map wire_fault_number (length_fault old) ≡ Some result) }
    ensures unwritten { result ≢ OK → out.new ≡ out.old }
    ensures wrong_kind { (result ≡ WRONG_KIND) ↔ (stream_of stream.old ≡ None) }
{
    let_object!(splitter: Stream = stream);
    let packet = match splitter.next() {
        Ok(Some(packet)) => packet,
        Ok(None) => return NOTHING,
        Err(fault) => return wire_fault_number(fault),
    };
    out.payload = packet.payload;
    out.code = packet.code;
    OK
}
