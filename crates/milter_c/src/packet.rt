//! Packets of bytes that the caller has.

ghost use Rattle.std.specs.Prelude.{◌≡◌, ◌≢◌, ◌↔◌, ◌+◌, take, length};
ghost use Rattle.milter_fields.specs.declared.number.TheConstants.{HEAD_LEN};
ghost use Rattle.milter_fields.specs.Stream.{IsRest, IsFrame, frame_bytes};
ghost use Rattle.milter_c.specs.Views.{frame_in};

use crate::view::PacketView;
use milter_c_objects::status::{NOTHING, OK};
use milter_fields::Packet;

/// The packet that the bytes begin with, where it is whole. Doesn't allocate.
#[unsafe(no_mangle)]
pub extern "C" fn deiruska_packet_first<'a>(bytes: &'a [u8], out: &mut PacketView<'a>) -> i32
    ensures first { result ≡ OK →
        take (length out.new.payload.now + HEAD_LEN) bytes.now ≡ frame_bytes (frame_in out.new) }
    ensures frame { result ≡ OK → IsFrame (frame_in out.new) }
    ensures none { (result ≡ NOTHING) ↔ IsRest bytes.now }
    ensures unwritten { result ≢ OK → out.new ≡ out.old }
    ensures answers { result ≢ OK → result ≡ NOTHING }
{
    match Packet::first_of(bytes) {
        Some(packet) => {
            out.payload = packet.payload;
            out.code = packet.code;
            OK
        }
        None => NOTHING,
    }
}
