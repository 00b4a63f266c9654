//! The lengths of packets by what they carry, without making a command of it.

ghost use Rattle.std.specs.Prelude.{◌≡◌, ◌≤◌, ◌<◌, ◌+◌, ℕ, None, Some, IfOk, length};
ghost use Rattle.milter_wire.specs.declared.command.Command.{Command};
ghost use Rattle.milter_wire.specs.Command.{PacketLen};

use milter_fields::{
    Client, HEAD_LEN, Header, PAYLOAD_MAX, Pairs, Path, Text, has_no_nul, header_fits, header_len,
    pairs_fit, pairs_len, string_len,
};
use std::alloc::{AllocError, Global};

/// The number of bytes of the packet of the client, from 8 to 65,540, its length field among them; or none, where there
/// is no such packet: a string has a NUL, or they have too many bytes. Doesn't allocate.
#[tactic(auto, unfolding(milter_fields::specs::Number::number))]
pub fn connect_packet_len(client: &Client) -> Option<usize>
    ensures { PacketLen (Command.Connect client.now) result }
{
    let client = client.as_ref();
    if !client.fits() {
        return None;
    }
    with_head(client.payload_len())
}

/// The number of bytes of the packet of the sender or the recipient, from 6 to 65,540, its length field among them; or
/// none, where there is no such packet: a string has a NUL, or they have too many bytes. Doesn't allocate.
#[tactic(auto, unfolding(milter_fields::specs::Number::number))]
pub fn path_packet_len(path: &Path) -> Option<usize>
    ensures mail { PacketLen (Command.Mail path.now) result }
    ensures rcpt { PacketLen (Command.Rcpt path.now) result }
{
    let path = path.as_ref();
    if !path.fits() {
        return None;
    }
    with_head(path.payload_len())
}

/// The number of bytes of the packet of the header field, from 7 to 65,540, its length field among them; or none, where
/// there is no such packet: a string has a NUL, or they have too many bytes. Doesn't allocate.
#[tactic(auto, unfolding(milter_fields::specs::Number::number))]
pub fn header_packet_len(header: &Header) -> Option<usize>
    ensures { PacketLen (Command.Header header.now) result }
{
    if !header_fits(header) {
        return None;
    }
    with_head(header_len(header))
}

/// The number of bytes of a packet with these macros, from 6 to 65,540, its length field among them; or none, where no
/// packet has them: a string has a NUL, or they have too many bytes. Doesn't allocate.
#[tactic(auto, unfolding(milter_fields::specs::Number::number))]
pub fn macro_packet_len(pairs: &Pairs) -> Option<usize>
    ensures { (command : ℕ) → PacketLen (Command.Macro command pairs.now) result }
{
    if !pairs_fit(pairs.as_slice()) {
        return None;
    }
    with_head(pairs_len(pairs.as_slice()).saturating_add(1))
}

/// The number of bytes of the packet with a client's greeting, from 6 to 65,540, its length field among them; or none,
/// where no packet has the name: it has a NUL, or has too many bytes. Doesn't allocate.
#[tactic(auto, unfolding(milter_fields::specs::Number::number))]
pub fn helo_packet_len(name: &Text) -> Option<usize>
    ensures { PacketLen (Command.Helo name.now) result }
{
    if !has_no_nul(name.as_slice()) {
        return None;
    }
    with_head(string_len(name.as_slice()))
}

/// The number of bytes of a packet whose payload has so many, where a packet has room for it.
fn with_head(payload_len: usize) -> Option<usize>
    ensures some { payload_len ≤ PAYLOAD_MAX → result ≡ Some (payload_len + HEAD_LEN) }
    ensures none { PAYLOAD_MAX < payload_len → result ≡ None }
{
    if payload_len > PAYLOAD_MAX {
        return None;
    }
    Some(payload_len + HEAD_LEN)
}

/// The most bytes that are read of a stream at once.
pub const READ_LEN_MAX: usize = 65_536;

/// A buffer for what is read of a stream at once, of 65,536 bytes.
pub fn read_buffer(alloc: Global) -> Result<Vec<u8>, AllocError>
    ensures { IfOk result (λ buffer. length buffer.items ≡ READ_LEN_MAX) }
{
    vec![in alloc; 0u8; READ_LEN_MAX]
}
