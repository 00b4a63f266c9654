//! A stream of packets, in any pieces.

ghost use Rattle.std.specs.Prelude.{◌≡◌, ◌≢◌, ◌<◌, ◌≤◌, ◌-◌, ◌+◌, ◌++◌, ◌↔◌, [], Ok, Err, None, Some, length, min, take, IsSome, IfOk, IfSome, OnOk, OnErr, IsErrOf};
ghost use Rattle.milter_fields.specs.declared.number.TheConstants.{HEAD_LEN, PACKET_MAX};
ghost use Rattle.milter_fields.specs.Stream.{Frame, IsFrame, IsRest, IsUnfinished, frame_bytes, length_fault};
ghost use Rattle.milter_fields.specs.FirstPacket.{IsAtMostOnePacket, end_result, fed_len, first_packet_end};
ghost use Rattle.std.specs.Borrow.{sem};
ghost use Rattle.std.specs.Io.BufRead.{Rests};
ghost use Rattle.milter_fields.specs.Splitter.{LeavesUnread, frame_of};

use crate::fault::{NoMemory, WireFault};
use crate::first_packet::{fill, fill_first, first_bytes, length_fault, whole_packet};
use crate::number::PACKET_MAX;
use std::alloc::Global;
use std::marker::Model;

/// A packet of a stream, borrowed from the splitter or the piece that it was taken from: what `decode` reads. Source:
/// mfdef.h.
#[derive(Clone, Copy, Debug, PartialEq, Eq)]
pub struct Packet<'a> {
    /// The code of the packet.
    pub code: u8,
    /// What follows the code: at most 65,535 bytes.
    pub payload: &'a [u8],
}

impl<'a> Packet<'a> {
    /// The packet that a piece of a stream begins with, where it is whole: borrowed from the piece, of which it is the
    /// first bytes, `HEAD_LEN` and those of its payload. None where it isn't whole, or where its length is at fault: a
    /// `Splitter` tells which. Doesn't allocate.
    pub fn first_of(piece: &'a [u8]) -> Option<Packet<'a>>
        ensures frame { IfSome result (λ p. IsFrame (frame_of p)) }
        ensures bytes { IfSome result (λ p.
            take (length p.payload.now + HEAD_LEN) piece.now ≡ frame_bytes (frame_of p)) }
        ensures within { IfSome result (λ p. length p.payload.now + HEAD_LEN ≤ length piece.now) }
        ensures none { (result ≡ None) ↔ IsRest piece.now }
    {
        match whole_packet(first_bytes(piece)) {
            Ok(Some((code, payload))) => Some(Packet { code, payload }),
            Ok(None) => None,
            Err(_) => None,
        }
    }
}

/// Takes a stream in pieces of any size and hands out its packets, one at a time. It keeps at most one packet: 65,540
/// bytes, whose memory `feed` takes and `release` frees. To take a whole piece, call `feed` with what is left of it and
/// then `next`, until nothing is left.
#[derive(Debug, Drop)]
pub struct Splitter {
    alloc: Global,
    buffer: Vec<u8>,
    len: usize,
}

impl Model for Splitter {
    ghost use Rattle.std.specs.Prelude.{List, ℕ, take};
    ghost use Rattle.milter_fields.specs.Splitter.{HasRoom};

    // The bytes that were taken and not handed out.
    ghost Value = { List ℕ };

    ghost view = { λ s. take s.len s.buffer.items };

    ghost invariant = { λ s. HasRoom s.len s.buffer.items };
}

impl Splitter {
    ghost use Rattle.milter_fields.specs.contracts.splitter.Splitter.{the_row};

    /// A stream of which nothing has come. Doesn't allocate.
    pub fn new(alloc: Global) -> Self
        ensures { result ≡ [] }
    {
        Splitter {
            alloc,
            buffer: Vec::new(alloc),
            len: 0,
        }
    }

    /// Takes bytes from the start of a piece of the stream, and answers how many: none where a whole packet or a fault
    /// of length is unread, else those up to the end of the first whole packet or of the length field that is at fault,
    /// else all of them. The first call, and the first one after `release`, allocates 65,540 bytes, the room for one
    /// packet; no other call allocates. After `NoMemory` nothing has changed.
    pub fn feed(&mut self, piece: &[u8]) -> Result<usize, NoMemory>
        ensures count { IfOk result (λ n. n ≡ fed_len self.old piece.now) }
        ensures taken { IfOk result (λ n. self.new ≡ self.old ++ take n piece.now) }
        ensures within { IfOk result (λ n. n ≤ length piece.now) }
        // Feeding makes progress: with no whole packet and no fault unread, some of a piece is taken.
        ensures progress { IsUnfinished self.old → piece.now ≢ [] → IfOk result (λ n. 0 < n) }
        ensures err { OnErr result (self.new ≡ self.old) }
    {
        if self.unread() == 0 {
            return self.take_first(piece);
        }
        let first = self.take_known(piece);
        let second = self.take_known(&piece[first..]);
        Ok(first + second)
    }

    /// Frees the memory for a packet where no byte is unread; else it does nothing. Doesn't allocate.
    pub fn release(&mut self)
        ensures { self.new ≡ self.old }
    {
        let Splitter { alloc, buffer, len } = self;
        if *len == 0 {
            *buffer = Vec::new(*alloc);
        }
    }

    /// Takes the first packet of a piece, as far as it has come, where nothing is unread, and answers how many bytes.
    fn take_first(&mut self, piece: &[u8]) -> Result<usize, NoMemory>
        requires { self.old ≡ [] }
        ensures count { IfOk result (λ n. n ≡ fed_len [] piece.now) }
        ensures taken { IfOk result (λ n. self.new ≡ take n piece.now) }
        ensures err { OnErr result (self.new ≡ self.old) }
    {
        let Splitter { alloc, buffer, len } = self;
        *len = 0;
        if make_room(*alloc, buffer).is_err() {
            return Err(NoMemory);
        }
        let count = fill_first(buffer.as_mut_slice(), piece);
        *len = count;
        Ok(count)
    }

    /// Takes bytes of a piece, up to the end of the first packet as far as it is known before, and answers how many.
    fn take_known(&mut self, piece: &[u8]) -> usize
        requires { 0 < length self.old }
        ensures count { result ≡ min (first_packet_end self.old - length self.old) (length piece.now) }
        ensures taken { self.new ≡ self.old ++ take result piece.now }
        ensures one_packet { IsAtMostOnePacket self.old }
    {
        let count = fill(self.buffer.as_mut_slice(), self.len, piece);
        self.len += count;
        count
    }

    /// The packet, where a whole one is unread: it is handed out at once, and nothing is unread then. The fault is
    /// `ZeroLength` or `TooLong(length)`, from the moment that the four bytes of such a length were taken, and every
    /// later call answers the same. Doesn't allocate.
    pub fn next(&mut self) -> Result<Option<Packet<'_>>, WireFault>
        ensures packet { IfOk result (λ found. IfSome found (λ p.
            IsFrame (frame_of p) × (self.old ≡ frame_bytes (frame_of p)))) }
        ensures none { (result ≡ Ok None) ↔ IsUnfinished self.old }
        ensures fault { (f : WireFault) → IsErrOf result f ↔ (length_fault self.old ≡ Some f) }
        ensures* after_borrow { sem 𝓛 (Rests the_row self.entry (λ new. LeavesUnread self.old new result)) }
    {
        match whole_packet(&self.buffer[..self.len]) {
            Ok(Some((code, payload))) => {
                self.len = 0;
                Ok(Some(Packet { code, payload }))
            }
            Ok(None) => Ok(None),
            Err(fault) => Err(fault),
        }
    }

    /// Discards unread bytes and any error. Doesn't allocate.
    pub fn clear(&mut self)
        ensures { self.new ≡ [] }
    {
        let Splitter { len, .. } = self;
        *len = 0;
    }

    /// How many bytes were taken and not handed out: at most 65,540, those of the longest packet. Doesn't allocate.
    pub fn unread(&self) -> usize
        ensures unread { result ≡ length self.now }
        ensures bound { result ≤ PACKET_MAX }
    {
        self.len
    }

    /// Whether the stream may end here: `Ok` where no byte is unread, else the fault of the length that the unread
    /// bytes begin with, else `Truncated` with their number. Doesn't allocate.
    pub fn at_end(&self) -> Result<(), WireFault>
        ensures { result ≡ end_result self.now }
    {
        if self.len == 0 {
            return Ok(());
        }
        let truncated = WireFault::Truncated(self.len);
        Err(length_fault(&self.buffer[..self.len]).unwrap_or(truncated))
    }
}

/// Allocates the room for one packet, where the buffer has none.
fn make_room(alloc: Global, buffer: &mut Vec<u8>) -> Result<(), NoMemory>
    ensures ok { OnOk result (length buffer.new.items ≡ PACKET_MAX) }
    ensures err { OnErr result (buffer.new ≡ buffer.old) }
{
    if buffer.len() == PACKET_MAX {
        return Ok(());
    }
    let room = vec![in alloc; 0; PACKET_MAX]?;
    *buffer = room;
    Ok(())
}
