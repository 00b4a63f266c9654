//! One direction of a connection: its bytes in the order of their sequence numbers.

ghost use Rattle.milter_capture.specs.Ordered.{fresh};
ghost use Rattle.std.specs.Prelude.{◌≡◌, ◌≤◌, ◌+◌, IfSome, length};

use std::alloc::{AllocError, Global};
use std::collections::BTreeMap;

/// How many sequence numbers there are.
const NUMBERS: u64 = 4_294_967_296;

/// How far a number may be ahead of another; one that is further is behind it.
const AHEAD_MOST: u32 = 0x7fff_ffff;

/// The place of bytes that wait for those before them.
#[derive(Clone, Copy, PartialEq, Eq, PartialOrd, Ord, Drop)]
struct Place {
    /// How many bytes of the direction are before them.
    offset: u64,
    /// How many segments had come before them.
    arrival: u64,
}

/// One direction of a connection. Of bytes that come again those are given out that came first.
#[derive(Drop)]
pub(crate) struct Stream<'a> {
    /// The sequence number of the first byte, once it is known.
    first: Option<u32>,
    /// How many bytes were given out.
    pub(crate) taken: u64,
    /// How many bytes there are, as far as segments or what acknowledges them show it.
    shown: u64,
    /// How many bytes there are in all, where the last segment was seen.
    end: Option<u64>,
    arrivals: u64,
    waiting: BTreeMap<Place, &'a [u8]>,
}

impl<'a> Stream<'a> {
    /// A direction of which nothing has come.
    pub(crate) fn new(alloc: Global) -> Stream<'a>
        ensures { result.taken ≡ 0 }
    {
        Stream {
            first: None,
            taken: 0,
            shown: 0,
            end: None,
            arrivals: 0,
            waiting: BTreeMap::new(alloc),
        }
    }

    /// That its first byte has this sequence number, where that isn't known yet.
    pub(crate) fn begin(&mut self, sequence: u32) {
        if self.first.is_none() {
            self.first = Some(sequence);
        }
    }

    /// Whether its first byte is known to have this sequence number.
    pub(crate) fn begins_at(&self, sequence: u32) -> bool {
        self.first == Some(sequence)
    }

    /// That the other side has the bytes before this sequence number.
    pub(crate) fn acknowledge(&mut self, sequence: u32) {
        self.begin(sequence);
        let ahead = sequence.wrapping_sub(self.next_number());
        if ahead <= AHEAD_MOST {
            self.show(self.taken.saturating_add(u64::from(ahead)));
        }
    }

    /// Takes bytes that begin at this sequence number, of which so many were sent.
    pub(crate) fn receive(
        &mut self,
        sequence: u32,
        bytes: &'a [u8],
        sent: usize,
    ) -> Result<(), AllocError> {
        self.begin(sequence);
        let next = self.next_number();
        let ahead = sequence.wrapping_sub(next);
        if ahead <= AHEAD_MOST {
            return self.wait(self.taken.saturating_add(u64::from(ahead)), bytes, sent);
        }
        let behind = next.wrapping_sub(sequence) as usize;
        match bytes.split_at_checked(behind) {
            Some((_, rest)) => self.wait(self.taken, rest, sent.saturating_sub(behind)),
            None => Ok(()),
        }
    }

    /// That its last byte is the one before this sequence number.
    pub(crate) fn end_before(&mut self, sequence: u32) {
        let ahead = sequence.wrapping_sub(self.next_number());
        if ahead <= AHEAD_MOST && self.end.is_none() {
            self.end = Some(self.taken.saturating_add(u64::from(ahead)));
        }
    }

    /// The next bytes that can be given out; they may be none where all of them came before. Nothing where there are
    /// no bytes, or those before them are missing.
    pub(crate) fn next(&mut self) -> Option<&'a [u8]>
        ensures { IfSome result (λ piece. self.new.taken ≡ self.old.taken + length piece.now) }
    {
        let (place, _) = self.waiting.first_key_value()?;
        let offset = place.offset;
        if offset > self.taken {
            return None;
        }
        let (_, bytes) = self.waiting.pop_first()?;
        let piece = fresh(offset, self.taken, bytes);
        self.taken = self.taken.checked_add(piece.len() as u64)?;
        Some(piece)
    }

    /// How many bytes are missing after those that were given out, up to the next ones that were captured, or to those
    /// that are acknowledged.
    pub(crate) fn lost(&self) -> u64 {
        if let Some((place, _)) = self.waiting.first_key_value() {
            return place.offset.saturating_sub(self.taken);
        }
        match self.end {
            Some(end) => end.min(self.shown).saturating_sub(self.taken),
            // One more than the bytes is acknowledged where a direction ends.
            None => match self.shown.saturating_sub(self.taken) {
                1 => 0,
                missing => missing,
            },
        }
    }

    /// How many pieces wait for those before them.
    pub(crate) fn waiting(&self) -> usize {
        self.waiting.len()
    }

    /// Has bytes wait that begin at this offset.
    fn wait(&mut self, offset: u64, bytes: &'a [u8], sent: usize) -> Result<(), AllocError> {
        self.show(offset.saturating_add(sent as u64));
        if bytes.is_empty() {
            return Ok(());
        }
        let arrival = self.arrivals;
        self.arrivals = arrival.saturating_add(1);
        match self.waiting.insert(Place { offset, arrival }, bytes) {
            Ok(_) => Ok(()),
            Err(_) => Err(AllocError),
        }
    }

    /// That there are so many bytes at least.
    fn show(&mut self, count: u64) {
        self.shown = self.shown.max(count);
    }

    /// The sequence number of the next byte that is to be given out.
    fn next_number(&self) -> u32 {
        let taken = (self.taken % NUMBERS) as u32;
        self.first.unwrap_or(0).wrapping_add(taken)
    }
}

/// What is new of bytes that begin at an offset, where those before another one were given out. Doesn't allocate.
pub(crate) fn fresh(offset: u64, taken: u64, bytes: &[u8]) -> &[u8]
    ensures { result.now ≡ fresh offset taken bytes.now }
{
    let behind = taken.saturating_sub(offset) as usize;
    match bytes.split_at_checked(behind) {
        Some((_, rest)) => rest,
        None => &[],
    }
}
