//! A queue of bytes over one buffer.

ghost use Rattle.std.specs.Prelude.{◌≡◌, ◌≤◌, ◌++◌, [], OnErr, OnOk, drop, length};

use crate::fault::NoMemory;
use std::alloc::Global;
use std::marker::Model;

/// Bytes that wait, the first ones first: they are appended at the end and taken from the front. The room of those that
/// were taken is used again once they are more than those that wait, so that the work is linear in the bytes that pass,
/// and a buffer that grows is at most half full of them.
#[derive(Debug, Drop)]
pub struct ByteQueue {
    bytes: Vec<u8>,
    // How many of them were taken.
    taken: usize,
}

impl Model for ByteQueue {
    ghost use Rattle.std.specs.Prelude.{◌≤◌, List, drop, length, ℕ};

    ghost Value = { List ℕ };

    ghost view = { λ q. drop q.taken q.bytes.items };

    ghost invariant = { λ q. q.taken ≤ length q.bytes.items };
}

impl ByteQueue {
    /// No bytes. Doesn't allocate.
    pub fn new(alloc: Global) -> Self
        ensures { result ≡ [] }
    {
        ByteQueue {
            bytes: Vec::new(alloc),
            taken: 0,
        }
    }

    /// The bytes that wait. Doesn't allocate.
    pub fn as_slice(&self) -> &[u8]
        ensures { result.now ≡ self.now }
    {
        &self.bytes[self.taken..]
    }

    /// Appends bytes. After `NoMemory` the same bytes wait.
    pub fn append(&mut self, bytes: &[u8]) -> Result<(), NoMemory>
        ensures ok { OnOk result (self.new ≡ self.old ++ bytes.now) }
        ensures err { OnErr result (self.new ≡ self.old) }
    {
        self.make_room();
        self.bytes.extend_from_slice(bytes)?;
        Ok(())
    }

    /// Takes the first `count` bytes. The memory is kept. Doesn't allocate.
    pub fn advance(&mut self, count: usize)
        requires { count ≤ length self.old }
        ensures { self.new ≡ drop count self.old }
    {
        self.taken += count;
        if self.taken == self.bytes.len() {
            self.clear();
        }
    }

    /// Takes all bytes. The memory is kept. Doesn't allocate.
    pub fn clear(&mut self)
        ensures { self.new ≡ [] }
    {
        self.bytes.clear();
        self.taken = 0;
    }

    /// Frees the memory where no byte waits; else it does nothing. Doesn't allocate.
    pub fn release(&mut self)
        ensures { self.new ≡ self.old }
    {
        if self.bytes.is_empty() {
            self.bytes.shrink_to_fit();
        }
    }

    /// The buffer, to whose end an encoder appends, and how many of its first bytes were taken. Doesn't allocate.
    pub fn into_parts(self) -> (Vec<u8>, usize)
        ensures bytes { drop result.1 result.0.items ≡ self }
        ensures taken { result.1 ≤ length result.0.items }
    {
        let mut queue = self;
        queue.make_room();
        let ByteQueue { bytes, taken } = queue;
        (bytes, taken)
    }

    /// The queue of a buffer of whose bytes the first `taken` don't wait. Doesn't allocate.
    pub fn from_parts(bytes: Vec<u8>, taken: usize) -> Self
        requires { taken ≤ length bytes.items }
        ensures { result ≡ drop taken bytes.items }
    {
        ByteQueue { bytes, taken }
    }

    /// Uses the room of the bytes that were taken again, where they are more than those that wait.
    fn make_room(&mut self)
        ensures { self.new ≡ self.old }
    {
        if self.taken > self.bytes.len() - self.taken {
            self.bytes.drain(..self.taken);
            self.taken = 0;
        }
    }
}
