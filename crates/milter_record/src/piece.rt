//! A piece that is passed on.

ghost use Rattle.std.specs.Prelude.{◌≡◌, ◌↔◌, [], IsTrue, OnOk, drop};
ghost use Rattle.milter_record.specs.Pieces.{rest_of};

use std::alloc::{AllocError, Global};

/// A piece that was read and is passed on, as far as it isn't written yet.
#[derive(Drop)]
pub(crate) struct Piece {
    bytes: Vec<u8>,
    // How many of them are written.
    from: usize,
}

impl Piece {
    /// None. Doesn't allocate.
    pub(crate) fn new(alloc: Global) -> Self
        ensures { rest_of result ≡ [] }
    {
        Piece {
            bytes: Vec::new(alloc),
            from: 0,
        }
    }

    /// What is still to be written of it.
    pub(crate) fn rest(&self) -> &[u8]
        ensures { result.now ≡ rest_of self.now }
    {
        self.bytes.get(self.from..).unwrap_or(&[])
    }

    /// Whether all of it is written.
    pub(crate) fn is_done(&self) -> bool
        ensures { IsTrue result ↔ (rest_of self.now ≡ []) }
    {
        self.rest().is_empty()
    }

    /// Has these bytes be the piece.
    pub(crate) fn fill(&mut self, bytes: &[u8]) -> Result<(), AllocError>
        ensures { OnOk result (rest_of self.new ≡ bytes.now) }
    {
        self.bytes.clear();
        self.from = 0;
        self.bytes.extend_from_slice(bytes)
    }

    /// Notes that so many bytes of it were written.
    pub(crate) fn sent(&mut self, count: usize)
        ensures { rest_of self.new ≡ drop count (rest_of self.old) }
    {
        self.from = self.from.saturating_add(count);
    }
}
