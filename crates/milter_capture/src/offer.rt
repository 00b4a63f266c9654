//! The offer with which a mail server begins.

/// How many bytes tell an offer: its length, and its code.
const HEAD_LEN: usize = 5;

/// The code of an offer.
const OFFER: u8 = b'O';

/// Reads the first bytes of a direction.
#[derive(Clone, Copy)]
pub(crate) struct OfferReader {
    head: [u8; HEAD_LEN],
    count: usize,
}

impl OfferReader {
    /// Before the first byte.
    pub(crate) fn new() -> OfferReader {
        OfferReader {
            head: [0; HEAD_LEN],
            count: 0,
        }
    }

    /// Takes the next bytes.
    pub(crate) fn read(&mut self, bytes: &[u8]) {
        for byte in bytes {
            if self.count >= HEAD_LEN {
                return;
            }
            self.head[self.count] = *byte;
            self.count += 1;
        }
    }

    /// Whether they begin with an offer: a packet of fewer than 256 bytes with its code.
    pub(crate) fn is_offer(&self) -> bool {
        self.count == HEAD_LEN && matches!(self.head, [0, 0, 0, _, OFFER])
    }
}
