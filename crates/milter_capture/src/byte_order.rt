//! Numbers in a capture, whose bytes stand in either order.

/// The order of the bytes of a number.
#[derive(Clone, Copy, Debug, PartialEq, Eq)]
pub(crate) enum ByteOrder {
    /// The least first.
    Little,
    /// The greatest first, as on the wire.
    Big,
}

impl ByteOrder {
    /// The number of 16 bits that these bytes begin with, and the bytes after it.
    pub(crate) fn split_short(self, bytes: &[u8]) -> Option<(u16, &[u8])> {
        match bytes {
            [a, b, rest @ ..] => Some((self.short([*a, *b]), rest)),
            _ => None,
        }
    }

    /// The number of 32 bits that these bytes begin with, and the bytes after it.
    pub(crate) fn split_word(self, bytes: &[u8]) -> Option<(u32, &[u8])> {
        match bytes {
            [a, b, c, d, rest @ ..] => Some((self.word([*a, *b, *c, *d]), rest)),
            _ => None,
        }
    }

    fn short(self, bytes: [u8; 2]) -> u16 {
        match self {
            ByteOrder::Little => u16::from_le_bytes(bytes),
            ByteOrder::Big => u16::from_be_bytes(bytes),
        }
    }

    fn word(self, bytes: [u8; 4]) -> u32 {
        match self {
            ByteOrder::Little => u32::from_le_bytes(bytes),
            ByteOrder::Big => u32::from_be_bytes(bytes),
        }
    }
}

/// The first bytes of these, as many as are asked for, or all of fewer.
pub fn at_most(bytes: &[u8], count: usize) -> &[u8] {
    match bytes.split_at_checked(count) {
        Some((first, _)) => first,
        None => bytes,
    }
}
