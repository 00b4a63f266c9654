//! The blocks of captures in the form pcapng.

use crate::byte_order::ByteOrder;
use crate::fault::CaptureFault;
use crate::time_unit::TimeUnit;

/// The bytes of a block beside its body: its type, and its length twice.
const BLOCK_FRAME: u32 = 12;

/// The option of an interface that names the unit of its times.
const TIME_UNIT: u16 = 9;

/// A block.
#[derive(Clone, Copy)]
pub(crate) struct Block<'a> {
    /// Its type.
    pub(crate) kind: u32,
    /// What it has between its lengths.
    pub(crate) body: &'a [u8],
}

/// The order of bytes in a section whose block begins so; nothing where another block does.
pub(crate) fn section_order(bytes: &[u8]) -> Option<ByteOrder> {
    match bytes {
        [10, 13, 13, 10, _, _, _, _, 0x1a, 0x2b, 0x3c, 0x4d, ..] => Some(ByteOrder::Big),
        [10, 13, 13, 10, _, _, _, _, 0x4d, 0x3c, 0x2b, 0x1a, ..] => Some(ByteOrder::Little),
        _ => None,
    }
}

/// The block of this number, and what follows it.
pub(crate) fn split_block<'a>(
    order: ByteOrder,
    number: u64,
    bytes: &'a [u8],
) -> Result<(Block<'a>, &'a [u8]), CaptureFault> {
    let Some((kind, length, rest)) = split_head(order, bytes) else {
        return Err(CaptureFault::Truncated(number));
    };
    if length < BLOCK_FRAME || length % 4 != 0 {
        return Err(CaptureFault::BadRecord(number));
    }
    let size = (length - BLOCK_FRAME) as usize;
    let Some((body, rest)) = rest.split_at_checked(size) else {
        return Err(CaptureFault::Truncated(number));
    };
    match order.split_word(rest) {
        Some((again, rest)) if again == length => Ok((Block { kind, body }, rest)),
        Some(_) => Err(CaptureFault::BadRecord(number)),
        None => Err(CaptureFault::Truncated(number)),
    }
}

/// The type and the length of a block, and what follows these.
fn split_head(order: ByteOrder, bytes: &[u8]) -> Option<(u32, u32, &[u8])> {
    let (kind, rest) = order.split_word(bytes)?;
    let (length, rest) = order.split_word(rest)?;
    Some((kind, length, rest))
}

/// The unit of times that these options of an interface name; a microsecond where they name none.
pub(crate) fn time_unit(order: ByteOrder, options: &[u8]) -> TimeUnit {
    let mut rest = options;
    for _ in 0..options.len() {
        let Some((option, value, after)) = split_option(order, rest) else {
            return TimeUnit::MICROSECOND;
        };
        if let (TIME_UNIT, [unit, ..]) = (option, value) {
            return TimeUnit::of(*unit);
        }
        rest = after;
    }
    TimeUnit::MICROSECOND
}

/// The number of the first option, its value, and what follows it.
fn split_option(order: ByteOrder, bytes: &[u8]) -> Option<(u16, &[u8], &[u8])> {
    let (option, rest) = order.split_short(bytes)?;
    let (length, rest) = order.split_short(rest)?;
    let (value, rest) = rest.split_at_checked(usize::from(length))?;
    let padding = (4 - usize::from(length) % 4) % 4;
    let (_, rest) = rest.split_at_checked(padding)?;
    Some((option, value, rest))
}
