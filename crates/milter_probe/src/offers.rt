//! The offers that are tried.

use milter_wire::{Actions, Options, Protocol};

/// The offer of a mail server of version 2. Source: mfapi.h (SMFI_V2_ACTS), mfdef.h (SMFI_V2_PROT).
const OF_VERSION_2: Options = Options {
    version: 2,
    actions: Actions(0x3f),
    protocol: Protocol(0x7f),
};

/// The offer of no bits.
const OF_NO_BITS: Options = Options {
    version: VERSION,
    actions: Actions(0),
    protocol: Protocol(0),
};

/// The version of the other offers. Source: mfdef.h (SMFI_VERSION).
const VERSION: u32 = 6;

/// How many actions there are, and all of them. Source: mfapi.h (SMFI_CURR_ACTS).
const ACTIONS: usize = 9;

const ALL_ACTIONS: u32 = (1 << ACTIONS) - 1;

/// How many protocol bits there are, and all of them. Source: mfdef.h (SMFI_CURR_PROT).
const PROTOCOL_BITS: usize = 21;

const ALL_PROTOCOL_BITS: u32 = (1 << PROTOCOL_BITS) - 1;

/// The number of the first offer of one action.
const FIRST_ACTION: usize = 3;

/// The number of the first offer of one protocol bit.
const FIRST_PROTOCOL_BIT: usize = FIRST_ACTION + ACTIONS;

/// How many offers are tried.
pub(crate) const OFFERS: usize = 2 + ACTIONS + PROTOCOL_BITS;

/// The offer with this number, from 1: of version 2; of no bits; of each action alone, with all protocol bits; of each
/// protocol bit alone, with all actions.
pub(crate) fn offer_of(number: usize) -> Options {
    match number {
        1 => OF_VERSION_2,
        2 => OF_NO_BITS,
        _ => Options {
            version: VERSION,
            actions: Actions(bit_at(number, FIRST_ACTION, ACTIONS).unwrap_or(ALL_ACTIONS)),
            protocol: Protocol(bit_at(number, FIRST_PROTOCOL_BIT, PROTOCOL_BITS).unwrap_or(
                ALL_PROTOCOL_BITS,
            )),
        },
    }
}

/// The bit of this number, where so many have numbers from the first one on.
fn bit_at(number: usize, first: usize, count: usize) -> Option<u32> {
    match number.checked_sub(first) {
        Some(place) if place < count && place < 32 => Some(1 << place),
        _ => None,
    }
}
