//! Which trials are made of a conversation.

ghost use Rattle.std.specs.Prelude.{◌≡◌, ◌==◌, ◌<◌, filter};
ghost use Rattle.milter_probe.specs.Trials.{chosen, kind_number};

use crate::exchange::{
    Exchange, Place, came_len, message_count, packet_count, packet_place, sent_len,
};
use crate::kind::Kind;
use crate::mutation::{Mutant, Mutation, mutant_of};
use crate::offers::OFFERS;
use milter_wire::{NoMemory, Packet, Stage};
use std::alloc::Global;

/// The most trials of a kind.
pub const TRIALS_MAX: usize = 2_000;

/// A trial.
#[derive(Clone, Copy, Debug, PartialEq, Eq)]
pub struct Trial {
    /// Its kind.
    pub kind: Kind,
    /// Its number, from 1: of a cut that of the last byte, of two commands at once and of an abort that of the
    /// exchange.
    pub number: usize,
}

/// The trials of a conversation, kind after kind in their order. Each kind has at most [`TRIALS_MAX`], of more the
/// numbers are spread evenly.
pub fn trials(alloc: Global, exchanges: &[Exchange]) -> Result<Vec<Trial>, NoMemory> {
    let mut trials = Vec::new(alloc);
    for kind in Kind::ALL {
        push_trials(&mut trials, exchanges, kind)?;
    }
    Ok(trials)
}

/// Those of the trials that are of a kind, in order; all of them where none is given. Doesn't allocate.
pub fn chosen(trials: Vec<Trial>, only: Option<Kind>) -> Vec<Trial>
    ensures { result.items ≡ chosen only trials.items }
{
    let mut trials = trials;
    if let Some(kind) = only {
        keep_kind(&mut trials, kind.number());
    }
    trials
}

/// Keeps the trials of the kind with this number.
fn keep_kind(trials: &mut Vec<Trial>, number: u8)
    ensures { trials.new.items ≡ filter (λ trial. kind_number trial.kind == number) trials.old.items }
{
    trials.retain(|trial| trial.kind.number() == number);
}

/// Appends the trials of a kind.
fn push_trials(
    trials: &mut Vec<Trial>,
    exchanges: &[Exchange],
    kind: Kind,
) -> Result<(), NoMemory> {
    let last = last_number(exchanges, kind);
    let count = last.min(TRIALS_MAX);
    for place in 0..count {
        let number = spread(place, count, last);
        if is_made(exchanges, kind, number) {
            trials.push(Trial { kind, number })?;
        }
    }
    Ok(())
}

/// The greatest number of a trial of a kind.
fn last_number(exchanges: &[Exchange], kind: Kind) -> usize {
    match kind {
        Kind::CutSent => sent_len(exchanges),
        Kind::CutCame => came_len(exchanges),
        Kind::ByteByByte | Kind::SecondClient => 1,
        Kind::Ahead | Kind::Abort => exchanges.len(),
        Kind::Offer => OFFERS,
        Kind::SecondMessage => message_count(exchanges),
        Kind::Mutated => packet_count(exchanges).saturating_mul(Mutation::ALL.len()),
    }
}

/// The number at a place, from 0, of so many that are spread evenly from 1 to the last.
fn spread(place: usize, count: usize, last: usize) -> usize
    requires { place < count }
{
    place.saturating_add(1).saturating_mul(last) / count
}

/// Whether there is a trial with this number.
fn is_made(exchanges: &[Exchange], kind: Kind, number: usize) -> bool {
    let Some(place) = number.checked_sub(1) else {
        return false;
    };
    match kind {
        Kind::Ahead => is_followed(exchanges, place),
        Kind::Abort => is_within_message(exchanges, place),
        Kind::Mutated => mutant_at(exchanges, number, 0).is_some(),
        _ => true,
    }
}

/// Whether the exchange at this index is answered, and another follows.
fn is_followed(exchanges: &[Exchange], place: usize) -> bool {
    match exchanges.get(place) {
        Some(exchange) => exchange.is_answered() && place.saturating_add(1) < exchanges.len(),
        None => false,
    }
}

/// Whether the exchange at this index is of a message, and before its end.
fn is_within_message(exchanges: &[Exchange], place: usize) -> bool {
    match exchanges.get(place) {
        Some(exchange) => exchange.message.is_some() && is_before_end(exchange.place),
        None => false,
    }
}

/// Whether a message goes on after this.
fn is_before_end(place: Place) -> bool {
    match place {
        Place::At(stage) => stage != Stage::Eob,
        _ => false,
    }
}

/// A packet of the conversation that is sent otherwise.
#[derive(Clone, Copy)]
pub(crate) struct Mutated<'a> {
    /// The index of its exchange.
    pub(crate) exchange: usize,
    /// Its index there.
    pub(crate) packet: usize,
    /// The packet as it is sent.
    pub(crate) mutant: Mutant<'a>,
}

/// What is sent in the trial of a mutated packet with this number; none where the packet can't be sent so.
pub(crate) fn mutant_at(exchanges: &[Exchange], number: usize, seed: u32) -> Option<Mutated<'_>> {
    let place = number.checked_sub(1)?;
    let mutation = Mutation::ALL[place % Mutation::ALL.len()];
    let (exchange, packet) = packet_place(exchanges, place / Mutation::ALL.len())?;
    let bytes = exchanges.get(exchange)?.packets.get(packet)?;
    let whole = Packet::first_of(bytes.as_slice())?;
    Some(Mutated {
        exchange,
        packet,
        mutant: mutant_of(mutation, &whole, word_of(seed, number))?,
    })
}

/// The word by which a packet is mutated, by the seed and the trial's number. Source: Steele, Lea and Flood, Fast
/// Splittable Pseudorandom Number Generators (SplitMix64).
fn word_of(seed: u32, number: usize) -> u32 {
    let steps = (number as u64).wrapping_add(1);
    let start = u64::from(seed).wrapping_add(steps.wrapping_mul(0x9e37_79b9_7f4a_7c15));
    let first = (start ^ (start >> 30)).wrapping_mul(0xbf58_476d_1ce4_e5b9);
    let second = (first ^ (first >> 27)).wrapping_mul(0x94d0_49bb_1331_11eb);
    let [a, b, c, d, ..] = (second ^ (second >> 31)).to_be_bytes();
    u32::from_be_bytes([a, b, c, d])
}
