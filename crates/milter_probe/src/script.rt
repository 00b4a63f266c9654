//! What is done in a trial.

use crate::exchange::{Exchange, message_end, message_start};
use crate::kind::Kind;
use crate::mutation::{abort_packet, next_client_packet};
use crate::offers::offer_of;
use crate::trial::{Trial, mutant_at};
use milter_wire::{NoMemory, Options};
use std::alloc::Global;

/// A step of a trial.
#[derive(Debug, Drop)]
pub enum Step {
    /// The packets of the exchange with this index are sent.
    Send(usize),
    /// The reply to the exchange with this index is received, where one is due.
    Receive(usize),
    /// These bytes are sent, to which no reply is due.
    Insert(Vec<u8>),
}

/// After how many bytes the connection is closed.
#[derive(Clone, Copy, Debug, PartialEq, Eq)]
pub enum Cut {
    /// At the end.
    No,
    /// After so many that are sent.
    Sent(usize),
    /// After so many that come.
    Came(usize),
}

/// What is sent and received over a connection.
#[derive(Debug, Drop)]
pub struct Script {
    /// The steps, in order.
    pub steps: Vec<Step>,
    /// When the connection is closed.
    pub cut: Cut,
    /// Whether all is sent one byte at a time.
    pub is_bytewise: bool,
    /// Whether each verdict has to be that of the conversation, and all replies have to be those of the protocol.
    pub is_compared: bool,
}

/// What is done in a trial.
#[derive(Debug, Drop)]
pub enum Play {
    /// The session is sent plainly with this offer, and its verdicts are compared.
    Offer(Options),
    /// This is sent and received.
    Script(Script),
}

/// The conversation once more, as it was.
pub fn plain(alloc: Global, exchanges: &[Exchange]) -> Result<Script, NoMemory> {
    let mut steps = Vec::new(alloc);
    push_exchanges(&mut steps, 0, exchanges.len())?;
    Ok(compared(steps))
}

/// What is done in a trial of a conversation. The seed chooses how packets are mutated.
pub fn play_of(
    alloc: Global,
    exchanges: &[Exchange],
    trial: Trial,
    seed: u32,
) -> Result<Play, NoMemory> {
    match trial.kind {
        Kind::Offer => Ok(Play::Offer(offer_of(trial.number))),
        _ => Ok(Play::Script(script_of(alloc, exchanges, trial, seed)?)),
    }
}

/// What is sent and received in a trial that doesn't make another offer.
fn script_of(
    alloc: Global,
    exchanges: &[Exchange],
    trial: Trial,
    seed: u32,
) -> Result<Script, NoMemory> {
    let Trial { kind, number } = trial;
    let place = number.saturating_sub(1);
    match kind {
        Kind::CutSent => cut_at(alloc, exchanges, Cut::Sent(number)),
        Kind::CutCame => cut_at(alloc, exchanges, Cut::Came(number)),
        Kind::ByteByByte => bytewise(alloc, exchanges),
        Kind::Offer => plain(alloc, exchanges),
        Kind::Ahead => ahead(alloc, exchanges, place),
        Kind::Abort => aborted(alloc, exchanges, place),
        Kind::SecondMessage => message_again(alloc, exchanges, place),
        Kind::SecondClient => client_again(alloc, exchanges),
        Kind::Mutated => mutated_at(alloc, exchanges, number, seed),
    }
}

/// The script of these steps, whose verdicts are compared.
fn compared(steps: Vec<Step>) -> Script {
    Script {
        steps,
        cut: Cut::No,
        is_bytewise: false,
        is_compared: true,
    }
}

/// The script of these steps, after which alone something can be broken.
fn uncompared(steps: Vec<Step>) -> Script {
    Script {
        steps,
        cut: Cut::No,
        is_bytewise: false,
        is_compared: false,
    }
}

/// Appends the exchanges from one index to before another.
fn push_exchanges(steps: &mut Vec<Step>, from: usize, to: usize) -> Result<(), NoMemory> {
    for place in from..to {
        steps.push(Step::Send(place))?;
        steps.push(Step::Receive(place))?;
    }
    Ok(())
}

/// Appends the exchanges from the beginning of the message with this number, from 0, to the end of the conversation.
fn push_from(
    steps: &mut Vec<Step>,
    exchanges: &[Exchange],
    message: usize,
) -> Result<(), NoMemory> {
    push_exchanges(steps, message_start(exchanges, message), exchanges.len())
}

/// The conversation up to a byte.
fn cut_at(alloc: Global, exchanges: &[Exchange], cut: Cut) -> Result<Script, NoMemory> {
    let mut steps = Vec::new(alloc);
    push_exchanges(&mut steps, 0, exchanges.len())?;
    Ok(Script {
        steps,
        cut,
        is_bytewise: false,
        is_compared: false,
    })
}

/// The conversation, sent byte by byte.
fn bytewise(alloc: Global, exchanges: &[Exchange]) -> Result<Script, NoMemory> {
    let mut steps = Vec::new(alloc);
    push_exchanges(&mut steps, 0, exchanges.len())?;
    Ok(Script {
        steps,
        cut: Cut::No,
        is_bytewise: true,
        is_compared: true,
    })
}

/// The conversation, with the exchange after this index sent before the reply to the one at it.
fn ahead(alloc: Global, exchanges: &[Exchange], place: usize) -> Result<Script, NoMemory> {
    let next = place.saturating_add(1);
    let mut steps = Vec::new(alloc);
    push_exchanges(&mut steps, 0, place)?;
    steps.push(Step::Send(place))?;
    steps.push(Step::Send(next))?;
    steps.push(Step::Receive(place))?;
    steps.push(Step::Receive(next))?;
    push_exchanges(&mut steps, next.saturating_add(1), exchanges.len())?;
    Ok(uncompared(steps))
}

/// The conversation, whose message is given up after the exchange at this index, and sent again.
fn aborted(alloc: Global, exchanges: &[Exchange], place: usize) -> Result<Script, NoMemory> {
    let message = match exchanges.get(place) {
        Some(exchange) => exchange.message.unwrap_or(0),
        None => 0,
    };
    let mut steps = Vec::new(alloc);
    push_exchanges(&mut steps, 0, place.saturating_add(1))?;
    steps.push(Step::Insert(abort_packet(alloc)?))?;
    push_from(&mut steps, exchanges, message)?;
    Ok(compared(steps))
}

/// The conversation, in which the message with this number, from 0, is sent twice.
fn message_again(
    alloc: Global,
    exchanges: &[Exchange],
    message: usize,
) -> Result<Script, NoMemory> {
    let mut steps = Vec::new(alloc);
    push_exchanges(&mut steps, 0, message_end(exchanges, message))?;
    push_from(&mut steps, exchanges, message)?;
    Ok(compared(steps))
}

/// The conversation, after which the client comes again.
fn client_again(alloc: Global, exchanges: &[Exchange]) -> Result<Script, NoMemory> {
    let mut steps = Vec::new(alloc);
    push_exchanges(&mut steps, 0, exchanges.len().saturating_sub(1))?;
    steps.push(Step::Insert(next_client_packet(alloc)?))?;
    push_exchanges(&mut steps, 1, exchanges.len())?;
    Ok(compared(steps))
}

/// The conversation up to a packet that is sent otherwise.
fn mutated_at(
    alloc: Global,
    exchanges: &[Exchange],
    number: usize,
    seed: u32,
) -> Result<Script, NoMemory> {
    let mut steps = Vec::new(alloc);
    if let Some(sent) = mutant_at(exchanges, number, seed) {
        push_exchanges(&mut steps, 0, sent.exchange)?;
        push_packets(alloc, &mut steps, exchanges, sent.exchange, sent.packet)?;
        steps.push(Step::Insert(sent.mutant.bytes(alloc)?))?;
    }
    Ok(uncompared(steps))
}

/// Appends the first packets of an exchange.
fn push_packets(
    alloc: Global,
    steps: &mut Vec<Step>,
    exchanges: &[Exchange],
    place: usize,
    count: usize,
) -> Result<(), NoMemory> {
    let Some(exchange) = exchanges.get(place) else {
        return Ok(());
    };
    for packet in exchange.packets.iter().take(count) {
        steps.push(Step::Insert(Vec::from_slice(alloc, packet.as_slice())?))?;
    }
    Ok(())
}
