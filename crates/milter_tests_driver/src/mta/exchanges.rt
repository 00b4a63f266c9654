//! What is sent to a filter, and what comes of its replies.

use crate::texts::{number_of, str_of};
use anyhow::Context;
use milter_mta::{MtaCore, Want};
use milter_mta_outcome::Loss;
use milter_wire::Text;
use std::alloc::Global;

/// The packet of options of version 6 without any bits.
const OPTIONS: &[u8] = b"\0\0\0\x0dO\0\0\0\x06\0\0\0\0\0\0\0\0";
/// The packet of the verdict that goes on.
const CONTINUE: &[u8] = b"\0\0\0\x01c";
/// How many steps a conversation has at most.
const STEPS: usize = 1000;

/// As many bytes were sent, or all that are pending where these are fewer.
pub fn send_some(core: &mut MtaCore, count: usize) {
    let count = core.pending().len().min(count);
    core.sent(count);
}

/// The reply of a filter that has no options and goes on.
fn plain_reply(packet: &[u8]) -> &'static [u8] {
    if packet.get(4) == Some(&b'O') {
        OPTIONS
    } else {
        CONTINUE
    }
}

/// Sends the next packet, and answers it, where it has a reply, by the plain one.
fn pass_one(core: &mut MtaCore) -> anyhow::Result<()> {
    core.advance()?;
    let reply = plain_reply(core.pending());
    send_some(core, usize::MAX);
    if core.want() == Want::Receive {
        core.feed(reply)?;
    }
    Ok(())
}

/// Sends as many packets as the texts have it, and answers those that have a reply by the plain one.
pub fn pass(core: &mut MtaCore, texts: &[Text]) -> anyhow::Result<()> {
    for _ in 0..number_of(texts)? {
        pass_one(core)?;
    }
    Ok(())
}

/// Feeds each byte as a piece, up to the first loss.
pub fn feed_bytes(core: &mut MtaCore, bytes: &[u8]) -> Result<(), Loss> {
    for byte in bytes {
        core.feed(&[*byte])?;
    }
    Ok(())
}

/// Feeds a piece so many times, up to the first loss.
pub fn feed_times(core: &mut MtaCore, count: usize, piece: &[u8]) -> Result<(), Loss> {
    for _ in 0..count {
        core.feed(piece)?;
    }
    Ok(())
}

/// The reply to a packet that the first answer `START=REPLY` has whose START it begins with.
fn answer_in<'a>(digits: &str, answers: &'a [Text]) -> anyhow::Result<Option<&'a str>> {
    for answer in answers {
        let (start, reply) = str_of(answer)?.split_once('=').context("START=REPLY")?;
        if digits.starts_with(start) {
            return Ok(Some(reply));
        }
    }
    Ok(None)
}

/// The reply to a packet: that of the answers, or else the plain one.
fn reply_to(alloc: Global, packet: &[u8], answers: &[Text]) -> anyhow::Result<Vec<u8>> {
    let digits = hex::encode(alloc, packet)?;
    match answer_in(&digits, answers)? {
        Some(reply) => Ok(hex::decode(alloc, reply)?),
        None => Ok(plain_reply(packet).to_vec(alloc)?),
    }
}

/// Sends the next packet, and answers it where it has a reply. Where no memory is left for it, the filter is lost.
fn exchange(alloc: Global, core: &mut MtaCore, answers: &[Text]) -> anyhow::Result<()> {
    if core.advance().is_err() {
        core.lost(Loss::Memory);
        return Ok(());
    }
    let reply = reply_to(alloc, core.pending(), answers)?;
    send_some(core, usize::MAX);
    if core.want() == Want::Receive {
        let _fed = core.feed(&reply);
    }
    Ok(())
}

/// Plays until nothing is wanted, over as many connections as it takes.
pub fn converse(alloc: Global, core: &mut MtaCore, answers: &[Text]) -> anyhow::Result<()> {
    for _ in 0..STEPS {
        match core.want() {
            Want::Dial => core.dialled(),
            Want::Done => break,
            Want::Send | Want::Receive => exchange(alloc, core, answers)?,
        }
    }
    Ok(())
}
