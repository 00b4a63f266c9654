//! The lines of an exchange: what was sent, and the replies that came beside those that were recorded.

ghost use Rattle.std.specs.Prelude.{◌≡◌, ◌≤◌, ◌++◌, IsTrue, None, OnOk, length};
ghost use Rattle.milter_replay.specs.ExchangeText.{marked};

use crate::conversation::{Exchange, ReplyPacket};
use crate::filter_end::Answer;
use milter_mta_outcome::Loss;
use milter_wire::NoMemory;
use std::alloc::Global;

/// What stands before a packet that was sent, and before a reply that is as it was recorded.
const SAME: &[u8] = b"  ";

/// What stands before what was recorded and did not come, or was not sent.
const RECORDED: &[u8] = b"- ";

/// What stands before a reply that came and was not recorded.
const CAME: &[u8] = b"+ ";

/// What stands before the cause by which the filter was lost.
const LOST: &[u8] = b"! ";

/// Whether the filter answered as it was recorded: with the same packets, in order, and was not lost.
pub(crate) fn is_as_recorded(exchange: &Exchange, answer: &Answer) -> bool
    ensures { IsTrue result → answer.now.loss ≡ None }
{
    let (recorded, came) = (exchange.replies.as_slice(), answer.replies.as_slice());
    answer.loss.is_none()
        && recorded.len() == came.len()
        && agreeing_first(recorded, came) == came.len()
}

/// Appends the lines of an exchange.
pub(crate) fn put_exchange(
    alloc: Global,
    text: &mut Vec<u8>,
    exchange: &Exchange,
    answer: &Answer,
) -> Result<(), NoMemory> {
    let mark = if answer.is_sent { SAME } else { RECORDED };
    put_line(text, mark, exchange.recorded.text.as_slice())?;
    put_replies(text, exchange.replies.as_slice(), answer.replies.as_slice())?;
    match answer.loss {
        Some(loss) => put_loss(alloc, text, loss),
        None => Ok(()),
    }
}

/// Appends the line of a loss.
fn put_loss(alloc: Global, text: &mut Vec<u8>, loss: Loss) -> Result<(), NoMemory> {
    let cause = loss.to_string(alloc)?;
    put_line(text, LOST, cause.as_bytes())?;
    text.push(b'\n')?;
    Ok(())
}

/// Appends the lines of replies: the first and the last that agree once, and between them those that were recorded and
/// then those that came.
fn put_replies(
    text: &mut Vec<u8>,
    recorded: &[ReplyPacket],
    came: &[ReplyPacket],
) -> Result<(), NoMemory> {
    let first = agreeing_first(recorded, came);
    put_lines(text, SAME, &recorded[..first])?;
    let (recorded, came) = (&recorded[first..], &came[first..]);
    let last = agreeing_last(recorded, came);
    let (recorded_end, came_end) = (recorded.len() - last, came.len() - last);
    put_lines(text, RECORDED, &recorded[..recorded_end])?;
    put_lines(text, CAME, &came[..came_end])?;
    put_lines(text, SAME, &came[came_end..])
}

/// How many of the first replies agree.
fn agreeing_first(recorded: &[ReplyPacket], came: &[ReplyPacket]) -> usize
    ensures recorded { result ≤ length recorded.now }
    ensures came { result ≤ length came.now }
{
    let most = recorded.len().min(came.len());
    let mut count = 0;
    while count < most && is_same(&recorded[count], &came[count]) {
        count += 1;
    }
    count
}

/// How many of the last replies agree.
fn agreeing_last(recorded: &[ReplyPacket], came: &[ReplyPacket]) -> usize
    ensures recorded { result ≤ length recorded.now }
    ensures came { result ≤ length came.now }
{
    let most = recorded.len().min(came.len());
    let (recorded_end, came_end) = (recorded.len() - most, came.len() - most);
    let mut left = most;
    while left > 0
        && is_same(
            &recorded[recorded_end + left - 1],
            &came[came_end + left - 1],
        )
    {
        left -= 1;
    }
    most - left
}

/// Whether two packets are the same.
fn is_same(one: &ReplyPacket, other: &ReplyPacket) -> bool {
    one.code == other.code && one.payload.as_slice() == other.payload.as_slice()
}

/// Appends the lines of packets, each after the mark.
fn put_lines(text: &mut Vec<u8>, mark: &[u8], replies: &[ReplyPacket]) -> Result<(), NoMemory>
    ensures { OnOk result (text.new.items ≡ text.old.items ++ marked mark.now replies.now) }
{
    for reply in replies {
        put_line(text, mark, reply.text.as_slice())?;
    }
    Ok(())
}

/// Appends a line after a mark.
fn put_line(text: &mut Vec<u8>, mark: &[u8], line: &[u8]) -> Result<(), NoMemory>
    ensures { OnOk result (text.new.items ≡ text.old.items ++ (mark.now ++ line.now)) }
{
    text.extend_from_slice(mark)?;
    text.extend_from_slice(line)?;
    Ok(())
}
