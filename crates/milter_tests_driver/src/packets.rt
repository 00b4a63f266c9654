//! Packets of a stream, read as often as the command line asks for, and the number of their payload bytes is printed.
//!
//! The first word is what is done with each packet: `split` nothing, `borrowed` it is decoded as it is borrowed,
//! `owned` it is decoded into a command of its own, and `encode` the borrowed command is encoded again. With `copy` the
//! bytes are copied to a buffer, and not split. The second word is how often.

ghost use Rattle.std.specs.Prelude.{◌≤◌, length};

use crate::printed::print_number;
use crate::texts::value_in;
use anyhow::{Context, bail};
use milter_wire::{Command, CommandRef, PAYLOAD_MAX, Packet, Splitter};
use std::alloc::Global;

/// What is done with the stream.
#[derive(Clone, Copy)]
enum Work {
    Split,
    Borrowed,
    Owned,
    Encode,
    Copy,
}

/// What is done, by its word.
const WORKS: [(&str, Work); 5] = [
    ("split", Work::Split),
    ("borrowed", Work::Borrowed),
    ("owned", Work::Owned),
    ("encode", Work::Encode),
    ("copy", Work::Copy),
];

/// Decodes a packet as it is borrowed, and encodes it again.
fn encode(alloc: Global, packet: Packet<'_>, out: &mut Vec<u8>) -> anyhow::Result<()>
    requires { length packet.payload.now ≤ PAYLOAD_MAX }
{
    let command = CommandRef::decode(packet.code, packet.payload)?;
    out.clear();
    if command.fits() {
        command.encode(alloc, out)?;
    }
    Ok(())
}

/// Does the work with one packet.
fn read(alloc: Global, work: Work, packet: Packet<'_>, out: &mut Vec<u8>) -> anyhow::Result<()>
    requires { length packet.payload.now ≤ PAYLOAD_MAX }
{
    match work {
        Work::Borrowed => drop(CommandRef::decode(packet.code, packet.payload)?),
        Work::Owned => drop(Command::decode(alloc, packet.code, packet.payload)?),
        Work::Encode => encode(alloc, packet, out)?,
        Work::Split | Work::Copy => {}
    }
    Ok(())
}

/// Splits the stream and does the work with each packet. The answer is the number of their payload bytes.
fn read_stream(
    alloc: Global,
    work: Work,
    splitter: &mut Splitter,
    stream: &[u8],
    out: &mut Vec<u8>,
) -> anyhow::Result<u64> {
    let mut total: u64 = 0;
    let mut rest = stream;
    while !rest.is_empty() {
        let taken = splitter.feed(rest)?;
        if taken == 0 {
            break;
        }
        rest = &rest[taken..];
        if let Some(packet) = splitter.next()? {
            total = total.saturating_add(packet.payload.len() as u64);
            read(alloc, work, packet, out)?;
        }
    }
    Ok(total)
}

/// Copies the stream. The answer is the number of bytes.
fn copy_stream(stream: &[u8], out: &mut Vec<u8>) -> anyhow::Result<u64> {
    out.clear();
    out.extend_from_slice(stream)?;
    Ok(out.len() as u64)
}

/// Does the work with the stream as often as it is asked for. The answer is the number of bytes.
fn work_again(
    alloc: Global,
    work: Work,
    splitter: &mut Splitter,
    stream: &[u8],
    count: u64,
) -> anyhow::Result<u64> {
    let mut out = Vec::new(alloc);
    let mut total: u64 = 0;
    for _ in 0..count {
        let read = match work {
            Work::Copy => copy_stream(stream, &mut out)?,
            _ => read_stream(alloc, work, splitter, stream, &mut out)?,
        };
        total = total.saturating_add(read);
    }
    Ok(total)
}

/// Does the work that the words ask for with the packets of the input, and prints how many bytes their payloads have.
pub fn print_total(rt: &HostRuntime, words: &[String], input: &[u8]) -> anyhow::Result<()> {
    let [work, count] = words else {
        bail!("usage: milter_tests_driver packets split|borrowed|owned|encode|copy COUNT");
    };
    let Some(work) = value_in(&WORKS, work) else {
        bail!("{work} is no work");
    };
    let count = count.parse::<u64>().ok().context("COUNT is no number")?;
    let mut splitter = Splitter::new(rt.alloc());
    let total = work_again(rt.alloc(), work, &mut splitter, input, count)?;
    drop(splitter);
    print_number(rt, total)
}
