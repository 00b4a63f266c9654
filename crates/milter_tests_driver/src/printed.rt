//! What several subcommands print.

use milter_mail::{Held, write_message};
use milter_wire::{HEAD_LEN, Packet};
use std::io;

/// Prints a line.
pub fn print_line(rt: &HostRuntime, text: &str) -> anyhow::Result<()> {
    println!(rt; "{text}")?;
    Ok(())
}

/// Prints a number as a line.
pub fn print_number(rt: &HostRuntime, number: u64) -> anyhow::Result<()> {
    println!(rt; "{number}")?;
    Ok(())
}

/// Prints bytes as a line of hexadecimal digits.
pub fn print_hex(rt: &HostRuntime, bytes: &[u8]) -> anyhow::Result<()> {
    let digits = hex::encode(rt.alloc(), bytes)?;
    print_line(rt, &digits)
}

/// Prints the packets of a stream, and what is left after them, each as a line.
pub fn print_packets(rt: &HostRuntime, stream: &[u8]) -> anyhow::Result<()> {
    let mut rest = stream;
    for _ in 0..stream.len() {
        let Some(packet) = Packet::first_of(rest) else {
            break;
        };
        let len = packet.payload.len() + HEAD_LEN;
        print_hex(rt, &rest[..len])?;
        rest = &rest[len..];
    }
    if rest.is_empty() {
        return Ok(());
    }
    print_hex(rt, rest)
}

/// Prints the text of a message.
pub fn print_message(rt: &HostRuntime, held: &Held) -> anyhow::Result<()> {
    Ok(write_message(rt.alloc(), &mut io::writer(rt), held)?)
}
