//! What a packet is decoded to.

ghost use Rattle.std.specs.Prelude.{◌≡◌, ◌≤◌, length, option_map, slice_get};
ghost use Rattle.milter_fields.specs.declared.number.TheConstants.{PAYLOAD_MAX};
ghost use Rattle.milter_c_objects.specs.DecodedPackets.{IsRead, decoded_command, decoded_reply};
ghost use Rattle.milter_c_objects.specs.Parts.{parts_of, value_of};

use crate::command_parts::command_part;
use crate::part::Part;
use crate::reply_parts::reply_part;
use milter_wire::{Command, Reply, WireFault};
use std::alloc::Global;

/// What a packet is decoded to: a command to a filter, or a reply of one.
#[derive(Debug, Drop)]
pub enum Decoded {
    /// A command.
    Command(Command),
    /// A reply.
    Reply(Reply),
}

impl Decoded {
    /// The command of a packet with this code and this payload, as [`Command::decode`] has it.
    pub fn command(alloc: Global, code: u8, payload: &[u8]) -> Result<Decoded, WireFault>
        requires { length payload.now ≤ PAYLOAD_MAX }
        ensures { IsRead (decoded_command (record { code = code; payload = payload.now })) result }
    {
        Ok(Decoded::Command(Command::decode(alloc, code, payload)?))
    }

    /// The reply of a packet with this code and this payload, as [`Reply::decode`] has it.
    pub fn reply(alloc: Global, code: u8, payload: &[u8]) -> Result<Decoded, WireFault>
        requires { length payload.now ≤ PAYLOAD_MAX }
        ensures { IsRead (decoded_reply (record { code = code; payload = payload.now })) result }
    {
        Ok(Decoded::Reply(Reply::decode(alloc, code, payload)?))
    }

    /// The part at a place, from 0 in the order of the payload; none after the last. Doesn't allocate.
    pub fn part(&self, place: usize) -> Option<Part<'_>>
        ensures { option_map value_of result ≡ slice_get (parts_of self.now) place }
    {
        match self {
            Decoded::Command(command) => command_part(command, place),
            Decoded::Reply(reply) => reply_part(reply, place),
        }
    }
}
