//! Options as payloads: three numbers.

ghost use Rattle.std.specs.Prelude.{◌≡◌, ◌++◌, ◌↔◌, IsTrue, OnOk, option_map};
ghost use Rattle.milter_fields.specs.AppendedBytes.{PutsBytes};
ghost use Rattle.milter_wire.specs.OptionsPayload.{options, OptionsFit, options_at, options_in};

use crate::options::{Actions, Options, Protocol};
use milter_fields::{NoMemory, put_number, take_number};

/// The number of bytes that options have in a packet.
pub const OPTIONS_LEN: usize = 12;

/// Whether each number is in its range: it is, by its type. Doesn't allocate.
pub fn options_fit(value: &Options) -> bool
    ensures { IsTrue result ↔ OptionsFit value.now }
{
    let _version = value.version;
    let _actions = value.actions.0;
    let _protocol = value.protocol.0;
    true
}

/// Appends the three numbers. After `NoMemory`, `out` has what it had and perhaps some of their bytes.
pub fn put_options(out: &mut Vec<u8>, value: &Options) -> Result<(), NoMemory>
    ensures { PutsBytes (options value.now) out.old.items out.new.items result }
{
    put_number(out, value.version)?;
    put_number(out, value.actions.0)?;
    put_number(out, value.protocol.0)
}

/// The options that the bytes begin with, and the bytes after them. Doesn't allocate.
#[tactic(auto, unfolding(crate::specs::OptionsPayload::options_at))]
pub fn take_options_first(bytes: &[u8]) -> Option<(Options, &[u8])>
    ensures { option_map (λ x. (x.0, x.1.now)) result ≡ options_at bytes.now }
{
    let (version, rest) = take_number(bytes)?;
    let (actions, rest) = take_number(rest)?;
    let (protocol, rest) = take_number(rest)?;
    let options = Options {
        version,
        actions: Actions(actions),
        protocol: Protocol(protocol),
    };
    Some((options, rest))
}

/// The options that these bytes encode, all of the bytes. Doesn't allocate.
#[tactic(auto, unfolding(crate::specs::OptionsPayload::options_in))]
pub fn take_options(bytes: &[u8]) -> Option<Options>
    ensures { result ≡ options_in bytes.now }
{
    let (options, rest) = take_options_first(bytes)?;
    if !rest.is_empty() {
        return None;
    }
    Some(options)
}
