//! Ports in two bytes, the higher first.

ghost use Rattle.std.specs.Prelude.{◌≡◌, ◌++◌, OnOk, option_map};
ghost use Rattle.milter_fields.specs.AppendedBytes.{PutsBytes};
ghost use Rattle.milter_fields.specs.Field.{port};
ghost use Rattle.milter_fields.specs.Decoders.{port_at, port_of};

use crate::fault::NoMemory;

/// Appends a port in two bytes, the higher first.
#[tactic(auto, unfolding(crate::specs::Field::port))]
pub(crate) fn put_port(out: &mut Vec<u8>, value: u16) -> Result<(), NoMemory>
    ensures { PutsBytes (port value) out.old.items out.new.items result }
{
    out.extend_from_slice(&value.to_be_bytes())?;
    Ok(())
}

/// The port that two bytes encode, the higher first.
#[tactic(auto, unfolding(crate::specs::Decoders::port_of))]
fn port_of(a: u8, b: u8) -> u16
    ensures { result ≡ port_of a b }
{
    u16::from_be_bytes([a, b])
}

/// The port in the first two bytes, and the bytes after it.
pub(crate) fn take_port(bytes: &[u8]) -> Option<(u16, &[u8])>
    ensures { option_map (λ x. (x.0, x.1.now)) result ≡ port_at bytes.now }
{
    match bytes {
        [a, b, rest @ ..] => Some((port_of(*a, *b), rest)),
        _ => None,
    }
}
