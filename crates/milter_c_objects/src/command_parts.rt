//! The parts of commands.

ghost use Rattle.std.specs.Prelude.{◌≡◌, ◌∷◌, map, option_map, slice_get};
ghost use Rattle.milter_c_objects.specs.Parts.{command_parts, number_part, pair_part, path_parts, text_part, value_of};

use crate::part::{
    Part, client_part, header_part, number_part, only_part, options_part, text_part,
};
use milter_wire::{Command, Pair, Path, Text};

/// The part of a command at a place.
pub(crate) fn command_part(command: &Command, place: usize) -> Option<Part<'_>>
    ensures { option_map value_of result ≡ slice_get (command_parts command.now) place }
{
    match command {
        Command::Options(options) => options_part(*options, place),
        Command::Macro { command, pairs } => macros_part(*command, pairs.as_slice(), place),
        Command::Connect(client) => only_part(client_part(client), place),
        Command::Mail(path) | Command::Rcpt(path) => path_part(path, place),
        Command::Header(header) => only_part(header_part(0, header), place),
        Command::Helo(text) | Command::Body(text) | Command::Eob(text) | Command::Unknown(text) =>
            only_part(text_part(text), place),
        Command::DataCmd | Command::Eoh | Command::Abort | Command::Quit | Command::QuitNew => None,
    }
}

/// The part of macros at a place: the code of the command that they belong to, and then each macro.
fn macros_part(command: u8, pairs: &[Pair], place: usize) -> Option<Part<'_>>
    ensures { option_map value_of result ≡ slice_get (number_part command ∷ map pair_part pairs.now) place }
{
    if place == 0 {
        return Some(number_part(u32::from(command)));
    }
    pair_part(pairs, place - 1)
}

/// The part that is the macro at a place.
fn pair_part(pairs: &[Pair], place: usize) -> Option<Part<'_>>
    ensures { option_map value_of result ≡ option_map pair_part (slice_get pairs.now place) }
{
    match pairs.get(place) {
        Some(pair) => Some(Part {
            first: pair.name.as_slice(),
            second: pair.value.as_slice(),
            kind: 0,
            number: 0,
        }),
        None => None,
    }
}

/// The part of a sender or a recipient at a place: the address, and then each ESMTP parameter.
fn path_part(path: &Path, place: usize) -> Option<Part<'_>>
    ensures { option_map value_of result ≡ slice_get (path_parts path.now) place }
{
    if place == 0 {
        return Some(text_part(&path.address));
    }
    param_part(path.params.as_slice(), place - 1)
}

/// The part that is the ESMTP parameter at a place.
fn param_part(params: &[Text], place: usize) -> Option<Part<'_>>
    ensures { option_map value_of result ≡ option_map text_part (slice_get params.now place) }
{
    match params.get(place) {
        Some(param) => Some(text_part(param)),
        None => None,
    }
}
