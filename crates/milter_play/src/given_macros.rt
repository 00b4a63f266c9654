//! Macros of a command line in the session of a file.

ghost use Rattle.std.specs.Prelude.{◌≡◌, Ok, []};

use milter_cli::ToolError;
use milter_command_line::{GivenMacro, UsageError};
use milter_mail::{Macros, Session, SessionParts};
use milter_wire::{NoMemory, PairRef, Pairs};
use std::alloc::Global;
use std::mem::replace;

/// The macros that these texts give, in the same order; an error where one of the texts gives none.
pub fn parse_macros<'a>(
    alloc: Global,
    texts: &[&'a str],
) -> Result<Vec<GivenMacro<'a>>, ToolError> {
    let mut macros = Vec::new(alloc);
    for text in texts {
        let Some(given) = GivenMacro::parse(text) else {
            return Err(ToolError::Usage(UsageError::BadMacro));
        };
        if macros.push(given).is_err() {
            return Err(ToolError::NoMemory);
        }
    }
    Ok(macros)
}

/// The session with these macros besides: each is the last of its stage, where no other has its name any more. The
/// error is `UsageError::BadMacro` where this makes no session, since a packet or a message would be too large.
pub fn with_macros(
    alloc: Global,
    session: Session,
    macros: &[GivenMacro<'_>],
) -> Result<Session, ToolError>
    ensures none { macros.entry.now ≡ [] → result ≡ Ok session }
{
    if macros.is_empty() {
        return Ok(session);
    }
    set_macros(alloc, session, macros)
}

/// The session with these macros set, one after another.
fn set_macros(
    alloc: Global,
    session: Session,
    macros: &[GivenMacro<'_>],
) -> Result<Session, ToolError> {
    let SessionParts {
        client,
        helo,
        macros: mut all,
        messages,
    } = session.into_parts();
    for given in macros {
        if set_macro(alloc, &mut all, *given).is_err() {
            return Err(ToolError::NoMemory);
        }
    }
    match Session::new(client, helo, all, messages) {
        Some(session) => Ok(session),
        None => Err(ToolError::Usage(UsageError::BadMacro)),
    }
}

/// Adds a macro to those of its stage, from which those of the same name go.
fn set_macro(alloc: Global, macros: &mut Macros, given: GivenMacro<'_>) -> Result<(), NoMemory> {
    let name = given.name.as_bytes();
    let value = given.value.as_bytes();
    let pair = PairRef { name, value }.to_pair(alloc)?;
    let pairs = macros.at_mut(given.stage);
    let mut kept = replace(pairs, Pairs::new(Vec::new(alloc))).into_vec();
    kept.retain(|other| other.name.as_slice() != name);
    kept.push(pair)?;
    *pairs = Pairs::new(kept);
    Ok(())
}
