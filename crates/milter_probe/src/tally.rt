//! How many trials of each kind were made, and how many broke.

use crate::breakage::put_number;
use crate::kind::Kind;
use milter_wire::NoMemory;
use std::alloc::Global;

/// The trials of a kind.
#[derive(Clone, Copy, Debug, PartialEq, Eq)]
pub(crate) struct Tally {
    kind: Kind,
    made: usize,
    broke: usize,
}

/// Notes a trial, which comes after all those of the kinds before its own.
pub(crate) fn note(tallies: &mut Vec<Tally>, kind: Kind, is_broken: bool) -> Result<(), NoMemory> {
    if is_other(tallies.as_slice(), kind) {
        tallies.push(Tally {
            kind,
            made: 0,
            broke: 0,
        })?;
    }
    if let Some(tally) = tallies.last_mut() {
        tally.made = tally.made.saturating_add(1);
        if is_broken {
            tally.broke = tally.broke.saturating_add(1);
        }
    }
    Ok(())
}

/// Whether the last trials are of another kind.
fn is_other(tallies: &[Tally], kind: Kind) -> bool {
    match tallies {
        [.., last] => last.kind != kind,
        [] => true,
    }
}

/// Whether any trial broke.
pub(crate) fn has_broken(tallies: &[Tally]) -> bool {
    tallies.iter().any(|tally| tally.broke > 0)
}

/// The lines of the tallies.
pub(crate) fn tally_lines(alloc: Global, tallies: &[Tally]) -> Result<Vec<u8>, NoMemory> {
    let mut lines = Vec::new(alloc);
    for tally in tallies {
        put_tally(alloc, &mut lines, *tally)?;
    }
    Ok(lines)
}

/// Appends the line of a tally.
fn put_tally(alloc: Global, lines: &mut Vec<u8>, tally: Tally) -> Result<(), NoMemory> {
    lines.extend_from_slice(tally.kind.name())?;
    lines.push(b' ')?;
    put_number(alloc, lines, tally.made)?;
    lines.extend_from_slice(b" trials ")?;
    put_number(alloc, lines, tally.broke)?;
    lines.extend_from_slice(b" broke\n")?;
    Ok(())
}
