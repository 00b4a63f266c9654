//! What broke, and its line.

use crate::exchange::Place;
use crate::given::{Difference, Given};
use crate::trial::Trial;
use milter_mta_outcome::Loss;
use milter_wire::NoMemory;
use std::alloc::Global;

/// What broke.
#[derive(Clone, Copy, Debug, PartialEq, Eq)]
pub(crate) enum Broken {
    /// No connection was made.
    NoConnection,
    /// The filter was lost.
    Lost(Loss, Place),
    /// Another verdict came than before.
    Other(Difference),
}

/// When it broke.
#[derive(Clone, Copy, Debug, PartialEq, Eq)]
pub(crate) enum When {
    /// In the trial.
    In,
    /// In the plain session after it.
    After,
}

/// The line of what broke by a trial: its name and number, when it broke, and what.
pub(crate) fn trial_line(
    alloc: Global,
    trial: Trial,
    when: When,
    broken: Broken,
) -> Result<Vec<u8>, NoMemory> {
    let mut line = Vec::new(alloc);
    line.extend_from_slice(trial.kind.name())?;
    line.push(b' ')?;
    put_number(alloc, &mut line, trial.number)?;
    line.extend_from_slice(match when {
        When::In => b" in ",
        When::After => b" after ",
    })?;
    put_broken(alloc, &mut line, broken)?;
    line.push(b'\n')?;
    Ok(line)
}

/// The line of what broke where the session was sent first.
pub(crate) fn reference_line(alloc: Global, broken: Broken) -> Result<Vec<u8>, NoMemory> {
    let mut line = Vec::new(alloc);
    line.extend_from_slice(b"reference ")?;
    put_broken(alloc, &mut line, broken)?;
    line.push(b'\n')?;
    Ok(line)
}

/// Appends a number in decimal digits.
pub(crate) fn put_number(alloc: Global, line: &mut Vec<u8>, number: usize) -> Result<(), NoMemory> {
    let digits = number.to_string(alloc)?;
    line.extend_from_slice(digits.as_bytes())?;
    Ok(())
}

/// Appends what broke.
fn put_broken(alloc: Global, line: &mut Vec<u8>, broken: Broken) -> Result<(), NoMemory> {
    match broken {
        Broken::NoConnection => {
            line.extend_from_slice(b"no connection")?;
            Ok(())
        }
        Broken::Lost(loss, place) => {
            let cause = loss.to_string(alloc)?;
            line.extend_from_slice(cause.as_bytes())?;
            put_place(line, place)
        }
        Broken::Other(difference) => {
            put_given(line, difference.came)?;
            line.extend_from_slice(b" in place of ")?;
            put_given(line, difference.before)?;
            put_place(line, difference.place)
        }
    }
}

/// Appends where it broke.
fn put_place(line: &mut Vec<u8>, place: Place) -> Result<(), NoMemory> {
    line.extend_from_slice(b" at ")?;
    line.extend_from_slice(place.name())?;
    Ok(())
}

/// Appends a verdict.
fn put_given(line: &mut Vec<u8>, given: Option<Given>) -> Result<(), NoMemory> {
    match given {
        Some(given) => given.put(line),
        None => {
            line.extend_from_slice(b"none")?;
            Ok(())
        }
    }
}
