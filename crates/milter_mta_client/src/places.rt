//! The places of a list of patterns at which lines may go on: one before each pattern, and one behind the last.

ghost use Rattle.std.specs.Prelude.{◌≡◌, ◌+◌, ◌∷◌, [], IfOk, List, false, length, map, replicate, true, ℕ};
ghost use Rattle.milter_mta_client.specs.Places.{any_open, is_any_open};
ghost use Rattle.milter_mta_client.specs.Steps.{stays_at, step_over};

use crate::pattern::{is_gap, stands_for};
use milter_fields::NoMemory;
use std::alloc::Global;

/// The place before the first of so many patterns is open, and the others aren't.
pub(crate) fn first_place(alloc: Global, patterns: usize) -> Result<Vec<bool>, NoMemory>
    ensures { IfOk result (λ places. places.items ≡ true ∷ replicate patterns false) }
{
    let mut places = vec![in alloc; false; patterns]?;
    places.insert(0, true)?;
    Ok(places)
}

/// What a line makes of a place, and of the one behind it.
#[derive(Clone, Copy)]
struct Step {
    /// Whether the place is open.
    is_open: bool,
    /// Whether it was, and the one behind it too, since its pattern is a gap.
    stays: bool,
    /// Whether the line leads to the one behind it.
    leads_on: bool,
}

/// Whether the place behind a pattern is open since the one before it is, or stays so, and the pattern is a gap.
fn stays_at(stays: bool, is_open: bool, pattern: &[u8]) -> bool
    ensures { result ≡ stays_at stays is_open pattern.now }
{
    (is_open || stays) && is_gap(pattern)
}

/// What a line makes of the place before a pattern, after the step of the place before it.
fn step_over(last: Step, was_open: bool, pattern: &[u8], line: &[u8]) -> Step
    ensures { result ≡ step_over last was_open pattern.now line.now }
{
    let stays = stays_at(last.stays, was_open, pattern);
    Step {
        is_open: stays || last.leads_on,
        stays,
        leads_on: (was_open || last.stays) && !stays && stands_for(pattern, line),
    }
}

/// Goes on by a line: the places are open that it leads to from those that were.
pub(crate) fn advance(places: &mut [bool], patterns: &[&[u8]], line: &[u8])
    requires sizes { length places.old ≡ length patterns.now + 1 }
    ensures sizes { length places.new ≡ length places.old }
    ensures after { (lines : List (List ℕ)) → any_open places.new (map (λ pattern. pattern.now) patterns.now) lines
        ≡ any_open places.old (map (λ pattern. pattern.now) patterns.now) (line.now ∷ lines) }
{
    let mut last = Step {
        is_open: false,
        stays: false,
        leads_on: false,
    };
    for (index, pattern) in patterns.iter().enumerate() {
        last = step_over(last, places[index], pattern, line);
        places[index] = last.is_open;
    }
    places[patterns.len()] = last.leads_on;
}

/// Whether lines may end at one of the open places.
pub(crate) fn may_end(places: &[bool], patterns: &[&[u8]]) -> bool
    requires sizes { length places.now ≡ length patterns.now + 1 }
    ensures { result ≡ any_open places.now (map (λ pattern. pattern.now) patterns.now) [] }
{
    let mut stays = false;
    for (index, pattern) in patterns.iter().enumerate() {
        stays = stays_at(stays, places[index], pattern);
    }
    places[patterns.len()] || stays
}

/// Whether some place is open.
pub(crate) fn is_any_open(places: &[bool]) -> bool
    ensures { result ≡ is_any_open places.now }
{
    places.contains(&true)
}
