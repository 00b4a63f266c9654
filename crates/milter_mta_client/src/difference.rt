//! Where reports begin to differ from those that are expected.

ghost use Rattle.std.specs.Prelude.{◌≡◌, ◌∷◌, IfOk, MatchOption, false, length, map, replicate, true};
ghost use Rattle.milter_mta_client.specs.Patterns.{IsFirstDifference, stand_for};
ghost use Rattle.bstr.specs.Text.{lines_of};

use crate::places::{advance, first_place, is_any_open, may_end};
use bstr::ByteSlice;
use milter_fields::NoMemory;
use std::alloc::Global;

/// The lines of a text, each with its LF; the last may have none.
pub fn lines_of(alloc: Global, text: &[u8]) -> Result<Vec<&[u8]>, NoMemory>
    ensures { IfOk result (λ lines. map (λ line. line.now) lines.items ≡ lines_of text.now) }
{
    Ok(text.lines_with_terminator().collect(alloc)?)
}

/// The first line, counted from 0, with which the lines that were found aren't what the expected ones stand for:
/// those before it may go on so. Behind the last line it is their number, where more are due. `None` where they are
/// what is expected. Takes a byte of memory for each expected line, and looks at each of them once for each line that
/// was found.
pub fn first_difference(
    alloc: Global,
    expected: &[&[u8]],
    found: &[&[u8]],
) -> Result<Option<usize>, NoMemory>
    ensures { IfOk result (λ place. MatchOption place
        (stand_for (map (λ line. line.now) expected.now) (map (λ line. line.now) found.now) ≡ true)
        (IsFirstDifference (map (λ line. line.now) expected.now) (map (λ line. line.now) found.now))) }
{
    let mut places = first_place(alloc, expected.len())?;
    Ok(difference_from(places.as_mut_slice(), expected, found))
}

/// The same, in the memory of the places, of which the first one is open.
fn difference_from(places: &mut [bool], expected: &[&[u8]], found: &[&[u8]]) -> Option<usize>
    requires { places.old ≡ true ∷ replicate (length expected.now) false }
    ensures { MatchOption result
        (stand_for (map (λ line. line.now) expected.now) (map (λ line. line.now) found.now) ≡ true)
        (IsFirstDifference (map (λ line. line.now) expected.now) (map (λ line. line.now) found.now)) }
{
    for (index, line) in found.iter().enumerate() {
        advance(places, expected, line);
        if !is_any_open(places) {
            return Some(index);
        }
    }
    if may_end(places, expected) {
        None
    } else {
        Some(found.len())
    }
}
