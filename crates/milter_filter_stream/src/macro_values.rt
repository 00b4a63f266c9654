//! The values of macros, and where the last one of a name is.

ghost use Rattle.std.specs.Prelude.{◌≡◌, ◌<◌, length, option_map, reverse};
ghost use Rattle.std.specs.Str.{bytes_eq};
ghost use Rattle.milter_protocol.specs.Seen.{value_in};
ghost use Rattle.milter_filter_stream.specs.MacroLists.{pairs_of};
ghost use Rattle.milter_filter_stream.specs.MacroSearches.{IsLastIn, nth_value, value_at};

use crate::macro_list::{MacroGroup, MacroPosition};
use milter_wire::Pair;

/// Whether the macro has this name.
fn has_name(pair: &Pair, name: &[u8]) -> bool
    ensures { result ≡ bytes_eq pair.now.name name.now }
{
    pair.name.as_slice() == name
}

/// Where the last of these macros is that has the name.
pub(crate) fn last_pair(pairs: &[Pair], name: &[u8]) -> Option<usize>
    ensures { IsLastIn pairs.now name.now result }
{
    let mut last = None;
    for (index, pair) in pairs.iter().enumerate() {
        if has_name(pair, name) {
            last = Some(index);
        }
    }
    last
}

/// The value of the macro at this index, if there is one.
fn nth_value(pairs: &[Pair], index: usize) -> Option<&[u8]>
    ensures { option_map (λ value. value.now) result ≡ nth_value pairs.now index }
{
    let pair = pairs.get(index)?;
    Some(pair.value.as_slice())
}

/// The value of the macro at this position, if there is one.
pub(crate) fn value_at(groups: &[MacroGroup], position: MacroPosition) -> Option<&[u8]>
    ensures { option_map (λ value. value.now) result ≡ value_at groups.now position }
{
    let group = groups.get(position.group)?;
    nth_value(group.pairs.as_slice(), position.pair)
}

/// The value of the last of these macros that has the name.
fn value_in_group<'a>(pairs: &'a [Pair], name: &[u8]) -> Option<&'a [u8]>
    ensures { option_map (λ value. value.now) result ≡ value_in (reverse pairs.now) name.now }
{
    nth_value(pairs, last_pair(pairs, name)?)
}

/// The value that was last given to a name.
pub(crate) fn last_value<'a>(groups: &'a [MacroGroup], name: &[u8]) -> Option<&'a [u8]>
    ensures { option_map (λ value. value.now) result ≡ value_in (pairs_of groups.now) name.now }
{
    let mut last = None;
    for group in groups {
        last = value_in_group(group.pairs.as_slice(), name).or(last);
    }
    last
}
