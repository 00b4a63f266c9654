//! The ranges of networks.

ghost use Rattle.std.specs.Prelude.{◌≡◌, ◌≤◌};
ghost use Rattle.milter_lists.specs.NetworkRanges.{range_of};

use crate::number_range::NumberRange;

/// The numbers that differ from this one in the last bits alone.
pub(crate) fn range_of(number: u128, last_bits: u32) -> NumberRange
    requires { last_bits ≤ 128 }
    ensures { result ≡ range_of number last_bits }
{
    match 1u128.checked_shl(last_bits) {
        Some(size) => {
            let first = number - number % size;
            NumberRange {
                first,
                last: first + (size - 1),
            }
        }
        None => NumberRange {
            first: 0,
            last: u128::MAX,
        },
    }
}
