//! A set of numbers is built of ranges, and numbers are looked up in it.

use milter_fields::NoMemory;
use milter_lists::{NumberRange, RangeSet, RangeSetBuilder};
use std::alloc::Global;
use std::test::Fail;

/// The set of these ranges.
fn set_of(alloc: Global, ranges: &[(u128, u128)]) -> Result<RangeSet, NoMemory> {
    let mut builder = RangeSetBuilder::new(alloc);
    for (first, last) in ranges {
        builder.push(NumberRange {
            first: *first,
            last: *last,
        })?;
    }
    Ok(builder.build())
}

#[test]
fn numbers_are_found(rt: HostRuntime) -> Result<(), Fail> {
    let ranges: [(u128, u128); 5] = [
        (40, 49),
        (10, 30),
        (12, 14),
        (13, 13),
        (u128::MAX, u128::MAX),
    ];
    let set = set_of(rt.alloc(), &ranges)?;
    for number in [10, 13, 15, 30, 40, 49, u128::MAX] {
        assert!(rt; set.contains(number));
    }
    for number in [0, 9, 31, 39, 50, u128::MAX - 1] {
        assert!(rt; !set.contains(number));
    }
    Ok(())
}
