//! How a set of numbers is built.

ghost use Rattle.std.specs.Prelude.{◌≡◌, ◌↔◌, ◌∷◌, ◌++◌, [], IsTrue, OnErr, OnOk, length, ℕ};
ghost use Rattle.milter_lists.specs.Ranges.{has_number};

use crate::number_range::{NumberRange, raise_ends, sort_ranges};
use crate::range_set::RangeSet;
use milter_fields::NoMemory;
use std::alloc::Global;
use std::marker::Model;

/// The ranges of a set that is being built, in the order in which they came.
#[derive(Debug, Drop)]
pub struct RangeSetBuilder {
    ranges: Vec<NumberRange>,
}

impl Model for RangeSetBuilder {
    ghost use Rattle.std.specs.Prelude.{List};
    ghost use Rattle.milter_lists.specs.declared.number_range.NumberRange.{NumberRange};

    ghost Value = { List NumberRange };

    ghost view = { λ b. b.ranges.items };
}

impl RangeSetBuilder {
    /// No ranges. Doesn't allocate.
    pub fn new(alloc: Global) -> Self
        ensures { result ≡ [] }
    {
        RangeSetBuilder {
            ranges: Vec::new(alloc),
        }
    }

    /// Adds a range, which may overlap others. After `NoMemory` the ranges are as they were.
    pub fn push(&mut self, range: NumberRange) -> Result<(), NoMemory>
        ensures ok { OnOk result (self.new ≡ self.old ++ range ∷ []) }
        ensures err { OnErr result (self.new ≡ self.old) }
    {
        self.ranges.push(range)?;
        Ok(())
    }

    /// How many ranges were added.
    pub fn len(&self) -> usize
        ensures { result ≡ length self.now }
    {
        self.ranges.len()
    }

    /// Whether no range was added.
    pub fn is_empty(&self) -> bool
        ensures { IsTrue result ↔ (length self.now ≡ 0) }
    {
        self.ranges.len() == 0
    }

    /// The set of the numbers that are in some of the ranges. It takes time in the number of ranges times its
    /// logarithm. Doesn't allocate.
    pub fn build(self) -> RangeSet
        ensures len { length result ≡ length self }
        ensures numbers { (number : ℕ) → has_number result number ≡ has_number self number }
    {
        let RangeSetBuilder { mut ranges } = self;
        sort_ranges(&mut ranges);
        raise_ends(&mut ranges);
        RangeSet::new(ranges)
    }
}
