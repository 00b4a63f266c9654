//! Conditions with one of their texts.

use milter_filter_rules::{Field, Test, TextCheck};

/// A condition with one of its texts.
#[derive(Clone, Copy)]
pub struct Compared<'a> {
    /// Whether it is met where its test doesn't hold.
    pub negated: bool,
    /// What it looks at.
    pub field: &'a Field,
    /// How it compares.
    pub test: Test,
    /// Whether it says that the case of letters doesn't count.
    pub any_case: bool,
    /// The text that it looks for.
    pub text: &'a [u8],
}

impl<'a> Compared<'a> {
    /// The condition with this check, negated or not, and this text of it. Doesn't allocate.
    pub fn new(negated: bool, check: &'a TextCheck, text: &'a [u8]) -> Self {
        Compared {
            negated,
            field: &check.field,
            test: check.test,
            any_case: check.any_case,
            text,
        }
    }

    /// The same with another text. Doesn't allocate.
    pub fn with_text(self, text: &'a [u8]) -> Self {
        Compared {
            negated: self.negated,
            field: self.field,
            test: self.test,
            any_case: self.any_case,
            text,
        }
    }
}
