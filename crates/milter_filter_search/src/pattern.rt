//! How a value is compared with a text.

ghost use Rattle.std.specs.Prelude.{◌≡◌, ◌++◌, List, true, ℕ};
ghost use Rattle.milter_filter_search.specs.Texts.{Around, contains, finds, test_name};

use crate::text_case::{begins_with, contains, ends_with, is_text};
use milter_address::is_under;
use milter_text::{TextCase, is_like};

/// How values are compared with a text.
#[derive(Clone, Copy, Debug, PartialEq, Eq)]
pub enum Test {
    /// Some value is the text.
    Is,
    /// The text occurs in some value.
    Has,
    /// The text occurs in no value.
    Lacks,
    /// Some value begins with the text.
    Begins,
    /// Some value ends with the text.
    Ends,
    /// The text is a pattern that stands for some value, whole: [`is_like`].
    Like,
    /// The text is a domain, and some value is that domain or one below it: [`is_under`]. The case of letters counts,
    /// so that both are to be canonical.
    Under,
}

impl Test {
    /// The word of the test in rule files. Doesn't allocate.
    pub fn name(self) -> &'static [u8]
        ensures { result.now ≡ test_name self }
    {
        match self {
            Test::Is => b"is",
            Test::Has => b"has",
            Test::Lacks => b"lacks",
            Test::Begins => b"begins",
            Test::Ends => b"ends",
            Test::Like => b"like",
            Test::Under => b"under",
        }
    }
}

/// A text that is looked for in values.
#[derive(Clone, Copy, Debug)]
pub struct Pattern<'a> {
    /// Whether the case of letters counts.
    pub case: TextCase,
    /// What is to be so of a value and the text: with `Has` and with `Lacks` the same values are found.
    pub test: Test,
    /// The text.
    pub text: &'a [u8],
}

impl<'a> Pattern<'a> {
    /// Whether the test holds of a value and the text. Doesn't allocate.
    pub fn is_found_in(&self, value: &[u8]) -> bool
        ensures { result ≡ finds self.now.case self.now.test self.now.text.now value.now }
    {
        match self.test {
            Test::Is => is_text(self.case, value, self.text),
            Test::Has | Test::Lacks => contains(self.case, value, self.text),
            Test::Begins => begins_with(self.case, value, self.text),
            Test::Ends => ends_with(self.case, value, self.text),
            Test::Like => is_like(self.case, self.text, value),
            Test::Under => is_under(value, self.text),
        }
    }
}

/// A text occurs in bytes exactly where they are this text, with any bytes before it and after it.
pub fn texts_in_bytes()
    ensures around { (before text after : List ℕ) → contains (before ++ (text ++ after)) text ≡ true }
    ensures found { (bytes text : List ℕ) → contains bytes text ≡ true → Around bytes text }
{}
