//! The words of a line, and what can be wrong with a line.

ghost use Rattle.std.specs.Prelude.{◌≡◌, option_map};
ghost use Rattle.std.specs.Char.{is_ascii_digit};
ghost use Rattle.std.specs.List.{list_all};
ghost use Rattle.milter_text.specs.declared.word.WordFault.TheVariants as faults;
ghost use Rattle.milter_text.specs.WordFault.{word_fault_number};
ghost use Rattle.milter_text.specs.WordValues.{is_keyword, is_number, number_of, plain_text, text_of};

use milter_fields::{RefusedMemory, Text};
use std::str;
use thiserror::Error;

/// A word of a line.
#[derive(Clone, Debug, PartialEq, Eq, Drop)]
pub struct Word {
    /// The text of the word: of a plain word its bytes, of a quoted one the bytes between the quotes, each
    /// escape as the byte that it encodes.
    pub text: Text,
    /// Whether it is in quotes. `mail` and `"mail"` are two words.
    pub quoted: bool,
}

/// The most digits that a number has.
const NUMBER_LEN: usize = 10;

impl Word {
    /// Whether it is the keyword: plain words alone are.
    pub fn is_keyword(&self, keyword: &[u8]) -> bool
        ensures { result ≡ is_keyword keyword.now self.now }
    {
        !self.quoted && self.text.as_slice() == keyword
    }

    /// The text of a plain word; none of a quoted one.
    pub fn keyword(&self) -> Option<&[u8]>
        ensures { option_map (λ text. text.now) result ≡ plain_text self.now }
    {
        if self.quoted {
            return None;
        }
        Some(self.text.as_slice())
    }

    /// The text of a quoted word; none of a plain one.
    pub fn quoted_text(&self) -> Option<&Text>
        ensures { option_map (λ text. text.now) result ≡ text_of self.now }
    {
        if !self.quoted {
            return None;
        }
        Some(&self.text)
    }

    /// The number that a plain word of one to ten decimal digits is; none of any other word.
    pub fn number(&self) -> Option<u64>
        ensures { result ≡ number_of self.now }
    {
        if !self.is_number() {
            return None;
        }
        let digits = str::from_utf8(self.text.as_slice()).ok()?;
        digits.parse().ok()
    }

    /// Whether it is a number in decimal.
    fn is_number(&self) -> bool
        ensures { result ≡ is_number self.now }
    {
        let digits = self.text.as_slice();
        if self.quoted || digits.is_empty() || digits.len() > NUMBER_LEN {
            return false;
        }
        are_digits(digits)
    }
}

/// Whether each of the bytes is a digit.
fn are_digits(bytes: &[u8]) -> bool
    ensures { result ≡ list_all is_ascii_digit bytes.now }
{
    bytes.iter().all(|byte| byte.is_ascii_digit())
}

/// Why a line has no words.
#[derive(Clone, Copy, Debug, PartialEq, Eq, Error)]
pub enum WordFault {
    /// Some part of the line is no word.
    #[error("bad word")]
    BadWord,
    /// The memory that was asked for was refused.
    #[error("out of memory")]
    NoMemory,
}

impl WordFault {
    /// The fault's number: 1 for `BadWord`, 2 for `NoMemory`.
    pub fn number(&self) -> u8
        ensures { result ≡ word_fault_number self.now }
    {
        match self {
            WordFault::BadWord => 1,
            WordFault::NoMemory => 2,
        }
    }
}

impl<E: RefusedMemory> From<E> for WordFault {
    ghost from_gives = { λ _ e. e ≡ faults.NoMemory };

    fn from(_error: E) -> WordFault {
        WordFault::NoMemory
    }
}
