//! The number in a condition that compares one.

use milter_rules::{Measure, limit_max};
use milter_text::Word;

/// The highest number that this field is compared with.
pub(crate) fn highest_of(field: &Word) -> u64 {
    let measure = if field.is_keyword(b"size") {
        Measure::Size
    } else {
        Measure::Rcpts
    };
    u64::from(limit_max(measure))
}

/// Whether the word is a number that this field may be compared with.
pub(crate) fn is_number_for(field: &Word, word: &Word) -> bool {
    match word.number() {
        Some(number) => number <= highest_of(field) && !has_needless_zero(word),
        None => false,
    }
}

/// Whether the text of the word is a number with a zero before it.
pub(crate) fn has_needless_zero(word: &Word) -> bool {
    matches!(word.text.as_slice(), [b'0', _, ..]) && has_digits_alone(word)
}

/// Whether the text of the word is decimal digits, one or more.
pub(crate) fn has_digits_alone(word: &Word) -> bool {
    let text = word.text.as_slice();
    !text.is_empty() && text.iter().all(|byte| byte.is_ascii_digit())
}
