//! Texts as files have them: lines, the words of a line, texts in quotes, and patterns.
//!
//! Session files, rule files and traces are lines. A word of a line is plain or in quotes, and in quotes it may have
//! any byte. [`words`] reads the words of a line, a [`LineCursor`] those of one line of a file after the other, and
//! [`quote`] writes a text so that it is read back as it was. [`is_like`] compares a value with a pattern in which `*`
//! stands for any bytes and `?` for any one byte.
#![tactic(auto)]

mod escapes;
mod glob;
mod glob_laws;
mod laws;
mod line_cursor;
mod line_fault;
mod line_words;
mod lines;
mod quotes;
mod runs;
mod text_fault;
mod text_writer;
mod word;

pub use glob::{ANY_BYTE, ANY_RUN, TextCase, is_like};
pub use glob_laws::{joined_patterns, plain_patterns, short_patterns};
pub use laws::{
    first_line_feeds, first_lines, lines_of_texts, lines_of_words, quoted_texts, written_numbers,
};
pub use line_cursor::{FileLine, LineCursor};
pub use line_fault::LineFault;
pub use line_words::words;
pub use lines::{is_skipped, line_content};
pub use quotes::{put_escaped, quote};
pub use text_fault::TextFault;
pub use text_writer::{TextWriter, write_text};
pub use word::{Word, WordFault};
