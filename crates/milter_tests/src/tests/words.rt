//! The words of lines that no session file has, and texts that name sets of bits.

use milter_text::{Word, WordFault, words};
use milter_wire::{Actions, Protocol};
use std::alloc::Global;

/// Whether these are the words, each plain.
fn are_plain(found: &[Word], expected: &[&[u8]]) -> bool {
    let mut same = found.len() == expected.len();
    for (word, text) in found.iter().zip(expected) {
        same = same && word.text.as_slice() == *text && !word.quoted;
    }
    same
}

/// Whether the line has these plain words.
fn has_plain(alloc: Global, line: &[u8], expected: &[&[u8]]) -> bool {
    match words(alloc, line) {
        Ok(found) => are_plain(&found, expected),
        Err(_) => false,
    }
}

/// Whether the line has no words.
fn has_none(alloc: Global, line: &[u8]) -> bool {
    match words(alloc, line) {
        Ok(_) => false,
        Err(fault) => fault == WordFault::BadWord,
    }
}

#[test]
fn plain_words_stand_between_blanks(rt: HostRuntime) {
    let lines: [(&[u8], &[&[u8]]); 3] = [
        (b"   ", &[]),
        (b"  end ", &[b"end"]),
        (b"!~\\x  #'", &[b"!~\\x", b"#'"]),
    ];
    for (line, expected) in lines {
        assert!(rt; has_plain(rt.alloc(), line, expected));
    }
    let bad: [&[u8]; 2] = [b"a\"", b"a b\"c"];
    for line in bad {
        assert!(rt; has_none(rt.alloc(), line));
    }
}

/// Whether a line of this byte alone has it as its word, or has none: a word is visible ASCII but quotes.
fn is_word_or_none(alloc: Global, byte: u8) -> bool {
    if byte > 0x20 && byte < 0x7f && byte != b'"' {
        has_plain(alloc, &[byte], &[&[byte]])
    } else {
        byte == b' ' || has_none(alloc, &[byte])
    }
}

#[test]
fn words_are_visible_ascii(rt: HostRuntime) {
    for byte in 0..=255u8 {
        assert!(rt; is_word_or_none(rt.alloc(), byte), "{byte}");
    }
}

#[test]
fn texts_name_sets_of_bits(rt: HostRuntime) {
    let actions = Actions::from_names("CHGBODY|ADDHDRS|CHGBODY");
    assert!(rt; actions == Some(Actions(0x03)));
    let protocol = Protocol::from_names("SKIP|NR_BODY");
    assert!(rt; protocol == Some(Protocol(0x8_0400)));
}
