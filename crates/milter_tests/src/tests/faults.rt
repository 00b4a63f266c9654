//! The texts of the faults that no program prints.

use milter_text::WordFault;
use std::alloc::Global;

/// Whether this is the text of the fault.
fn has_text(alloc: Global, fault: &WordFault, text: &str) -> bool {
    match fault.to_string(alloc) {
        Ok(found) => found.as_str() == text,
        Err(_) => false,
    }
}

#[test]
fn faults_of_words_have_texts(rt: HostRuntime) {
    for (fault, text) in [
        (WordFault::BadWord, "bad word"),
        (WordFault::NoMemory, "out of memory"),
    ] {
        assert!(rt; has_text(rt.alloc(), &fault, text));
    }
}
