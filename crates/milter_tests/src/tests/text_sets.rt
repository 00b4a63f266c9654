//! A set of texts is built, and texts are looked up in it.

use milter_lists::{EntryFault, TextSet, TextSetBuilder};
use std::alloc::Global;
use std::test::Fail;

/// The set of these entries.
fn set_of(alloc: Global, entries: &[&[u8]]) -> Result<TextSet, EntryFault> {
    let mut builder = TextSetBuilder::new(alloc);
    for entry in entries {
        builder.push(entry)?;
    }
    Ok(builder.build())
}

#[test]
fn entries_are_found(rt: HostRuntime) -> Result<(), Fail> {
    let entries: [&[u8]; 5] = [b"b.example", b"a.example", b"", b"b.example", b"\xff"];
    let set = set_of(rt.alloc(), &entries)?;
    for entry in entries {
        assert!(rt; set.contains(entry));
    }
    let others: [&[u8]; 4] = [b"a", b"a.exampl", b"a.example.", b"B.example"];
    for other in others {
        assert!(rt; !set.contains(other));
    }
    Ok(())
}

#[test]
fn entries_that_begin_alike_are_found(rt: HostRuntime) -> Result<(), Fail> {
    let entries: [&[u8]; 7] = [
        b"list-of-12345678b",
        b"list-of-a\0",
        b"list-of-12345678a",
        b"list-of-a",
        b"list-of-12345678",
        b"list-of-",
        b"list-of-\xff",
    ];
    let set = set_of(rt.alloc(), &entries)?;
    for entry in entries {
        assert!(rt; set.contains(entry));
    }
    let others: [&[u8]; 5] = [
        b"",
        b"list-of",
        b"list-of-a\0\0",
        b"list-of-12345678c",
        b"a",
    ];
    for other in others {
        assert!(rt; !set.contains(other));
    }
    Ok(())
}

#[test]
fn an_end_is_not_a_zero_byte(rt: HostRuntime) -> Result<(), Fail> {
    let entries: [&[u8]; 6] = [b"a\0\0", b"a", b"", b"\0", b"12345678\0", b"12345678"];
    let set = set_of(rt.alloc(), &entries)?;
    for entry in entries {
        assert!(rt; set.contains(entry));
    }
    assert!(rt; !set.contains(b"a\0"));
    assert!(rt; !set.contains(b"\0\0"));
    Ok(())
}
