//! Lists of each kind are read, and values are looked up in them.

use milter_lists::{ListFault, ListKind, TextList};
use std::test::Fail;

/// A kind, the bytes of a file, a value, and whether the list has it.
type Row = (ListKind, &'static [u8], &'static [u8], bool);

const ROWS: [Row; 14] = [
    (
        ListKind::Addresses,
        b"# spam\n\n <A@B.example> \r\n",
        b"a@b.example",
        true,
    ),
    (ListKind::Addresses, b"a@b.example\n<>", b"", true),
    (ListKind::Addresses, b"a@b.example", b"", false),
    (
        ListKind::Domains,
        b"a.example\nB.Example.",
        b"b.EXAMPLE",
        true,
    ),
    (ListKind::Domains, b"b.example", b"a.b.example", false),
    (ListKind::Domains, b".b.example", b"x.a.b.example", true),
    (ListKind::Domains, b".b.example", b"b.example", false),
    (
        ListKind::Networks,
        b"10.0.0.0/8\n2001:db8::/32",
        b"10.1.2.3",
        true,
    ),
    (ListKind::Networks, b"10.0.0.0/8", b"11.1.2.3", false),
    (ListKind::Networks, b"10.0.0.0/8", b"::ffff:10.1.2.3", true),
    (ListKind::Networks, b"::/0", b"10.1.2.3", false),
    (ListKind::Networks, b"2001:db8::/32", b"2001:db8:1::2", true),
    (ListKind::Texts, b"Two words\n", b"tWO WORDS", true),
    (ListKind::Texts, b"Two words\n", b"two", false),
];

#[test]
fn values_are_found(rt: HostRuntime) -> Result<(), Fail> {
    for (kind, file, value, has) in &ROWS {
        let list = TextList::read(rt.alloc(), *kind, file)?;
        assert_eq!(rt; list.has(rt.alloc(), value)?, *has);
    }
    Ok(())
}

const FAULTS: [(ListKind, &[u8], ListFault); 4] = [
    (
        ListKind::Addresses,
        b"#\na@b\nb.example",
        ListFault::BadEntry(3),
    ),
    (ListKind::Addresses, b"@b.example", ListFault::BadEntry(1)),
    (ListKind::Domains, b"..b.example", ListFault::BadEntry(1)),
    (ListKind::Networks, b"10.0.0.0/33", ListFault::BadEntry(1)),
];

#[test]
fn bad_entries_are_refused(rt: HostRuntime) {
    for (kind, file, fault) in &FAULTS {
        let found = TextList::read(rt.alloc(), *kind, file).err();
        assert_eq!(rt; found, Some(*fault));
    }
}
