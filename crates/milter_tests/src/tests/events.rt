//! Tests of what no clause says: that a file is read where memory is ample, and which line is at fault.

use milter_world::{Event, EventFault, read_events};
use std::alloc::Global;

/// Whether the file has these events.
fn has_events(alloc: Global, bytes: &[u8], expected: &[Event]) -> bool {
    match read_events(alloc, bytes) {
        Ok(events) => events.as_slice() == expected,
        Err(_) => false,
    }
}

/// Whether the file has this fault.
fn has_fault(alloc: Global, bytes: &[u8], expected: EventFault) -> bool {
    match read_events(alloc, bytes) {
        Ok(_) => false,
        Err(fault) => fault == expected,
    }
}

#[test]
fn a_file_has_its_events(rt: HostRuntime) {
    let bytes =
        b"# every line\n\ndial\nsend 1\nto-filter 2\nanswer 3\nto-mta 4\nrounds 2 5\nround 6\ndie\nlose\r\n timeout";
    let expected = [
        Event::Dial,
        Event::Send(1),
        Event::ToFilter(2),
        Event::Answer(3),
        Event::ToMta(4),
        Event::Send(5),
        Event::ToFilter(5),
        Event::Answer(5),
        Event::ToMta(5),
        Event::Send(5),
        Event::ToFilter(5),
        Event::Answer(5),
        Event::ToMta(5),
        Event::Send(6),
        Event::ToFilter(6),
        Event::Answer(6),
        Event::ToMta(6),
        Event::Die,
        Event::Lose,
        Event::Timeout,
    ];
    assert!(rt; has_events(rt.alloc(), bytes, &expected));
}

#[test]
fn faults_are_of_their_lines(rt: HostRuntime) {
    let files: [(&[u8], EventFault); 4] = [
        (
            b"dial\n\n# none\n\"die\"\nrounds 2500001 1\n",
            EventFault::UnknownLine(4),
        ),
        (b"dial\nsend \"1\n", EventFault::UnknownLine(2)),
        (b"dial\nrounds 2500000 1\nhang up\n", EventFault::TooMany(2)),
        (b"rounds 4294967295 4294967295", EventFault::TooMany(1)),
    ];
    for (bytes, fault) in files {
        assert!(rt; has_fault(rt.alloc(), bytes, fault));
    }
}
