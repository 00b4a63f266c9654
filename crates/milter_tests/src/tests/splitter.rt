//! A splitter, fed with pieces.

use milter_fields::{Splitter, WireFault};

/// Whether the splitter takes so many bytes of the piece.
fn takes(splitter: &mut Splitter, piece: &[u8], count: usize) -> bool {
    splitter.feed(piece) == Ok(count)
}

/// Whether the splitter hands out this packet.
fn hands_out(splitter: &mut Splitter, code: u8, payload: &[u8]) -> bool {
    match splitter.next() {
        Ok(Some(packet)) => packet.code == code && packet.payload == payload,
        _ => false,
    }
}

/// Whether the splitter hands out no packet, and keeps so many bytes.
fn keeps(splitter: &mut Splitter, count: usize) -> bool {
    match splitter.next() {
        Ok(None) => splitter.unread() == count,
        _ => false,
    }
}

/// Whether the splitter hands out a length of 0, and keeps its four bytes.
fn is_at_fault(splitter: &mut Splitter) -> bool {
    match splitter.next() {
        Err(WireFault::ZeroLength) => splitter.unread() == 4,
        _ => false,
    }
}

/// A packet with two bytes, and one with none.
const TWO: [u8; 12] = [0, 0, 0, 3, 0x4f, 0x61, 0x62, 0, 0, 0, 1, 0x51];

/// Whether the splitter takes the first packet byte by byte, and hands it out after the last one.
fn is_fed_by_bytes(splitter: &mut Splitter) -> bool {
    let mut right = true;
    for (count, byte) in TWO[..7].iter().enumerate() {
        right = right && keeps(splitter, count) && takes(splitter, &[*byte], 1);
    }
    right && hands_out(splitter, 0x4f, &[0x61, 0x62]) && splitter.at_end() == Ok(())
}

/// Whether the splitter takes no more than the first packet, and then the second one in two pieces.
fn is_fed_by_packets(splitter: &mut Splitter) -> bool {
    takes(splitter, &TWO, 7)
        && takes(splitter, &TWO[7..], 0)
        && hands_out(splitter, 0x4f, &[0x61, 0x62])
        && takes(splitter, &TWO[7..11], 4)
        && keeps(splitter, 4)
        && splitter.at_end() == Err(WireFault::Truncated(4))
        && takes(splitter, &TWO[11..], 1)
        && hands_out(splitter, 0x51, &[])
}

#[test]
fn packets_come_once_they_are_whole(rt: HostRuntime) {
    let mut splitter = Splitter::new(rt.alloc());
    assert!(rt; is_fed_by_bytes(&mut splitter));
    assert!(rt; is_fed_by_packets(&mut splitter));
}

/// Whether a length at fault is known at its fourth byte, and the splitter then takes nothing.
fn is_stopped(splitter: &mut Splitter) -> bool {
    takes(splitter, &[0, 0, 0], 3)
        && keeps(splitter, 3)
        && takes(splitter, &[0, 0x4f], 1)
        && is_at_fault(splitter)
        && takes(splitter, &[0x4f], 0)
        && is_at_fault(splitter)
        && splitter.at_end() == Err(WireFault::ZeroLength)
}

/// Whether a cleared splitter has no byte and no fault, and takes packets again.
fn is_cleared(splitter: &mut Splitter) -> bool {
    splitter.clear();
    keeps(splitter, 0)
        && splitter.at_end() == Ok(())
        && takes(splitter, &TWO[7..], 5)
        && hands_out(splitter, 0x51, &[])
}

#[test]
fn a_length_at_fault_stays_until_it_is_cleared(rt: HostRuntime) {
    let mut splitter = Splitter::new(rt.alloc());
    assert!(rt; is_stopped(&mut splitter));
    assert!(rt; is_cleared(&mut splitter));
}

/// Whether the splitter takes the longest packet and no byte after it, until the packet is handed out.
fn takes_the_longest(splitter: &mut Splitter, payload: &[u8]) -> bool {
    takes(splitter, &[0, 1, 0, 0, 0x42], 5)
        && takes(splitter, payload, 65_535)
        && splitter.unread() == 65_540
        && takes(splitter, &TWO[7..], 0)
        && hands_out(splitter, 0x42, payload)
        && takes(splitter, &TWO[7..], 5)
}

#[test]
fn the_longest_packet_fills_the_buffer(rt: HostRuntime) {
    let mut splitter = Splitter::new(rt.alloc());
    let payload = vec![in rt.alloc(); 0x78; 65_535].expect(&rt, "there is memory");
    assert!(rt; takes_the_longest(&mut splitter, &payload));
}
