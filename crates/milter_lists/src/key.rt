//! Numbers that are in the order of the texts whose first bytes they have.

ghost use Rattle.std.specs.Prelude.{◌≡◌, ◌≤◌, length, slice_index, take};
ghost use Rattle.milter_lists.specs.Keys.{key_of};

/// The first eight bytes of a text as a number, of which the first byte counts most. Behind its end they are zeros.
pub(crate) fn key_of(text: &[u8]) -> u64
    ensures { result ≡ key_of text.now }
{
    u64::from_be_bytes([
        byte_at(text, 0),
        byte_at(text, 1),
        byte_at(text, 2),
        byte_at(text, 3),
        byte_at(text, 4),
        byte_at(text, 5),
        byte_at(text, 6),
        byte_at(text, 7),
    ])
}

/// The byte at a place; 0 behind the end.
fn byte_at(text: &[u8], place: usize) -> u8
    ensures { result ≡ slice_index text.now place }
{
    if place < text.len() { text[place] } else { 0 }
}

/// How many bytes at their beginnings two texts have in common.
pub(crate) fn shared_len(a: &[u8], b: &[u8]) -> usize
    ensures bound { result ≤ length a.now }
    ensures same { take result a.now ≡ take result b.now }
{
    let mut shared = 0;
    while shared < a.len() && shared < b.len() && a[shared] == b[shared] {
        shared += 1;
    }
    shared
}
