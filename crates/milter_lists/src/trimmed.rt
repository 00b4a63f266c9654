//! Lines without the blanks around them.

ghost use Rattle.std.specs.Prelude.{◌≡◌};
ghost use Rattle.milter_address.specs.Trimmed.{trimmed_end, trimmed_start};
ghost use Rattle.milter_lists.specs.Listed.{is_blank, trimmed};

/// The bytes without blanks at their start and at their end. Doesn't allocate.
pub(crate) fn trimmed(line: &[u8]) -> &[u8]
    ensures { result.now ≡ trimmed line.now }
{
    without_last_blanks(without_first_blanks(line))
}

/// The bytes without blanks at their start.
fn without_first_blanks(bytes: &[u8]) -> &[u8]
    ensures { result.now ≡ trimmed_start is_blank bytes.now }
{
    let mut rest = bytes;
    while let [b' ', behind @ ..] = rest {
        rest = behind;
    }
    rest
}

/// The bytes without blanks at their end.
fn without_last_blanks(bytes: &[u8]) -> &[u8]
    ensures { result.now ≡ trimmed_end is_blank bytes.now }
{
    let mut rest = bytes;
    while let Some((last, before)) = rest.split_last() {
        if *last != b' ' {
            return rest;
        }
        rest = before;
    }
    rest
}
