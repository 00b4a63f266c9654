//! Bytes without some at their start or at their end.

ghost use Rattle.std.specs.Prelude.{◌≡◌};
ghost use Rattle.milter_address.specs.Address.{bare, closes, opens};
ghost use Rattle.milter_address.specs.Bytes.{is_dot};
ghost use Rattle.milter_address.specs.Trimmed.{trimmed_end, trimmed_start};

/// A path without `<` at its start, and without `>` and dots at its end. Doesn't allocate.
pub(crate) fn bare(path: &[u8]) -> &[u8]
    ensures { result.now ≡ bare path.now }
{
    without_closing(without_opening(path))
}

/// A domain without dots at its end. Doesn't allocate.
pub(crate) fn without_dots(domain: &[u8]) -> &[u8]
    ensures { result.now ≡ trimmed_end is_dot domain.now }
{
    let mut rest = domain;
    while let Some((last, before)) = rest.split_last() {
        if *last != b'.' {
            return rest;
        }
        rest = before;
    }
    rest
}

/// A path without `<` at its start.
fn without_opening(path: &[u8]) -> &[u8]
    ensures { result.now ≡ trimmed_start opens path.now }
{
    let mut rest = path;
    while let [b'<', behind @ ..] = rest {
        rest = behind;
    }
    rest
}

/// A path without `>` and dots at its end.
fn without_closing(path: &[u8]) -> &[u8]
    ensures { result.now ≡ trimmed_end closes path.now }
{
    let mut rest = path;
    while let Some((last, before)) = rest.split_last() {
        if !closes(*last) {
            return rest;
        }
        rest = before;
    }
    rest
}

/// Whether a path is taken without the byte at its end.
fn closes(byte: u8) -> bool
    ensures { result ≡ closes byte }
{
    byte == b'>' || byte == b'.'
}
