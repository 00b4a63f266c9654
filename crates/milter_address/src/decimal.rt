//! Decimal numbers.

ghost use Rattle.std.specs.Prelude.{◌<◌, ℕ, IfNone, IfSome};
ghost use Rattle.std.specs.Char.{digit_value};
ghost use Rattle.std.specs.Option.{SomeIff};
ghost use Rattle.milter_address.specs.Networks.{IsDecimal};

/// The number that one to three decimal digits write, without a superfluous zero before them.
pub(crate) fn parse_decimal(text: &[u8]) -> Option<u16>
    ensures parsed { IfSome result (IsDecimal text.now) }
    ensures none { IfNone result ((number : ℕ) → ¬ (IsDecimal text.now number)) }
{
    match text {
        [ones] => digit(*ones),
        [tens, ones] if *tens != b'0' => Some(digit(*tens)? * 10 + digit(*ones)?),
        [hundreds, tens, ones] if *hundreds != b'0' => {
            Some((digit(*hundreds)? * 10 + digit(*tens)?) * 10 + digit(*ones)?)
        }
        _ => None,
    }
}

/// The value of a decimal digit.
fn digit(byte: u8) -> Option<u16>
    ensures { SomeIff result (digit_value byte < 10) (digit_value byte) }
{
    match byte {
        b'0'..=b'9' => Some(u16::from(byte - b'0')),
        _ => None,
    }
}
