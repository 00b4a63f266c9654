//! How a packet's code is printed.

ghost use Rattle.std.specs.Prelude.{◌≡◌, ◌<◌, Some};
ghost use Rattle.milter_fields.specs.Code.{code_text, hex_digit};

use std::fmt;

/// A code as it is printed: a visible ASCII character as itself, and any other byte as `\xhh`, in one or four
/// characters.
#[derive(Clone, Copy, Debug, PartialEq, Eq)]
pub struct CodeName(pub u8);

impl fmt::Display for CodeName {
    ghost output = { λ name. Some (code_text name.0) };

    fn fmt<W: fmt::Write>(&self, f: &mut fmt::Formatter<W>) -> fmt::Result {
        let code = self.0;
        if code.is_ascii_graphic() {
            return write!(f, "{}", char::from(code));
        }
        let high = char::from(hex_digit(code / 16));
        let low = char::from(hex_digit(code % 16));
        write!(f, "\\x{high}{low}")
    }
}

/// The hexadecimal digit of a number below 16, a letter in lower case. Doesn't allocate.
pub fn hex_digit(value: u8) -> u8
    requires { value < 16 }
    ensures { result ≡ hex_digit value }
{
    if value < 10 {
        b'0' + value
    } else {
        b'a' + (value - 10)
    }
}
