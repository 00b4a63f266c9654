//! The texts that a filter has the mail server answer with.

ghost use Rattle.std.specs.Prelude.{◌≡◌};
ghost use Rattle.milter_fields.specs.Layout.{is_reply_code};
ghost use Rattle.milter_fields.specs.Decoders.{DecodesOptional, reply_code_in};

use crate::fault::NoMemory;
use crate::strings::one_string;
use crate::text::Text;
use std::alloc::Global;

/// Whether a text has the form of a reply code: `4` or `5`, two digits, and anything after them.
pub fn is_reply_code(text: &[u8]) -> bool
    ensures { result ≡ is_reply_code text.now }
{
    match text {
        [class, second, third, ..] => {
            (*class == b'4' || *class == b'5') && second.is_ascii_digit() && third.is_ascii_digit()
        }
        _ => false,
    }
}

/// The reply code that these bytes encode, all of the bytes.
#[tactic(auto, unfolding(crate::specs::Decoders::reply_code_in))]
pub fn take_reply_code(alloc: Global, bytes: &[u8]) -> Result<Option<Text>, NoMemory>
    ensures { DecodesOptional (reply_code_in bytes.now) result }
{
    let Some(text) = one_string(bytes) else {
        return Ok(None);
    };
    if !is_reply_code(text) {
        return Ok(None);
    }
    Ok(Some(Text::copy_of(alloc, text)?))
}
