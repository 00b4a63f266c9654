//! Sets of keys.

ghost use Rattle.std.specs.Prelude.{◌≡◌, IfOk};
ghost use Rattle.std.specs.Str.{str_to_ascii_lowercase};
ghost use Rattle.milter_lists.specs.ListKeys.{is_key};

use crate::text_set::TextSet;
use milter_fields::NoMemory;
use std::alloc::Global;

/// Whether it is one of the keys. Doesn't allocate.
pub(crate) fn is_key(keys: &TextSet, key: &[u8]) -> bool
    ensures { result ≡ is_key keys.now key.now }
{
    keys.contains(key)
}

/// Whether the text in lower case is one of the keys. A text that is longer than each of them isn't copied.
pub(crate) fn has_text(alloc: Global, keys: &TextSet, text: &[u8]) -> Result<bool, NoMemory>
    ensures { IfOk result (λ has. has ≡ is_key keys.now (str_to_ascii_lowercase text.now)) }
{
    if text.len() > keys.longest() {
        return Ok(false);
    }
    let lower = text.to_ascii_lowercase(alloc)?;
    Ok(is_key(keys, lower.as_slice()))
}
