//! Copies of the parts of a message. Each text is copied once.

ghost use Rattle.std.specs.Prelude.{◌≡◌, IfOk};

use milter_wire::{Header, NoMemory, Params, Path, Text};
use std::alloc::Global;

/// A header field of the same name and value.
pub(crate) fn copy_header(alloc: Global, header: &Header) -> Result<Header, NoMemory>
    ensures { IfOk result (λ copy. copy ≡ header.now) }
{
    let name = Text::copy_of(alloc, header.name.as_slice())?;
    let value = Text::copy_of(alloc, header.value.as_slice())?;
    Ok(Header { name, value })
}

/// A text of the same bytes, or none.
pub(crate) fn copy_optional(alloc: Global, text: &Option<Text>) -> Result<Option<Text>, NoMemory>
    ensures { IfOk result (λ copy. copy ≡ text.now) }
{
    match text {
        Some(text) => Ok(Some(Text::copy_of(alloc, text.as_slice())?)),
        None => Ok(None),
    }
}

/// The same header fields, in order.
pub(crate) fn copy_headers(alloc: Global, headers: &[Header]) -> Result<Vec<Header>, NoMemory>
    ensures { IfOk result (λ copies. copies.items ≡ headers.now) }
{
    let mut copies = Vec::with_capacity(alloc, headers.len())?;
    for header in headers {
        copies.push(copy_header(alloc, header)?)?;
    }
    Ok(copies)
}

/// The same parameters, in order.
fn copy_params(alloc: Global, params: &Params) -> Result<Params, NoMemory>
    ensures { IfOk result (λ copy. copy ≡ params.now) }
{
    let texts = params.as_slice();
    let mut copies = Vec::with_capacity(alloc, texts.len())?;
    for text in texts {
        copies.push(Text::copy_of(alloc, text.as_slice())?)?;
    }
    Ok(Params::new(copies))
}

/// A path of the same address and parameters.
pub(crate) fn copy_path(alloc: Global, path: &Path) -> Result<Path, NoMemory>
    ensures { IfOk result (λ copy. copy ≡ path.now) }
{
    let address = Text::copy_of(alloc, path.address.as_slice())?;
    let params = copy_params(alloc, &path.params)?;
    Ok(Path { address, params })
}
