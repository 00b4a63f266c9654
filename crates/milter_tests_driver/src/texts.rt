//! The words of a line, and what they stand for.

use anyhow::{Context, bail};
use milter_wire::{
    Actions, ClientRef, Options, OriginRef, Pair, ParamsRef, PathRef, Protocol, Text, Verdict,
};
use std::alloc::Global;
use std::str::from_utf8;

/// What a word stands for by a table of words.
pub fn value_in<T: Copy>(table: &[(&str, T)], word: &str) -> Option<T> {
    for (name, value) in table {
        if *name == word {
            return Some(*value);
        }
    }
    None
}

/// The text that these bytes are, to be printed.
pub fn text_of(bytes: &[u8]) -> &str {
    from_utf8(bytes).unwrap_or("no text")
}

/// A text as a string.
pub fn str_of(text: &Text) -> anyhow::Result<&str> {
    from_utf8(text.as_slice()).ok().context("a word is no text")
}

/// The one text of some.
pub fn one_of(texts: &[Text]) -> anyhow::Result<&[u8]> {
    let [text] = texts else {
        bail!("one text is to follow");
    };
    Ok(text.as_slice())
}

/// The two texts of some.
pub fn two_of(texts: &[Text]) -> anyhow::Result<(&[u8], &[u8])> {
    let [first, second] = texts else {
        bail!("two texts are to follow");
    };
    Ok((first.as_slice(), second.as_slice()))
}

/// A number of bytes, of packets or of calls.
pub fn number_in(word: &str) -> anyhow::Result<usize> {
    word.parse::<usize>().ok().context("no number")
}

/// The number that the one text of some is.
pub fn number_of(texts: &[Text]) -> anyhow::Result<usize> {
    let [text] = texts else {
        bail!("a number is to follow");
    };
    number_in(str_of(text)?)
}

/// A number in hexadecimal digits.
pub fn bits_in(text: &Text) -> anyhow::Result<u32> {
    u32::from_str_radix(str_of(text)?, 16)
        .ok()
        .context("bits are to be a hexadecimal number")
}

/// Options, in hexadecimal digits.
pub fn options_in(version: &Text, actions: &Text, protocol: &Text) -> anyhow::Result<Options> {
    Ok(Options {
        version: bits_in(version)?,
        actions: Actions(bits_in(actions)?),
        protocol: Protocol(bits_in(protocol)?),
    })
}

/// The bytes that the one text of some has in hexadecimal digits; none where there is no text.
pub fn piece_in(alloc: Global, texts: &[Text]) -> anyhow::Result<Vec<u8>> {
    if texts.is_empty() {
        return Ok(Vec::new(alloc));
    }
    Ok(hex::decode(alloc, one_of(texts)?)?)
}

/// The verdict of a word, but for that of a code.
pub fn verdict_in(word: &str) -> Option<Verdict> {
    match word {
        "continue" => Some(Verdict::Continue),
        "accept" => Some(Verdict::Accept),
        "reject" => Some(Verdict::Reject),
        "tempfail" => Some(Verdict::Tempfail),
        "discard" => Some(Verdict::Discard),
        "skip" => Some(Verdict::Skip),
        _ => None,
    }
}

/// A macro.
pub fn pair_in(alloc: Global, texts: &[Text]) -> anyhow::Result<Pair> {
    let (name, value) = two_of(texts)?;
    let name = Text::copy_of(alloc, name)?;
    let value = Text::copy_of(alloc, value)?;
    Ok(Pair { name, value })
}

/// A sender or a recipient, with its parameters.
pub fn path_in(texts: &[Text]) -> anyhow::Result<PathRef<'_>> {
    let [address, params @ ..] = texts else {
        bail!("an address is to follow");
    };
    Ok(PathRef {
        address: address.as_slice(),
        params: ParamsRef::new(params),
    })
}

/// Where a client connects from.
fn origin_in<'a>(family: &str, port: u16, address: &'a [u8]) -> anyhow::Result<OriginRef<'a>> {
    match family {
        "4" => Ok(OriginRef::Inet { port, address }),
        "6" => Ok(OriginRef::Inet6 { port, address }),
        "L" => Ok(OriginRef::Unix { port, address }),
        _ => bail!("a family is to be 4, 6 or L"),
    }
}

/// A client.
pub fn client_in(texts: &[Text]) -> anyhow::Result<ClientRef<'_>> {
    match texts {
        [host] => Ok(ClientRef {
            host: host.as_slice(),
            origin: OriginRef::Unknown,
        }),
        [host, family, port, address] => {
            let port = str_of(port)?.parse::<u16>().ok().context("no port")?;
            Ok(ClientRef {
                host: host.as_slice(),
                origin: origin_in(str_of(family)?, port, address.as_slice())?,
            })
        }
        _ => bail!("connect HOST FAMILY PORT ADDRESS"),
    }
}
