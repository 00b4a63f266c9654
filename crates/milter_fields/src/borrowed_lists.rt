//! Lists that are borrowed: from a packet, whose bytes are gone over in place, or from the lists that a command is made
//! of.

ghost use Rattle.std.specs.Prelude.{◌≡◌, ◌-◌, ◌^◌, ◌↔◌, All, IfOk, IsSome, IsTrue, length, min, option_map};
ghost use Rattle.std.specs.List.{flat_map};
ghost use Rattle.milter_fields.specs.AppendedBytes.{PutsBytes};
ghost use Rattle.milter_fields.specs.Field.{HasNoNul, string};
ghost use Rattle.milter_fields.specs.Layout.{pair, PairFits};
ghost use Rattle.milter_fields.specs.Decoders.{pairs_in, strings_in};
ghost use Rattle.milter_fields.specs.Borrowed.{pair_of};
ghost use Rattle.milter_fields.specs.Lists.{decoded, first_of};

use crate::fault::NoMemory;
use crate::lists::{Pairs, Params};
use crate::pair::{Pair, PairRef, pairs_fit, pairs_len, put_pairs};
use crate::sequences::{are_pairs, are_strings, have_no_nul, put_strings, strings_len};
use crate::strings::{put_bytes, take_string};
use crate::text::Text;
use std::alloc::Global;
use std::marker::Model;

/// The ESMTP parameters that follow an address, borrowed from a packet or from [`Params`]. Source: the libmilter
/// callback documentation (xxfi_envfrom, xxfi_envrcpt).
#[derive(Debug, Drop)]
pub struct ParamsRef<'a> {
    encoded: &'a [u8],
    texts: &'a [Text],
}

impl<'a> Model for ParamsRef<'a> {
    ghost use Rattle.std.specs.Prelude.{List, ℕ, ◌++◌, IsSome};
    ghost use Rattle.milter_fields.specs.Decoders.{strings_in};
    ghost use Rattle.milter_fields.specs.Lists.{decoded};

    ghost Value = { List (List ℕ) };

    ghost view = { λ p. decoded (strings_in p.encoded.now) ++ p.texts.now };

    ghost invariant = { λ p. IsSome (strings_in p.encoded.now) };
}

impl<'a> ParamsRef<'a> {
    /// The parameters that these texts are. Doesn't allocate.
    #[tactic(auto, unfolding(crate::specs::Decoders::strings_in))]
    pub fn new(texts: &'a [Text]) -> Self
        ensures { result ≡ texts.now }
    {
        ParamsRef {
            encoded: &[],
            texts,
        }
    }

    /// The parameters that these bytes encode, all of the bytes.
    pub fn of_payload(bytes: &'a [u8]) -> Option<ParamsRef<'a>>
        ensures { result ≡ strings_in bytes.now }
    {
        if !are_strings(bytes) {
            return None;
        }
        Some(ParamsRef {
            encoded: bytes,
            texts: &[],
        })
    }

    /// The first parameter, and the others. Doesn't allocate.
    pub fn split_first(&self) -> Option<(&'a [u8], ParamsRef<'a>)>
        ensures { option_map (λ x. (x.0.now, x.1)) result ≡ first_of self.now }
    {
        let texts = self.texts;
        if let Some((text, encoded)) = take_string(self.encoded) {
            return Some((text, ParamsRef { encoded, texts }));
        }
        match texts {
            [text, texts @ ..] => Some((text.as_slice(), ParamsRef::new(texts))),
            [] => None,
        }
    }

    /// A copy of the parameters.
    pub fn to_params(&self, alloc: Global) -> Result<Params, NoMemory>
        ensures { IfOk result (λ copy. copy ≡ self.now) }
    {
        let mut texts = Vec::new(alloc);
        let mut rest = self.all();
        while let Some((text, others)) = rest.split_first() {
            texts.push(Text::copy_of(alloc, text)?)?;
            rest = others;
        }
        Ok(Params::new(texts))
    }

    /// The same parameters once more.
    fn all(&self) -> ParamsRef<'a>
        ensures { result ≡ self.now }
    {
        ParamsRef {
            encoded: self.encoded,
            texts: self.texts,
        }
    }

    /// Whether no string has a NUL.
    pub fn fit(&self) -> bool
        ensures { IsTrue result ↔ All HasNoNul self.now }
    {
        have_no_nul(self.texts)
    }

    /// The number of bytes of the strings, or the greatest `usize`.
    pub fn payload_len(&self) -> usize
        ensures { result ≡ min (length (flat_map string self.now)) (2 ^ 64 - 1) }
    {
        self.encoded.len().saturating_add(strings_len(self.texts))
    }

    /// Appends the strings.
    pub fn put(&self, out: &mut Vec<u8>) -> Result<(), NoMemory>
        ensures { PutsBytes (flat_map string self.now) out.old.items out.new.items result }
    {
        put_bytes(out, self.encoded)?;
        put_strings(out, self.texts)
    }
}

/// The macros of a macro packet, borrowed from a packet or from [`Pairs`]. Source: mfdef.h (SMFIC_MACRO).
#[derive(Debug, Drop)]
pub struct PairsRef<'a> {
    encoded: &'a [u8],
    pairs: &'a [Pair],
}

impl<'a> Model for PairsRef<'a> {
    ghost use Rattle.std.specs.Prelude.{List, ◌++◌, IsSome};
    ghost use Rattle.milter_fields.specs.declared.pair.Pair.{Pair};
    ghost use Rattle.milter_fields.specs.Decoders.{pairs_in};
    ghost use Rattle.milter_fields.specs.Lists.{decoded};

    ghost Value = { List Pair };

    ghost view = { λ p. decoded (pairs_in p.encoded.now) ++ p.pairs.now };

    ghost invariant = { λ p. IsSome (pairs_in p.encoded.now) };
}

impl<'a> PairsRef<'a> {
    /// The macros that these pairs are: all of a stage, or a selection. Doesn't allocate.
    #[tactic(auto, using(crate::proofs::BorrowedLists::no_pairs))]
    pub fn new(pairs: &'a [Pair]) -> Self
        ensures { result ≡ pairs.now }
    {
        PairsRef {
            encoded: &[],
            pairs,
        }
    }

    /// The macros that these bytes encode, all of the bytes.
    pub fn of_payload(bytes: &'a [u8]) -> Option<PairsRef<'a>>
        ensures { result ≡ pairs_in bytes.now }
    {
        if !are_pairs(bytes) {
            return None;
        }
        Some(PairsRef {
            encoded: bytes,
            pairs: &[],
        })
    }

    /// The first macro, and the others. Doesn't allocate.
    pub fn split_first(&self) -> Option<(PairRef<'a>, PairsRef<'a>)>
        ensures { option_map (λ x. (pair_of x.0, x.1)) result ≡ first_of self.now }
    {
        let pairs = self.pairs;
        if let Some((name, middle)) = take_string(self.encoded) {
            let (value, encoded) = take_string(middle)?;
            return Some((PairRef { name, value }, PairsRef { encoded, pairs }));
        }
        match pairs {
            [pair, pairs @ ..] => Some((pair.as_ref(), PairsRef::new(pairs))),
            [] => None,
        }
    }

    /// A copy of the macros.
    pub fn to_pairs(&self, alloc: Global) -> Result<Pairs, NoMemory>
        ensures { IfOk result (λ copy. copy ≡ self.now) }
    {
        let mut pairs = Vec::new(alloc);
        let mut rest = self.all();
        while let Some((pair, others)) = rest.split_first() {
            pairs.push(pair.to_pair(alloc)?)?;
            rest = others;
        }
        Ok(Pairs::new(pairs))
    }

    /// The same macros once more.
    fn all(&self) -> PairsRef<'a>
        ensures { result ≡ self.now }
    {
        PairsRef {
            encoded: self.encoded,
            pairs: self.pairs,
        }
    }

    /// Whether no string has a NUL.
    pub fn fit(&self) -> bool
        ensures { IsTrue result ↔ All PairFits self.now }
    {
        pairs_fit(self.pairs)
    }

    /// The number of bytes of the strings, or the greatest `usize`.
    pub fn payload_len(&self) -> usize
        ensures { result ≡ min (length (flat_map pair self.now)) (2 ^ 64 - 1) }
    {
        self.encoded.len().saturating_add(pairs_len(self.pairs))
    }

    /// Appends the strings.
    pub fn put(&self, out: &mut Vec<u8>) -> Result<(), NoMemory>
        ensures { PutsBytes (flat_map pair self.now) out.old.items out.new.items result }
    {
        put_bytes(out, self.encoded)?;
        put_pairs(out, self.pairs)
    }
}
