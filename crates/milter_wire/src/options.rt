//! The options of one end: a version, and two sets of bits.

ghost use Rattle.std.specs.Prelude.{◌≡◌, ◌==◌, ◌∷◌, ⊤, if◌then◌else◌, option_map};
ghost use Rattle.std.specs.Int.RustNames.{bit_and};
ghost use Rattle.milter_fields.specs.AppendedBytes.{PutsBytes};
ghost use Rattle.milter_wire.specs.Bits.{actions_table, bits_named, names_text, protocol_table};
ghost use Rattle.milter_wire.specs.SharedOptions.{common};

use bitflags::{Flag, Flags, bitflag_items};
use milter_fields::NoMemory;

/// The changes to a message that a filter may ask for, one bit each (SMFIF_ADDHDRS and those after it). Bits without a
/// name are kept. Source: mfapi.h.
#[derive(Clone, Copy, Debug, PartialEq, Eq)]
pub struct Actions(pub u32);

/// The steps of the protocol that aren't sent or aren't answered, one bit each (SMFIP_NOCONNECT and those after it).
/// Bits without a name are kept. Source: mfdef.h.
#[derive(Clone, Copy, Debug, PartialEq, Eq)]
pub struct Protocol(pub u32);

/// What one end offers, or what the other accepts. A packet carries it in twelve bytes. Source: mfdef.h
/// (SMFIC_OPTNEG).
#[derive(Clone, Copy, Debug, PartialEq, Eq)]
pub struct Options {
    /// The version of the protocol.
    pub version: u32,
    /// The changes to a message that the filter may ask for.
    pub actions: Actions,
    /// The steps that are left out, or left unanswered.
    pub protocol: Protocol,
}

bitflag_items! {
    impl Actions: u32 {
        /// Headers may be added and inserted. Source: mfapi.h (SMFIF_ADDHDRS).
        const ADDHDRS = 0x01;
        /// The body may be replaced. Source: mfapi.h (SMFIF_CHGBODY).
        const CHGBODY = 0x02;
        /// Recipients may be added. Source: mfapi.h (SMFIF_ADDRCPT).
        const ADDRCPT = 0x04;
        /// Recipients may be deleted. Source: mfapi.h (SMFIF_DELRCPT).
        const DELRCPT = 0x08;
        /// Headers may be changed and deleted. Source: mfapi.h (SMFIF_CHGHDRS).
        const CHGHDRS = 0x10;
        /// The message may be quarantined. Source: mfapi.h (SMFIF_QUARANTINE).
        const QUARANTINE = 0x20;
        /// The sender may be changed. Source: mfapi.h (SMFIF_CHGFROM).
        const CHGFROM = 0x40;
        /// Recipients may be added with arguments. Source: mfapi.h (SMFIF_ADDRCPT_PAR).
        const ADDRCPT_PAR = 0x80;
        /// The filter may ask for the macros of a stage by name. Source: mfapi.h (SMFIF_SETSYMLIST).
        const SETSYMLIST = 0x100;
    }
}

bitflag_items! {
    impl Protocol: u32 {
        /// Connections aren't sent. Source: mfdef.h (SMFIP_NOCONNECT).
        const NOCONNECT = 0x01;
        /// Greetings aren't sent. Source: mfdef.h (SMFIP_NOHELO).
        const NOHELO = 0x02;
        /// Senders aren't sent. Source: mfdef.h (SMFIP_NOMAIL).
        const NOMAIL = 0x04;
        /// Recipients aren't sent. Source: mfdef.h (SMFIP_NORCPT).
        const NORCPT = 0x08;
        /// Bodies aren't sent. Source: mfdef.h (SMFIP_NOBODY).
        const NOBODY = 0x10;
        /// Headers aren't sent. Source: mfdef.h (SMFIP_NOHDRS).
        const NOHDRS = 0x20;
        /// The end of headers isn't sent. Source: mfdef.h (SMFIP_NOEOH).
        const NOEOH = 0x40;
        /// Headers aren't answered. Source: mfdef.h (SMFIP_NR_HDR).
        const NR_HDR = 0x80;
        /// Unknown commands of the client aren't sent. Source: mfdef.h (SMFIP_NOUNKNOWN).
        const NOUNKNOWN = 0x100;
        /// The beginning of data isn't sent. Source: mfdef.h (SMFIP_NODATA).
        const NODATA = 0x200;
        /// The filter may skip the rest of a body. Source: mfdef.h (SMFIP_SKIP).
        const SKIP = 0x400;
        /// Connections aren't answered. Source: mfdef.h (SMFIP_NR_CONN).
        const NR_CONN = 0x1000;
        /// Greetings aren't answered. Source: mfdef.h (SMFIP_NR_HELO).
        const NR_HELO = 0x2000;
        /// Senders aren't answered. Source: mfdef.h (SMFIP_NR_MAIL).
        const NR_MAIL = 0x4000;
        /// Recipients aren't answered. Source: mfdef.h (SMFIP_NR_RCPT).
        const NR_RCPT = 0x8000;
        /// The beginning of data isn't answered. Source: mfdef.h (SMFIP_NR_DATA).
        const NR_DATA = 0x1_0000;
        /// Unknown commands of the client aren't answered. Source: mfdef.h (SMFIP_NR_UNKN).
        const NR_UNKN = 0x2_0000;
        /// The end of headers isn't answered. Source: mfdef.h (SMFIP_NR_EOH).
        const NR_EOH = 0x4_0000;
        /// Chunks of a body aren't answered. Source: mfdef.h (SMFIP_NR_BODY).
        const NR_BODY = 0x8_0000;
        /// Values of header fields are sent with the blank that they begin with. Source: mfdef.h (SMFIP_HDR_LEADSPC).
        const HDR_LEADSPC = 0x10_0000;
    }
}

impl Flags for Actions {
    type Bits = u32;

    ghost exact = { ⊤ };

    ghost table = { actions_table };

    ghost set_of = { λ actions. actions.0 };

    fn flags<'a>() -> &'a [Flag<Actions>] {
        Actions::FLAGS
    }

    fn bits(&self) -> u32 {
        self.0
    }

    fn from_bits_retain(bits: u32) -> Actions {
        Actions(bits)
    }
}

impl Flags for Protocol {
    type Bits = u32;

    ghost exact = { ⊤ };

    ghost table = { protocol_table };

    ghost set_of = { λ protocol. protocol.0 };

    fn flags<'a>() -> &'a [Flag<Protocol>] {
        Protocol::FLAGS
    }

    fn bits(&self) -> u32 {
        self.0
    }

    fn from_bits_retain(bits: u32) -> Protocol {
        Protocol(bits)
    }
}

impl Actions {
    /// The actions that a text names: their names joined by `|`, with no blanks, in any order and repeated or not, or
    /// the word `none`. Names are matched exactly. It is `None` where a name is no action's.
    pub fn from_names(text: &str) -> Option<Actions>
        ensures { option_map (λ actions. actions.0) result ≡ bits_named actions_table text.now }
    {
        named::<Actions>(text)
    }

    /// Appends the names of those of the actions that have one, in the order of mfapi.h and joined by `|`, or the word
    /// `none` where there is none. After `NoMemory` a prefix of that may have been appended.
    pub fn put_names(self, out: &mut Vec<u8>) -> Result<(), NoMemory>
        ensures { PutsBytes (names_text actions_table self.0) out.old.items out.new.items result }
    {
        put_names_of(&self, out)
    }
}

impl Protocol {
    /// The protocol bits that a text names: their names joined by `|`, with no blanks, in any order and repeated or
    /// not, or the word `none`. Names are matched exactly. It is `None` where a name is no protocol bit's.
    pub fn from_names(text: &str) -> Option<Protocol>
        ensures { option_map (λ protocol. protocol.0) result ≡ bits_named protocol_table text.now }
    {
        named::<Protocol>(text)
    }

    /// Appends the names of those of the protocol bits that have one, in the order of mfdef.h and joined by `|`, or the
    /// word `none` where there is none. After `NoMemory` a prefix of that may have been appended.
    pub fn put_names(self, out: &mut Vec<u8>) -> Result<(), NoMemory>
        ensures { PutsBytes (names_text protocol_table self.0) out.old.items out.new.items result }
    {
        put_names_of(&self, out)
    }
}

/// The set that a text names.
fn named<F: Flags>(text: &str) -> Option<F>
    ensures { F.exact → option_map F.set_of result ≡ bits_named F.table text.now }
{
    let mut set = F::empty();
    if text == "none" {
        return Some(set);
    }
    let mut rest = text;
    while let Some((name, more)) = rest.split_once('|') {
        set.insert(F::from_name(name)?);
        rest = more;
    }
    set.insert(F::from_name(rest)?);
    Some(set)
}

/// Appends the names of the bits of a set.
fn put_names_of<F: Flags>(set: &F, out: &mut Vec<u8>) -> Result<(), NoMemory>
    ensures { F.exact → PutsBytes (names_text F.table (F.set_of set.now)) out.old.items out.new.items result }
{
    let mut is_first = true;
    for flag in F::flags() {
        if has_bits_of(set, flag) {
            put_name(out, is_first, flag.name())?;
            is_first = false;
        }
    }
    if is_first {
        out.extend_from_slice(b"none")?;
    }
    Ok(())
}

/// Whether the set has all bits of the flag.
fn has_bits_of<F: Flags>(set: &F, flag: &Flag<F>) -> bool
    ensures { F.exact → result
        ≡ (bit_and (F.set_of set.now) (F.set_of flag.now.value) == F.set_of flag.now.value) }
{
    set.contains(F::from_bits_retain(flag.value().bits()))
}

/// Appends a name, after a bar unless it is the first.
fn put_name(out: &mut Vec<u8>, is_first: bool, name: &str) -> Result<(), NoMemory>
    ensures { PutsBytes (if is_first then name.now else 124 ∷ name.now) out.old.items out.new.items result }
{
    if !is_first {
        out.push(b'|')?;
    }
    out.extend_from_slice(name.as_bytes())?;
    Ok(())
}

/// What both ends have: the smaller of the two versions, and the actions and the protocol bits that are in both.
/// Doesn't allocate. Source: the libmilter callback documentation (xxfi_negotiate).
pub fn common_options(offer: Options, wants: Options) -> Options
    ensures { result ≡ common offer wants }
{
    Options {
        version: offer.version.min(wants.version),
        actions: Actions(offer.actions.0 & wants.actions.0),
        protocol: Protocol(offer.protocol.0 & wants.protocol.0),
    }
}
