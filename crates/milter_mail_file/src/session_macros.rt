//! The macros of a session file.

ghost use Rattle.std.specs.Prelude.{◌≡◌, ◌-◌, ◌^◌, ◌++◌, ◌∷◌, [], codes, IfErr, OnOk, ℕ, length, min, option_map};
ghost use Rattle.milter_wire.specs.declared.command.Command.TheVariants as commands;
ghost use Rattle.milter_wire.specs.Command.{Fits};
ghost use Rattle.milter_fields.specs.Layout.{PairFits, pair};
ghost use Rattle.milter_mail.specs.MailSession.{MacrosFit};
ghost use Rattle.milter_mail_file.specs.declared.session_fault.SessionFault.TheVariants as faults;
ghost use Rattle.milter_mail_file.specs.LineValues.{macro_of, macro_with, stage_of};
ghost use Rattle.milter_mail_file.specs.SessionFault.{IsAt, Reads};
ghost use Rattle.milter_mail_file.specs.SessionFile.{macros_of_lines};
ghost use Rattle.milter_mail_file.specs.Openings.{macro_begins};

use crate::line_group::LineGroup;
use crate::session_fault::SessionFault;
use milter_mail::{ByMacroStage, Macros};
use milter_text::{FileLine, Word};
use milter_wire::{MacroStage, PAYLOAD_MAX, Pair, Pairs, Text, pair_len};
use std::alloc::Global;
use std::marker::Model;

/// A macro, and the stage that has it.
#[derive(Drop)]
pub(crate) struct MacroLine {
    pub(crate) stage: MacroStage,
    pub(crate) pair: Pair,
}

/// Macros that fit one packet, and the bytes of its payload: the command's code and the strings.
#[derive(Drop)]
pub(crate) struct StageMacros {
    pairs: Vec<Pair>,
    len: usize,
}

impl Model for StageMacros {
    ghost use Rattle.std.specs.Prelude.{◌≡◌, ◌+◌, ◌≤◌, All, List, length};
    ghost use Rattle.std.specs.List.{flat_map};
    ghost use Rattle.milter_fields.specs.declared.pair.Pair.{Pair};
    ghost use Rattle.milter_fields.specs.declared.number.TheConstants.{PAYLOAD_MAX};
    ghost use Rattle.milter_fields.specs.Layout.{PairFits, pair};

    ghost Value = { List Pair };

    ghost view = { λ m. m.pairs.items };

    ghost invariant = { λ m. All PairFits m.pairs.items × (m.len ≡ length (flat_map pair m.pairs.items) + 1)
        × m.len ≤ PAYLOAD_MAX };
}

impl StageMacros {
    /// No macros.
    pub(crate) fn new(alloc: Global) -> Self
        ensures { result ≡ [] }
    {
        StageMacros {
            pairs: Vec::new(alloc),
            len: 1,
        }
    }

    /// Adds a macro, which is in the line with this number; the fault is `TooLarge` where the packet would be too long.
    pub(crate) fn push(&mut self, pair: Pair, line: u64) -> Result<(), SessionFault>
        requires { PairFits pair }
        ensures ok { OnOk result (self.new ≡ self.old ++ pair ∷ []) }
        ensures err { (command : ℕ) → Fits (commands.Macro command (self.old ++ pair ∷ [])) →
            IfErr result (λ e. e ≡ faults.NoMemory) }
        ensures at { IfErr result (λ e. IsAt line e) }
    {
        let len = self.len.saturating_add(pair_len(&pair));
        if len > PAYLOAD_MAX {
            drop(pair);
            return Err(SessionFault::TooLarge(line));
        }
        self.pairs.push(pair)?;
        self.len = len;
        Ok(())
    }

    /// The macros as a list.
    pub(crate) fn into_pairs(self) -> Pairs
        ensures pairs { result ≡ self }
        ensures fit { (command : ℕ) → Fits (commands.Macro command result) }
    {
        Pairs::new(self.pairs)
    }
}

/// The macros of each stage that were read so far.
pub(crate) type MacroLists = ByMacroStage<StageMacros>;

/// The macros that were read, each stage's as a list.
pub(crate) fn into_macros(lists: MacroLists) -> Macros
    ensures macros { result ≡ lists }
    ensures fit { MacrosFit result }
{
    Macros {
        connect: lists.connect.into_pairs(),
        helo: lists.helo.into_pairs(),
        mail: lists.mail.into_pairs(),
        rcpt: lists.rcpt.into_pairs(),
        data_cmd: lists.data_cmd.into_pairs(),
        eom: lists.eom.into_pairs(),
        eoh: lists.eoh.into_pairs(),
    }
}

impl LineGroup for MacroLists {
    type Item = MacroLine;

    ghost text = { codes "macro" };

    ghost value_of = { macro_of };

    ghost IsMadeOf = { λ lists lines. lists ≡ macros_of_lines lines };

    ghost CanBe = { λ lines. MacrosFit (macros_of_lines lines) };

    fn keyword() -> &'static [u8] {
        b"macro"
    }

    fn empty(alloc: Global) -> Self {
        MacroLists {
            connect: StageMacros::new(alloc),
            helo: StageMacros::new(alloc),
            mail: StageMacros::new(alloc),
            rcpt: StageMacros::new(alloc),
            data_cmd: StageMacros::new(alloc),
            eom: StageMacros::new(alloc),
            eoh: StageMacros::new(alloc),
        }
    }

    fn add(&mut self, alloc: Global, line: &FileLine) -> Result<(), SessionFault> {
        let MacroLine { stage, pair } = macro_in(alloc, line)?;
        self.at_mut(stage).push(pair, line.number)
    }

    ghost opens = { macro_begins };
}

/// The macro in the line.
fn macro_in(alloc: Global, line: &FileLine) -> Result<MacroLine, SessionFault>
    ensures reads { Reads (macro_of line.now.words.items) (λ x. PairFits x.pair) result }
    ensures at { IfErr result (λ e. IsAt line.now.number e) }
{
    let Some((stage, name, value)) = macro_parts(line.words.as_slice()) else {
        return Err(SessionFault::UnknownLine(line.number));
    };
    if !name.has_no_nul() || !value.has_no_nul() {
        return Err(SessionFault::Nul(line.number));
    }
    let name = Text::copy_of(alloc, name.as_slice())?;
    let value = Text::copy_of(alloc, value.as_slice())?;
    let pair = Pair { name, value };
    Ok(MacroLine { stage, pair })
}

/// The stage, the name and the value in the words of a macro's line.
fn macro_parts(words: &[Word]) -> Option<(MacroStage, &Text, &Text)>
    ensures { option_map (λ x. macro_with x.1.now x.2.now x.0) result ≡ macro_of words.now }
{
    let [first, stage, name, value] = words else {
        return None;
    };
    if !first.is_keyword(b"macro") {
        return None;
    }
    Some((stage_in(stage)?, name.quoted_text()?, value.quoted_text()?))
}

/// The stage that has macros, by its word.
fn stage_in(word: &Word) -> Option<MacroStage>
    ensures { result ≡ stage_of word.now }
{
    MacroStage::from_name(word.keyword()?)
}
