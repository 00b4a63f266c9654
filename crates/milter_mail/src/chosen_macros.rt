//! The macros that a filter asked for by its symbol lists, out of those that a session has.

ghost use Rattle.std.specs.Prelude.{◌≡◌, ◌==◌, IfOk, List, None, map, option_copied, unwrap_or, ℕ};
ghost use Rattle.std.specs.BTreeMap as tree;
ghost use Rattle.std.specs.Cmp.Lexicographic.{slice_cmp};
ghost use Rattle.std.specs.List.{slice_split};
ghost use Rattle.std.specs.Ordering.{nat_cmp};
ghost use Rattle.milter_mail.specs.ChosenMacros.{chosen_at, chosen_macros, chosen_pairs, last_pair, list_of, names_of};

use crate::by_macro_stage::Macros;
use milter_wire::{MacroStage, NoMemory, Pair, Pairs, SymList, SymLists, Text};
use std::alloc::Global;
use std::collections::BTreeMap;

/// The blank between the names of a symbol list. Source: mfapi.h (smfi_setsymlist).
const NAME_SEPARATOR: u8 = b' ';

impl Macros {
    /// A copy of those macros that the filter asked for: for a stage with a symbol list the last pair of each of its
    /// names, in the order of the names, and for a stage without one all pairs. Of two lists for a stage the last
    /// counts, and one for a stage above 6 changes nothing. Source: mfapi.h (smfi_setsymlist).
    pub fn chosen(&self, alloc: Global, lists: &SymLists) -> Result<Macros, NoMemory>
        ensures { IfOk result (λ macros. macros ≡ chosen_macros lists.now self.now) }
    {
        let connect = pairs_for(alloc, lists, MacroStage::Connect, &self.connect)?;
        let helo = pairs_for(alloc, lists, MacroStage::Helo, &self.helo)?;
        let mail = pairs_for(alloc, lists, MacroStage::Mail, &self.mail)?;
        let rcpt = pairs_for(alloc, lists, MacroStage::Rcpt, &self.rcpt)?;
        let data_cmd = pairs_for(alloc, lists, MacroStage::DataCmd, &self.data_cmd)?;
        let eom = pairs_for(alloc, lists, MacroStage::Eom, &self.eom)?;
        let eoh = pairs_for(alloc, lists, MacroStage::Eoh, &self.eoh)?;
        Ok(Macros {
            connect,
            helo,
            mail,
            rcpt,
            data_cmd,
            eom,
            eoh,
        })
    }
}

/// A copy of those of a stage's macros that the filter asked for by its last symbol list of the stage: the last pair
/// of each of its names, in the order of the names. `None` where it has no list of the stage: it is sent all of them.
/// Source: mfapi.h (smfi_setsymlist).
pub fn pairs_asked_for(
    alloc: Global,
    lists: &SymLists,
    stage: MacroStage,
    pairs: &[Pair],
) -> Result<Option<Pairs>, NoMemory>
    ensures { IfOk result (λ chosen. unwrap_or chosen pairs.now ≡ chosen_at lists.now stage pairs.now) }
{
    match last_list(lists.as_slice(), stage.number()) {
        Some(list) => Ok(Some(chosen_pairs(alloc, list.names.as_slice(), pairs)?)),
        None => Ok(None),
    }
}

/// Those of a stage's macros that its symbol list asks for; all of them, where it has none.
fn pairs_for(
    alloc: Global,
    lists: &SymLists,
    stage: MacroStage,
    pairs: &Pairs,
) -> Result<Pairs, NoMemory>
    ensures { IfOk result (λ chosen. chosen ≡ chosen_at lists.now stage pairs.now) }
{
    match pairs_asked_for(alloc, lists, stage, pairs.as_slice())? {
        Some(chosen) => Ok(chosen),
        None => copy_pairs(alloc, pairs.as_slice()),
    }
}

/// The last symbol list of a stage.
fn last_list(lists: &[SymList], stage: u32) -> Option<&SymList>
    ensures { option_copied result ≡ list_of stage lists.now }
{
    let mut last = None;
    for list in lists {
        if list.stage == stage {
            last = Some(list);
        }
    }
    last
}

/// The last pair of each name, in the order of the names.
fn chosen_pairs(alloc: Global, names: &[u8], pairs: &[Pair]) -> Result<Pairs, NoMemory>
    ensures { IfOk result (λ chosen. chosen ≡ chosen_pairs (names_of names.now) pairs.now) }
{
    let parts = parts_of(alloc, names)?;
    let mut last = last_pairs(alloc, pairs)?;
    let mut chosen = Vec::new(alloc);
    for part in &parts {
        if part.is_empty() {
            continue;
        }
        if let Some(pair) = last.remove(*part) {
            chosen.push(copy_pair(alloc, pair)?)?;
        }
    }
    Ok(Pairs::new(chosen))
}

/// The parts between blanks, of which some may be empty.
fn parts_of<'a>(alloc: Global, text: &'a [u8]) -> Result<Vec<&'a [u8]>, NoMemory>
    ensures { IfOk result (λ parts.
        map (λ part. part.now) parts.items ≡ slice_split (λ byte. byte == NAME_SEPARATOR) text.now) }
{
    let parts = text.split(|byte| *byte == NAME_SEPARATOR);
    Ok(parts.collect(alloc)?)
}

/// The last pair of each name that the pairs have, by the name.
fn last_pairs<'a>(
    alloc: Global,
    pairs: &'a [Pair],
) -> Result<BTreeMap<&'a [u8], &'a Pair>, NoMemory>
    ensures { IfOk result (λ last. (name : List ℕ) →
        option_copied (tree.get_by (λ key. slice_cmp nat_cmp name key.now) last) ≡ last_pair name pairs.now) }
{
    let mut last = BTreeMap::new(alloc);
    for pair in pairs {
        last.insert(pair.name.as_slice(), pair)?;
    }
    Ok(last)
}

/// A copy of a pair. Each text is copied once.
fn copy_pair(alloc: Global, pair: &Pair) -> Result<Pair, NoMemory>
    ensures { IfOk result (λ copy. copy ≡ pair.now) }
{
    let name = Text::copy_of(alloc, pair.name.as_slice())?;
    let value = Text::copy_of(alloc, pair.value.as_slice())?;
    Ok(Pair { name, value })
}

/// A copy of the pairs, in order.
fn copy_pairs(alloc: Global, pairs: &[Pair]) -> Result<Pairs, NoMemory>
    ensures { IfOk result (λ copy. copy ≡ pairs.now) }
{
    let mut copies = Vec::with_capacity(alloc, pairs.len())?;
    for pair in pairs {
        copies.push(copy_pair(alloc, pair)?)?;
    }
    Ok(Pairs::new(copies))
}
