//! Consecutive lines of a session file that begin with one keyword.

ghost use Rattle.std.specs.Prelude.{◌≡◌, ◌≤◌, ◌++◌, ◌∷◌, [], IfErr, IfOk, List, MatchResult, OnOk, Option, Some, true};
ghost use Rattle.std.specs.Prelude.{ℕ};
ghost use Rattle.milter_text.specs.declared.word.Word.{Word};
ghost use Rattle.milter_mail_file.specs.declared.session_fault.SessionFault.TheVariants as faults;
ghost use Rattle.milter_text.specs.WordValues.{begins, is_plain_word};
ghost use Rattle.milter_mail_file.specs.LineGroups.{BeginWithValues, EndsBefore};
ghost use Rattle.milter_mail_file.specs.SessionFault.{IsAt, IsWithin};
ghost use Rattle.milter_mail_file.specs.SessionFile.{AllHaveValues};

use crate::session_fault::SessionFault;
use milter_text::{FileLine, LineCursor};
use std::alloc::Global;

/// What is read from consecutive lines that begin with one keyword.
pub(crate) trait LineGroup: Drop + Sized {
    /// The value of one line.
    type Item;

    // The keyword.
    ghost text: { List ℕ };

    // The value of a line with these words.
    ghost value_of: { List Word → Option Self.Item };

    // Whether the group is what lines with these values make.
    ghost IsMadeOf: { Self → List Self.Item → Type 0 };

    // Whether a group may be made of these values.
    ghost CanBe: { List Self.Item → Type 0 };

    /// The keyword with which each of the lines begins.
    fn keyword() -> &'static [u8]
        ensures text { result.now ≡ text }
        ensures plain { is_plain_word text ≡ true };

    /// The group of no lines.
    fn empty(alloc: Global) -> Self
        ensures { IsMadeOf result [] };

    /// Adds the value of a line.
    fn add(&mut self, alloc: Global, line: &FileLine) -> Result<(), SessionFault>
        ensures found { (items : List Self.Item) → IsMadeOf self.old items →
            OnOk result ((item : Self.Item) × (value_of line.now.words.items ≡ Some item)
            × IsMadeOf self.new (items ++ item ∷ [])) }
        ensures only { (items more : List Self.Item) (item : Self.Item) → IsMadeOf self.old items →
            value_of line.now.words.items ≡ Some item → CanBe (items ++ item ∷ more) →
            IfErr result (λ e. e ≡ faults.NoMemory) }
        ensures at { IfErr result (λ e. IsAt line.now.number e) };

    // A line that has a value begins with the keyword.
    ghost opens: { (words : List Word) (item : Self.Item) → value_of words ≡ Some item → begins text words ≡ true };
}

/// The group of the lines from the cursor on that begin with the keyword; the cursor moves behind them.
pub(crate) fn read_group<G: LineGroup>(
    alloc: Global,
    lines: &mut LineCursor<'_>,
) -> Result<G, SessionFault>
    ensures found { IfOk result (λ group. (items : List G.Item)
        × BeginWithValues G.value_of lines.old.lines items lines.new.lines × G.IsMadeOf group items) }
    ensures only { (prefix rest : List (List ℕ)) (items : List G.Item) → lines.old.lines ≡ prefix ++ rest →
        AllHaveValues G.value_of prefix items → G.CanBe items → EndsBefore G.text rest →
        MatchResult result (λ group. G.IsMadeOf group items × (lines.new.lines ≡ rest)) (λ e. e ≡ faults.NoMemory) }
    ensures end { lines.new.end ≤ lines.old.end }
    ensures within { IfErr result (IsWithin lines.old.end) }
{
    let mut group = G::empty(alloc);
    while let Some(line) = lines.next_if(alloc, G::keyword())? {
        group.add(alloc, &line)?;
    }
    Ok(group)
}
