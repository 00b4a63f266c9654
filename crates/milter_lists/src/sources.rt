//! The lines of lists in a rule file.

ghost use Rattle.std.specs.Prelude.{◌≡◌, ◌≤◌, [], IfErr, IfOk, List, MatchResult, OnOk, codes, option_map, true, ℕ, Some};
ghost use Rattle.std.specs.List.{list_any};
ghost use Rattle.std.specs.Str.{bytes_eq};
ghost use Rattle.milter_text.specs.LineCursor.{HasNoNext, NextHasWords};
ghost use Rattle.milter_lists.specs.declared.sources.ListSource.{ListSource};
ghost use Rattle.milter_lists.specs.declared.source_fault.SourceFault.TheVariants as faults;
ghost use Rattle.milter_lists.specs.ListLines.{HasSources, IsAdded, may_follow, source_named, source_of, is_list_name, is_source, source_words};
ghost use Rattle.milter_lists.specs.SourceFault.{IsFaultAt, IsFaultBefore};
ghost use Rattle.milter_text.specs.declared.word.Word.{Word};
ghost use Rattle.milter_text.specs.WordValues.{is_plain_word};
ghost use Rattle.milter_lists.specs.declared.sources.TheConstants.{LISTS_MAX};

use crate::list_kind::ListKind;
use crate::source_fault::SourceFault;
use crate::source_words::source_in;
use milter_fields::{List, Text};
use milter_text::{FileLine, LineCursor};
use std::alloc::Global;

/// The most lists that a rule file may have.
pub const LISTS_MAX: usize = 100;

/// Where a list comes from, as a line of a rule file says.
#[derive(Clone, Debug, PartialEq, Eq, Drop)]
pub struct ListSource {
    /// The name by which conditions refer to it.
    pub name: Text,
    /// What its entries are.
    pub kind: ListKind,
    /// The path of its file.
    pub file: Text,
}

/// Where the lists of a rule file come from, in the order of their lines.
pub type ListSources = List<ListSource>;

/// The lists whose lines are at the cursor, which moves behind these. The lines are `list NAME KIND FILE`, at most 100,
/// one after the other, each with a name of its own: a plain word of ASCII letters, digits, `-`, `.` and `_`. KIND is
/// `addresses`, `domains`, `networks` or `texts`, and FILE is in quotes. There is no list where the line at the cursor
/// doesn't begin with `list`.
///
/// The fault is at the first line that begins so and isn't of this form, or has the name of a list before it, or comes
/// after 100 others.
pub fn sources_in(alloc: Global, lines: &mut LineCursor<'_>) -> Result<ListSources, SourceFault>
    // What is read is what the lines give.
    ensures found { IfOk result (λ sources. HasSources [] sources lines.old.lines lines.new.lines) }
    // What the lines give, up to one that doesn't begin so, is read, unless memory is refused.
    ensures only { (sources : List ListSource) (rest : List (List ℕ)) →
        HasSources [] sources lines.old.lines rest → NextHasWords rest → HasNoNext (codes "list") rest →
        MatchResult result (λ s. (s ≡ sources) × (lines.new.lines ≡ rest)) (λ e. e ≡ faults.NoMemory) }
    ensures end { lines.new.end ≤ lines.old.end }
    // The line of a fault is one ahead of the cursor.
    ensures within { IfErr result (IsFaultBefore lines.old.end) }
{
    let mut sources = ListSources::new(Vec::new(alloc));
    while let Some(line) = lines.next_if(alloc, b"list")? {
        push_source(alloc, &mut sources, &line)?;
    }
    Ok(sources)
}

/// Adds the source that a line gives as the last.
fn push_source(alloc: Global, sources: &mut ListSources, line: &FileLine) -> Result<(), SourceFault>
    ensures found { OnOk result (IsAdded line.now.words.items sources.old sources.new) }
    ensures only { (source : ListSource) → source_of line.now.words.items ≡ Some source →
        may_follow sources.old source ≡ true → IfErr result (λ e. e ≡ faults.NoMemory) }
    ensures at { IfErr result (IsFaultAt line.now.number) }
{
    let Some(source) = source_in(alloc, line.words.as_slice())? else {
        return Err(SourceFault::UnknownWord(line.number));
    };
    if has_name(sources.as_slice(), source.name.as_slice()) {
        return Err(SourceFault::UnknownWord(line.number));
    }
    if sources.as_slice().len() >= LISTS_MAX {
        return Err(SourceFault::TooLarge(line.number));
    }
    sources.push(source)?;
    Ok(())
}

/// Whether some source has the name.
fn has_name(sources: &[ListSource], name: &[u8]) -> bool
    ensures { result ≡ list_any (λ other. bytes_eq other.name name.now) sources.now }
{
    sources.iter().any(|source| source.name.as_slice() == name)
}

/// The first of the sources that has the name. Doesn't allocate.
pub fn source_named<'a>(sources: &'a [ListSource], name: &[u8]) -> Option<&'a ListSource>
    ensures { option_map (λ source. source.now) result ≡ source_named sources.now name.now }
{
    sources.iter().find(|source| source.name.as_slice() == name)
}

/// What the words of a list's line give, and in which words it is written.
pub fn list_lines()
    // The words of a source give that source, if its name is one.
    ensures read { (s : ListSource) → is_source s ≡ true → source_of (source_words s) ≡ Some s }
    // No other words give it.
    ensures only { (words : List Word) (s : ListSource) → source_of words ≡ Some s →
        (words ≡ source_words s) × (is_source s ≡ true) }
    // A name may be a plain word.
    ensures plain { (text : List ℕ) → is_list_name text ≡ true → is_plain_word text ≡ true }
    // The number that the definitions name: the most lists of a file.
    ensures few { LISTS_MAX ≡ 100 }
{}
