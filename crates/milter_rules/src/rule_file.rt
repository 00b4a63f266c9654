//! Rule files.

ghost use Rattle.std.specs.Prelude.{◌≡◌, ◌≤◌, [], IfErr, IfOk, List, MatchResult, codes, length, ℕ};
ghost use Rattle.milter_text.specs.LineCursor.{HasNoNext, NextHasWords};
ghost use Rattle.milter_text.specs.Lines.{lines_of};
ghost use Rattle.milter_rules.specs.ListFiles.{AreRead, CanBeRead};
ghost use Rattle.milter_lists.specs.ListLines.{HasSources};
ghost use Rattle.milter_lists.specs.declared.sources.ListSource.{ListSource};
ghost use Rattle.milter_rules.specs.declared.rule_fault.RuleFault.TheVariants as RuleFault;
ghost use Rattle.milter_rules.specs.declared.rule_line.RuleLine.{RuleLine};
ghost use Rattle.milter_rules.specs.RuleFault.{IsBefore, IsWithin};
ghost use Rattle.milter_rules.specs.declared.form.Form.{Form as FormValue};
ghost use Rattle.milter_rules.specs.RuleFile.{AllGive, CanBeFile, FoundAll, IsRuleFile, StatesProtocol, parts_of};
ghost use Rattle.milter_rules.specs.RuleForms.{HasForm};
ghost use Rattle.milter_filter_rules.specs.RuleSet.{RuleSet};
ghost use Rattle.milter_filter_rules.specs.RulesValue.{case_of, named_of, rule_set, states_protocol};
ghost use Rattle.milter_text.specs.declared.glob.TextCase.TheVariants.{Exact};

use crate::form::{Form, is_header};
use crate::list_file::{ListFile, lists_without_entries};
use crate::list_lines::read_lists;
use crate::rule_builder::Builder;
use crate::rule_fault::{RuleFault, of_source_fault};
use crate::rule_line::line_in;
use milter_filter_rules::{ListSources, Rules};
use milter_lists::sources_in;
use milter_text::LineCursor;
use std::alloc::Global;

/// The rules of a file, whose lists have no entries yet.
///
/// Its lines are words, in any order. `version N` with N from 2 to 6, `actions NAMES` and `protocol NAMES`, each at
/// most once, are what the filter wants; NAMES are joined by `|`, or the word `none`. Without them it wants version 6,
/// the actions that its edits need, and `SKIP` where a rule skips. `symbols STAGE TEXT`, at most once a stage, names
/// the macros that it wants at a stage, and adds `SETSYMLIST` to its actions. `at STAGE do ACTION` and `at STAGE when
/// CONDITION and CONDITION .. do ACTION` are rules, at most 10,000.
///
/// A CONDITION is `FIELD is TEXT`, `FIELD has TEXT` or `FIELD lacks TEXT`, with a field `host`, `address`, `helo`,
/// `sender`, `rcpt`, `header NAME`, `body` or `macro NAME`. Where the first line is `rules 2`, it is `FIELD TEST
/// TEXT ..` with one text or more, any of which is to be found; `not` may stand before it, and `or` in place of `and`,
/// which binds closer. The fields `sender`, `rcpt` and `recipients` may end with `-address` or `-domain`. Further tests
/// are `begins`, `ends`, `like`, but not of `body`, and `under`, of `host`, `helo` and domains, with texts that don't
/// begin with a dot. `any-case` may stand after a test but `under`, and not with an address or a domain. Other
/// conditions there are `address within TEXT ..`, whose texts write networks as
/// [`Network::parse`](milter_address::Network::parse) reads them, `size over NUMBER`, of the bytes of the body, with a
/// number of at most 16,777,216, and `rcpts over NUMBER`, of the recipients, with one of 32 bits. These numbers have no
/// superfluous zeros.
///
/// Such a file may have lists, at most 100, each by a line `list NAME KIND FILE` right behind its first line; FILE is
/// for who reads its file. A condition `FIELD in NAME` refers to a list whose KIND is `addresses`, for fields with
/// `-address`; `domains`, for `host`, `helo` and fields with `-domain`; `networks`, for `address`; or `texts`, for
/// `host`, `address`, `helo`, `sender`, `rcpt`, `recipients` and `macro NAME`.
///
/// An ACTION is a verdict, `continue`, `accept`, `reject`, `tempfail`, `discard`, `skip` or `code TEXT`; or an edit,
/// `add-header NAME VALUE`, `insert-header INDEX NAME VALUE`, `change-header INDEX NAME VALUE`, `add-rcpt TEXT`,
/// `add-rcpt-par TEXT [TEXT]`, `del-rcpt TEXT`, `change-from TEXT [TEXT]`, `replace-body TEXT`, `quarantine TEXT` or
/// `progress`. Texts and the names of header fields and macros are in quotes, and all else is plain.
///
/// The fault is at the first line that isn't of this form, or by which the rules would be none: out of memory aside,
/// there is one exactly where the file has no rules. Beside the rules, the words of one line at a time are allocated.
pub fn read_rule_lines(alloc: Global, bytes: &[u8]) -> Result<Rules, RuleFault>
    // What is read is what the file gives.
    ensures found { IfOk result (λ rules. IsRuleFile bytes.now (rule_set rules)) }
    // The case of letters counts in their texts.
    ensures case { IfOk result (λ rules. case_of rules ≡ Exact) }
    // Its protocol bits are stated where a line states them.
    ensures stated { IfOk result (λ rules. StatesProtocol bytes.now (states_protocol rules)) }
    // What the file gives is read, unless memory is refused.
    ensures only { (set : RuleSet) → IsRuleFile bytes.now set →
        MatchResult result (λ rules. rule_set rules ≡ set) (λ e. e ≡ RuleFault.NoMemory) }
    // The line of a fault is one of the file.
    ensures line { IfErr result (IsWithin (length (lines_of bytes.now))) }
{
    let mut lines = LineCursor::new(bytes);
    let form = form_in(alloc, &mut lines)?;
    let builder = read_lines(alloc, &form, &mut lines)?;
    let sources = form.into_sources(alloc);
    let named = lists_without_entries(alloc, sources.as_slice())?;
    Ok(builder.into_rules(named))
}

/// The rules of a file, as [`read_rule_lines`] reads it, and its lists, each with the entries of the first of these
/// files that has its name.
///
/// The fault is as of `read_rule_lines`; else at the first list that has no file, or whose file has a line that is no
/// entry, or that is too large.
pub fn read_rules(alloc: Global, bytes: &[u8], files: &[ListFile]) -> Result<Rules, RuleFault>
    // What is read is what the file gives.
    ensures found { IfOk result (λ rules. IsRuleFile bytes.now (rule_set rules)) }
    // The lists have what their files have.
    ensures lists { IfOk result (λ rules. AreRead files.now (rule_set rules).sources (named_of rules)) }
    // The case of letters counts in their texts.
    ensures case { IfOk result (λ rules. case_of rules ≡ Exact) }
    // Its protocol bits are stated where a line states them.
    ensures stated { IfOk result (λ rules. StatesProtocol bytes.now (states_protocol rules)) }
    // What the file gives is read, unless memory is refused.
    ensures only { (set : RuleSet) → IsRuleFile bytes.now set → CanBeRead files.now set.sources →
        MatchResult result (λ rules. rule_set rules ≡ set) (λ e. e ≡ RuleFault.NoMemory) }
    // The line of a fault is one of the file.
    ensures line { IfErr result (IsWithin (length (lines_of bytes.now))) }
{
    let rules = read_rule_lines(alloc, bytes)?;
    let named = read_lists(alloc, bytes, rules.named_lists(), files)?;
    Ok(rules.with_named_lists(named))
}

/// The lists that a rule file names, in the order of its lines, so that a caller knows which files to read for
/// [`read_rules`]. Only the lines of the lists and those before them are read; the fault is as of `read_rules`.
pub fn list_sources(alloc: Global, bytes: &[u8]) -> Result<ListSources, RuleFault>
    // They are those of the rules of the file.
    ensures only { (set : RuleSet) → IsRuleFile bytes.now set →
        MatchResult result (λ sources. sources ≡ set.sources) (λ e. e ≡ RuleFault.NoMemory) }
    // The line of a fault is one of the file.
    ensures line { IfErr result (IsWithin (length (lines_of bytes.now))) }
{
    let mut lines = LineCursor::new(bytes);
    let form = form_in(alloc, &mut lines)?;
    Ok(form.into_sources(alloc))
}

/// The form of the file with these lines, behind whose first line and whose lists the cursor moves where the first line
/// gives the form.
fn form_in(alloc: Global, lines: &mut LineCursor<'_>) -> Result<Form, RuleFault>
    ensures found { IfOk result (λ form. HasForm form lines.old.lines lines.new.lines) }
    ensures only { (form : FormValue) (rest : List (List ℕ)) (values : List RuleLine) →
        HasForm form lines.old.lines rest → AllGive form rest values →
        MatchResult result (λ f. (f ≡ form) × (lines.new.lines ≡ rest)) (λ e. e ≡ RuleFault.NoMemory) }
    ensures end { lines.new.end ≤ lines.old.end }
    ensures within { IfErr result (IsBefore lines.old.end) }
{
    let Some(line) = lines.next_if(alloc, b"rules")? else {
        return Ok(Form::First);
    };
    if !is_header(line.words.as_slice()) {
        return Err(RuleFault::UnknownWord(line.number));
    }
    let sources = lists_in(alloc, lines)?;
    Ok(Form::Second(sources))
}

/// The lists whose lines are at the cursor, behind which it moves.
fn lists_in(alloc: Global, lines: &mut LineCursor<'_>) -> Result<ListSources, RuleFault>
    ensures found { IfOk result (λ sources. HasSources [] sources lines.old.lines lines.new.lines) }
    ensures only { (sources : List ListSource) (rest : List (List ℕ)) →
        HasSources [] sources lines.old.lines rest → NextHasWords rest → HasNoNext (codes "list") rest →
        MatchResult result (λ s. (s ≡ sources) × (lines.new.lines ≡ rest)) (λ e. e ≡ RuleFault.NoMemory) }
    ensures end { lines.new.end ≤ lines.old.end }
    ensures within { IfErr result (IsBefore lines.old.end) }
{
    match sources_in(alloc, lines) {
        Ok(sources) => Ok(sources),
        Err(fault) => Err(of_source_fault(fault)),
    }
}

/// What the lines of a file of this form give together.
fn read_lines(alloc: Global, form: &Form, lines: &mut LineCursor<'_>) -> Result<Builder, RuleFault>
    ensures found { IfOk result (λ builder. FoundAll form.now lines.old.lines builder) }
    ensures only { (values : List RuleLine) → AllGive form.now lines.old.lines values → CanBeFile values →
        MatchResult result (λ builder. builder ≡ parts_of values) (λ e. e ≡ RuleFault.NoMemory) }
    ensures within { IfErr result (IsBefore lines.old.end) }
{
    let mut builder = Builder::new(alloc);
    while let Some(line) = lines.next(alloc)? {
        let value = line_in(alloc, form, &line)?;
        builder.add(value, line.number)?;
    }
    Ok(builder)
}
