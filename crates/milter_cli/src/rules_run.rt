//! The subcommand `rules`: from a rule file to its canonical form; and the rules that other subcommands go by.

ghost use Rattle.std.specs.Prelude.{◌≡◌, IfErr, IfOk, OnOk, false, true};
ghost use Rattle.milter_rules.specs.RuleFile.{IsRuleFile, StatesProtocol};
ghost use Rattle.milter_filter_rules.specs.RulesValue.{case_of, named_of, rule_set, states_protocol};
ghost use Rattle.milter_rules.specs.ListFiles.{AreRead};
ghost use Rattle.milter_cli.specs.UsedRules.{IsFileWith, also_sent, used_set};
ghost use Rattle.milter_text.specs.declared.glob.TextCase.TheVariants.{Exact, Ignored};
ghost use Rattle.milter_rules.specs.RulesText.{rules_text};
ghost use Rattle.milter_cli.specs.FileRun.{Has, HasNone, IsFaultOrMemory, IsFileFault, IsOf, WritesCanonical};

use crate::file_error::{FileError, InputFile, fault_error, text_error};
use crate::file_input::read_file;
use crate::list_check::check_lists;
use crate::rule_check::check_rules;
use crate::tool_error::{ToolError, output_error};
use milter_rules::{ListFile, Rules, Severity, read_rule_lines, read_rules, write_rules};
use milter_wire::Stage;
use std::alloc::Global;
use std::io::{Read, Write};

/// Reads a rule file to its end, but not its lists, which have no entries. Memory is bounded by a small multiple of the
/// file's size, which is at most 134,217,728 bytes.
pub fn load_rules<R: Read + Drop>(alloc: Global, reader: R) -> Result<Rules, FileError>
    ensures found { IfOk result (λ rules. Has IsRuleFile (R.remaining reader) (rule_set rules)) }
    // The case of letters counts in their texts.
    ensures case { IfOk result (λ rules. case_of rules ≡ Exact) }
    // Their protocol bits are stated where a line states them.
    ensures stated { IfOk result (λ rules. Has StatesProtocol (R.remaining reader) (states_protocol rules)) }
    // An error names no other kind of file.
    ensures named { IfErr result (IsOf InputFile.Rules) }
    // A fault of the file comes only of a file that has no rules.
    ensures fault { IfErr result (λ e. IsFileFault e → HasNone IsRuleFile (R.remaining reader)) }
{
    let file = read_file(alloc, InputFile::Rules, reader)?;
    match read_rule_lines(alloc, file.as_slice()) {
        Ok(rules) => Ok(rules),
        Err(fault) => Err(fault_error(InputFile::Rules, fault.line(), fault.number())),
    }
}

/// The rules of a file that has these bytes, with the entries of these files in their lists.
pub fn rules_of(alloc: Global, bytes: &[u8], lists: &[ListFile]) -> Result<Rules, FileError>
    ensures found { IfOk result (λ rules. IsRuleFile bytes.now (rule_set rules)) }
    // The lists have what their files have.
    ensures lists { IfOk result (λ rules. AreRead lists.now (rule_set rules).sources (named_of rules)) }
    // The case of letters counts in their texts.
    ensures case { IfOk result (λ rules. case_of rules ≡ Exact) }
    // Their protocol bits are stated where a line states them.
    ensures stated { IfOk result (λ rules. StatesProtocol bytes.now (states_protocol rules)) }
    // An error is a fault, which comes only of a file that has no rules, or whose lists can't be read of these files;
    // or refused memory.
    ensures error { IfErr result (IsFaultOrMemory (IsFileWith lists.now) bytes.now) }
    // An error names no other kind of file.
    ensures named { IfErr result (IsOf InputFile.Rules) }
{
    match read_rules(alloc, bytes, lists) {
        Ok(rules) => Ok(rules),
        Err(fault) => Err(fault_error(InputFile::Rules, fault.line(), fault.number())),
    }
}

/// These rules, in the texts of whose conditions the case of ASCII letters doesn't count where it is ignored.
fn with_case_ignored(rules: Rules, ignore_case: bool) -> Rules
    ensures set { rule_set result ≡ rule_set rules }
    ensures named { named_of result ≡ named_of rules }
    ensures ignored { ignore_case ≡ true → case_of result ≡ Ignored }
    ensures kept { ignore_case ≡ false → result ≡ rules }
{
    if ignore_case {
        rules.ignoring_case()
    } else {
        rules
    }
}

/// The stages that bring what a line of the log names: the client, the sender and the recipients, and the queue id, the
/// macro `i`, which Sendmail sends before the sender, and Postfix, which has none there yet, before DATA. Source: the
/// libmilter callback documentation (smfi_getsymval), and MILTER_README of Postfix.
const NAMING_STAGES: [Stage; 4] = [Stage::Connect, Stage::Mail, Stage::Rcpt, Stage::DataCmd];

/// How the rules of a file are used.
#[derive(Clone, Copy)]
pub struct RuleUse {
    /// Whether the case of ASCII letters doesn't count in the texts of conditions.
    pub ignore_case: bool,
    /// Whether the stages alone are asked for that the rules look at, where the file states no protocol bits.
    pub least_stages: bool,
    /// Whether the stages are sent too that bring the names of clients and messages.
    pub names_messages: bool,
}

impl RuleUse {
    /// The stages that are sent besides those that the rules look at.
    fn also_sent(&self) -> &[Stage]
        ensures { result.now ≡ also_sent self.now }
    {
        if self.names_messages {
            &NAMING_STAGES
        } else {
            &[]
        }
    }
}

/// These rules, as they are used.
pub fn used_rules(rules: Rules, usage: RuleUse) -> Rules
    ensures set { rule_set result ≡ used_set usage (states_protocol rules) (rule_set rules) }
    ensures named { named_of result ≡ named_of rules }
    ensures ignored { usage.ignore_case ≡ true → case_of result ≡ Ignored }
    ensures kept { usage.ignore_case ≡ false → case_of result ≡ case_of rules }
{
    let is_stated = rules.is_protocol_stated();
    let rules = with_case_ignored(rules, usage.ignore_case);
    if usage.least_stages && !is_stated {
        rules.with_least_wants(usage.also_sent())
    } else {
        rules
    }
}

/// Reads a rule file to its end, and writes its rules in canonical form.
pub fn print_rules<R: Read + Drop, W: Write>(
    alloc: Global,
    reader: R,
    writer: &mut W,
) -> Result<(), FileError>
    // The rules of the file were written in canonical form, and nothing else.
    ensures done { OnOk result (WritesCanonical IsRuleFile rules_text (R.remaining reader)
        (W.contents writer.old) (W.contents writer.new)) }
    // An error names no other kind of file.
    ensures named { IfErr result (IsOf InputFile.Rules) }
    // A fault of the file comes only of a file that has no rules.
    ensures fault { IfErr result (λ e. IsFileFault e → HasNone IsRuleFile (R.remaining reader)) }
{
    let rules = load_rules(alloc, reader)?;
    match write_rules(alloc, writer, &rules) {
        Ok(()) => Ok(()),
        Err(fault) => Err(text_error(fault)),
    }
}

/// Reads the rule file at this path to its end, and writes a line for each thing that is to be said of it, and then for
/// each of its lists that can't be used; the error is `ToolError::Findings` where one of them is a warning, and not a
/// hint.
pub fn check_rule_file<R: Read + Drop, W: Write>(
    files: &HostRuntime,
    alloc: Global,
    path: &str,
    reader: R,
    writer: &mut W,
) -> Result<(), ToolError> {
    match read_file(alloc, InputFile::Rules, reader) {
        Ok(file) => check_rule_bytes(files, alloc, path, file.as_slice(), writer),
        Err(error) => Err(ToolError::File(error)),
    }
}

/// The same of a rule file at this path that has these bytes.
fn check_rule_bytes<W: Write>(
    files: &HostRuntime,
    alloc: Global,
    path: &str,
    bytes: &[u8],
    writer: &mut W,
) -> Result<(), ToolError> {
    let severity = match check_rules(alloc, path, bytes, writer) {
        Ok(severity) => severity,
        Err(fault) => return Err(output_error(fault)),
    };
    let has_bad_lists = match check_lists(files, alloc, path, bytes, writer) {
        Ok(has_bad_lists) => has_bad_lists,
        Err(fault) => return Err(output_error(fault)),
    };
    if has_bad_lists || severity == Some(Severity::Warning) {
        Err(ToolError::Findings)
    } else {
        Ok(())
    }
}
