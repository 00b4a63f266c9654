//! The files that are named on the command line.

use milter_cli::{
    FileError, InputFile, RuleUse, ToolError, check_rule_file, load_session, print_rules,
    print_session, read_error, read_file, read_lists, rules_of, used_rules,
};
use milter_mail::Session;
use milter_rules::Rules;
use std::fs::{self, File};
use std::io;

/// Opens the file at this path.
pub(crate) fn open(rt: &HostRuntime, file: InputFile, path: &str) -> Result<File, ToolError> {
    fs::open(rt, path).map_err(|error| ToolError::File(read_error(file, error.kind())))
}

/// The session of the file at this path.
pub(crate) fn session_at(rt: &HostRuntime, path: &str) -> Result<Session, ToolError> {
    let file = open(rt, InputFile::Session, path)?;
    load_session(rt.alloc(), file).map_err(ToolError::File)
}

/// The rules of the file at this path, with its lists, as they are used; or none where there is no path.
pub(crate) fn rules_at(
    rt: &HostRuntime,
    path: Option<&str>,
    usage: RuleUse,
) -> Result<Rules, ToolError> {
    let Some(path) = path else {
        return Ok(Rules::new(rt.alloc()));
    };
    let file = open(rt, InputFile::Rules, path)?;
    match rules_in(rt, path, file) {
        Ok(rules) => Ok(used_rules(rules, usage)),
        Err(error) => Err(ToolError::File(error)),
    }
}

/// The rules of this file, opened at the path, with its lists.
fn rules_in(rt: &HostRuntime, path: &str, file: File) -> Result<Rules, FileError> {
    let bytes = read_file(rt.alloc(), InputFile::Rules, file)?;
    let Ok(lists) = read_lists(rt, rt.alloc(), path, bytes.as_slice()) else {
        return Err(FileError::NoMemory);
    };
    rules_of(rt.alloc(), bytes.as_slice(), lists.as_slice())
}

/// Prints the rules of the file at this path, in canonical form.
pub(crate) fn print_rule_file(rt: &HostRuntime, path: &str) -> Result<(), ToolError> {
    let file = open(rt, InputFile::Rules, path)?;
    print_rules(rt.alloc(), file, &mut io::writer(rt)).map_err(ToolError::File)
}

/// Prints what is to be said of the rules of the file at this path.
pub(crate) fn check_rules_at(rt: &HostRuntime, path: &str) -> Result<(), ToolError> {
    let file = open(rt, InputFile::Rules, path)?;
    check_rule_file(rt, rt.alloc(), path, file, &mut io::writer(rt))
}

/// Prints the session of the file at this path, in canonical form.
pub(crate) fn print_session_file(rt: &HostRuntime, path: &str) -> Result<(), ToolError> {
    let file = open(rt, InputFile::Session, path)?;
    print_session(rt.alloc(), file, &mut io::writer(rt)).map_err(ToolError::File)
}
