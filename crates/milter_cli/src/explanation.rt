//! The lines that follow the line of a fault on standard error.

use crate::address_words::say_bad_address;
use crate::answer_error::AnswerError;
use crate::answer_words::answer_meaning;
use crate::capture_words::capture_meaning;
use crate::event_words::say_events;
use crate::failure::{DifferingReports, Failure};
use crate::file_error::{FileError, InputFile};
use crate::file_forms::fault_meaning;
use crate::file_words::{bytes_again, shown_name, unmade_reason, unread_reason, unstreamed_reason};
use crate::option_words::{say_bad_macros, say_bad_mode, say_bad_names, say_bad_trials};
use crate::request_paths::{
    actions_of, address_of, addresses_of, directory_of, macros_of, mode_of, only_of, path_of,
    protocol_of,
};
use crate::rule_words::{say_rules, unread_lists};
use crate::session_words::say_session;
use crate::socket_words::{say_unbound, say_unconnected};
use crate::tool_error::ToolError;
use crate::trace_words::{say_recording, say_trace};
use milter_capture::CaptureFault;
use milter_command_line::{Address, Request, UsageError};
use milter_mta_client::{difference_text, lines_of};
use milter_rules::{Notes, Span};
use milter_trace::TraceFault;
use milter_wire::NoMemory;
use std::alloc::Global;
use std::path::Path;

/// What is said of an output that wasn't written.
const NOT_WRITTEN: &str = "it couldn't be written: it is closed, or full";

/// What is said of a capture on standard input that wasn't read.
const UNREAD_INPUT: &str =
    "it couldn't be read: it is closed, or a folder, or has more than 134,217,728 bytes";

/// What is said of reports that aren't the expected ones.
const OTHER_REPORTS: &str =
    "the reports that were found differ from this line on; standard output has them";

/// What is said of a filter that doesn't answer as it was recorded.
const ANSWERED_OTHERWISE: &str =
    "the first command that isn't answered as it was recorded ends in this line; \
     standard output has the replies, those that came behind + and those that were recorded behind -";

/// What is said of words that aren't UTF-8.
const NOT_UTF8: &str =
    "the words of a command line are due in UTF-8; a file of another name is reached by a link to it";

/// The lines that say why the request failed: what is wrong, where, and what is meant. Files that are at fault are read
/// again; where they changed since, the lines say what the fault's number means.
pub fn explain(
    files: &HostRuntime,
    alloc: Global,
    request: &Request<'_>,
    failure: &Failure<'_>,
) -> Result<Vec<u8>, NoMemory> {
    match &failure.error {
        ToolError::Usage(error) => explain_usage(alloc, request, error),
        ToolError::File(error) => explain_failed_file(files, alloc, request, failure.file, *error),
        ToolError::Trace(fault) => explain_trace(alloc, failure.file, *fault),
        ToolError::Capture(fault) => explain_capture(alloc, failure.file, *fault),
        ToolError::Answer(error) => explain_answer(alloc, *error),
        ToolError::Listen | ToolError::Connect => explain_socket(files, alloc, failure),
        ToolError::Record => explain_directory(files, alloc, request),
        ToolError::Differs { line } => explain_reports(alloc, request, *line, failure),
        // Findings were printed, and words take memory.
        ToolError::Findings | ToolError::NoMemory => Ok(Vec::new(alloc)),
        ToolError::Write => line(alloc, "standard output", NOT_WRITTEN),
    }
}

/// The line of a directory of traces that can't be made, or that has traces already.
fn explain_directory(
    files: &HostRuntime,
    alloc: Global,
    request: &Request<'_>,
) -> Result<Vec<u8>, NoMemory> {
    let path = directory_of(request).unwrap_or("");
    line(alloc, path, unmade_reason(files, Path::new(path)))
}

/// The line that explains an error of the words of a command line, before there is a request; none where there is
/// nothing more to be said.
pub fn explain_words(alloc: Global, error: &ToolError) -> Result<Vec<u8>, NoMemory> {
    match error {
        ToolError::Usage(UsageError::NotUtf8) => line(alloc, "milter_tool", NOT_UTF8),
        _ => Ok(Vec::new(alloc)),
    }
}

/// The line of a trace that ended before its input: the file at this path, or standard input where there is none.
fn explain_trace(
    alloc: Global,
    path: Option<&str>,
    fault: TraceFault,
) -> Result<Vec<u8>, NoMemory> {
    match fault {
        TraceFault::WriteFault => line(alloc, "standard output", NOT_WRITTEN),
        // Words take memory.
        TraceFault::NoMemory => Ok(Vec::new(alloc)),
        fault => {
            let name = shown_name(alloc, path.unwrap_or("standard input"))?;
            let mut notes = Notes::new(alloc, name.as_str());
            text_after(say_trace(&mut notes, fault), &notes)
        }
    }
}

/// The line of a capture that was not read to its end: the file at this path, or standard input where there is none.
fn explain_capture(
    alloc: Global,
    path: Option<&str>,
    fault: CaptureFault,
) -> Result<Vec<u8>, NoMemory> {
    match capture_meaning(fault) {
        Some(meaning) => line(alloc, path.unwrap_or("standard input"), meaning),
        // Words take memory.
        None => Ok(Vec::new(alloc)),
    }
}

/// The line of a mail server that was not answered to its end.
fn explain_answer(alloc: Global, error: AnswerError) -> Result<Vec<u8>, NoMemory> {
    match error {
        AnswerError::Write => line(alloc, "standard output", NOT_WRITTEN),
        // Words take memory.
        AnswerError::NoMemory => Ok(Vec::new(alloc)),
        error => line(alloc, "standard input", answer_meaning(error)),
    }
}

/// The lines that were said, unless memory was refused for them.
fn text_after(said: Result<(), NoMemory>, notes: &Notes<'_>) -> Result<Vec<u8>, NoMemory> {
    said?;
    Ok(Vec::from_slice(notes.alloc(), notes.text())?)
}

/// One line about what has this name.
fn line(alloc: Global, name: &str, text: &str) -> Result<Vec<u8>, NoMemory> {
    let name = shown_name(alloc, name)?;
    let mut notes = Notes::new(alloc, name.as_str());
    text_after(notes.say(&[Span::Plain(text.as_bytes())]), &notes)
}

/// The lines of a wrong use of the program that has a request.
fn explain_usage(
    alloc: Global,
    request: &Request<'_>,
    error: &UsageError,
) -> Result<Vec<u8>, NoMemory> {
    let mut notes = Notes::new(alloc, place_of(error));
    text_after(say_usage(&mut notes, request, error), &notes)
}

/// Says what is wrong with the use of the program that has a request.
fn say_usage(
    notes: &mut Notes<'_>,
    request: &Request<'_>,
    error: &UsageError,
) -> Result<(), NoMemory> {
    match error {
        UsageError::BadActions => {
            say_bad_names(notes, "actions", actions_of(request).unwrap_or(""))
        }
        UsageError::BadProtocol => {
            say_bad_names(notes, "protocol", protocol_of(request).unwrap_or(""))
        }
        UsageError::BadMacro => say_bad_macros(notes, macros_of(request)),
        UsageError::BadTrials => say_bad_trials(notes, only_of(request).unwrap_or("")),
        UsageError::BadMode => say_bad_mode(notes, mode_of(request).unwrap_or(0)),
        UsageError::BadAddress => say_addresses(notes, request),
        // They say it themselves.
        UsageError::CommandLine(_) | UsageError::NotUtf8 => Ok(()),
    }
}

/// What of the command line a wrong use is about.
fn place_of(error: &UsageError) -> &'static str {
    match error {
        UsageError::BadActions => "--actions",
        UsageError::BadProtocol => "--protocol",
        UsageError::BadMacro => "--macro",
        UsageError::BadTrials => "--only",
        UsageError::BadMode => "--mode",
        UsageError::BadAddress => "ADDRESS",
        UsageError::CommandLine(_) | UsageError::NotUtf8 => "milter_tool",
    }
}

/// Says of each text of a request that is to be an address, and is none, which one is meant.
fn say_addresses(notes: &mut Notes<'_>, request: &Request<'_>) -> Result<(), NoMemory> {
    if let Some(address) = address_of(request) {
        return say_bad_address(notes, address);
    }
    if let Request::Record(asked) = request {
        return say_bad_addresses(notes, &[asked.listen, asked.address]);
    }
    say_bad_addresses(notes, addresses_of(request))
}

/// Says of each of these texts that is no address which one is meant.
fn say_bad_addresses(notes: &mut Notes<'_>, texts: &[&str]) -> Result<(), NoMemory> {
    for text in texts {
        if Address::parse(text).is_none() {
            say_bad_address(notes, text)?;
        }
    }
    Ok(())
}

/// The lines of a socket that the system refused.
fn explain_socket(
    files: &HostRuntime,
    alloc: Global,
    failure: &Failure<'_>,
) -> Result<Vec<u8>, NoMemory> {
    let Some(socket) = failure.socket else {
        return line(
            alloc,
            "milter_tool",
            "the system doesn't wait for connections",
        );
    };
    let name = shown_name(alloc, socket.address)?;
    let mut notes = Notes::new(alloc, name.as_str());
    let said = match &failure.error {
        ToolError::Connect => say_unconnected(&mut notes, socket),
        _ => say_unbound(files, &mut notes, socket),
    };
    text_after(said, &notes)
}

/// The line of reports that aren't the expected ones, or of a filter that doesn't answer as it was recorded.
fn explain_difference(
    alloc: Global,
    request: &Request<'_>,
    number: u64,
) -> Result<Vec<u8>, NoMemory> {
    match request {
        Request::Replay(asked) => explain_number(alloc, asked.trace, number, ANSWERED_OTHERWISE),
        _ => {
            let path = path_of(request, InputFile::Reports).unwrap_or("reports");
            explain_number(alloc, path, number, OTHER_REPORTS)
        }
    }
}

/// The same, and the difference line by line.
fn explain_reports(
    alloc: Global,
    request: &Request<'_>,
    number: u64,
    failure: &Failure<'_>,
) -> Result<Vec<u8>, NoMemory> {
    let mut said = explain_difference(alloc, request, number)?;
    if let Some(reports) = &failure.reports {
        put_difference(alloc, reports, &mut said)?;
    }
    Ok(said)
}

/// Puts the difference of reports, line by line.
fn put_difference(
    alloc: Global,
    reports: &DifferingReports,
    said: &mut Vec<u8>,
) -> Result<(), NoMemory> {
    let expected = lines_of(alloc, reports.expected.as_slice())?;
    let difference = difference_from(alloc, expected.as_slice(), reports.found.as_slice())?;
    Ok(said.extend_from_slice(difference.as_slice())?)
}

/// The difference of these reports from the lines that are expected.
fn difference_from(alloc: Global, expected: &[&[u8]], found: &[u8]) -> Result<Vec<u8>, NoMemory> {
    let found = lines_of(alloc, found)?;
    difference_text(alloc, expected, found.as_slice())
}

/// The lines of an error of the file at this path, which is one of several; or of the one that a request names. A trace
/// is read piece by piece, and has any size.
fn explain_failed_file(
    files: &HostRuntime,
    alloc: Global,
    request: &Request<'_>,
    path: Option<&str>,
    error: FileError,
) -> Result<Vec<u8>, NoMemory> {
    match (path, error) {
        (Some(path), FileError::Read(InputFile::Capture)) => {
            line(alloc, path, unread_reason(files, Path::new(path)))
        }
        (None, FileError::Read(InputFile::Capture)) => line(alloc, "standard input", UNREAD_INPUT),
        (Some(path), FileError::Read(_)) => {
            line(alloc, path, unstreamed_reason(files, Path::new(path)))
        }
        (_, error) => explain_request_file(files, alloc, request, error),
    }
}

/// The lines of an error of a file that a request names.
fn explain_request_file(
    files: &HostRuntime,
    alloc: Global,
    request: &Request<'_>,
    error: FileError,
) -> Result<Vec<u8>, NoMemory> {
    let path = match error {
        FileError::Read(file) | FileError::Fault { file, .. } => path_of(request, file),
        FileError::Write | FileError::NoMemory => None,
    };
    explain_file(files, alloc, path.unwrap_or(""), error)
}

/// The lines that say why the file at this path was not read, or is not of its form.
pub fn explain_file(
    files: &HostRuntime,
    alloc: Global,
    path: &str,
    error: FileError,
) -> Result<Vec<u8>, NoMemory> {
    match error {
        FileError::Read(_) => line(alloc, path, unread_reason(files, Path::new(path))),
        FileError::Fault { file, line, number } => {
            let said = explain_bytes(files, alloc, path, file)?;
            if said.is_empty() {
                return explain_number(alloc, path, line, fault_meaning(file, number));
            }
            Ok(said)
        }
        FileError::Write => line(alloc, "standard output", NOT_WRITTEN),
        // Words take memory.
        FileError::NoMemory => Ok(Vec::new(alloc)),
    }
}

/// The line that says this of a line of a file.
fn explain_number(
    alloc: Global,
    path: &str,
    number: u64,
    meaning: &str,
) -> Result<Vec<u8>, NoMemory> {
    let name = shown_name(alloc, path)?;
    let mut notes = Notes::new(alloc, name.as_str());
    notes.go_to(Some(number));
    text_after(notes.say(&[Span::Plain(meaning.as_bytes())]), &notes)
}

/// The lines that say what is wrong with what the file at this path has; none where it can't be read again, or has
/// nothing wrong now.
fn explain_bytes(
    files: &HostRuntime,
    alloc: Global,
    path: &str,
    file: InputFile,
) -> Result<Vec<u8>, NoMemory> {
    match bytes_again(files, alloc, file, path)? {
        Some(bytes) => all_said(files, alloc, path, file, bytes.as_slice()),
        None => Ok(Vec::new(alloc)),
    }
}

/// The same of what the file has.
fn all_said(
    files: &HostRuntime,
    alloc: Global,
    path: &str,
    file: InputFile,
    bytes: &[u8],
) -> Result<Vec<u8>, NoMemory> {
    let mut said = first_said(files, alloc, path, file, bytes)?;
    if let InputFile::Rules = file {
        let lists = unread_lists(files, alloc, path, bytes)?;
        said.extend_from_slice(lists.as_slice())?;
    }
    Ok(said)
}

/// The same, but for lists that can't be read.
fn first_said(
    files: &HostRuntime,
    alloc: Global,
    path: &str,
    file: InputFile,
    bytes: &[u8],
) -> Result<Vec<u8>, NoMemory> {
    let name = shown_name(alloc, path)?;
    let mut notes = Notes::new(alloc, name.as_str());
    text_after(say_file(files, &mut notes, path, file, bytes), &notes)
}

/// Says what is wrong with what a file has.
fn say_file(
    files: &HostRuntime,
    notes: &mut Notes<'_>,
    path: &str,
    file: InputFile,
    bytes: &[u8],
) -> Result<(), NoMemory> {
    match file {
        InputFile::Session => say_session(notes, bytes),
        InputFile::Events => say_events(notes, bytes),
        InputFile::Rules => say_rules(files, notes, path, bytes),
        InputFile::Reports | InputFile::Capture => Ok(()),
        InputFile::Trace => say_recording(notes, bytes),
    }
}
