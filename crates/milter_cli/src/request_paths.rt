//! The files and values that a request names.

use crate::file_error::InputFile;
use milter_command_line::Request;

/// The path of the file of this kind that a request names.
pub(crate) fn path_of<'a>(request: &Request<'a>, file: InputFile) -> Option<&'a str> {
    match file {
        InputFile::Session => session_path(request),
        InputFile::Rules => rules_path(request),
        InputFile::Events => events_path(request),
        InputFile::Reports => reports_path(request),
        InputFile::Trace => trace_path(request),
        // It is one of several.
        InputFile::Capture => None,
    }
}

fn session_path<'a>(request: &Request<'a>) -> Option<&'a str> {
    match request {
        Request::Session { file } => Some(*file),
        Request::Mta(asked) => Some(asked.session),
        Request::Play(asked) => Some(asked.session),
        Request::Load(asked) => Some(asked.session),
        Request::Probe(asked) => Some(asked.session),
        _ => None,
    }
}

fn rules_path<'a>(request: &Request<'a>) -> Option<&'a str> {
    match request {
        Request::Rules { file, .. } => Some(*file),
        Request::Answer(asked) => asked.rules,
        Request::Filter(asked) => asked.rules,
        Request::Serve(asked) => asked.rules,
        Request::Play(asked) => asked.rules,
        _ => None,
    }
}

fn events_path<'a>(request: &Request<'a>) -> Option<&'a str> {
    match request {
        Request::Play(asked) => asked.events,
        _ => None,
    }
}

fn reports_path<'a>(request: &Request<'a>) -> Option<&'a str> {
    match request {
        Request::Mta(asked) => asked.expect,
        Request::Play(asked) => asked.expect,
        _ => None,
    }
}

fn trace_path<'a>(request: &Request<'a>) -> Option<&'a str> {
    match request {
        Request::Replay(asked) => Some(asked.trace),
        _ => None,
    }
}

/// The path of the directory of traces that a request names.
pub(crate) fn directory_of<'a>(request: &Request<'a>) -> Option<&'a str> {
    match request {
        Request::Record(asked) => Some(asked.directory),
        _ => None,
    }
}

/// The addresses that a request names.
pub(crate) fn addresses_of<'r, 'a>(request: &'r Request<'a>) -> &'r [&'a str] {
    match request {
        Request::Serve(asked) => asked.addresses.as_slice(),
        _ => &[],
    }
}

/// The one address that a request names.
pub(crate) fn address_of<'a>(request: &Request<'a>) -> Option<&'a str> {
    match request {
        Request::Filter(asked) => Some(asked.address),
        Request::Mta(asked) => Some(asked.address),
        Request::Replay(asked) => Some(asked.address),
        Request::Load(asked) => Some(asked.address),
        Request::Probe(asked) => Some(asked.address),
        _ => None,
    }
}

/// The value of `--actions` in a request.
pub(crate) fn actions_of<'a>(request: &Request<'a>) -> Option<&'a str> {
    match request {
        Request::Mta(asked) => asked.actions,
        Request::Play(asked) => asked.actions,
        _ => None,
    }
}

/// The value of `--protocol` in a request.
pub(crate) fn protocol_of<'a>(request: &Request<'a>) -> Option<&'a str> {
    match request {
        Request::Mta(asked) => asked.protocol,
        Request::Play(asked) => asked.protocol,
        _ => None,
    }
}

/// The values of `--macro` in a request.
pub(crate) fn macros_of<'r, 'a>(request: &'r Request<'a>) -> &'r [&'a str] {
    match request {
        Request::Mta(asked) => asked.macros.as_slice(),
        _ => &[],
    }
}

/// The value of `--only` in a request.
pub(crate) fn only_of<'a>(request: &Request<'a>) -> Option<&'a str> {
    match request {
        Request::Probe(asked) => asked.only,
        _ => None,
    }
}

/// The digits of `--mode` in a request.
pub(crate) fn mode_of(request: &Request<'_>) -> Option<u32> {
    match request {
        Request::Serve(asked) => Some(asked.mode),
        _ => None,
    }
}
