//! What is said of sockets that the system refuses.

use crate::failure::SocketFault;
use crate::file_words::has_folder;
use milter_command_line::Address;
use milter_rules::{Notes, Span};
use milter_wire::NoMemory;
use std::io::ErrorKind;
use std::path::Path;

/// Says why the program can't listen at an address.
pub(crate) fn say_unbound(
    files: &HostRuntime,
    notes: &mut Notes<'_>,
    fault: SocketFault<'_>,
) -> Result<(), NoMemory> {
    let Some(kind) = fault.kind else {
        return notes.say(&[Span::Plain(b"the system doesn't wait for connections")]);
    };
    match Address::parse(fault.address) {
        Some(Address::Inet { host, .. }) => say_unbound_port(notes, host, kind),
        Some(Address::Unix { path }) => {
            let reason = unbound_path(files, Path::new(path), kind);
            notes.say(&[Span::Plain(reason.as_bytes())])
        }
        None => Ok(()),
    }
}

/// Says why the program can't listen on a port of this host.
fn say_unbound_port(notes: &mut Notes<'_>, host: &str, kind: ErrorKind) -> Result<(), NoMemory> {
    let host_span = Span::Quoted(host.as_bytes());
    match kind {
        ErrorKind::AddrNotAvailable => {
            let end =
                b" is no address of this machine; 0.0.0.0 stands for all that it has, 127.0.0.1 for itself";
            notes.say(&[host_span, Span::Plain(end)])
        }
        ErrorKind::Uncategorized => say_no_name(notes, host),
        _ => notes.say(&[Span::Plain(unbound_port(kind).as_bytes())]),
    }
}

/// Why the program can't listen on a port.
fn unbound_port(kind: ErrorKind) -> &'static str {
    match kind {
        ErrorKind::AddrInUse => {
            "address in use: a program listens on this port already; end it, or take another port"
        }
        ErrorKind::PermissionDenied => {
            "permission denied: a port below 1024 needs the right to it; take one from 1024 on"
        }
        _ => "the system doesn't give this socket",
    }
}

/// Says that no host has this name.
fn say_no_name(notes: &mut Notes<'_>, host: &str) -> Result<(), NoMemory> {
    let host_span = Span::Quoted(host.as_bytes());
    let end: &[u8] = if host.starts_with('[') {
        b"; an IPv6 address stands without brackets"
    } else {
        b"; a host is a name that the system finds, or an IP address"
    };
    notes.say(&[
        Span::Plain(b"name not found: "),
        host_span,
        Span::Plain(end),
    ])
}

/// Why the program can't listen on this path.
fn unbound_path(files: &HostRuntime, path: Path<'_>, kind: ErrorKind) -> &'static str {
    match kind {
        ErrorKind::AddrInUse => {
            "address in use: there is a file of this path, or a program listens there; \
             remove it, or take another path"
        }
        ErrorKind::NotFound if !has_folder(files, path) => {
            "no such folder: make the folder of the socket first"
        }
        ErrorKind::NotADirectory => "a part of the path is a file, where a folder is due",
        ErrorKind::PermissionDenied => {
            "permission denied: the user who runs the program has to be allowed to write in the folder of the socket"
        }
        ErrorKind::InvalidInput | ErrorKind::InvalidFilename => {
            "the path is too long: that of a socket has at most 107 bytes"
        }
        ErrorKind::ReadOnlyFilesystem => "the folder of the socket can only be read",
        _ => "the system doesn't give this socket",
    }
}

/// Says why no filter was reached at an address.
pub(crate) fn say_unconnected(
    notes: &mut Notes<'_>,
    fault: SocketFault<'_>,
) -> Result<(), NoMemory> {
    let kind = fault.kind.unwrap_or(ErrorKind::Other);
    match Address::parse(fault.address) {
        Some(Address::Inet { host, .. }) if kind == ErrorKind::Uncategorized => {
            say_no_name(notes, host)
        }
        _ => notes.say(&[Span::Plain(unconnected(kind).as_bytes())]),
    }
}

/// Why no filter was reached.
fn unconnected(kind: ErrorKind) -> &'static str {
    match kind {
        ErrorKind::ConnectionRefused => {
            "connection refused: nobody listens there; start the filter (mta and replay wait for one with --wait)"
        }
        ErrorKind::NotFound => {
            "no such file: there is no socket of this path; start the filter (mta and replay wait for one with --wait)"
        }
        ErrorKind::PermissionDenied => {
            "permission denied: the user who runs the program has to be allowed to write to the socket"
        }
        ErrorKind::TimedOut => "the host doesn't answer",
        ErrorKind::HostUnreachable | ErrorKind::NetworkUnreachable => "the host isn't reached",
        ErrorKind::AddrNotAvailable => "the host has no such address",
        ErrorKind::NotADirectory => "a part of the path is a file, where a folder is due",
        _ => "the system doesn't connect there",
    }
}
