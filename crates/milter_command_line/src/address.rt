//! The addresses of sockets.

ghost use Rattle.std.specs.Prelude.{◌≡◌, IfSome, List, None, ℕ};
ghost use Rattle.milter_command_line.specs.declared.address.Address.{Address};
ghost use Rattle.milter_command_line.specs.Address.{IsAddress, IsPlace, IsPort};

/// The address of a socket.
#[derive(Clone, Copy)]
pub enum Address<'a> {
    /// A port of a host, over TCP.
    Inet {
        /// The port, from 1.
        port: u16,
        /// The name of the host, or its IP address; not empty.
        host: &'a str,
    },
    /// A Unix socket.
    Unix {
        /// The path, not empty.
        path: &'a str,
    },
}

impl<'a> Address<'a> {
    /// The address that a text names: `inet:PORT@HOST`, with a port from 1 to 65,535 in decimal digits, or `unix:PATH`.
    /// A port may have leading zeros. The form is libmilter's. Source: the libmilter documentation (smfi_setconn).
    pub fn parse(text: &'a str) -> Option<Address<'a>>
        ensures found { IfSome result (IsAddress text.entry.now) }
        ensures only { result ≡ None → (address : Address) → ¬ IsAddress text.entry.now address }
    {
        match text.split_once(':')? {
            ("inet", place) => {
                let (port, host) = parse_place(place)?;
                Some(Address::Inet { port, host })
            }
            ("unix", path) if !path.is_empty() => Some(Address::Unix { path }),
            _ => None,
        }
    }
}

/// The port and the host in `PORT@HOST`.
fn parse_place(place: &str) -> Option<(u16, &str)>
    ensures found { IfSome result (λ found. IsPlace place.entry.now found.0 found.1.now) }
    ensures only { result ≡ None → (port : ℕ) (host : List ℕ) → ¬ IsPlace place.entry.now port host }
{
    let (digits, host) = place.split_once('@')?;
    let port = parse_port(digits)?;
    if host.is_empty() {
        return None;
    }
    Some((port, host))
}

/// The port in decimal digits, from 1. A sign is none of them.
fn parse_port(digits: &str) -> Option<u16>
    ensures found { IfSome result (IsPort digits.now) }
    ensures only { result ≡ None → (port : ℕ) → ¬ IsPort digits.now port }
{
    if digits.starts_with('+') {
        return None;
    }
    match digits.parse::<u16>() {
        Ok(port) if port > 0 => Some(port),
        _ => None,
    }
}
