//! The client in its line of a session file. A fault is the first of these that is so: the words don't have the line's
//! form, a text has a NUL, or the packet would be too long.

ghost use Rattle.std.specs.Prelude.{◌≡◌, ◌↔◌, ◌-◌, ◌^◌, min, IfErr, IfOk, IsTrue, List, None, Some, ℕ, if◌then◌else◌};
ghost use Rattle.std.specs.Prelude.{option_map};
ghost use Rattle.std.specs.Str.Parse.{digits_value};
ghost use Rattle.milter_wire.specs.declared.command.Command.TheVariants as commands;
ghost use Rattle.milter_wire.specs.Command.{Fits};
ghost use Rattle.milter_fields.specs.Layout.{OriginFits};
ghost use Rattle.milter_mail_file.specs.ClientOrigin.{endpoint_origin, origin_with};
ghost use Rattle.milter_mail_file.specs.LineValues.{client_of, is_port, origin_of};
ghost use Rattle.milter_mail_file.specs.SessionFault.{IsAt, Reads};

use crate::session_fault::SessionFault;
use milter_text::{FileLine, Word};
use milter_wire::{Client, NoMemory, Origin, Text, connect_packet_len};
use std::alloc::Global;

/// A family of addresses with ports.
#[derive(Clone, Copy)]
pub(crate) enum Family {
    Unix,
    Inet,
    Inet6,
}

/// The address and the port that a client connects from.
#[derive(Clone, Copy)]
pub(crate) struct Endpoint<'a> {
    pub(crate) family: Family,
    pub(crate) port: u16,
    pub(crate) address: &'a Text,
}

/// The client in the line.
pub(crate) fn client_in(alloc: Global, line: &FileLine) -> Result<Client, SessionFault>
    ensures reads { Reads (client_of line.now.words.items) (λ client. Fits (commands.Connect client)) result }
    ensures at { IfErr result (λ e. IsAt line.now.number e) }
{
    let Some((host, endpoint)) = client_parts(line.words.as_slice()) else {
        return Err(SessionFault::BadClient(line.number));
    };
    if !host.has_no_nul() || !endpoint_has_no_nul(endpoint) {
        return Err(SessionFault::Nul(line.number));
    }
    let host = Text::copy_of(alloc, host.as_slice())?;
    let origin = copy_origin(alloc, endpoint)?;
    sized_client(Client { host, origin }, line.number)
}

/// The host and the endpoint in the words of a client's line; an unknown client has no endpoint.
fn client_parts(words: &[Word]) -> Option<(&Text, Option<Endpoint<'_>>)>
    ensures { option_map (λ x. record { host = x.0.now; origin = endpoint_origin x.1 }) result ≡ client_of words.now }
{
    match words {
        [first, family, host] => {
            if !first.is_keyword(b"client") || !family.is_keyword(b"U") {
                return None;
            }
            Some((host.quoted_text()?, None))
        }
        [first, family, host, port, address] => {
            if !first.is_keyword(b"client") {
                return None;
            }
            let host = host.quoted_text()?;
            let port = port_in(port)?;
            let address = address.quoted_text()?;
            let family = family_in(family)?;
            Some((
                host,
                Some(Endpoint {
                    family,
                    port,
                    address,
                }),
            ))
        }
        _ => None,
    }
}

/// The family that has addresses, by its word.
fn family_in(word: &Word) -> Option<Family>
    ensures { (port : ℕ) (address : List ℕ) →
        option_map (λ family. origin_with family port address) result ≡ origin_of word.now port address }
{
    if word.is_keyword(b"L") {
        Some(Family::Unix)
    } else if word.is_keyword(b"4") {
        Some(Family::Inet)
    } else if word.is_keyword(b"6") {
        Some(Family::Inet6)
    } else {
        None
    }
}

/// The port that the word is.
fn port_in(word: &Word) -> Option<u16>
    ensures { result ≡ (if is_port word.now then Some (digits_value 10 word.now.text) else None) }
{
    u16::try_from(word.number()?).ok()
}

/// Whether there is no endpoint, or one whose address has no NUL.
fn endpoint_has_no_nul(endpoint: Option<Endpoint<'_>>) -> bool
    ensures { IsTrue result ↔ OriginFits (endpoint_origin endpoint.entry) }
{
    match endpoint {
        None => true,
        Some(endpoint) => endpoint.address.has_no_nul(),
    }
}

/// The origin of a client with this endpoint.
fn copy_origin(alloc: Global, endpoint: Option<Endpoint<'_>>) -> Result<Origin, NoMemory>
    ensures { IfOk result (λ origin. origin ≡ endpoint_origin endpoint.entry) }
{
    let Some(
        Endpoint {
            family,
            port,
            address,
        },
    ) = endpoint
    else {
        return Ok(Origin::Unknown);
    };
    let address = Text::copy_of(alloc, address.as_slice())?;
    Ok(match family {
        Family::Unix => Origin::Unix { port, address },
        Family::Inet => Origin::Inet { port, address },
        Family::Inet6 => Origin::Inet6 { port, address },
    })
}

/// The client, unless its packet would be too long.
fn sized_client(client: Client, number: u64) -> Result<Client, SessionFault>
    ensures reads { Reads (Some client) (λ client. Fits (commands.Connect client)) result }
    ensures at { IfErr result (λ e. IsAt number e) }
{
    match connect_packet_len(&client) {
        Some(_) => Ok(client),
        None => Err(SessionFault::TooLarge(number)),
    }
}
