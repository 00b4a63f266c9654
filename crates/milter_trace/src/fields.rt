//! The fields of packets, as a line prints them: each after a blank.

ghost use Rattle.std.specs.Prelude.{◌≡◌, ◌++◌, ◌∷◌, [], OnOk, decimal, map, take};
ghost use Rattle.std.specs.List.{flat_map};
ghost use Rattle.milter_fields.specs.Code.{code_text};
ghost use Rattle.milter_text.specs.QuotedText.{quoted};
ghost use Rattle.milter_trace.specs.PacketText.{arguments_fields, body_fields, client_fields, command_fields, fields_text, header_fields, hex8, names_fields};
ghost use Rattle.milter_trace.specs.PacketText.{options_fields, origin_fields, pair_fields, path_fields, reply_fields, sym_list_fields};
ghost use Rattle.milter_wire.specs.Bits.{actions_table, names_text, protocol_table};

use crate::form::TraceForm;
use itoa::Buffer;
use milter_text::quote;
use milter_wire::{
    Actions, Client, CodeName, Command, Header, NoMemory, Options, Origin, Pair, Path, Protocol,
    Reply, SymList, Text,
};
use std::alloc::Global;

/// Appends the fields of a command.
pub(crate) fn put_command(
    alloc: Global,
    form: TraceForm,
    text: &mut Vec<u8>,
    command: &Command,
) -> Result<(), NoMemory>
    ensures { OnOk result (text.new.items ≡ text.old.items ++ fields_text (command_fields form command.now)) }
{
    match command {
        Command::Options(options) => put_options(form, text, options),
        Command::Macro { command, pairs } => put_macro(alloc, text, *command, pairs.as_slice()),
        Command::Connect(client) => put_client(alloc, text, client),
        Command::Helo(string) | Command::Unknown(string) => put_text(alloc, text, string),
        Command::Mail(path) | Command::Rcpt(path) => put_path(alloc, text, path),
        Command::Header(header) => put_header(alloc, text, header),
        Command::Body(bytes) | Command::Eob(bytes) => put_body(alloc, form, text, bytes),
        Command::DataCmd | Command::Eoh => Ok(()),
        Command::Abort | Command::Quit | Command::QuitNew => Ok(()),
    }
}

/// Appends the fields of a reply.
pub(crate) fn put_reply(
    alloc: Global,
    form: TraceForm,
    text: &mut Vec<u8>,
    reply: &Reply,
) -> Result<(), NoMemory>
    ensures { OnOk result (text.new.items ≡ text.old.items ++ fields_text (reply_fields form reply.now)) }
{
    match reply {
        Reply::Options { options, lists } => {
            put_options(form, text, options)?;
            put_sym_lists(alloc, text, lists.as_slice())
        }
        Reply::AddRcpt(string) | Reply::DelRcpt(string) => put_text(alloc, text, string),
        Reply::Quarantine(string) | Reply::Code(string) => put_text(alloc, text, string),
        Reply::AddRcptPar { address, arguments } => put_addressed(alloc, text, address, arguments),
        Reply::ChangeFrom { address, arguments } => put_addressed(alloc, text, address, arguments),
        Reply::AddHeader(header) => put_header(alloc, text, header),
        Reply::InsertHeader { index, header } => put_indexed(alloc, text, *index, header),
        Reply::ChangeHeader { index, header } => put_indexed(alloc, text, *index, header),
        Reply::ReplaceBody(bytes) => put_body(alloc, form, text, bytes),
        Reply::Continue | Reply::Skip | Reply::Progress => Ok(()),
        Reply::Accept | Reply::Discard | Reply::Reject | Reply::Tempfail => Ok(()),
    }
}

fn put_options(form: TraceForm, text: &mut Vec<u8>, options: &Options) -> Result<(), NoMemory>
    ensures { OnOk result (text.new.items ≡ text.old.items ++ fields_text (options_fields form options.now)) }
{
    text.extend_from_slice(b" version")?;
    put_number(text, u64::from(options.version))?;
    text.extend_from_slice(b" actions")?;
    put_hex8(text, options.actions.0)?;
    put_actions(form, text, options.actions)?;
    text.extend_from_slice(b" protocol")?;
    put_hex8(text, options.protocol.0)?;
    put_protocol(form, text, options.protocol)
}

/// Appends the names of actions, where the form has names.
fn put_actions(form: TraceForm, text: &mut Vec<u8>, actions: Actions) -> Result<(), NoMemory>
    ensures { OnOk result (text.new.items ≡ text.old.items ++ fields_text (names_fields form
        (names_text actions_table actions.0))) }
{
    if !form.names {
        return Ok(());
    }
    text.push(b' ')?;
    actions.put_names(text)
}

/// Appends the names of protocol bits, where the form has names.
fn put_protocol(form: TraceForm, text: &mut Vec<u8>, protocol: Protocol) -> Result<(), NoMemory>
    ensures { OnOk result (text.new.items ≡ text.old.items ++ fields_text (names_fields form
        (names_text protocol_table protocol.0))) }
{
    if !form.names {
        return Ok(());
    }
    text.push(b' ')?;
    protocol.put_names(text)
}

/// Appends each symbol list: its stage and the names.
fn put_sym_lists(alloc: Global, text: &mut Vec<u8>, lists: &[SymList]) -> Result<(), NoMemory>
    ensures { OnOk result (text.new.items ≡ text.old.items ++ fields_text (flat_map sym_list_fields lists.now)) }
{
    for list in lists {
        text.extend_from_slice(b" symbols")?;
        put_number(text, u64::from(list.stage))?;
        put_text(alloc, text, &list.names)?;
    }
    Ok(())
}

/// Appends the command that the macros are for, and their names and values.
fn put_macro(alloc: Global, text: &mut Vec<u8>, command: u8, pairs: &[Pair]) -> Result<(), NoMemory>
    ensures { OnOk result (text.new.items ≡ text.old.items ++ fields_text (code_text command
        ∷ flat_map pair_fields pairs.now)) }
{
    text.push(b' ')?;
    put_code(alloc, text, command)?;
    for pair in pairs {
        put_text(alloc, text, &pair.name)?;
        put_text(alloc, text, &pair.value)?;
    }
    Ok(())
}

fn put_client(alloc: Global, text: &mut Vec<u8>, client: &Client) -> Result<(), NoMemory>
    ensures { OnOk result (text.new.items ≡ text.old.items ++ fields_text (client_fields client.now)) }
{
    put_text(alloc, text, &client.host)?;
    match &client.origin {
        Origin::Unknown => {
            text.extend_from_slice(b" U")?;
            Ok(())
        }
        Origin::Unix { port, address } => put_endpoint(alloc, text, b'L', *port, address),
        Origin::Inet { port, address } => put_endpoint(alloc, text, b'4', *port, address),
        Origin::Inet6 { port, address } => put_endpoint(alloc, text, b'6', *port, address),
    }
}

/// Appends a family, a port and an address.
fn put_endpoint(
    alloc: Global,
    text: &mut Vec<u8>,
    family: u8,
    port: u16,
    address: &Text,
) -> Result<(), NoMemory>
    ensures { OnOk result (text.new.items ≡ text.old.items ++ fields_text ((family ∷ []) ∷ decimal port
        ∷ quoted address.now ∷ [])) }
{
    text.push(b' ')?;
    text.push(family)?;
    put_number(text, u64::from(port))?;
    put_text(alloc, text, address)
}

fn put_path(alloc: Global, text: &mut Vec<u8>, path: &Path) -> Result<(), NoMemory>
    ensures { OnOk result (text.new.items ≡ text.old.items ++ fields_text (path_fields path.now)) }
{
    put_text(alloc, text, &path.address)?;
    for param in path.params.as_slice() {
        put_text(alloc, text, param)?;
    }
    Ok(())
}

/// Appends an address, and its arguments where there are some.
fn put_addressed(
    alloc: Global,
    text: &mut Vec<u8>,
    address: &Text,
    arguments: &Option<Text>,
) -> Result<(), NoMemory>
    ensures { OnOk result (text.new.items ≡ text.old.items ++ fields_text (quoted address.now
        ∷ arguments_fields arguments.now)) }
{
    put_text(alloc, text, address)?;
    match arguments {
        Some(arguments) => put_text(alloc, text, arguments),
        None => Ok(()),
    }
}

fn put_header(alloc: Global, text: &mut Vec<u8>, header: &Header) -> Result<(), NoMemory>
    ensures { OnOk result (text.new.items ≡ text.old.items ++ fields_text (header_fields header.now)) }
{
    put_text(alloc, text, &header.name)?;
    put_text(alloc, text, &header.value)
}

fn put_indexed(
    alloc: Global,
    text: &mut Vec<u8>,
    index: u32,
    header: &Header,
) -> Result<(), NoMemory>
    ensures { OnOk result (text.new.items ≡ text.old.items ++ fields_text (decimal index ∷ header_fields header.now)) }
{
    put_number(text, u64::from(index))?;
    put_header(alloc, text, header)
}

/// Appends the number of bytes of a part of a body, and the first of them where the form has bodies.
fn put_body(
    alloc: Global,
    form: TraceForm,
    text: &mut Vec<u8>,
    bytes: &Text,
) -> Result<(), NoMemory>
    ensures { OnOk result (text.new.items ≡ text.old.items ++ fields_text (body_fields form bytes.now)) }
{
    put_number(text, bytes.as_slice().len() as u64)?;
    match form.bodies {
        Some(most) => put_first(alloc, text, bytes.as_slice(), most as usize),
        None => Ok(()),
    }
}

/// Appends so many of these bytes, or all of them, in quotes.
fn put_first(alloc: Global, text: &mut Vec<u8>, bytes: &[u8], most: usize) -> Result<(), NoMemory>
    ensures { OnOk result (text.new.items ≡ text.old.items ++ fields_text (quoted (take most bytes.now) ∷ [])) }
{
    text.push(b' ')?;
    if most < bytes.len() {
        quote(alloc, &bytes[..most], text)
    } else {
        quote(alloc, bytes, text)
    }
}

/// Appends a text in quotes.
fn put_text(alloc: Global, text: &mut Vec<u8>, string: &Text) -> Result<(), NoMemory>
    ensures { OnOk result (text.new.items ≡ text.old.items ++ fields_text (quoted string.now ∷ [])) }
{
    text.push(b' ')?;
    quote(alloc, string.as_slice(), text)
}

/// Appends a number in decimal.
fn put_number(text: &mut Vec<u8>, number: u64) -> Result<(), NoMemory>
    ensures { OnOk result (text.new.items ≡ text.old.items ++ fields_text (decimal number ∷ [])) }
{
    text.push(b' ')?;
    text.extend_from_slice(Buffer::new().format(number).as_bytes())?;
    Ok(())
}

/// Appends a set of bits in eight hexadecimal digits, letters in lower case.
#[tactic(auto, unfolding(milter_fields::specs::Number::number))]
fn put_hex8(text: &mut Vec<u8>, number: u32) -> Result<(), NoMemory>
    ensures { OnOk result (text.new.items ≡ text.old.items ++ fields_text (hex8 number ∷ [])) }
{
    let mut digits = [0u8; 8];
    let bytes = number.to_be_bytes();
    text.push(b' ')?;
    if hex::encode_to_slice(bytes.as_slice(), &mut digits).is_ok() {
        text.extend_from_slice(&digits)?;
    }
    Ok(())
}

/// Appends a code, with no blank before it: a visible ASCII character as itself, another byte as `\xhh`.
pub(crate) fn put_code(alloc: Global, text: &mut Vec<u8>, code: u8) -> Result<(), NoMemory>
    ensures { OnOk result (text.new.items ≡ text.old.items ++ code_text code) }
{
    if code.is_ascii_graphic() {
        text.push(code)?;
        return Ok(());
    }
    let name = CodeName(code).to_string(alloc)?;
    text.extend_from_slice(name.as_bytes())?;
    Ok(())
}
