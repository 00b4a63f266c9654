//! What a filter is shown.

ghost use Rattle.std.specs.Prelude.{◌≡◌, [], IfOk, OnErr, OnOk, false, map, option_map};
ghost use Rattle.std.specs.List.{list_any};
ghost use Rattle.std.specs.Option.{option_copied};
ghost use Rattle.milter_wire.specs.BorrowedCommand.{command_of};
ghost use Rattle.milter_protocol.specs.Seen.{seen, value_in};
ghost use Rattle.milter_filter_stream.specs.SeenParts.{nothing_seen, parts_with};
ghost use Rattle.milter_filter_search.specs.Needles.{matches, part_of};
ghost use Rattle.milter_filter_search.specs.Texts.{finds, values_named};

use crate::macro_list::MacroList;
use milter_filter_search::{Body, Headers, Needle, PathPart, Pattern, Recipients};
use milter_wire::codes::{SMFIC_CONNECT, SMFIC_HELO};
use milter_wire::{Client, CommandRef, Header, NoMemory, Path, Text};
use std::alloc::Global;
use std::marker::Model;

/// What a filter is going to look for in what it is shown, for [`Seen::search`](crate::Seen::search).
#[derive(Clone, Copy, Debug)]
pub enum Search<'a> {
    /// A needle in this part of the recipients, for [`Seen::finds_in_recipients`](crate::Seen::finds_in_recipients).
    Recipients(PathPart, &'a Needle<'a>),
    /// A needle in the values of the header fields of this name, in which ASCII case doesn't count, for
    /// [`Seen::finds_in_headers`](crate::Seen::finds_in_headers).
    Headers(&'a [u8], &'a Needle<'a>),
    /// A pattern in the body, for [`Seen::finds_in_body`](crate::Seen::finds_in_body).
    Body(&'a Pattern<'a>),
    /// The value that was last given to the macro of this name, for
    /// [`Seen::macro_value_at`](crate::Seen::macro_value_at).
    Macro(&'a [u8]),
}

/// What a filter is shown when it is asked: what has come of the connection, and of the message up to the stage that it
/// is asked about. A filter's end alone makes and fills it. Source: the libmilter callback documentation (callbacks).
#[derive(Debug, Drop)]
pub struct Seen {
    leading_space: bool,
    client: Option<Client>,
    helo: Option<Text>,
    sender: Option<Path>,
    recipients: Recipients,
    headers: Headers,
    body: Body,
    macros: MacroList,
}

impl Model for Seen {
    ghost use Rattle.std.specs.Prelude.{[], None};
    ghost use Rattle.milter_filter_stream.specs.SeenParts.{SeenParts};

    // What is shown, and what of it stays for the whole connection.
    ghost Value = { SeenParts };

    ghost view = { λ s. record {
      shown = record {
        leading_space = s.leading_space;
        client = s.client;
        helo = s.helo;
        sender = s.sender;
        recipients = s.recipients;
        headers = s.headers;
        body = s.body;
        macros = s.macros.shown;
      };
      connection = record {
        leading_space = s.leading_space;
        client = s.client;
        helo = s.helo;
        sender = None;
        recipients = [];
        headers = [];
        body = [];
        macros = s.macros.connection;
      };
    } };
}

impl Seen {
    /// The client that has connected, where its stage is sent. Doesn't allocate. Source: xxfi_connect.
    pub fn client(&self) -> Option<&Client>
        ensures { option_copied result ≡ self.now.shown.client }
    {
        self.client.as_ref()
    }

    /// The name that the client last greeted with. Doesn't allocate. Source: xxfi_helo.
    pub fn helo(&self) -> Option<&[u8]>
        ensures { option_map (λ name. name.now) result ≡ self.now.shown.helo }
    {
        match &self.helo {
            Some(name) => Some(name.as_slice()),
            None => None,
        }
    }

    /// The sender of the message. Doesn't allocate. Source: xxfi_envfrom.
    pub fn sender(&self) -> Option<&Path>
        ensures { option_copied result ≡ self.now.shown.sender }
    {
        self.sender.as_ref()
    }

    /// The recipients of the message, in order, refused ones too. Doesn't allocate. Source: xxfi_envrcpt.
    pub fn recipients(&self) -> &[Path]
        ensures { result.now ≡ self.now.shown.recipients }
    {
        self.recipients.as_slice()
    }

    /// The header fields of the message, in order, with values as they were sent. Doesn't allocate. Source:
    /// xxfi_header.
    pub fn headers(&self) -> &[Header]
        ensures { result.now ≡ self.now.shown.headers }
    {
        self.headers.as_slice()
    }

    /// The body of the message, as far as it has come. Doesn't allocate. Source: xxfi_body.
    pub fn body(&self) -> &[u8]
        ensures { result.now ≡ self.now.shown.body }
    {
        self.body.as_slice()
    }

    /// Whether the needle is found in this part of one of the recipients. What [`Seen::search`] found for the same in
    /// this place isn't looked for again. Allocates as [`Needle::matches`] does, and canonical addresses; `NoMemory`
    /// where memory is refused.
    pub fn finds_in_recipients(
        &self,
        alloc: Global,
        place: usize,
        part: PathPart,
        needle: &Needle<'_>,
    ) -> Result<bool, NoMemory>
        ensures { IfOk result (λ found. found
            ≡ list_any (matches needle.now) (map (part_of part) self.now.shown.recipients)) }
    {
        self.recipients.finds(alloc, place, part, needle)
    }

    /// Whether the needle is found in the value of a header field of this name, in which ASCII case doesn't count. What
    /// [`Seen::search`] found for the same in this place isn't looked for again. Allocates as [`Needle::matches`] does;
    /// `NoMemory` where memory is refused.
    pub fn finds_in_headers(
        &self,
        alloc: Global,
        place: usize,
        name: &[u8],
        needle: &Needle<'_>,
    ) -> Result<bool, NoMemory>
        ensures { IfOk result (λ found. found
            ≡ list_any (matches needle.now) (values_named name.now self.now.shown.headers)) }
    {
        self.headers.finds(alloc, place, name, needle)
    }

    /// Whether the pattern is found in the body, as far as it has come. What [`Seen::search`] found for the same in
    /// this place isn't looked for again. Doesn't allocate.
    pub fn finds_in_body(&self, place: usize, pattern: &Pattern<'_>) -> bool
        ensures { result ≡ finds pattern.now.case pattern.now.test pattern.now.text.now self.now.shown.body }
    {
        self.body.finds(place, pattern)
    }

    /// The value that was last given to a macro of this name. Doesn't allocate. Source: smfi_getsymval.
    pub fn macro_value(&self, name: &[u8]) -> Option<&[u8]>
        ensures { option_map (λ value. value.now) result ≡ value_in self.now.shown.macros name.now }
    {
        self.macros.value(name)
    }

    /// The value that was last given to a macro of this name. What [`Seen::search`] found for the same in this
    /// place isn't looked for again. Doesn't allocate. Source: smfi_getsymval.
    pub fn macro_value_at(&self, place: usize, name: &[u8]) -> Option<&[u8]>
        ensures { option_map (λ value. value.now) result ≡ value_in self.now.shown.macros name.now }
    {
        self.macros.value_at(place, name)
    }

    /// Searches what is shown for what is going to be looked for in this place: only what came since the same was
    /// searched for in this place. Recipients, header fields, the body and macros have places of their own, numbered
    /// from 0; the first search in each comes after that in the one before. It keeps copies of names and texts, and
    /// where a value is, and owns a list together with its other owners. Where memory is refused nothing more is kept.
    pub fn search(&mut self, alloc: Global, place: usize, search: Search<'_>)
        ensures { self.new ≡ self.old }
    {
        match search {
            Search::Recipients(part, needle) => self.recipients.search(alloc, place, part, needle),
            Search::Headers(name, needle) => self.headers.search(alloc, place, name, needle),
            Search::Body(pattern) => self.body.search(alloc, place, pattern),
            Search::Macro(name) => self.macros.search(alloc, place, name),
        }
    }

    /// Whether values of header fields come with the blank that they begin with. Doesn't allocate. Source: mfdef.h
    /// (SMFIP_HDR_LEADSPC).
    pub fn leading_space(&self) -> bool
        ensures { result ≡ self.now.shown.leading_space }
    {
        self.leading_space
    }

    /// Nothing is shown yet. Doesn't allocate.
    pub(crate) fn new(alloc: Global) -> Self
        ensures { result ≡ nothing_seen false }
    {
        Seen {
            leading_space: false,
            client: None,
            helo: None,
            sender: None,
            recipients: Recipients::new(alloc),
            headers: Headers::new(alloc),
            body: Body::new(alloc),
            macros: MacroList::new(alloc),
        }
    }

    /// Copies what the command shows; commands of no stage but macros show nothing. After `NoMemory` nothing has
    /// changed.
    pub(crate) fn note(&mut self, alloc: Global, command: &CommandRef<'_>) -> Result<(), NoMemory>
        ensures ok { OnOk result (self.new ≡ parts_with self.old (command_of command.now)) }
        ensures err { OnErr result (self.new ≡ self.old) }
    {
        match command {
            CommandRef::Connect(client) => self.client = Some(client.to_client(alloc)?),
            CommandRef::Helo(name) => self.helo = Some(Text::copy_of(alloc, name)?),
            CommandRef::Mail(sender) => self.sender = Some(sender.to_path(alloc)?),
            CommandRef::Rcpt(recipient) => self.recipients.push(recipient.to_path(alloc)?)?,
            CommandRef::Header(header) => self.headers.push(alloc, header)?,
            CommandRef::Body(bytes) | CommandRef::Eob(bytes) => {
                self.body.extend(bytes)?;
            }
            CommandRef::Macro { command, pairs } => {
                let of_connection = *command == SMFIC_CONNECT || *command == SMFIC_HELO;
                self.macros.note(alloc, pairs, of_connection)?;
            }
            _ => {}
        }
        Ok(())
    }

    /// Drops what was shown of a message: what stays is the client, its last greeting and the macros of both. The
    /// memory is kept. Doesn't allocate.
    pub(crate) fn end_message(&mut self)
        ensures shown { self.new.shown ≡ self.old.connection }
        ensures connection { self.new.connection ≡ self.old.connection }
    {
        self.sender = None;
        self.recipients.clear();
        self.headers.clear();
        self.body.clear();
        self.macros.end_message();
    }

    /// Drops all that was shown, but for whether leading spaces come. The memory is kept. Doesn't allocate.
    pub(crate) fn clear(&mut self)
        ensures shown { self.new.shown ≡ seen self.old.connection.leading_space [] }
        ensures connection { self.new.connection ≡ seen self.old.connection.leading_space [] }
    {
        self.client = None;
        self.helo = None;
        self.sender = None;
        self.recipients.clear();
        self.headers.clear();
        self.body.clear();
        self.macros.clear();
    }

    /// Begins again, for another connection. The memory is kept. Doesn't allocate.
    pub(crate) fn restart(&mut self)
        ensures { self.new ≡ nothing_seen false }
    {
        self.clear();
        self.leading_space = false;
    }

    /// States whether values of header fields come with the blank that they begin with, as negotiated. Doesn't
    /// allocate. Source: mfdef.h (SMFIP_HDR_LEADSPC).
    pub(crate) fn set_leading_space(&mut self, leading_space: bool)
        ensures shown { self.new.shown ≡ record self.old.shown { leading_space = leading_space } }
        ensures connection { self.new.connection ≡ record self.old.connection { leading_space = leading_space } }
    {
        self.leading_space = leading_space;
    }
}
