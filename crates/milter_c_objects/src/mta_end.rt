//! A mail server's end, with what its caller gave for the next call.

ghost use Rattle.std.specs.Prelude.{◌≡◌, ◌≤◌, ◌++◌, [], ◌∷◌, IfOk, OnErr, OnOk, length};
ghost use Rattle.milter_wire.specs.declared.command.Command.TheVariants as commands;
ghost use Rattle.milter_fields.specs.Borrowed.{client_of, header_of, path_of};
ghost use Rattle.milter_mta_connection.specs.ChannelParts.{Receives};
ghost use Rattle.milter_mta_connection.specs.Connection.{after_fed, fresh, lost};

use milter_mta_connection::{CallFault, CallOutcome, Fed, FilterEvent, MtaConnection};
use milter_wire::{
    ClientRef, HeaderRef, NoMemory, Options, Pair, Pairs, Params, ParamsRef, PathRef, Stage, Text,
};
use std::alloc::Global;

/// A mail server's end of a connection to a filter, with what its caller gave for the next call.
#[derive(Debug, Drop)]
pub struct MtaEnd {
    /// The connection.
    pub connection: MtaConnection,
    /// The macros for the next call that has some.
    pub macros: Pairs,
    /// The ESMTP parameters of the next sender or recipient.
    pub params: Params,
    /// What came of the last piece of what the filter sent.
    pub fed: Fed,
}

impl MtaEnd {
    ghost use Rattle.milter_c_objects.specs.MtaEnds.{AbortCalled, BodyCalled, CalledAt, HeaderCalled, QuitCalled, UnknownCalled, after_call, nothing_fed, path_with, sent_of};

    /// A connection that was just made: the offer is pending.
    pub fn new(alloc: Global, offer: Options) -> Result<Self, NoMemory>
        ensures { IfOk result (λ end. end
            ≡ record { connection = fresh offer; macros = []; params = []; fed = nothing_fed }) }
    {
        let connection = MtaConnection::new(alloc, offer)?;
        Ok(MtaEnd {
            connection,
            macros: Pairs::new(Vec::new(alloc)),
            params: Params::new(Vec::new(alloc)),
            fed: Fed {
                event: FilterEvent::Nothing,
                loss: None,
            },
        })
    }

    /// Gives one macro more for the next call. After `NoMemory` nothing has changed.
    pub fn add_macro(&mut self, alloc: Global, name: &[u8], value: &[u8]) -> Result<(), NoMemory>
        ensures ok { OnOk result (self.new ≡ record self.old {
          macros = self.old.macros ++ record { name = name.now; value = value.now } ∷ [];
        }) }
        ensures err { OnErr result (self.new ≡ self.old) }
    {
        let pair = Pair {
            name: Text::copy_of(alloc, name)?,
            value: Text::copy_of(alloc, value)?,
        };
        self.macros.push(pair)
    }

    /// Gives one ESMTP parameter more for the next sender or recipient. After `NoMemory` nothing has changed.
    pub fn add_param(&mut self, alloc: Global, text: &[u8]) -> Result<(), NoMemory>
        ensures ok { OnOk result (self.new ≡ record self.old { params = self.old.params ++ text.now ∷ [] }) }
        ensures err { OnErr result (self.new ≡ self.old) }
    {
        let param = Text::copy_of(alloc, text)?;
        self.params.push(param)
    }

    /// Drops what was given for the next call. Doesn't allocate.
    pub fn clear_given(&mut self, alloc: Global)
        ensures { self.new ≡ record self.old { macros = []; params = [] } }
    {
        self.macros = Pairs::new(Vec::new(alloc));
        self.params = Params::new(Vec::new(alloc));
    }

    /// The bytes that are to be sent. Doesn't allocate.
    pub fn pending(&self) -> &[u8]
        ensures { result.now ≡ self.now.connection.channel.pending }
    {
        self.connection.pending()
    }

    /// Notes that the first `count` bytes of what is pending were sent. Doesn't allocate.
    pub fn sent(&mut self, count: usize)
        requires { count ≤ length self.old.connection.channel.pending }
        ensures { self.new ≡ record self.old { connection = sent_of count self.old.connection } }
    {
        self.connection.sent(count);
    }

    /// Frees the room for one packet where no byte of a packet is unread. Doesn't allocate.
    pub fn release(&mut self)
        ensures { self.new ≡ self.old }
    {
        self.connection.release();
    }

    /// Takes a piece of what the filter sent, all of it.
    pub fn feed(&mut self, piece: &[u8])
        ensures receives { Receives self.old.connection.channel piece.now self.new.connection.channel self.new.fed }
        ensures goes_on { self.new.connection
            ≡ after_fed self.new.fed self.new.connection.channel self.old.connection }
        ensures given { self.new ≡ record self.old { connection = self.new.connection; fed = self.new.fed } }
    {
        self.fed = self.connection.feed(piece);
    }

    /// The filter is lost: nothing is pending, and every call is refused. Doesn't allocate.
    pub fn lost(&mut self)
        ensures { self.new ≡ record self.old { connection = lost self.old.connection } }
    {
        self.connection.lost();
    }

    // ---- calls for commands: one that isn't refused takes what was given for it

    /// A client has connected.
    pub fn connect(
        &mut self,
        alloc: Global,
        client: ClientRef<'_>,
    ) -> Result<CallOutcome, CallFault>
        ensures call { CalledAt Stage.Connect (commands.Connect (client_of client.entry)) self.old self.new result }
        ensures kept { OnErr result (self.new ≡ self.old) }
    {
        let done = self.connection.connect(client, self.macros.as_slice());
        self.after(alloc, done)
    }

    /// The client has sent HELO or EHLO, with this name.
    pub fn helo(&mut self, alloc: Global, name: &[u8]) -> Result<CallOutcome, CallFault>
        ensures call { CalledAt Stage.Helo (commands.Helo name.now) self.old self.new result }
        ensures kept { OnErr result (self.new ≡ self.old) }
    {
        let done = self.connection.helo(name, self.macros.as_slice());
        self.after(alloc, done)
    }

    /// The sender of a message, with the parameters that were given.
    pub fn mail(&mut self, alloc: Global, address: &[u8]) -> Result<CallOutcome, CallFault>
        ensures call { CalledAt Stage.Mail (commands.Mail (path_with address.now self.old)) self.old self.new result }
        ensures kept { OnErr result (self.new ≡ self.old) }
    {
        let path = path_ref(address, &self.params);
        let done = self.connection.mail(path, self.macros.as_slice());
        self.after(alloc, done)
    }

    /// A recipient of the message, with the parameters that were given.
    pub fn rcpt(&mut self, alloc: Global, address: &[u8]) -> Result<CallOutcome, CallFault>
        ensures call { CalledAt Stage.Rcpt (commands.Rcpt (path_with address.now self.old)) self.old self.new result }
        ensures kept { OnErr result (self.new ≡ self.old) }
    {
        let path = path_ref(address, &self.params);
        let done = self.connection.rcpt(path, self.macros.as_slice());
        self.after(alloc, done)
    }

    /// The client has sent DATA.
    pub fn data(&mut self, alloc: Global) -> Result<CallOutcome, CallFault>
        ensures call { CalledAt Stage.DataCmd commands.DataCmd self.old self.new result }
        ensures kept { OnErr result (self.new ≡ self.old) }
    {
        let done = self.connection.data(self.macros.as_slice());
        self.after(alloc, done)
    }

    /// A header field of the message, with the blank that its value begins with. It has no macros.
    pub fn header(&mut self, alloc: Global, header: HeaderRef<'_>) -> Result<CallOutcome, CallFault>
        ensures call { HeaderCalled (header_of header.entry) self.old self.new result }
        ensures kept { OnErr result (self.new ≡ self.old) }
    {
        let done = self.connection.header(header);
        self.after(alloc, done)
    }

    /// The header has ended.
    pub fn eoh(&mut self, alloc: Global) -> Result<CallOutcome, CallFault>
        ensures call { CalledAt Stage.Eoh commands.Eoh self.old self.new result }
        ensures kept { OnErr result (self.new ≡ self.old) }
    {
        let done = self.connection.eoh(self.macros.as_slice());
        self.after(alloc, done)
    }

    /// A chunk of the body, of at most 65,535 bytes. It has no macros.
    pub fn body(&mut self, alloc: Global, chunk: &[u8]) -> Result<CallOutcome, CallFault>
        ensures call { BodyCalled chunk.now self.old self.new result }
        ensures kept { OnErr result (self.new ≡ self.old) }
    {
        let done = self.connection.body(chunk);
        self.after(alloc, done)
    }

    /// The message has ended.
    pub fn end(&mut self, alloc: Global) -> Result<CallOutcome, CallFault>
        ensures call { CalledAt Stage.Eob (commands.Eob []) self.old self.new result }
        ensures kept { OnErr result (self.new ≡ self.old) }
    {
        let done = self.connection.end(self.macros.as_slice());
        self.after(alloc, done)
    }

    /// A command of the client that the mail server doesn't know.
    pub fn unknown(&mut self, alloc: Global, command: &[u8]) -> Result<CallOutcome, CallFault>
        ensures call { UnknownCalled command.now self.old self.new result }
        ensures kept { OnErr result (self.new ≡ self.old) }
    {
        let done = self.connection.unknown(command, self.macros.as_slice());
        self.after(alloc, done)
    }

    /// The message is given up, and the connection goes on.
    pub fn abort(&mut self, alloc: Global) -> Result<CallOutcome, CallFault>
        ensures call { AbortCalled self.old self.new result }
        ensures kept { OnErr result (self.new ≡ self.old) }
    {
        let done = self.connection.abort();
        self.after(alloc, done)
    }

    /// The client has ended the connection.
    pub fn quit(&mut self, alloc: Global) -> Result<CallOutcome, CallFault>
        ensures call { QuitCalled self.old self.new result }
        ensures kept { OnErr result (self.new ≡ self.old) }
    {
        let done = self.connection.quit();
        self.after(alloc, done)
    }

    /// Clears what was given for a call that wasn't refused, and answers what came of the call.
    fn after(
        &mut self,
        alloc: Global,
        done: Result<CallOutcome, CallFault>,
    ) -> Result<CallOutcome, CallFault>
        ensures same { result ≡ done }
        ensures given { self.new ≡ after_call done self.old.connection self.old }
    {
        if done.is_ok() {
            self.clear_given(alloc);
        }
        done
    }
}

/// An address with these parameters.
fn path_ref<'a>(address: &'a [u8], params: &'a Params) -> PathRef<'a>
    ensures { path_of result ≡ record { address = address.now; params = params.now } }
{
    let params = ParamsRef::new(params.as_slice());
    PathRef { address, params }
}
