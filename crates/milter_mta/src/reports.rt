//! What became of a session's messages.

ghost use Rattle.std.specs.Prelude.{◌≡◌};
ghost use Rattle.std.specs.Option.{option_copied};

use milter_mta_outcome::Report;
use milter_wire::Verdict;
use std::marker::Model;

/// What became of a session's messages. Only a mail server's end makes one.
#[derive(Debug, Drop)]
pub struct Reports {
    connection: Option<Verdict>,
    messages: Vec<Report>,
}

impl Model for Reports {
    ghost use Rattle.milter_mta.specs.Accounts.{Disposition};

    ghost Value = { Disposition };

    ghost view = { λ r. record { connection = r.connection; messages = r.messages.items } };
}

impl Reports {
    /// The reports of these messages.
    pub(crate) fn new(connection: Option<Verdict>, messages: Vec<Report>) -> Self
        ensures { result ≡ record { connection = connection; messages = messages.items } }
    {
        Reports {
            connection,
            messages,
        }
    }

    /// The verdict on the client or its greeting that ended its connection, where one did. Doesn't allocate.
    pub fn connection(&self) -> Option<&Verdict>
        ensures { option_copied result ≡ self.now.connection }
    {
        self.connection.as_ref()
    }

    /// A report for each message that was settled, in the session's order, from the first message on. Doesn't allocate.
    pub fn messages(&self) -> &[Report]
        ensures { result.now ≡ self.now.messages }
    {
        self.messages.as_slice()
    }
}
