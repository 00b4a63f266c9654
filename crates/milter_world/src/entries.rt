//! Laws of the entries of a session, each the contract of a function that does nothing.

ghost use Rattle.std.specs.Prelude.{◌≡◌, ◌≤◌, ◌<◌, List, length, ℕ};
ghost use Rattle.milter_wire.specs.declared.options.Options.{Options};
ghost use Rattle.milter_message.specs.MailObject.{MailObject};
ghost use Rattle.milter_mail.specs.MailSession.{MailSession};
ghost use Rattle.milter_protocol.specs.Behavior.{Behavior};
ghost use Rattle.milter_mta.specs.Lines.{Line};
ghost use Rattle.milter_mta.specs.Sessions.{session_lines};
ghost use Rattle.milter_world.specs.ByteCounts.{due, owed, to_filter, to_mta};
ghost use Rattle.milter_world.specs.ConnectionEntries.{lines_of, connection_entries};

/// What is owed and was not received answers packets that were taken.
pub fn counts_of_bytes()
    ensures { (lines : List Line) (received taken : ℕ) → received < owed lines taken → due lines received ≤ taken }
{}

/// The lines of a list of entries are those of the session; and where no further packet is due all answers were
/// received, as the last packet has none.
pub fn entries_of_sessions()
    ensures lines { (b : Behavior) (offer : Options) (session : MailSession) (messages : List MailObject) →
        lines_of (connection_entries b offer session messages) ≡ session_lines b offer session messages }
    ensures ends { (b : Behavior) (offer : Options) (session : MailSession) (messages : List MailObject) (received : ℕ)
        →
        due (session_lines b offer session messages) received
        ≡ length (to_filter (session_lines b offer session messages)) →
        length (to_mta (session_lines b offer session messages)) ≤ received }
{}
