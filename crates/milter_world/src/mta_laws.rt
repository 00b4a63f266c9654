//! Laws of a mail server's end that follows a list of entries, each the contract of a function that does nothing.

ghost use Rattle.std.specs.Prelude.{◌≡◌, ◌≤◌, ◌<◌, ◌+◌, ◌-◌, ◌++◌, ◌∷◌, List, None, drop, length, take, ℕ};
ghost use Rattle.std.specs.List.{fold};
ghost use Rattle.milter_wire.specs.declared.negotiation.Negotiated.{Negotiated};
ghost use Rattle.milter_wire.specs.declared.command.Command.{Command};
ghost use Rattle.milter_message.specs.MailObject.{MailObject};
ghost use Rattle.milter_mail.specs.MailSession.{MailSession};
ghost use Rattle.milter_protocol.specs.Behavior.{Behavior};
ghost use Rattle.milter_protocol.specs.declared.permitted.TheConstants.{VERSION_MAX, VERSION_MIN};
ghost use Rattle.milter_protocol.specs.Exchanges.{Exchange};
ghost use Rattle.milter_protocol.specs.Lawful.{IsLawful};
ghost use Rattle.milter_mta_outcome.specs.declared.fallback.OnLoss.{OnLoss};
ghost use Rattle.milter_mta_outcome.specs.declared.loss.Loss.{Loss};
ghost use Rattle.milter_mta.specs.declared.mta_core.Want.TheVariants as wants;
ghost use Rattle.milter_mta.specs.Mta.{Configuration, Mta};
ghost use Rattle.milter_mta.specs.Replies.{goes_on, received_byte};
ghost use Rattle.milter_mta.specs.Output.{advanced, dialled, pending, sent, want};
ghost use Rattle.milter_mta.specs.Dispositions.{lost};
ghost use Rattle.milter_mta.specs.Lines.{Line};
ghost use Rattle.milter_mta.specs.Order.{IsDialogue};
ghost use Rattle.milter_mta.specs.Dialogues.{at_dialogue};
ghost use Rattle.milter_world.specs.ByteCounts.{due, owed, packet_end, to_filter, to_mta};
ghost use Rattle.milter_world.specs.ConnectionEntries.{Entry, default_within, entries_from, lines_of, reports_within, connection_entries};
ghost use Rattle.milter_world.specs.declared.state.Counts.{Counts};
ghost use Rattle.milter_world.specs.FollowedLines.{Follows, IsMtaAt, SendsLines, after_at};

use milter_mta::{
    closed_dialogues_rule, dialogues_are_played, dialogues_go_on, dialogues_settle_all,
    dialogues_settle_one, exchanges_are_played, lawful_filters_negotiate, lines_without_answers,
    losses_depend_on_verdicts, offers_open_sessions, part_answers_are_received,
    part_answers_settle_nothing, plans_are_sent, sending_settles_nothing, sent_bytes_add_up,
};

/// A packet that was made isn't made again; and while bytes of it are left, what is wanted stays.
pub fn ends_in_steps()
    ensures again { (m : Mta) → advanced (advanced m) ≡ advanced m }
    ensures want { (count : ℕ) (m : Mta) → count < length (pending m) → want (sent count m) ≡ want m }
{}

/// A mail server's end that sends some lines is at any byte where the counts say: what it receives and sends brings it
/// there, whatever the pieces; and what it wants and has to send is what is due.
pub fn pieces_are_followed()
    ensures receives_bytes { (lines : List Line) (m : Mta) (s h k : ℕ) → SendsLines m lines → s ≤ due lines h →
        h + k ≤ owed lines s →
        fold received_byte (after_at m lines s h) (take k (drop h (to_mta lines))) ≡ after_at m lines s (h + k) }
    ensures sends { (lines : List Line) (m : Mta) (s h k : ℕ) → SendsLines m lines → s < due lines h →
        h ≤ owed lines s → 0 < k → s + k ≤ packet_end lines s →
        goes_on (sent k (advanced (after_at m lines s h).mta)) ≡ after_at m lines (s + k) h }
    ensures pends { (lines : List Line) (m : Mta) (s h : ℕ) → SendsLines m lines → s < due lines h → h ≤ owed lines s →
        pending (advanced (after_at m lines s h).mta) ≡ take (packet_end lines s - s) (drop s (to_filter lines)) }
    ensures wants { (lines : List Line) (m : Mta) (s h : ℕ) → SendsLines m lines → s < due lines h → h ≤ owed lines s →
        want (after_at m lines s h).mta ≡ wants.Send }
    ensures waits { (lines : List Line) (m : Mta) (s h : ℕ) → SendsLines m lines → s ≡ due lines h →
        s < length (to_filter lines) → want (after_at m lines s h).mta ≡ wants.Receive }
    ensures ends { (lines : List Line) (m : Mta) (s h : ℕ) → SendsLines m lines → s ≡ due lines h →
        s ≡ length (to_filter lines) → h ≡ length (to_mta lines) → want (after_at m lines s h).mta ≡ wants.Done }
{
    sent_bytes_add_up();
}

/// Its reports, and what a loss adds to them, are those of the list of entries by the bytes that it has received.
pub fn places_are_reported()
    ensures reports { (on_loss : OnLoss) (entries : List Entry) (opened m : Mta) (c : Counts) →
        Follows on_loss opened entries → c.received ≤ owed (lines_of entries) c.sent →
        IsMtaAt opened (lines_of entries) c m → m.reports ≡ opened.reports ++ reports_within entries c.received }
    ensures losses { (on_loss : OnLoss) (loss : Loss) (entries : List Entry) (opened m : Mta) (c : Counts) →
        Follows on_loss opened entries → c.received ≤ owed (lines_of entries) c.sent →
        IsMtaAt opened (lines_of entries) c m →
        (lost loss m).reports
        ≡ (opened.reports ++ reports_within entries c.received) ++ default_within on_loss loss entries c.received }
{
    sending_settles_nothing();
}

/// From the midst of a message on, a mail server's end follows the list of entries with a lawful filter.
pub fn dialogues_are_followed()
    ensures { (b : Behavior) (negotiated : Negotiated) (session : MailSession) (m : Mta) (message : MailObject)
        (messages : List MailObject) (dialogue : List Exchange) (left : List Command) → IsLawful b →
        m.session ≡ record session { messages = message ∷ messages } → IsDialogue negotiated dialogue left →
        Follows m.config.on_loss (at_dialogue negotiated dialogue left m)
        (entries_from b negotiated session message messages dialogue left) }
{
    closed_dialogues_rule();
    exchanges_are_played();
    lines_without_answers();
    part_answers_are_received();
    part_answers_settle_nothing();
    plans_are_sent();
    dialogues_are_played();
    dialogues_go_on();
    dialogues_settle_all();
    dialogues_settle_one();
}

/// A mail server's end that has these messages left follows their transcript with a lawful filter from the moment that
/// a connection is made: a reopened connection has the same dialogue.
pub fn entries_are_followed()
    ensures { (b : Behavior) (session : MailSession) (config : Configuration) (m : Mta) (message : MailObject)
        (messages : List MailObject) → IsLawful b → VERSION_MIN ≤ config.offer.version →
        config.offer.version ≤ VERSION_MAX → m.filter_connection ≡ None → m.config ≡ config →
        m.session ≡ record session { messages = message ∷ messages } →
        Follows config.on_loss (dialled m) (connection_entries b config.offer session (message ∷ messages)) }
{
    closed_dialogues_rule();
    exchanges_are_played();
    lawful_filters_negotiate();
    lines_without_answers();
    losses_depend_on_verdicts();
    offers_open_sessions();
    part_answers_are_received();
    part_answers_settle_nothing();
    plans_are_sent();
    dialogues_are_played();
    dialogues_go_on();
    dialogues_settle_all();
    dialogues_settle_one();
}
