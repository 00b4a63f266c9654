//! Laws of what is called for on a connection to a lawful filter, each the contract of a function that does nothing.

ghost use Rattle.std.specs.Prelude.{◌≡◌, ◌≢◌, ◌≤◌, ◌∷◌, [], false, List, None, Some, true};
ghost use Rattle.std.specs.List.{flat_map, list_any};
ghost use Rattle.milter_wire.specs.declared.command.Command.{Command};
ghost use Rattle.milter_wire.specs.declared.negotiation.Negotiated.{Negotiated};
ghost use Rattle.milter_wire.specs.declared.stage.Stage.{Stage};
ghost use Rattle.milter_wire.specs.Command.{encoding};
ghost use Rattle.milter_wire.specs.Negotiation.{negotiate};
ghost use Rattle.milter_wire.specs.Stages.{stage_of};
ghost use Rattle.milter_fields.specs.declared.pair.Pair.{Pair};
ghost use Rattle.milter_wire.specs.declared.options.Options.{Options};
ghost use Rattle.milter_message.specs.MailObject.{MailObject};
ghost use Rattle.milter_mail.specs.Macros.{Macros};
ghost use Rattle.milter_mail.specs.MailSession.{MailSession};
ghost use Rattle.milter_mail.specs.Plan.{plan};
ghost use Rattle.milter_protocol.specs.declared.permitted.TheConstants.{VERSION_MAX, VERSION_MIN};
ghost use Rattle.milter_protocol.specs.Behavior.{Behavior};
ghost use Rattle.milter_protocol.specs.Dialogue.{dialogue_with, is_skipping};
ghost use Rattle.milter_protocol.specs.Lawful.{IsLawful};
ghost use Rattle.milter_mta_connection.specs.declared.filter_event.FilterEvent.TheVariants as events;
ghost use Rattle.milter_mta_connection.specs.declared.phase.Phase.TheVariants.{ClientOver};
ghost use Rattle.milter_mta_connection.specs.Calls.{after, queued_by};
ghost use Rattle.milter_mta_connection.specs.Calls.Call.{Abort, StageCommand};
ghost use Rattle.milter_mta_connection.specs.Connection.{Connection, abort_before, fault_at, is_due_abort, is_left_out};
ghost use Rattle.milter_mta_connection.specs.SessionCalls.{IsGiven, IsQuiet, IsReady, dialogue_about, taken, with_exchange, with_message};
ghost use Rattle.milter_mta_connection.specs.Conversations.{Conversation, all_sent, opened, with_call};
ghost use Rattle.milter_mta_connection.specs.Messages.{AreGiven, AreIgnored, given_up, opening_of, with_first};

use milter_wire::reply_frames;

/// A call for a command, to a lawful filter. Its packets are what is pending then. Where nothing of it is sent, nothing
/// comes; else the exchange about it is the last one that was sent, after the one about its macros, and where it is
/// answered its verdict is given, once and without a loss, and its edits with it.
pub fn calls_are_exchanges()
    ensures packets { (c : Connection) (command : Command) (pairs : List Pair) → c.channel.pending ≡ [] →
        (after (StageCommand command pairs) c).channel.pending
        ≡ flat_map encoding (queued_by (StageCommand command pairs) c) }
    ensures left_out { (b : Behavior) (negotiated : Negotiated) (stage : Stage) (command : Command) (pairs : List Pair)
        (t : Conversation) → IsLawful b → stage_of command ≡ Some stage → IsQuiet negotiated t.connection.channel →
        fault_at stage t.connection ≡ None → abort_before t.connection.phase stage ≡ [] →
        is_left_out (Some negotiated) t.connection.phase stage ≡ true →
        with_call b negotiated command pairs t ≡ record t { connection = taken stage t.connection } }
    ensures sent { (b : Behavior) (negotiated : Negotiated) (stage : Stage) (command : Command) (pairs : List Pair)
        (t : Conversation) → IsLawful b → stage_of command ≡ Some stage → IsQuiet negotiated t.connection.channel →
        fault_at stage t.connection ≡ None → abort_before t.connection.phase stage ≡ [] →
        is_left_out (Some negotiated) t.connection.phase stage ≡ false →
        with_call b negotiated command pairs t ≡ with_exchange b negotiated stage command pairs t }
{
    reply_frames();
}

/// Where a message may begin on a connection to a lawful filter, a caller calls for it part by part, until all
/// recipients are refused. What is sent, with its answers, is the dialogue about it; each answer is given as its
/// verdict, without a loss, and nothing else is; at the end the edits are those of the answers; and no call is refused.
pub fn messages_are_dialogues()
    ensures given { (b : Behavior) (negotiated : Negotiated) (macros : Macros) (message : MailObject)
        (t : Conversation) →
        IsLawful b → IsReady negotiated t.connection → list_any is_skipping t.transcript ≡ false →
        IsGiven (dialogue_about b negotiated macros message t.transcript) t
        (with_message b negotiated macros message t) }
    // Nothing is pending or owed then.
    ensures quiet { (b : Behavior) (negotiated : Negotiated) (macros : Macros) (message : MailObject)
        (t : Conversation) →
        IsLawful b → IsReady negotiated t.connection → list_any is_skipping t.transcript ≡ false →
        IsQuiet negotiated (with_message b negotiated macros message t).connection.channel }
    // Another message may begin, once this one is given up where it was sent in part.
    ensures next { (b : Behavior) (negotiated : Negotiated) (macros : Macros) (message : MailObject)
        (t : Conversation) →
        IsLawful b → IsReady negotiated t.connection → list_any is_skipping t.transcript ≡ false →
        IsReady negotiated (given_up (with_message b negotiated macros message t).connection) }
    // So any messages, one after the other, are each the dialogue after the exchanges about the client.
    ensures others { (b : Behavior) (negotiated : Negotiated) (macros : Macros) (messages : List MailObject)
        (t : Conversation) →
        IsLawful b → IsReady negotiated (given_up t.connection) →
        list_any is_skipping (opening_of t.transcript) ≡ false →
        AreGiven b negotiated macros (opening_of t.transcript) messages t }
    // Where a verdict on the client or its greeting ended all, nothing of them is sent or given.
    ensures refused { (b : Behavior) (negotiated : Negotiated) (macros : Macros) (messages : List MailObject)
        (t : Conversation) →
        IsLawful b → IsQuiet negotiated t.connection.channel → t.connection.phase ≡ ClientOver →
        AreIgnored b negotiated macros messages t }
{
    reply_frames();
}

/// From the start of a connection to a lawful filter on, whose offer has a known version, the options are negotiated;
/// of the client and a first message a caller has the dialogue through the plan of that message, and of each other
/// message its dialogue after the exchanges about the client.
pub fn sessions_are_dialogues()
    ensures negotiated { (b : Behavior) (offer : Options) →
        IsLawful b → VERSION_MIN ≤ offer.version → offer.version ≤ VERSION_MAX →
        (opened offer (negotiate offer b.wants b.lists)).fed
        ≡ record { event = events.Negotiated; loss = None } ∷ [] }
    ensures first { (b : Behavior) (offer : Options) (session : MailSession) (message : MailObject) →
        IsLawful b → VERSION_MIN ≤ offer.version → offer.version ≤ VERSION_MAX →
        IsGiven (dialogue_with b (negotiate offer b.wants b.lists) []
        (plan (negotiate offer b.wants b.lists) session message))
        (opened offer (negotiate offer b.wants b.lists)) (with_first b offer session message) }
    ensures others { (b : Behavior) (offer : Options) (session : MailSession) (message : MailObject)
        (messages : List MailObject) →
        IsLawful b → VERSION_MIN ≤ offer.version → offer.version ≤ VERSION_MAX →
        (with_first b offer session message).connection.phase ≢ ClientOver →
        AreGiven b (negotiate offer b.wants b.lists) session.macros
        (opening_of (with_first b offer session message).transcript) messages (with_first b offer session message) }
    // Where a verdict on the client or its greeting ended all, nothing of them is sent or given.
    ensures refused { (b : Behavior) (offer : Options) (session : MailSession) (message : MailObject)
        (messages : List MailObject) →
        IsLawful b → VERSION_MIN ≤ offer.version → offer.version ≤ VERSION_MAX →
        (with_first b offer session message).connection.phase ≡ ClientOver →
        AreIgnored b (negotiate offer b.wants b.lists) session.macros messages (with_first b offer session message) }
{
    reply_frames();
}

/// Where a message was sent in part, and nothing is pending or owed, another one may begin after an abort.
pub fn aborts_end_messages()
    ensures { (negotiated : Negotiated) (c : Connection) → IsQuiet negotiated c.channel →
        is_due_abort c.phase ≡ true → IsReady negotiated (all_sent (after Abort c)) }
{}
