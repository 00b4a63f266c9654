//! Laws of what a filter's end answers to a session, each the contract of a function that does nothing.

ghost use Rattle.std.specs.Prelude.{◌≡◌, ◌≤◌, All, List, map, take, true, ℕ};
ghost use Rattle.milter_wire.specs.declared.options.Options.{Options};
ghost use Rattle.milter_wire.specs.declared.negotiation.Negotiated.{Negotiated};
ghost use Rattle.milter_wire.specs.declared.command.Command.{Command};
ghost use Rattle.milter_wire.specs.declared.command.Command.TheVariants as commands;
ghost use Rattle.milter_wire.specs.Command.{Fits};
ghost use Rattle.milter_message.specs.MailObject.{MailObject};
ghost use Rattle.milter_mail.specs.MailSession.{IsSendable, IsSession, MailSession};
ghost use Rattle.milter_protocol.specs.declared.stage_order.CommandOrder.{CommandOrder as Order};
ghost use Rattle.milter_protocol.specs.declared.stage_order.CommandOrder.TheVariants.{Lenient, Strict};
ghost use Rattle.milter_protocol.specs.Aborts.{AreTakenAlike};
ghost use Rattle.milter_protocol.specs.Behavior.{Behavior};
ghost use Rattle.milter_protocol.specs.FilterEnds.{FilterEnd, start};
ghost use Rattle.milter_protocol.specs.declared.filter_fault.FilterState.TheVariants.{Serving};
ghost use Rattle.milter_protocol.specs.declared.permitted.TheConstants.{VERSION_MIN};
ghost use Rattle.milter_protocol.specs.Exchanges.{Exchange, onto};
ghost use Rattle.milter_protocol.specs.Dialogue.{has_end, dialogue_with};
ghost use Rattle.milter_filter_stream.specs.Streams.{filter_end_of, received_in, reply_bytes};
ghost use Rattle.milter_mta.specs.Lines.{Line, line_of};
ghost use Rattle.milter_mta.specs.Sessions.{session_lines};
ghost use Rattle.milter_world.specs.Answered.{AnswersLines, Replies};
ghost use Rattle.milter_world.specs.ByteCounts.{to_filter};
ghost use Rattle.milter_world.specs.FilterTranscript.{IsAt};

use milter_filter::orders_reply_the_same_bytes;
use milter_mta::plans_are_sent;
use milter_protocol::{order_states_of_filter_ends, orders_reply_the_same};
use milter_wire::command_frames;

/// A filter's end that replies so to commands, line by line, does so to their bytes, at each byte and in whichever
/// order it takes commands, as they are taken alike in both.
pub fn bytes_are_answered()
    ensures answered { (order : Order) (b : Behavior) (lines : List Line) (new : FilterEnd) →
        Replies b start lines new → AnswersLines order b lines }
    ensures alike { (b : Behavior) (lines : List Line) (new : FilterEnd) (taken : ℕ) →
        Replies b start lines new → AreTakenAlike b start (received_in (take taken (to_filter lines))) }
{
    command_frames();
    order_states_of_filter_ends();
    orders_reply_the_same();
}

/// What a filter's end replies to the commands of a dialogue, of which so many came, is the rest of the dialogue.
pub fn dialogues_are_answered()
    ensures { (b : Behavior) (negotiated : Negotiated) (session : MailSession) (transcript dialogue : List Exchange)
        (left : List Command) → IsAt b negotiated session transcript dialogue left → has_end left ≡ true →
        Replies b (record { transcript = transcript; state = Serving })
        (map line_of (dialogue_with b negotiated dialogue left))
        (record { transcript = onto (dialogue_with b negotiated dialogue left) transcript; state = Serving }) }
{}

/// What a filter's end replies to the packets of a session, whichever policy it has, is the dialogue about each
/// message, line by line; none of them is a fault to it, and each is taken alike in either order.
pub fn sessions_are_replied_to()
    ensures { (b : Behavior) (offer : Options) (session : MailSession) (messages : List MailObject) →
        IsSession session → VERSION_MIN ≤ offer.version → Fits (commands.Options offer) →
        All (IsSendable session.client session.helo session.macros) messages →
        (new : FilterEnd) × Replies b start (session_lines b offer session messages) new }
{
    plans_are_sent();
}

/// What a filter's end replies to the bytes of a session, whichever policy it has and in whichever order it takes
/// commands, is the dialogue about each message, at each byte.
pub fn sessions_are_answered()
    ensures { (order : Order) (b : Behavior) (offer : Options) (session : MailSession) (messages : List MailObject) →
        IsSession session → VERSION_MIN ≤ offer.version → Fits (commands.Options offer) →
        All (IsSendable session.client session.helo session.macros) messages →
        AnswersLines order b (session_lines b offer session messages) }
{
    bytes_are_answered();
    sessions_are_replied_to();
}

/// A mail server sends no greeting and no sender within a message, nor macros of one, and after a DATA command that was
/// refused it leaves the message, whichever policy the filter has: at each byte of a session a filter's end that takes
/// commands in the lenient order has come to the same state as one in the strict order, and has replied the same bytes.
pub fn sessions_need_no_aborts()
    ensures alike { (b : Behavior) (offer : Options) (session : MailSession) (messages : List MailObject)
        (taken : ℕ) → IsSession session → VERSION_MIN ≤ offer.version → Fits (commands.Options offer) →
        All (IsSendable session.client session.helo session.macros) messages →
        AreTakenAlike b start (received_in (take taken (to_filter (session_lines b offer session messages)))) }
    ensures state { (b : Behavior) (offer : Options) (session : MailSession) (messages : List MailObject)
        (taken : ℕ) → IsSession session → VERSION_MIN ≤ offer.version → Fits (commands.Options offer) →
        All (IsSendable session.client session.helo session.macros) messages →
        (filter_end_of Lenient b (take taken (to_filter (session_lines b offer session messages)))).state
        ≡ (filter_end_of Strict b (take taken (to_filter (session_lines b offer session messages)))).state }
    ensures replies { (b : Behavior) (offer : Options) (session : MailSession) (messages : List MailObject)
        (taken : ℕ) → IsSession session → VERSION_MIN ≤ offer.version → Fits (commands.Options offer) →
        All (IsSendable session.client session.helo session.macros) messages →
        reply_bytes Lenient b (take taken (to_filter (session_lines b offer session messages)))
        ≡ reply_bytes Strict b (take taken (to_filter (session_lines b offer session messages))) }
{
    bytes_are_answered();
    orders_reply_the_same_bytes();
    sessions_are_replied_to();
}
