//! Laws of weights, of chosen macros and of plans, each the contract of a function that does nothing.

ghost use Rattle.std.specs.Prelude.{◌≡◌, ◌≤◌, ◌+◌, All, List, ℕ};
ghost use Rattle.milter_wire.specs.declared.negotiation.Negotiated.{Negotiated};
ghost use Rattle.milter_fields.specs.declared.client.Client.{Client};
ghost use Rattle.milter_wire.specs.declared.symbol_lists.SymList.{SymList};
ghost use Rattle.milter_wire.specs.Command.{bytes_of, Fits};
ghost use Rattle.milter_wire.specs.declared.command.Command.TheVariants as commands;
ghost use Rattle.milter_wire.specs.declared.codes.TheConstants.{SMFIC_RCPT};
ghost use Rattle.milter_message.specs.MailObject.{MailObject};
ghost use Rattle.milter_mail.specs.ChosenMacros.{chosen_macros};
ghost use Rattle.milter_mail.specs.MailSession.{IsSendable, MacrosFit, MailSession};
ghost use Rattle.milter_mail.specs.Plan.{plan};
ghost use Rattle.milter_mail.specs.Weight.{all_is_sent, weight};
ghost use Rattle.milter_mail.specs.WeightParts.{common_weight, macros_weight, opening_weight, parts_weight, IsOverhead, IsSendableWith};
ghost use Rattle.milter_mail.specs.Macros.{Macros};
ghost use Rattle.milter_mail.specs.declared.weight.Overhead.{Overhead};

/// The macros that symbol lists choose fit a packet of each stage, where all of them do.
pub fn chosen_macros_fit()
    ensures { (lists : List SymList) (macros : Macros) → MacrosFit macros → MacrosFit (chosen_macros lists macros) }
{}

/// What a message weighs is the bytes of all packets of its plan where all is sent.
pub fn weight_of_plan()
    ensures { (session : MailSession) (m : MailObject) →
        weight session.client session.helo session.macros m ≡ bytes_of (plan all_is_sent session m) }
{}

/// Whatever was negotiated, the packets of a message's plan have no more bytes than it weighs.
pub fn weight_of_any_plan()
    ensures { (negotiated : Negotiated) (session : MailSession) (m : MailObject) →
        bytes_of (plan negotiated session m) ≤ weight session.client session.helo session.macros m }
{}

/// Each command of a message's plan fits a packet, whatever was negotiated.
pub fn plans_fit()
    ensures { (negotiated : Negotiated) (session : MailSession) (m : MailObject) →
        Fits (commands.Connect session.client) → Fits (commands.Helo session.helo) → MacrosFit session.macros →
        IsSendable session.client session.helo session.macros m → All Fits (plan negotiated session m) }
{}

/// What a message weighs is the sum of what its parts weigh, and of what each message of the session weighs beside
/// them.
pub fn weight_of_parts()
    ensures { (client : Client) (helo : List ℕ) (macros : Macros) (m : MailObject) →
        weight client helo macros m
        ≡ (opening_weight client helo macros + common_weight macros)
        + parts_weight (macros_weight SMFIC_RCPT macros.rcpt) m }
{}

/// Messages may be sent in a session exactly where they may be sent with its overhead.
pub fn sendable_messages()
    ensures with_overhead { (c : Client) (helo : List ℕ) (macros : Macros) (o : Overhead) (messages : List MailObject) →
        IsOverhead c helo macros o → All (IsSendable c helo macros) messages → All (IsSendableWith o) messages }
    ensures in_session { (c : Client) (helo : List ℕ) (macros : Macros) (o : Overhead) (messages : List MailObject) →
        IsOverhead c helo macros o → All (IsSendableWith o) messages → All (IsSendable c helo macros) messages }
{}
