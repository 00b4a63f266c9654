//! Laws of plans, each the contract of a function that does nothing.

ghost use Rattle.std.specs.Prelude.{◌≡◌, ◌⊎◌, ◌+◌, []};
ghost use Rattle.std.specs.List.{filter};
ghost use Rattle.milter_wire.specs.declared.negotiation.Negotiated.{Negotiated};
ghost use Rattle.milter_wire.specs.declared.command.Command.TheVariants as commands;
ghost use Rattle.milter_wire.specs.declared.stage.Stage.TheVariants.{Connect, Eob, Helo, Mail};
ghost use Rattle.milter_wire.specs.Command.{Fits, bytes_of};
ghost use Rattle.milter_message.specs.MailObject.{MailObject};
ghost use Rattle.milter_mail.specs.ChosenMacros.{chosen_macros};
ghost use Rattle.milter_mail.specs.MailSession.{IsSendable, MacrosFit, MailSession};
ghost use Rattle.milter_mail.specs.Plan.{macros_of, opening, plan};
ghost use Rattle.milter_mail.specs.Steps.{message_steps};
ghost use Rattle.milter_mail.specs.Macros.{Macros};
ghost use Rattle.milter_protocol.specs.Commands.{is_of_connection};
ghost use Rattle.milter_protocol.specs.StageOrder.{rank_of};
ghost use Rattle.milter_mta_outcome.specs.declared.plan_cursor.ClientInfo.{ClientInfo};
ghost use Rattle.milter_mta_outcome.specs.declared.transaction.Transaction.{Transaction};
ghost use Rattle.milter_mta_outcome.specs.PlanCursor.{Outgoing, outgoing_of, steps_from};
ghost use Rattle.milter_mta_outcome.specs.PlanOrder.{IsWithinRanks};
ghost use Rattle.milter_mta_outcome.specs.Transactions.{Sends};

/// What is sent of a message, stage by stage: from its sender on it is the message's part of the plan, and from the
/// client on the plan.
pub fn plans_by_stage()
    ensures message { (o : Outgoing) → steps_from o Mail 0 ≡ message_steps o.negotiated o.macros o.message }
    ensures plan { (negotiated : Negotiated) (session : MailSession) (message : MailObject) →
        steps_from (outgoing_of negotiated session message) Connect 0 ≡ plan negotiated session message }
{}

/// A plan is in the order of stages: its opening goes up to the greeting, and a message from there to its end.
pub fn plans_in_order()
    ensures opening { (negotiated : Negotiated) (session : MailSession) →
        IsWithinRanks 0 (rank_of Helo) (opening negotiated session) }
    ensures message { (negotiated : Negotiated) (macros : Macros) (message : MailObject) →
        IsWithinRanks (rank_of Helo) (rank_of Eob) (message_steps negotiated macros message) }
    ensures plan { (negotiated : Negotiated) (session : MailSession) (message : MailObject) →
        IsWithinRanks 0 (rank_of Eob) (plan negotiated session message) }
{}

/// Of a plan's commands those of the connection are its opening, and of a message's commands none is; its bytes are
/// those of both.
pub fn plans_in_parts()
    ensures connection { (negotiated : Negotiated) (session : MailSession) (message : MailObject) →
        filter is_of_connection (plan negotiated session message) ≡ opening negotiated session }
    ensures message { (negotiated : Negotiated) (macros : Macros) (message : MailObject) →
        filter is_of_connection (message_steps negotiated macros message) ≡ [] }
    ensures bytes { (negotiated : Negotiated) (session : MailSession) (message : MailObject) →
        bytes_of (plan negotiated session message)
        ≡ bytes_of (opening negotiated session)
        + bytes_of (message_steps negotiated (macros_of negotiated session) message) }
{}

/// A transaction that begins with the client, or with the sender of a message that may be sent, can be sent.
pub fn transactions_begin()
    ensures { (opening : ClientInfo) (transaction : Transaction) →
        Fits (commands.Connect opening.client) → Fits (commands.Helo opening.helo) → MacrosFit opening.macros →
        IsSendable opening.client opening.helo opening.macros transaction.message →
        transaction.macros ≡ chosen_macros transaction.negotiated.lists opening.macros →
        ((transaction.cursor ≡ record { stage = Connect; step = 0 })
        ⊎ (transaction.cursor ≡ record { stage = Mail; step = 0 })) →
        Sends opening transaction }
{}
