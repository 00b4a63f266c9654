//! Worked sessions, as the definitions compute them.

ghost use Rattle.std.specs.Prelude.{◌≡◌, [], ◌∷◌, codes, None, Some};
ghost use Rattle.milter_wire.specs.declared.command.Command.TheVariants as commands;
ghost use Rattle.milter_wire.specs.declared.reply.Reply.TheVariants as replies;
ghost use Rattle.milter_wire.specs.declared.verdict.Verdict.TheVariants as verdicts;
ghost use Rattle.milter_mta_outcome.specs.declared.fallback.OnLoss.TheVariants.{Accept, Tempfail};
ghost use Rattle.milter_mta_outcome.specs.declared.loss.Loss.TheVariants.{Reset};
ghost use Rattle.milter_mta_outcome.specs.declared.outcome.Outcome.TheVariants.{Discarded, NoRecipients, Refused, RefusedAtConnection};
ghost use Rattle.milter_mta_outcome.specs.declared.outcome.Refusal.TheVariants as refusals;
ghost use Rattle.milter_mta_outcome.specs.Outcomes.{released};
ghost use Rattle.milter_mta.specs.Dispositions.{lost};
ghost use Rattle.milter_mta.specs.Worked.{acted_on, after_turns, negotiated, at, begun, commands_sent, continue, message, options, outcomes, reply, session, to_sender, two_recipients};

/// The packets of a session of one message, where all is answered.
pub(crate) fn packets()
    ensures first { commands_sent (begun Tempfail (message ∷ [])) (None ∷ [])
        ≡ commands.Options (options 6 511 2095103) ∷ [] }
    ensures all { commands_sent (begun Tempfail (message ∷ []))
        (negotiated 6 0 0 ∷ continue ∷ continue ∷ continue ∷ continue ∷ continue ∷ continue ∷ continue ∷ None ∷ [])
        ≡ commands.Options (options 6 511 2095103) ∷ commands.Connect (session []).client
        ∷ commands.Helo (codes "mail") ∷ commands.Mail (at (codes "a@x")) ∷ commands.Rcpt (at (codes "b@y"))
        ∷ commands.DataCmd ∷ commands.Eoh ∷ commands.Eob [] ∷ commands.Quit ∷ [] }
{}

/// What is left out of the packets, by what was negotiated.
pub(crate) fn less_sent()
    ensures version_3 { commands_sent (begun Tempfail (message ∷ []))
        (negotiated 3 0 0 ∷ continue ∷ continue ∷ continue ∷ continue ∷ continue ∷ [])
        ≡ commands.Options (options 6 511 2095103) ∷ commands.Connect (session []).client
        ∷ commands.Helo (codes "mail") ∷ commands.Mail (at (codes "a@x")) ∷ commands.Rcpt (at (codes "b@y"))
        ∷ commands.Eoh ∷ [] }
    // No greeting, and a reply to the end of the message alone.
    ensures not_answered { commands_sent (begun Tempfail (message ∷ []))
        (negotiated 6 0 381954 ∷ None ∷ None ∷ None ∷ None ∷ None ∷ continue ∷ None ∷ [])
        ≡ commands.Options (options 6 511 2095103) ∷ commands.Connect (session []).client
        ∷ commands.Mail (at (codes "a@x")) ∷ commands.Rcpt (at (codes "b@y"))
        ∷ commands.DataCmd ∷ commands.Eoh ∷ commands.Eob [] ∷ commands.Quit ∷ [] }
{}

/// What becomes of messages by the last verdict on them, and what is sent then.
pub(crate) fn verdicts_on_messages()
    ensures released { outcomes (after_turns (begun Tempfail (message ∷ []))
        (to_sender (continue ∷ continue ∷ continue ∷ continue ∷ []))) ≡ released message ∷ [] }
    ensures discarded { outcomes (after_turns (begun Tempfail (message ∷ []))
        (negotiated 6 0 0 ∷ continue ∷ continue ∷ reply replies.Discard ∷ [])) ≡ Discarded ∷ [] }
    ensures aborted { commands_sent (after_turns (begun Tempfail (message ∷ message ∷ []))
        (negotiated 6 0 0 ∷ continue ∷ continue ∷ reply replies.Discard ∷ [])) (None ∷ continue ∷ [])
        ≡ commands.Abort ∷ commands.Mail (at (codes "a@x")) ∷ [] }
    ensures one_refused { outcomes (after_turns (begun Tempfail (two_recipients ∷ []))
        (to_sender (reply replies.Reject ∷ continue ∷ continue ∷ continue ∷ continue ∷ [])))
        ≡ released (record message { recipients = at (codes "c@y") ∷ [] }) ∷ [] }
    ensures all_refused { outcomes (after_turns (begun Tempfail (two_recipients ∷ []))
        (to_sender (reply replies.Reject ∷ reply replies.Tempfail ∷ []))) ≡ NoRecipients ∷ [] }
    ensures taken_at_recipient { outcomes (after_turns (begun Tempfail (two_recipients ∷ []))
        (to_sender (reply replies.Reject ∷ reply replies.Accept ∷ [])))
        ≡ released (record message { recipients = at (codes "c@y") ∷ [] }) ∷ [] }
    ensures client_refused { outcomes (after_turns (begun Tempfail (message ∷ message ∷ message ∷ []))
        (negotiated 6 0 0 ∷ continue ∷ reply replies.Reject ∷ []))
        ≡ RefusedAtConnection ∷ RefusedAtConnection ∷ RefusedAtConnection ∷ [] }
    ensures client_accepted { outcomes (after_turns (begun Tempfail (message ∷ message ∷ []))
        (negotiated 6 0 0 ∷ reply replies.Accept ∷ [])) ≡ released message ∷ released message ∷ [] }
    ensures acted { acted_on (after_turns (begun Tempfail (message ∷ message ∷ []))
        (negotiated 6 0 0 ∷ continue ∷ continue ∷ reply replies.Accept ∷ None ∷ reply replies.Reject ∷ []))
        ≡ (verdicts.Continue ∷ verdicts.Continue ∷ verdicts.Accept ∷ [])
        ∷ (verdicts.Continue ∷ verdicts.Continue ∷ verdicts.Reject ∷ []) ∷ [] }
{}

/// What becomes of messages whose filter is lost.
pub(crate) fn losses()
    ensures accepted { outcomes (lost Reset (after_turns (begun Accept (two_recipients ∷ []))
        (to_sender (reply replies.Reject ∷ continue ∷ []))))
        ≡ released (record message { recipients = at (codes "c@y") ∷ [] }) ∷ [] }
    ensures one_settled { outcomes (lost Reset (begun Tempfail (message ∷ message ∷ [])))
        ≡ Refused refusals.Tempfail ∷ [] }
    ensures none_left { outcomes (lost Reset (begun Tempfail [])) ≡ [] }
{}
