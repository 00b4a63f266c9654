//! Worked sessions, as the definitions compute them.

ghost use Rattle.std.specs.Prelude.{◌≡◌, [], ◌∷◌, Some, codes, map};
ghost use Rattle.milter_wire.specs.declared.command.Command.TheVariants as commands;
ghost use Rattle.milter_wire.specs.declared.stage.Stage.TheVariants as stages;
ghost use Rattle.milter_wire.specs.declared.verdict.Verdict.TheVariants as verdicts;
ghost use Rattle.milter_wire.specs.Command.{encoding};
ghost use Rattle.milter_protocol.specs.Pass.{pass};
ghost use Rattle.milter_mta_outcome.specs.declared.outcome.Outcome.TheVariants.{Discarded, NoRecipients, RefusedAtConnection};
ghost use Rattle.milter_mta_outcome.specs.Outcomes.{released};
ghost use Rattle.milter_mta.specs.Worked.{at, message, session, two_recipients};
ghost use Rattle.milter_mta.specs.WorkedFilters.{filter_at, outcomes, packets};

/// The packets of a message that is let go on, and of two messages that are discarded at their senders.
pub(crate) fn packets_of_sessions()
    ensures passed { packets pass message [] ≡ map encoding (commands.Connect (session []).client
        ∷ commands.Helo (codes "mail") ∷ commands.Mail (at (codes "a@x")) ∷ commands.Rcpt (at (codes "b@y"))
        ∷ commands.DataCmd ∷ commands.Eoh ∷ commands.Eob [] ∷ commands.Quit ∷ []) }
    ensures discarded { packets (filter_at stages.Mail verdicts.Discard) message (message ∷ [])
        ≡ map encoding (commands.Connect (session []).client ∷ commands.Helo (codes "mail")
        ∷ commands.Mail (at (codes "a@x")) ∷ commands.Abort
        ∷ commands.Mail (at (codes "a@x")) ∷ commands.Abort ∷ commands.Quit ∷ []) }
    ensures refused { packets (filter_at stages.Helo verdicts.Reject) message (message ∷ [])
        ≡ map encoding (commands.Connect (session []).client ∷ commands.Helo (codes "mail") ∷ commands.Quit ∷ []) }
{}

/// What becomes of messages by a verdict at one stage.
pub(crate) fn outcomes_of_sessions()
    ensures passed { outcomes pass (message ∷ two_recipients ∷ [])
        ≡ Some (released message) ∷ Some (released two_recipients) ∷ [] }
    ensures discarded { outcomes (filter_at stages.Mail verdicts.Discard) (message ∷ []) ≡ Some Discarded ∷ [] }
    ensures refused { outcomes (filter_at stages.Helo verdicts.Reject) (message ∷ message ∷ [])
        ≡ Some RefusedAtConnection ∷ Some RefusedAtConnection ∷ [] }
    ensures none_left { outcomes (filter_at stages.Rcpt verdicts.Tempfail) (two_recipients ∷ [])
        ≡ Some NoRecipients ∷ [] }
{}
