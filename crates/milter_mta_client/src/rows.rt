//! Worked reports, as the definitions compute them.

ghost use Rattle.std.specs.Prelude.{◌≡◌, ◌++◌, [], ◌∷◌, codes};
ghost use Rattle.milter_wire.specs.declared.stage.Stage.TheVariants as stages;
ghost use Rattle.milter_wire.specs.declared.verdict.Verdict.TheVariants as verdicts;
ghost use Rattle.milter_mta_outcome.specs.declared.loss.By.TheVariants.{Connection, Default, Filter};
ghost use Rattle.milter_mta_outcome.specs.declared.loss.Loss.TheVariants.{Fault, Memory, Reset, Timeout};
ghost use Rattle.milter_mta_outcome.specs.declared.loss.MtaFault.TheVariants.{Early};
ghost use Rattle.milter_mta_outcome.specs.declared.outcome.Outcome.TheVariants.{Discarded, NoRecipients, Refused, RefusedAtConnection, Released};
ghost use Rattle.milter_mta_outcome.specs.declared.outcome.Refusal.TheVariants as refusals;
ghost use Rattle.milter_mta_outcome.specs.Outcomes.{released};
ghost use Rattle.milter_mta.specs.Dispositions.{report};
ghost use Rattle.milter_mta.specs.Worked.{message};
ghost use Rattle.milter_mta_client.specs.Worked.{acted, text_with};

/// The texts of sessions without a message, with one, and with two.
pub(crate) fn texts_of_sessions()
    ensures none { text_with [] ≡ [] }
    ensures accepted_client { text_with
        (report (acted stages.Connect 1 verdicts.Accept ∷ []) (released message) Connection ∷ [])
        ≡ codes "connection accept\nmessage 1 connection released\nacted connect 1 accept\n"
        ++ codes "sender \"a@x\"\nrecipient \"b@y\"\nbody \"\"\nend\n" }
    ensures quarantined { text_with
        (report [] (Released (record { message = message; quarantine = Some (codes "spam") })) Filter ∷ [])
        ≡ codes "message 1 filter released\nquarantine \"spam\"\n"
        ++ codes "sender \"a@x\"\nrecipient \"b@y\"\nbody \"\"\nend\n" }
    ensures refused { text_with (report (acted stages.Connect 1 verdicts.Continue
        ∷ acted stages.Rcpt 1 verdicts.Continue ∷ acted stages.Rcpt 2 verdicts.Tempfail
        ∷ acted stages.DataCmd 1 (verdicts.Code (codes "550 no")) ∷ [])
        (Refused (refusals.Code (codes "550 no"))) Filter ∷ [])
        ≡ codes "message 1 filter refused \"550 no\"\nacted connect 1 continue\nacted rcpt 1 continue\n"
        ++ codes "acted rcpt 2 tempfail\nacted data 1 code \"550 no\"\n" }
    ensures refused_client { text_with (report [] Discarded (Default Reset)
        ∷ report (acted stages.Connect 1 verdicts.Reject ∷ []) RefusedAtConnection Connection
        ∷ report (acted stages.Connect 1 verdicts.Reject ∷ []) RefusedAtConnection Connection ∷ [])
        ≡ codes "message 1 default reset discarded\nconnection reject\n"
        ++ codes "message 2 connection refused-at-connection\nacted connect 1 reject\n"
        ++ codes "message 3 connection refused-at-connection\nacted connect 1 reject\n" }
{}

/// The lines of messages that are settled by default.
pub(crate) fn lines_of_defaults()
    ensures reset { text_with (report [] (Refused refusals.Reject) (Default Reset) ∷ [])
        ≡ codes "message 1 default reset refused \"550 5.7.1 Command rejected\"\n" }
    ensures timeout { text_with (report [] (Refused refusals.Tempfail) (Default Timeout) ∷ [])
        ≡ codes "message 1 default timeout refused \"451 4.3.2 Please try again later\"\n" }
    ensures others { text_with (report [] NoRecipients (Default Memory)
        ∷ report [] Discarded (Default (Fault Early)) ∷ [])
        ≡ codes "message 1 default memory no-recipients\nmessage 2 default fault 8 discarded\n" }
{}
