//! Worked schedules, as the definitions compute them.

ghost use Rattle.std.specs.Prelude.{◌≡◌, ◌∷◌, ◌++◌, [], codes, replicate};
ghost use Rattle.milter_wire.specs.declared.verdict.Verdict.TheVariants.{Accept, Continue, Reject, Skip};
ghost use Rattle.milter_protocol.specs.Pass.{pass};
ghost use Rattle.milter_mta_outcome.specs.declared.fallback.OnLoss.TheVariants as defaults;
ghost use Rattle.milter_mta_outcome.specs.declared.loss.By.TheVariants as by;
ghost use Rattle.milter_mta_outcome.specs.declared.loss.Loss.TheVariants as losses;
ghost use Rattle.milter_mta_outcome.specs.declared.outcome.Outcome.TheVariants.{NoRecipients, Refused};
ghost use Rattle.milter_mta_outcome.specs.declared.outcome.Refusal.TheVariants as refusals;
ghost use Rattle.milter_mta_outcome.specs.Outcomes.{released};
ghost use Rattle.milter_mta.specs.Worked.{at, message, two_recipients};
ghost use Rattle.milter_world.specs.declared.event_line.Event.TheVariants.{Dial, Send, ToFilter, Answer, ToMta, Die, Lose, Timeout};
ghost use Rattle.milter_world.specs.Rounds.{rounds};
ghost use Rattle.milter_world.specs.Worked.{accepts_client, moves_recipient, refuses_each, refuses_first, scenario, skips, summaries, three_chunks};

/// A session whose bytes are moved in rounds.
pub(crate) fn undisturbed()
    ensures eight { summaries (scenario pass defaults.Tempfail (message ∷ [])) (Dial ∷ rounds 8 100)
        ≡ record {
          verdicts = Continue ∷ Continue ∷ Continue ∷ Continue ∷ Continue ∷ Continue ∷ Continue ∷ [];
          outcome = released message;
          by = by.Filter;
        } ∷ [] }
    ensures ones { summaries (scenario pass defaults.Tempfail (message ∷ [])) (Dial ∷ rounds 120 1)
        ≡ summaries (scenario pass defaults.Tempfail (message ∷ [])) (Dial ∷ rounds 8 100) }
    ensures too_few { summaries (scenario pass defaults.Tempfail (message ∷ [])) (Dial ∷ rounds 119 1) ≡ [] }
    ensures seven { summaries (scenario pass defaults.Tempfail (message ∷ [])) (Dial ∷ rounds 7 100) ≡ [] }
    ensures none { summaries (scenario pass defaults.Tempfail (message ∷ [])) (Dial ∷ rounds 9 0) ≡ [] }
    ensures no_dial { summaries (scenario pass defaults.Tempfail (message ∷ [])) (rounds 9 100) ≡ [] }
{}

/// Sessions whose connections are lost, or whose filters die.
pub(crate) fn lost()
    ensures accepted { summaries (scenario refuses_first defaults.Accept (two_recipients ∷ []))
        (Dial ∷ rounds 6 100 ++ Send 100 ∷ Lose ∷ [])
        ≡ record {
          verdicts = Continue ∷ Continue ∷ Continue ∷ Reject ∷ Continue ∷ [];
          outcome = released (record two_recipients { recipients = at (codes "c@y") ∷ [] });
          by = by.Default losses.Reset;
        } ∷ [] }
    ensures late { summaries (scenario pass defaults.Tempfail (message ∷ message ∷ []))
        (Dial ∷ rounds 7 100 ++ Send 100 ∷ ToFilter 100 ∷ Answer 100 ∷ Timeout ∷ Dial ∷ rounds 8 100 ++ Send 100 ∷ [])
        ≡ record {
          verdicts = Continue ∷ Continue ∷ Continue ∷ Continue ∷ Continue ∷ Continue ∷ [];
          outcome = Refused refusals.Tempfail;
          by = by.Default losses.Timeout;
        } ∷ record {
          verdicts = Continue ∷ Continue ∷ Continue ∷ Continue ∷ Continue ∷ Continue ∷ Continue ∷ [];
          outcome = released message;
          by = by.Filter;
        } ∷ [] }
    ensures not_dialled { summaries (scenario pass defaults.Reject (message ∷ [])) (Lose ∷ [])
        ≡ record { verdicts = []; outcome = Refused refusals.Reject; by = by.Default losses.Reset } ∷ [] }
    ensures no_events { summaries (scenario pass defaults.Reject (message ∷ [])) [] ≡ [] }
    ensures no_messages { summaries (scenario pass defaults.Reject []) (Lose ∷ Dial ∷ Send 3 ∷ Timeout ∷ []) ≡ [] }
    ensures died { summaries (scenario pass defaults.Reject (message ∷ []))
        (Dial ∷ rounds 1 100 ++ Send 100 ∷ ToFilter 100 ∷ Answer 100 ∷ Die ∷ ToMta 100 ∷ Send 100 ∷ Lose ∷ [])
        ≡ record { verdicts = Continue ∷ []; outcome = Refused refusals.Reject; by = by.Default losses.Reset } ∷ [] }
    ensures over { summaries (scenario pass defaults.Reject (message ∷ [])) (Dial ∷ rounds 8 100 ++ Lose ∷ [])
        ≡ record {
          verdicts = Continue ∷ Continue ∷ Continue ∷ Continue ∷ Continue ∷ Continue ∷ Continue ∷ [];
          outcome = released message;
          by = by.Filter;
        } ∷ [] }
    ensures twice { summaries (scenario pass defaults.Reject (message ∷ message ∷ [])) (Die ∷ Lose ∷ Lose ∷ [])
        ≡ record { verdicts = []; outcome = Refused refusals.Reject; by = by.Default losses.Reset }
        ∷ record { verdicts = []; outcome = Refused refusals.Reject; by = by.Default losses.Reset } ∷ [] }
{}

/// Messages that verdicts settle before a loss.
pub(crate) fn settled_before()
    // A verdict on the client settles each of the messages, and a loss after it none.
    ensures client { summaries (scenario accepts_client defaults.Reject (message ∷ two_recipients ∷ message ∷ []))
        (Dial ∷ rounds 2 100 ++ Lose ∷ Timeout ∷ [])
        ≡ record { verdicts = Accept ∷ []; outcome = released message; by = by.Connection }
        ∷ record { verdicts = Accept ∷ []; outcome = released two_recipients; by = by.Connection }
        ∷ record { verdicts = Accept ∷ []; outcome = released message; by = by.Connection } ∷ [] }
    // Before the abort is sent the next message is the one that a loss settles, without the verdicts on the recipients.
    ensures all_refused { summaries
        (scenario refuses_each defaults.Accept (two_recipients ∷ two_recipients ∷ message ∷ []))
        (Dial ∷ rounds 6 100 ++ Lose ∷ [])
        ≡ record {
          verdicts = Continue ∷ Continue ∷ Continue ∷ Reject ∷ Reject ∷ [];
          outcome = NoRecipients;
          by = by.Filter;
        } ∷ record {
          verdicts = Continue ∷ Continue ∷ [];
          outcome = released two_recipients;
          by = by.Default losses.Reset;
        } ∷ [] }
{}

/// A connection that is lost within the answer to the end of a message.
pub(crate) fn lost_at_end()
    // The first of two edits was received: none is made.
    ensures one_edit { summaries (scenario moves_recipient defaults.Accept (message ∷ []))
        (Dial ∷ rounds 7 100 ++ Send 100 ∷ ToFilter 100 ∷ Answer 100 ∷ ToMta 9 ∷ Lose ∷ [])
        ≡ record {
          verdicts = Continue ∷ Continue ∷ Continue ∷ Continue ∷ Continue ∷ Continue ∷ [];
          outcome = released message;
          by = by.Default losses.Reset;
        } ∷ [] }
    // All but the last byte of the verdict.
    ensures both_edits { summaries (scenario moves_recipient defaults.Accept (message ∷ []))
        (Dial ∷ rounds 7 100 ++ Send 100 ∷ ToFilter 100 ∷ Answer 100 ∷ ToMta 22 ∷ Lose ∷ [])
        ≡ record {
          verdicts = Continue ∷ Continue ∷ Continue ∷ Continue ∷ Continue ∷ Continue ∷ [];
          outcome = released message;
          by = by.Default losses.Reset;
        } ∷ [] }
    // The verdict too: both are made.
    ensures verdict { summaries (scenario moves_recipient defaults.Accept (message ∷ []))
        (Dial ∷ rounds 7 100 ++ Send 100 ∷ ToFilter 100 ∷ Answer 100 ∷ ToMta 23 ∷ Lose ∷ [])
        ≡ record {
          verdicts = Continue ∷ Continue ∷ Continue ∷ Continue ∷ Continue ∷ Continue ∷ Continue ∷ [];
          outcome = released (record message { recipients = at (codes "c@y") ∷ [] });
          by = by.Filter;
        } ∷ [] }
{}

/// Bodies of three chunks, of which the filter may want the first alone.
pub(crate) fn skipped()
    ensures skip { summaries (scenario skips defaults.Tempfail (three_chunks ∷ message ∷ []))
        (Dial ∷ rounds 9 100000 ++ Lose ∷ [])
        ≡ record {
          verdicts = Continue ∷ Continue ∷ Continue ∷ Continue ∷ Continue ∷ Continue ∷ Skip ∷ Continue ∷ [];
          outcome = released three_chunks;
          by = by.Filter;
        } ∷ record {
          verdicts = Continue ∷ Continue ∷ [];
          outcome = Refused refusals.Tempfail;
          by = by.Default losses.Reset;
        } ∷ [] }
    ensures no_skip { summaries (scenario pass defaults.Tempfail (three_chunks ∷ [])) (Dial ∷ rounds 11 100000)
        ≡ record {
          verdicts = replicate 10 Continue;
          outcome = released three_chunks;
          by = by.Filter;
        } ∷ [] }
    // All but the last byte of the packet of the first chunk.
    ensures chunk_lost { summaries (scenario skips defaults.Accept (three_chunks ∷ []))
        (Dial ∷ rounds 7 100000 ++ Send 65539 ∷ ToFilter 100000 ∷ Answer 100 ∷ ToMta 100 ∷ Lose ∷ [])
        ≡ record {
          verdicts = Continue ∷ Continue ∷ Continue ∷ Continue ∷ Continue ∷ Continue ∷ [];
          outcome = released three_chunks;
          by = by.Default losses.Reset;
        } ∷ [] }
{}
