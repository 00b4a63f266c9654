//! Worked lines and files, as the definitions compute them.

ghost use Rattle.std.specs.Prelude.{◌≡◌, ◌∷◌, [], None, Some, codes, true};
ghost use Rattle.milter_world.specs.declared.event_line.Event.TheVariants.{Dial, Send, ToFilter, Answer, ToMta, Die};
ghost use Rattle.milter_world.specs.declared.event_line.Event.TheVariants.{Lose, Timeout};
ghost use Rattle.milter_world.specs.EventFile.{IsEventFile, events_of};
ghost use Rattle.milter_world.specs.WorkedEvents.{plain};

/// Lines of one event.
pub(crate) fn events()
    ensures dial { events_of (plain (codes "dial" ∷ [])) ≡ Some (Dial ∷ []) }
    ensures send { events_of (plain (codes "send" ∷ codes "7" ∷ [])) ≡ Some (Send 7 ∷ []) }
    ensures to_filter { events_of (plain (codes "to-filter" ∷ codes "0" ∷ [])) ≡ Some (ToFilter 0 ∷ []) }
    ensures answer { events_of (plain (codes "answer" ∷ codes "007" ∷ [])) ≡ Some (Answer 7 ∷ []) }
    ensures to_mta { events_of (plain (codes "to-mta" ∷ codes "4294967295" ∷ [])) ≡ Some (ToMta 4294967295 ∷ []) }
    ensures die { events_of (plain (codes "die" ∷ [])) ≡ Some (Die ∷ []) }
    ensures lose { events_of (plain (codes "lose" ∷ [])) ≡ Some (Lose ∷ []) }
    ensures timeout { events_of (plain (codes "timeout" ∷ [])) ≡ Some (Timeout ∷ []) }
{}

/// Lines of rounds.
pub(crate) fn rounds()
    ensures one { events_of (plain (codes "round" ∷ codes "5" ∷ []))
        ≡ Some (Send 5 ∷ ToFilter 5 ∷ Answer 5 ∷ ToMta 5 ∷ []) }
    ensures two { events_of (plain (codes "rounds" ∷ codes "2" ∷ codes "5" ∷ []))
        ≡ Some (Send 5 ∷ ToFilter 5 ∷ Answer 5 ∷ ToMta 5 ∷ Send 5 ∷ ToFilter 5 ∷ Answer 5 ∷ ToMta 5 ∷ []) }
    ensures none { events_of (plain (codes "rounds" ∷ codes "0" ∷ codes "5" ∷ [])) ≡ Some [] }
{}

/// Lines that are at fault.
pub(crate) fn unknown_lines()
    ensures quoted { events_of (record { text = codes "dial"; quoted = true } ∷ []) ≡ None }
    ensures no_number { events_of (plain (codes "send" ∷ [])) ≡ None }
    ensures other_number { events_of (plain (codes "dial" ∷ codes "1" ∷ [])) ≡ None }
    ensures too_large { events_of (plain (codes "send" ∷ codes "4294967296" ∷ [])) ≡ None }
    ensures no_count { events_of (plain (codes "rounds" ∷ codes "5" ∷ [])) ≡ None }
    ensures no_words { events_of [] ≡ None }
{}

/// Whole files.
pub(crate) fn files()
    ensures rounds { IsEventFile (codes "dial\nrounds 2 100\n") (Dial
        ∷ Send 100 ∷ ToFilter 100 ∷ Answer 100 ∷ ToMta 100
        ∷ Send 100 ∷ ToFilter 100 ∷ Answer 100 ∷ ToMta 100 ∷ []) }
    ensures skipped { IsEventFile (codes "# lost\n\n dial \r\nlose") (Dial ∷ Lose ∷ []) }
    ensures empty { IsEventFile [] [] }
{}
