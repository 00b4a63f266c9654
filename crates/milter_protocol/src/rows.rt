//! Worked connections, as the definitions compute them.

ghost use Rattle.std.specs.Prelude.{◌≡◌, [], ◌∷◌, ◌++◌, codes, map, Err, List, Ok, ℕ, None, Some};
ghost use Rattle.milter_fields.specs.declared.fault.WireFault.TheVariants as wire_faults;
ghost use Rattle.milter_wire.specs.declared.command.Command.TheVariants as commands;
ghost use Rattle.milter_wire.specs.declared.reply.Reply.TheVariants as replies_with;
ghost use Rattle.milter_wire.specs.declared.stage.Stage.TheVariants.{DataCmd};
ghost use Rattle.milter_wire.specs.declared.verdict.Verdict.TheVariants.{Accept, Continue, Discard, Reject, Skip, Tempfail};
ghost use Rattle.milter_message.specs.declared.edit.Edit.TheVariants.{AddHeader, DelRcpt, Progress};
ghost use Rattle.milter_protocol.specs.declared.stage_order.CommandOrder.TheVariants.{Lenient, Strict};
ghost use Rattle.milter_protocol.specs.declared.filter_fault.FilterFault.TheVariants.{NegotiatedTwice, NotNegotiated, OutOfOrder, Version, Wire};
ghost use Rattle.milter_protocol.specs.declared.filter_fault.FilterState.TheVariants.{Failed, Quit, Serving};
ghost use Rattle.milter_protocol.specs.Aborts.{AreTakenAlike, taken_by};
ghost use Rattle.milter_protocol.specs.FilterEnds.{after, start};
ghost use Rattle.milter_protocol.specs.Pass.{pass};
ghost use Rattle.milter_protocol.specs.Questions.{ProgressReported};
ghost use Rattle.milter_protocol.specs.Worked.{negotiated, always, another_rcpt, at, at_data, came, client, count_fields, deciding, edits_at_end, field, given, given_after, given_replies, helo, kept_in, macros_of_mail, mail, name_queue_file, offer, options, rcpt, replied, replied_in, state};

/// What a filter that passes all replies to the first commands.
#[tactic(auto, unfolding(milter_fields::specs::Number::number))]
pub(crate) fn openings()
    ensures plain { replied pass (offer ∷ helo ∷ commands.Quit ∷ []) ≡ negotiated 6 0 0 ∷ replies_with.Continue ∷ [] }
    ensures quit { state pass (offer ∷ helo ∷ commands.Quit ∷ []) ≡ Quit }
    ensures all_bits { replied pass (commands.Options (options 6 4294967295 4294967295) ∷ []) ≡ negotiated 6 0 0 ∷ [] }
    ensures later { replied pass (commands.Options (options 9 4294967295 4294967295) ∷ []) ≡ negotiated 6 0 0 ∷ [] }
    ensures version_2 { replied pass (commands.Options (options 2 0 0) ∷ []) ≡ negotiated 2 0 0 ∷ [] }
    ensures version_1 { replied pass (commands.Options (options 1 0 0) ∷ []) ≡ [] }
    ensures version_1_fails { state pass (commands.Options (options 1 0 0) ∷ []) ≡ Failed Version }
    ensures nothing { state pass [] ≡ Serving }
    ensures quit_at_once { state pass (commands.Quit ∷ mail ∷ []) ≡ Quit }
{}

/// Commands at fault, and those in order.
#[tactic(auto, unfolding(milter_fields::specs::Number::number))]
pub(crate) fn orders()
    ensures first { state pass (mail ∷ []) ≡ Failed NotNegotiated }
    ensures lower { state pass (offer ∷ field (codes "A") [] ∷ rcpt ∷ []) ≡ Failed OutOfOrder }
    ensures twice { state pass (offer ∷ offer ∷ []) ≡ Failed NegotiatedTwice }
    ensures once_replied { replied pass (offer ∷ offer ∷ []) ≡ negotiated 6 0 0 ∷ [] }
    ensures anew { replied pass (offer ∷ helo ∷ commands.QuitNew ∷ commands.Connect client ∷ [])
        ≡ negotiated 6 0 0 ∷ replies_with.Continue ∷ replies_with.Continue ∷ [] }
    ensures same_client { state pass (offer ∷ commands.Connect client ∷ commands.Connect client ∷ [])
        ≡ Failed OutOfOrder }
    // After a message another one begins, or the client greets again; but no client comes without a new connection.
    ensures next_message { state pass (offer ∷ mail ∷ rcpt ∷ commands.Eob [] ∷ mail ∷ commands.Abort ∷ helo ∷ [])
        ≡ Serving }
    ensures no_client { state pass (offer ∷ mail ∷ commands.Abort ∷ commands.Connect client ∷ []) ≡ Failed OutOfOrder }
    ensures first_client { state pass (offer ∷ commands.Abort ∷ commands.Connect client ∷ []) ≡ Serving }
    ensures two_senders { state pass (offer ∷ mail ∷ mail ∷ []) ≡ Failed OutOfOrder }
    // What can't be read comes before all else, also before the options.
    ensures unread { (after pass start (Err (wire_faults.UnknownCode 90) ∷ [])).state
        ≡ Failed (Wire (wire_faults.UnknownCode 90)) }
{}

/// Which answers a filter gives, by what was negotiated.
#[tactic(auto, unfolding(milter_fields::specs::Number::number))]
pub(crate) fn answers()
    // Without its NR bit a stage is answered, with it not: the end of a message always is.
    ensures not_answered { replied (deciding 24576 (always Reject)) (offer ∷ helo ∷ mail ∷ rcpt ∷ commands.Eob [] ∷ [])
        ≡ negotiated 6 511 24576 ∷ replies_with.Reject ∷ replies_with.Reject ∷ [] }
    ensures unknown { replied pass (offer ∷ commands.Unknown [] ∷ []) ≡ negotiated 6 0 0 ∷ replies_with.Continue ∷ [] }
    ensures unknown_not_answered { replied (deciding 131072 (always Reject)) (offer ∷ commands.Unknown [] ∷ [])
        ≡ negotiated 6 511 131072 ∷ [] }
    // Skip only where it was negotiated.
    ensures skip { replied (deciding 1024 (always Skip)) (offer ∷ commands.Body [] ∷ [])
        ≡ negotiated 6 511 1024 ∷ replies_with.Skip ∷ [] }
    ensures no_skip { replied (deciding 0 (always Skip)) (offer ∷ commands.Body [] ∷ [])
        ≡ negotiated 6 511 0 ∷ replies_with.Continue ∷ [] }
    // Edits before the verdict, and those alone that were negotiated.
    ensures edits { replied (deciding 0 (edits_at_end (Progress ∷ DelRcpt (codes "b@y") ∷ []) Accept))
        (offer ∷ commands.Eob [] ∷ [])
        ≡ negotiated 6 511 0 ∷ replies_with.Progress ∷ replies_with.DelRcpt (codes "b@y") ∷ replies_with.Accept ∷ [] }
    ensures no_edits { replied (deciding 0 (edits_at_end (Progress ∷ DelRcpt (codes "b@y") ∷ []) Accept))
        (commands.Options (options 6 7 0) ∷ commands.Eob [] ∷ [])
        ≡ negotiated 6 7 0 ∷ replies_with.Progress ∷ replies_with.Accept ∷ [] }
{}

/// What is shown of a message is gone with it, and what is of the connection stays.
#[tactic(auto, unfolding(milter_fields::specs::Number::number))]
pub(crate) fn messages()
    // The first message has two header fields, the second one.
    ensures counted { replied (deciding 1032320 count_fields)
        (offer ∷ mail ∷ field [] [] ∷ field [] [] ∷ commands.Eob [] ∷ mail ∷ field [] [] ∷ commands.Eob [] ∷ [])
        ≡ negotiated 6 511 1032320 ∷ replies_with.Code (codes "++") ∷ replies_with.Code (codes "+") ∷ [] }
    // An aborted one leaves nothing either.
    ensures aborted { replied (deciding 1032320 count_fields)
        (offer ∷ mail ∷ field [] [] ∷ commands.Abort ∷ mail ∷ commands.Eob [] ∷ [])
        ≡ negotiated 6 511 1032320 ∷ replies_with.Code [] ∷ [] }
    // A refused recipient ends no message; one that is thrown away does.
    ensures refused { state (deciding 0 (always Reject)) (offer ∷ rcpt ∷ rcpt ∷ commands.Eob [] ∷ []) ≡ Serving }
    ensures discarded { state (deciding 0 (always Discard)) (offer ∷ rcpt ∷ mail ∷ []) ≡ Serving }
    ensures not_ended { state pass (offer ∷ rcpt ∷ mail ∷ []) ≡ Failed OutOfOrder }
{}

/// What an end that takes commands in the lenient order takes them for.
#[tactic(auto, unfolding(milter_fields::specs::Number::number))]
pub(crate) fn lenient_aborts()
    ensures two_senders { taken_by Lenient pass (map Ok (offer ∷ mail ∷ mail ∷ []))
        ≡ map Ok (offer ∷ mail ∷ commands.Abort ∷ mail ∷ []) }
    ensures greets_again { taken_by Lenient pass (map Ok (offer ∷ helo ∷ mail ∷ rcpt ∷ helo ∷ []))
        ≡ map Ok (offer ∷ helo ∷ mail ∷ rcpt ∷ commands.Abort ∷ helo ∷ []) }
    // The macros of a sender come with it, after the abort: a policy that is asked about it is shown them.
    ensures macros { taken_by Lenient pass (map Ok (offer ∷ mail ∷ macros_of_mail ∷ mail ∷ []))
        ≡ map Ok (offer ∷ mail ∷ commands.Abort ∷ macros_of_mail ∷ mail ∷ []) }
    ensures macros_shown { replied_in Lenient (deciding 0 name_queue_file) (offer ∷ mail ∷ macros_of_mail ∷ mail ∷ [])
        ≡ negotiated 6 511 0 ∷ replies_with.Continue ∷ replies_with.Code (codes "Q1") ∷ [] }
    // A client that greets twice before its first message, and messages one after the other, are in turn.
    ensures in_turn { AreTakenAlike pass start
        (map Ok (offer ∷ helo ∷ helo ∷ mail ∷ rcpt ∷ commands.Eob [] ∷ mail ∷ commands.Abort ∷ helo ∷ mail ∷ [])) }
{}

/// DATA that a policy refuses within a message.
#[tactic(auto, unfolding(milter_fields::specs::Number::number))]
pub(crate) fn refused_data()
    // It is undone in the lenient order, and may come again, with further recipients.
    ensures undone { kept_in Lenient (deciding 0 (at_data Reject)) (offer ∷ mail ∷ rcpt ∷ commands.DataCmd ∷ [])
        ≡ kept_in Lenient (deciding 0 (at_data Reject)) (offer ∷ mail ∷ rcpt ∷ []) }
    ensures serving { (kept_in Lenient (deciding 0 (at_data Reject))
        (offer ∷ mail ∷ rcpt ∷ commands.DataCmd ∷ [])).state ≡ Serving }
    ensures again { replied_in Lenient (deciding 0 (at_data Reject))
        (offer ∷ mail ∷ rcpt ∷ commands.DataCmd ∷ another_rcpt ∷ commands.DataCmd ∷ [])
        ≡ negotiated 6 511 0 ∷ replies_with.Continue ∷ replies_with.Continue ∷ replies_with.Reject
        ∷ replies_with.Continue ∷ replies_with.Reject ∷ [] }
    ensures taken { taken_by Lenient (deciding 0 (at_data Tempfail))
        (map Ok (offer ∷ mail ∷ rcpt ∷ commands.DataCmd ∷ another_rcpt ∷ commands.DataCmd ∷ commands.Abort ∷ []))
        ≡ map Ok (offer ∷ mail ∷ rcpt ∷ another_rcpt ∷ commands.Abort ∷ []) }
    ensures sender { (kept_in Lenient (deciding 0 (at_data Reject))
        (offer ∷ mail ∷ rcpt ∷ commands.DataCmd ∷ [])).shown.seen.sender ≡ Some (at (codes "a@x")) }
    ensures recipients { (kept_in Lenient (deciding 0 (at_data Reject))
        (offer ∷ mail ∷ rcpt ∷ commands.DataCmd ∷ another_rcpt ∷ [])).shown.seen.recipients
        ≡ at (codes "b@y") ∷ at (codes "c@z") ∷ [] }
    // In the strict order the message ends with it.
    ensures strict_sender { (kept_in Strict (deciding 0 (at_data Reject))
        (offer ∷ mail ∷ rcpt ∷ commands.DataCmd ∷ [])).shown.seen.sender ≡ None }
    // A message that is thrown away at DATA ends with it in either order.
    ensures discarded { (kept_in Lenient (deciding 0 (at_data Discard))
        (offer ∷ mail ∷ rcpt ∷ commands.DataCmd ∷ [])).shown.seen.sender ≡ None }
    // Where the message is left after it, both orders come to the same.
    ensures in_turn { AreTakenAlike (deciding 0 (at_data Reject)) start
        (map Ok (offer ∷ mail ∷ rcpt ∷ commands.DataCmd ∷ macros_of_mail ∷ mail ∷ rcpt ∷ commands.DataCmd
        ∷ commands.Abort ∷ [])) }
{}

/// An end in the lenient order whose caller answers.
#[tactic(auto, unfolding(milter_fields::specs::Number::number))]
pub(crate) fn given_answers()
    ensures progress { given_replies (came offer ∷ came (commands.Eob []) ∷ ProgressReported ∷ given Accept ∷ [])
        ≡ negotiated 6 511 0 ∷ replies_with.Progress ∷ replies_with.Accept ∷ [] }
    ensures asks { (given_after (came offer ∷ came rcpt ∷ given Continue ∷ came commands.DataCmd ∷ [])).asked
        ≡ Some DataCmd }
    // DATA that it refuses is undone, and it is asked about the next one again.
    ensures undone { given_after
        (came offer ∷ came rcpt ∷ given Continue ∷ came commands.DataCmd ∷ given Tempfail ∷ [])
        ≡ given_after (came offer ∷ came rcpt ∷ given Continue ∷ []) }
    ensures again { given_replies
        (came offer ∷ came rcpt ∷ given Continue ∷ came commands.DataCmd ∷ given Tempfail ∷ came commands.DataCmd
        ∷ given Reject ∷ [])
        ≡ negotiated 6 511 0 ∷ replies_with.Continue ∷ replies_with.Tempfail ∷ replies_with.Reject ∷ [] }
{}
