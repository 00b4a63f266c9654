//! Laws of what both ends share, each the contract of a function that does nothing.

ghost use Rattle.std.specs.Prelude.{◌≡◌, ◌≢◌, ◌++◌, ◌∷◌, ◌<◌, [], All, Bool, IfSome, List, ℕ, false, true};
ghost use Rattle.std.specs.Option.{option_or};
ghost use Rattle.milter_wire.specs.declared.negotiation.Negotiated.{Negotiated};
ghost use Rattle.milter_wire.specs.declared.command.Command.{Command};
ghost use Rattle.milter_fields.specs.declared.pair.Pair.{Pair};
ghost use Rattle.milter_wire.specs.declared.stage.Stage.{Stage};
ghost use Rattle.milter_protocol.specs.declared.answer.Answer.{Answer};
ghost use Rattle.milter_protocol.specs.Behavior.{Behavior};
ghost use Rattle.milter_protocol.specs.Exchanges.{Exchange, latest, since, up_to};
ghost use Rattle.milter_protocol.specs.Permitted.{is_permitted, permitted};
ghost use Rattle.milter_protocol.specs.Seen.{seen, seen_with, value_in};
ghost use Rattle.milter_protocol.specs.StageOrder.{may_follow, may_repeat, rank_of};
ghost use Rattle.milter_protocol.specs.Dialogue.{AreAnsweredBy, EndAtFinalAnswer, HaveNoSkippedChunk, IsDialogueWith, has_end, dialogue_with};

/// One command more adds its own part to what is shown, and leaves all else as it is.
pub fn seen_in_turn()
    ensures seen { (leading_space : Bool) (command : Command) (before : List Command) →
        seen leading_space (command ∷ before) ≡ seen_with (seen leading_space before) command }
    // A macro has the value that was given last.
    ensures last_value { (later earlier : List Pair) (name : List ℕ) →
        value_in (later ++ earlier) name ≡ option_or (value_in later name) (value_in earlier name) }
{}

/// A transcript is what came since the last of a kind, and then that last one with what came before it.
pub fn transcripts_cut()
    ensures whole { (is_kind : Exchange → Bool) (transcript : List Exchange) →
        since is_kind transcript ++ up_to is_kind transcript ≡ transcript }
    ensures since { (is_kind : Exchange → Bool) (transcript : List Exchange) →
        All (λ exchange. is_kind exchange ≡ false) (since is_kind transcript) }
    ensures last { (is_kind : Exchange → Bool) (transcript : List Exchange) →
        IfSome (latest (up_to is_kind transcript)) (λ exchange. is_kind exchange ≡ true) }
{}

/// Of two stages only one may follow the other, but for a stage that repeats.
pub fn stages_in_order()
    ensures apart { (a b : Stage) → rank_of a ≡ rank_of b → a ≡ b }
    ensures first { (stage : Stage) → may_follow 0 stage ≡ true }
    ensures higher { (a b : Stage) → rank_of a < rank_of b → may_follow (rank_of a) b ≡ true }
    ensures same { (stage : Stage) → may_follow (rank_of stage) stage ≡ may_repeat stage }
    ensures lower { (a b : Stage) → rank_of b < rank_of a → may_follow (rank_of a) b ≡ false }
{}

/// What is permitted asks for nothing that was not negotiated, and is permitted as it is.
pub fn permitted_answers()
    ensures edits { (negotiated : Negotiated) (answer : Answer) →
        All (λ edit. is_permitted negotiated edit ≡ true) (permitted negotiated answer).edits }
    ensures again { (negotiated : Negotiated) (answer : Answer) →
        permitted negotiated (permitted negotiated answer) ≡ permitted negotiated answer }
{}

/// Each answer of a dialogue is the filter's to all that was sent up to its command; no chunk of a body follows a Skip,
/// and nothing follows a final answer. Where the commands go on to the end of the message, the dialogue isn't empty:
/// its last exchange closes it and no earlier one does, and no other exchanges are so.
pub fn dialogues()
    ensures answered { (b : Behavior) (negotiated : Negotiated) (before : List Exchange) (commands : List Command) →
        AreAnsweredBy b negotiated before (dialogue_with b negotiated before commands) }
    ensures skipped { (b : Behavior) (negotiated : Negotiated) (before : List Exchange) (commands : List Command) →
        HaveNoSkippedChunk before (dialogue_with b negotiated before commands) }
    ensures ended { (b : Behavior) (negotiated : Negotiated) (before : List Exchange) (commands : List Command) →
        EndAtFinalAnswer (dialogue_with b negotiated before commands) }
    ensures whole { (b : Behavior) (negotiated : Negotiated) (before : List Exchange) (commands : List Command) →
        has_end commands ≡ true →
        IsDialogueWith b negotiated before commands (dialogue_with b negotiated before commands) }
    ensures some { (b : Behavior) (negotiated : Negotiated) (before : List Exchange) (commands : List Command) →
        has_end commands ≡ true → dialogue_with b negotiated before commands ≢ [] }
    ensures only { (b : Behavior) (negotiated : Negotiated) (before : List Exchange) (commands : List Command)
        (exchanges : List Exchange) → IsDialogueWith b negotiated before commands exchanges →
        exchanges ≡ dialogue_with b negotiated before commands }
{}
