//! Laws of a connection to a filter, each the contract of a function that does nothing.

ghost use Rattle.std.specs.Prelude.{◌≡◌, ◌≤◌, ◌++◌, List, None, Some, ℕ};
ghost use Rattle.std.specs.List.{flat_map};
ghost use Rattle.milter_wire.specs.declared.command.Command.{Command};
ghost use Rattle.milter_wire.specs.declared.negotiation.Negotiated.{Negotiated};
ghost use Rattle.milter_wire.specs.declared.stage.Stage.{Stage};
ghost use Rattle.milter_wire.specs.declared.verdict.Verdict.{Verdict};
ghost use Rattle.milter_wire.specs.Command.{encoding};
ghost use Rattle.milter_wire.specs.Stages.{stage_of};
ghost use Rattle.milter_fields.specs.declared.pair.Pair.{Pair};
ghost use Rattle.milter_wire.specs.declared.options.Options.{Options};
ghost use Rattle.milter_protocol.specs.Commands.{is_end_by};
ghost use Rattle.milter_protocol.specs.Transcripts.{rank_from};
ghost use Rattle.milter_mta_connection.specs.Channel.{Channel, queue_all};
ghost use Rattle.milter_mta_connection.specs.Calls.{AllComeInOrder, Call, after};
ghost use Rattle.milter_mta_connection.specs.CommandOrder.{ComeInOrder, rank_with_all};
ghost use Rattle.milter_mta_connection.specs.Connection.{Connection, after_abort, after_command, after_verdict, aborts, fault_at, fresh, outcome_at, outcome_of, packets_for, with_command};
ghost use Rattle.milter_mta_outcome.specs.declared.loss.Loss.{Loss};
ghost use Rattle.milter_mta_connection.specs.Received.{received};
ghost use Rattle.milter_mta_connection.specs.Calls.Call.{Feed, Lost};
ghost use Rattle.milter_mta_connection.specs.Losses.{AllStayLost, IsLost};

/// Where a command is taken, what is answered says what is sent of it, by what was negotiated: nothing where it is left
/// out, perhaps after the abort that is due; else its packets, and its verdict is due where the stage is answered.
pub fn verdicts_are_due()
    ensures { (stage : Stage) (command : Command) (pairs : List Pair) (c : Connection) (negotiated : Negotiated) →
        stage_of command ≡ Some stage → c.channel.negotiated ≡ Some negotiated → fault_at stage c ≡ None →
        outcome_of (after_command stage command pairs c).channel ≡ outcome_at c.phase negotiated stage }
{}

/// What is sent comes in the order in which a filter's end takes commands, whatever is called: where the rank that it
/// keeps is at most that of the last stage that was called, it stays so, and each packet comes in order.
pub fn commands_come_in_order()
    ensures packets { (c : Channel) (commands : List Command) →
        (queue_all commands c).pending ≡ c.pending ++ flat_map encoding commands }
    ensures queued { (stage : Stage) (command : Command) (pairs : List Pair) (c : Connection) →
        with_command stage command pairs c.phase c.channel
        ≡ queue_all (packets_for stage command pairs c) c.channel }
    ensures called { (stage : Stage) (command : Command) (pairs : List Pair) (c : Connection) (rank : ℕ) →
        stage_of command ≡ Some stage → fault_at stage c ≡ None → rank ≤ c.last_rank →
        ComeInOrder rank (packets_for stage command pairs c)
        × (rank_with_all rank (packets_for stage command pairs c) ≤ (after_command stage command pairs c).last_rank) }
    ensures aborted { (c : Connection) (rank : ℕ) → rank ≤ c.last_rank →
        ComeInOrder rank (aborts c.phase) × (rank_with_all rank (aborts c.phase) ≤ (after_abort c).last_rank) }
    ensures answered { (stage : Stage) (verdict : Verdict) (c : Connection) (rank : ℕ) → rank ≤ c.last_rank →
        rank_from (is_end_by stage verdict) rank ≤ (after_verdict stage verdict c).last_rank }
{}

/// Whatever is called, sent and received, given up and lost, in whatever order, and whatever calls are refused: all
/// that is sent on a connection comes in the order in which a filter's end takes commands.
pub fn connections_keep_order()
    ensures { (offer : Options) (calls : List Call) → AllComeInOrder (fresh offer) 0 calls }
{}

/// After a loss nothing is pending and no reply is expected; and whatever is called then, in whatever order, nothing is
/// queued, no event comes, and no edit is added.
pub fn losses_end_connections()
    ensures lost { (c : Connection) → IsLost (after Lost c) }
    ensures fed { (c : Connection) (bytes : List ℕ) (loss : Loss) → (received c.channel bytes).loss ≡ Some loss →
        IsLost (after (Feed bytes) c) }
    ensures stays { (c : Connection) (calls : List Call) → IsLost c → AllStayLost calls c }
{}
