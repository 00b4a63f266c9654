//! Laws that join the contracts of `MtaConnection` to what these laws speak of, each the contract of a function that
//! does nothing.

ghost use Rattle.std.specs.Prelude.{◌≡◌, ◌≢◌, List, Ok, Some, ℕ};
ghost use Rattle.milter_wire.specs.declared.command.Command.{Command};
ghost use Rattle.milter_wire.specs.declared.stage.Stage.{Stage};
ghost use Rattle.milter_wire.specs.Stages.{stage_of};
ghost use Rattle.milter_fields.specs.declared.pair.Pair.{Pair};
ghost use Rattle.milter_mta_outcome.specs.declared.loss.Loss.{Loss};
ghost use Rattle.milter_mta_outcome.specs.declared.loss.Loss.TheVariants.{Memory};
ghost use Rattle.milter_mta_connection.specs.declared.filter_event.Fed.{Fed};
ghost use Rattle.milter_mta_connection.specs.Channel.{Channel};
ghost use Rattle.milter_mta_connection.specs.ChannelParts.{Receives};
ghost use Rattle.milter_mta_connection.specs.Received.{received};
ghost use Rattle.milter_mta_connection.specs.declared.call_outcome.CallOutcome.{CallOutcome};
ghost use Rattle.milter_mta_connection.specs.Calls.{after};
ghost use Rattle.milter_mta_connection.specs.Calls.Call.{Abort, Feed, StageCommand};
ghost use Rattle.milter_mta_connection.specs.Connection.{CallLeaves, CommandLeaves, Connection, after_abort, after_fed, any_fault};
ghost use Rattle.milter_mta_connection.specs.Conversations.{fed_of};
ghost use Rattle.milter_mta_connection.specs.Losses.{IsLost};

/// What a method leaves by its contract is what these laws have of the call: a command that is taken, an abort, and
/// bytes of the filter, but where memory was refused; and after any loss, that one too, the connection is lost.
pub fn methods_are_calls()
    ensures command { (stage : Stage) (command : Command) (pairs : List Pair) (old new : Connection)
        (outcome : CallOutcome) → stage_of command ≡ Some stage →
        CommandLeaves stage command pairs old new (Ok outcome) → new ≡ after (StageCommand command pairs) old }
    ensures abort { (old new : Connection) (outcome : CallOutcome) →
        CallLeaves (any_fault old) Unit (after_abort old) old new (Ok outcome) → new ≡ after Abort old }
    ensures feed { (old : Connection) (piece : List ℕ) (new : Channel) (fed : Fed) →
        Receives old.channel piece new fed → fed.loss ≢ Some Memory →
        after_fed fed new old ≡ after (Feed piece) old }
    ensures fed { (old : Connection) (piece : List ℕ) (new : Channel) (fed : Fed) →
        Receives old.channel piece new fed → fed.loss ≢ Some Memory → fed ≡ fed_of (received old.channel piece) }
    ensures lost { (old : Connection) (piece : List ℕ) (new : Channel) (fed : Fed) (loss : Loss) →
        Receives old.channel piece new fed → fed.loss ≡ Some loss → IsLost (after_fed fed new old) }
{}
