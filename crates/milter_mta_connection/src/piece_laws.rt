//! Laws of what a filter sends in pieces, each the contract of a function that does nothing.

ghost use Rattle.std.specs.Prelude.{◌≡◌, ◌≢◌, ◌+◌, ◌++◌, [], List, None, Some, ℕ};
ghost use Rattle.milter_wire.specs.declared.verdict.Verdict.{Verdict};
ghost use Rattle.milter_mta_outcome.specs.declared.loss.Loss.{Loss};
ghost use Rattle.milter_mta_connection.specs.declared.filter_event.FilterEvent.TheVariants as events;
ghost use Rattle.milter_mta_connection.specs.Channel.{Channel};
ghost use Rattle.milter_mta_connection.specs.Received.{goes_on, received};
ghost use Rattle.milter_mta_connection.specs.ReplyRules.{IsWaiting};
ghost use Rattle.milter_mta_connection.specs.Calls.{after};
ghost use Rattle.milter_mta_connection.specs.Calls.Call.{Feed, Sent};
ghost use Rattle.milter_mta_connection.specs.Connection.{Connection};
ghost use Rattle.milter_mta_connection.specs.Losses.{IsLost};

/// Whatever a filter sends, two pieces leave a connection as both in one do, where these don't lose the filter; where
/// they do, the two pieces lose it as well. What is sent in two pieces leaves what it does in one. Where both in one
/// give a verdict, without a loss, the first one gives neither an answer nor a loss, and the second one gives the
/// verdict.
pub fn pieces_are_fed()
    ensures connection { (c : Connection) (first second : List ℕ) → (received c.channel (first ++ second)).loss ≡ None →
        after (Feed (first ++ second)) c ≡ after (Feed second) (after (Feed first) c) }
    ensures lost { (c : Connection) (first second : List ℕ) (loss : Loss) →
        (received c.channel (first ++ second)).loss ≡ Some loss → IsLost (after (Feed second) (after (Feed first) c)) }
    ensures sent { (c : Connection) (first second : ℕ) →
        after (Sent (first + second)) c ≡ after (Sent second) (after (Sent first) c) }
    ensures waits { (c : Channel) (first second : List ℕ) (verdict : Verdict) (new : Channel) → second ≢ [] →
        received c (first ++ second) ≡ goes_on (events.Verdict verdict) new → IsWaiting (received c first).event }
    ensures goes_on { (c : Channel) (first second : List ℕ) (verdict : Verdict) (new : Channel) → second ≢ [] →
        received c (first ++ second) ≡ goes_on (events.Verdict verdict) new → (received c first).loss ≡ None }
    ensures verdict { (c : Channel) (first second : List ℕ) (verdict : Verdict) (new : Channel) → second ≢ [] →
        received c (first ++ second) ≡ goes_on (events.Verdict verdict) new →
        received (received c first).channel second ≡ goes_on (events.Verdict verdict) new }
{}
