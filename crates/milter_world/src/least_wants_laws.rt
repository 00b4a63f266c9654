//! The law of the least that rules want, as the contract of a function that does nothing.

ghost use Rattle.std.specs.Prelude.{List};
ghost use Rattle.milter_wire.specs.declared.options.Options.{Options};
ghost use Rattle.milter_wire.specs.declared.stage.Stage.{Stage};
ghost use Rattle.milter_message.specs.MailObject.{MailObject};
ghost use Rattle.milter_mail.specs.MailSession.{MailSession};
ghost use Rattle.milter_filter_rules.specs.ListedValues.{Matching};
ghost use Rattle.milter_filter_rules.specs.LeastWants.{with_least_wants};
ghost use Rattle.milter_filter_rules.specs.RuleSet.{RuleSet, behavior_of};
ghost use Rattle.milter_world.specs.SettledAlike.{SettlesAlike};

use milter_mta::{closed_dialogues_rule, plans_are_sent};

/// Where a filter of rules wants no more than its rules need, and any stages besides to be sent, each message of a
/// session comes to the same, by the same cause, and so does the connection. Only the verdicts that were acted on are
/// fewer: fewer stages are asked about.
pub fn least_wants_settle_alike()
    ensures { (m : Matching) (also_sent : List Stage) (set : RuleSet) (offer : Options) (session : MailSession)
        (messages : List MailObject) →
        SettlesAlike (behavior_of m set) (behavior_of m (with_least_wants also_sent set)) offer session messages }
{
    closed_dialogues_rule();
    plans_are_sent();
}
