//! Rules of rule files, and answers by them.

ghost use Rattle.std.specs.Prelude.{◌≡◌, ◌≢◌, ◌↔◌, [], IsSomeAnd, None, Some};
ghost use Rattle.milter_wire.specs.declared.stage.Stage.{Stage as At};
ghost use Rattle.milter_protocol.specs.declared.stage_order.CommandOrder.TheVariants.{Lenient};
ghost use Rattle.milter_protocol.specs.Questions.{wanted_of};
ghost use Rattle.milter_filter_stream.specs.Conversations.{answered, fresh_conversation};
ghost use Rattle.milter_filter_rules.specs.RulesValue.{case_of, matching_of, rule_set};
ghost use Rattle.milter_filter_rules.specs.RuleSet.{RuleSet, behavior_of};
ghost use Rattle.milter_text.specs.declared.glob.TextCase.TheVariants.{Exact};
ghost use Rattle.milter_rules.specs.RuleFile.{IsRuleFile};
ghost use Rattle.milter_c_objects.specs.Objects.{IsKept, filter_of, rules_of};
ghost use Rattle.milter_c.specs.RuleFaults.{IsLineOf, rule_fault_number};

use crate::view::let_object;
use milter_c_objects::status::{
    NO_MEMORY, OK, RULES_ACTION_NOT_HERE, RULES_BAD_ACTION, RULES_BAD_CONDITION, RULES_BAD_LIST,
    RULES_BAD_STAGE, RULES_NO_MEMORY, RULES_TOO_LARGE, RULES_UNKNOWN_WORD, WRONG_KIND,
};
use milter_c_objects::{Handle, Object, memory_status};
use milter_filter::{CommandOrder, FilterConnection, policy_wants};
use milter_rules::{RuleFault, read_rules};
use std::alloc::Global;

/// Reads the rules of a rule file, and puts them into the handle. Where the file has none, `line` is that of the first
/// fault, from 1, or 0 where memory was refused. A file with lists can't be read here, since their files don't come
/// with it: its fault is `RULES_BAD_LIST`, at the line of its first list.
#[unsafe(no_mangle)]
pub extern "C" fn deiruska_rules_read(
    alloc: Global,
    rules: &mut Handle,
    text: &[u8],
    line: &mut u64,
) -> i32
    ensures done { result ≡ OK → IsSomeAnd (rules_of rules.new) (λ it. IsRuleFile text.now (rule_set it)) }
    // The case of letters counts in their texts.
    ensures case { result ≡ OK → IsSomeAnd (rules_of rules.new) (λ it. case_of it ≡ Exact) }
    // What a file without lists gives is read, unless memory is refused.
    ensures only { (set : RuleSet) → IsRuleFile text.now set → set.sources ≡ [] → result ≡ OK →
        IsSomeAnd (rules_of rules.new) (λ it. rule_set it ≡ set) }
    ensures memory { (set : RuleSet) → IsRuleFile text.now set → set.sources ≡ [] → result ≢ OK →
        result ≡ RULES_NO_MEMORY }
    ensures kept { result ≢ OK → IsKept rules.old rules.new }
    ensures unwritten { result ≡ OK → line.new ≡ line.old }
    ensures no_line { result ≡ RULES_NO_MEMORY → line.new ≡ 0 }
    ensures within { result ≢ OK → result ≢ RULES_NO_MEMORY → IsLineOf text.now line.new }
{
    let fault = match read_rules(alloc, text, &[]) {
        Ok(it) => match rules.put(alloc, Object::Rules(it)) {
            Ok(()) => return OK,
            Err(_) => RuleFault::NoMemory,
        },
        Err(fault) => fault,
    };
    *line = fault.line().unwrap_or(0);
    rule_fault_number(fault)
}

/// Puts a filter's end into the handle, of a connection of which nothing has come, that wants what the rules do.
#[unsafe(no_mangle)]
pub extern "C" fn deiruska_filter_new_by(
    alloc: Global,
    filter: &mut Handle,
    rules: &mut Handle,
) -> i32
    ensures done { result ≡ OK → IsSomeAnd (rules_of rules.old) (λ it. filter_of filter.new
        ≡ Some (fresh_conversation Lenient (wanted_of (behavior_of (matching_of it) (rule_set it))))) }
    ensures kept { result ≢ OK → IsKept filter.old filter.new }
    ensures wrong_kind { (result ≡ WRONG_KIND) ↔ (rules_of rules.old ≡ None) }
    ensures answers { result ≢ OK → result ≢ WRONG_KIND → result ≡ NO_MEMORY }
{
    let_object!(by: Rules = rules);
    let Ok(wants) = policy_wants(alloc, &*by) else {
        return NO_MEMORY;
    };
    let connection = FilterConnection::new(alloc, wants, CommandOrder::Lenient);
    memory_status(filter.put(alloc, Object::Filter(connection)))
}

/// Answers the open question as the rules decide; where none is open it does nothing.
#[unsafe(no_mangle)]
pub extern "C" fn deiruska_filter_answer_by(
    alloc: Global,
    filter: &mut Handle,
    rules: &mut Handle,
) -> i32
    ensures done { result ≡ OK → IsSomeAnd (filter_of filter.old) (λ old. IsSomeAnd (rules_of rules.old) (λ it.
        (stage : At) → old.state.asked ≡ Some stage → filter_of filter.new
        ≡ Some (answered old
        ((behavior_of (matching_of it) (rule_set it)).decide stage old.state.order_state.shown.seen)))) }
    ensures not_asked { IsSomeAnd (filter_of filter.old) (λ old. old.state.asked ≡ None) →
        IsKept filter.old filter.new }
    ensures kept { result ≢ OK → IsKept filter.old filter.new }
    ensures answers { result ≢ OK → result ≢ WRONG_KIND → result ≡ NO_MEMORY }
{
    let_object!(connection: Filter = filter);
    let_object!(by: Rules = rules);
    memory_status(connection.answer_by(alloc, &*by))
}

/// The number of a fault of a rule file.
fn rule_fault_number(fault: RuleFault) -> i32
    ensures { result ≡ rule_fault_number fault }
{
    match fault {
        RuleFault::UnknownWord(_) => RULES_UNKNOWN_WORD,
        RuleFault::BadStage(_) => RULES_BAD_STAGE,
        RuleFault::BadCondition(_) => RULES_BAD_CONDITION,
        RuleFault::BadAction(_) => RULES_BAD_ACTION,
        RuleFault::ActionNotHere(_) => RULES_ACTION_NOT_HERE,
        RuleFault::TooLarge(_) => RULES_TOO_LARGE,
        RuleFault::NoMemory => RULES_NO_MEMORY,
        RuleFault::BadList(_) => RULES_BAD_LIST,
    }
}
