//! Rules as a policy.

ghost use Rattle.std.specs.Prelude.{◌≡◌, true};
ghost use Rattle.milter_filter_rules.specs.ListedValues.{sources_of};
ghost use Rattle.milter_filter_rules.specs.RuleSet.{is_lawful};

use crate::conditions::Context;
use crate::decision::{decide_by, deciding_rule};
use crate::least_wants::least_protocol;
use crate::named_list::{NamedList, NamedLists};
use crate::rule::Rule;
use crate::rule_list::StageRules;
use crate::searches::{search_by, some_is_searched};
use milter_filter_stream::{Policy, Seen, TextCase};
use milter_protocol::{Answer, VERSION_MAX};
use milter_wire::{Actions, NoMemory, Options, Protocol, Stage, SymList, SymLists};
use std::alloc::Global;

/// Rules as a filter's policy: what the filter wants, and the rules that decide at each stage.
///
/// At a stage the rules of that stage are looked at in order, of which those count that apply: all conditions of one
/// of their groups are met. Up to the first of them that has a verdict, their edits are asked for; that verdict is the
/// answer's, or `Continue` where none has one.
#[derive(Debug, Drop)]
pub struct Rules {
    options: Options,
    lists: SymLists,
    rules: StageRules,
    named: NamedLists,
    case: TextCase,
    /// Whether who made the rules stated their protocol bits.
    is_protocol_stated: bool,
    /// Whether a condition at a recipient looks at a macro or at all recipients, which are searched there.
    searches_rcpt: bool,
    pub ghost lawful: { is_lawful
        (record { options = options; lists = lists; rules = rules; sources = sources_of named }) ≡ true },
}

impl Rules {
    ghost use Rattle.std.specs.Prelude.{◌≡◌, IfOk, [], false};
    ghost use Rattle.std.specs.List.{position_from};
    ghost use Rattle.milter_filter_rules.specs.Decisions.{decides};
    ghost use Rattle.milter_filter_rules.specs.LeastWants.{least_wants, with_least_wants};
    ghost use Rattle.milter_filter_rules.specs.RuleSet.{no_rule_set};
    ghost use Rattle.milter_filter_rules.specs.ListedValues.{sources_of};
    ghost use Rattle.milter_filter_rules.specs.RulesValue.{case_of, matching_of, named_of, rule_set, states_protocol};
    ghost use Rattle.milter_text.specs.declared.glob.TextCase.TheVariants.{Exact, Ignored};
    ghost use Rattle.milter_filter_rules.specs.StageRules.{rules_at};

    /// No rules: the filter wants version 6 without any bit, and answers `Continue` to all, as
    /// [`Pass`](milter_filter_stream::Pass) does. Doesn't allocate.
    pub fn new(alloc: Global) -> Self
        ensures set { rule_set result ≡ no_rule_set }
        ensures named { named_of result ≡ [] }
        ensures case { case_of result ≡ Exact }
        ensures stated { states_protocol result ≡ false }
    {
        Rules {
            options: Options {
                version: VERSION_MAX,
                actions: Actions(0),
                protocol: Protocol(0),
            },
            lists: SymLists::new(Vec::new(alloc)),
            rules: StageRules::new(alloc),
            named: NamedLists::new(Vec::new(alloc)),
            case: TextCase::Exact,
            is_protocol_stated: false,
            searches_rcpt: false,
        }
    }

    /// These rules, with what the filter wants and the lists that they refer to. They are lawful: of a known version
    /// and known bits, with symbol lists only where [`Actions::SETSYMLIST`] is among the actions; the reply with all of
    /// it fits a packet; each rule may do what it does at its stage; and the packets of all edits have at most
    /// 16,777,216 bytes. Neither copies nor allocates.
    pub fn from_parts(
        options: Options,
        lists: SymLists,
        rules: StageRules,
        named: NamedLists,
    ) -> Self
        requires { is_lawful
            (record { options = options; lists = lists; rules = rules; sources = sources_of named }) ≡ true }
        ensures set { rule_set result
            ≡ record { options = options; lists = lists; rules = rules; sources = sources_of named } }
        ensures named { named_of result ≡ named }
        ensures case { case_of result ≡ Exact }
        ensures stated { states_protocol result ≡ false }
    {
        let searches_rcpt = some_is_searched(rules.rcpt.as_slice());
        Rules {
            options,
            lists,
            rules,
            named,
            case: TextCase::Exact,
            is_protocol_stated: false,
            searches_rcpt,
        }
    }

    /// These rules, with these lists in place of their own. Neither copies nor allocates.
    pub fn with_named_lists(self, named: NamedLists) -> Self
        ensures set { rule_set result ≡ record (rule_set self) { sources = sources_of named } }
        ensures named { named_of result ≡ named }
        ensures case { case_of result ≡ case_of self }
        ensures stated { states_protocol result ≡ states_protocol self }
    {
        Rules {
            options: self.options,
            lists: self.lists,
            rules: self.rules,
            named,
            case: self.case,
            is_protocol_stated: self.is_protocol_stated,
            searches_rcpt: self.searches_rcpt,
        }
    }

    /// These rules, in the texts of whose conditions the case of ASCII letters doesn't count.
    pub fn ignoring_case(self) -> Self
        ensures set { rule_set result ≡ rule_set self }
        ensures named { named_of result ≡ named_of self }
        ensures case { case_of result ≡ Ignored }
        ensures stated { states_protocol result ≡ states_protocol self }
    {
        Rules {
            options: self.options,
            lists: self.lists,
            rules: self.rules,
            named: self.named,
            case: TextCase::Ignored,
            is_protocol_stated: self.is_protocol_stated,
            searches_rcpt: self.searches_rcpt,
        }
    }

    /// What the filter wants, without what its rules don't need: only stages are sent that rules look at, and those of
    /// `also_sent`, with the sender of what is sent of a message, and only those are asked about at which rules stand.
    /// The end of a message always is; unknown commands of the client never are. It doesn't depend on the texts of
    /// conditions. Doesn't allocate. Source: mfdef.h (SMFIP_NOCONNECT and those after it).
    pub fn least_wants(&self, also_sent: &[Stage]) -> Options
        ensures { result ≡ least_wants also_sent.now (rule_set self.now) }
    {
        Options {
            version: self.options.version,
            actions: self.options.actions,
            protocol: least_protocol(also_sent, self.options.protocol, &self.rules),
        }
    }

    /// These rules, where the filter wants no more than they need, and these stages sent besides. Each message comes to
    /// the same by them. Neither copies nor allocates.
    pub fn with_least_wants(self, also_sent: &[Stage]) -> Self
        ensures set { rule_set result ≡ with_least_wants also_sent.now (rule_set self) }
        ensures named { named_of result ≡ named_of self }
        ensures case { case_of result ≡ case_of self }
        ensures stated { states_protocol result ≡ states_protocol self }
    {
        Rules {
            options: self.least_wants(also_sent),
            lists: self.lists,
            rules: self.rules,
            named: self.named,
            case: self.case,
            is_protocol_stated: self.is_protocol_stated,
            searches_rcpt: self.searches_rcpt,
        }
    }

    /// These rules, whose protocol bits who made them stated, or not: as they are, or by what the rules do.
    pub fn with_protocol_stated(self, is_stated: bool) -> Self
        ensures set { rule_set result ≡ rule_set self }
        ensures named { named_of result ≡ named_of self }
        ensures case { case_of result ≡ case_of self }
        ensures stated { states_protocol result ≡ is_stated }
    {
        Rules {
            options: self.options,
            lists: self.lists,
            rules: self.rules,
            named: self.named,
            case: self.case,
            is_protocol_stated: is_stated,
            searches_rcpt: self.searches_rcpt,
        }
    }

    /// Whether who made the rules stated their protocol bits, as a line `protocol` of a rule file does.
    pub fn is_protocol_stated(&self) -> bool
        ensures { result ≡ states_protocol self.now }
    {
        self.is_protocol_stated
    }

    /// Whether the case of ASCII letters counts in the texts of conditions: it does unless it is ignored.
    pub fn case(&self) -> TextCase
        ensures { result ≡ case_of self.now }
    {
        self.case
    }

    /// What the filter wants. Doesn't allocate.
    pub fn options(&self) -> Options
        ensures { result ≡ (rule_set self.now).options }
    {
        self.options
    }

    /// The macros that the filter wants. Doesn't allocate.
    pub fn lists(&self) -> &[SymList]
        ensures { result.now ≡ (rule_set self.now).lists }
    {
        self.lists.as_slice()
    }

    /// The lists that conditions refer to, in order. Doesn't allocate.
    pub fn named_lists(&self) -> &[NamedList]
        ensures { result.now ≡ named_of self.now }
    {
        self.named.as_slice()
    }

    /// The rules of the stage, in the order in which they are looked at. Doesn't allocate.
    pub fn at(&self, stage: Stage) -> &[Rule]
        ensures { result.now ≡ rules_at (rule_set self.now).rules stage }
    {
        self.rules.at(stage)
    }

    /// The index, from 0 among the rules of the stage, of the first one that applies to what is shown and has a
    /// verdict: that of [`Policy::decide`], unless the edits before it are too many. It is `None` where no rule has
    /// one. Allocates as `decide` does; `NoMemory` where memory is refused.
    pub fn deciding_rule(
        &self,
        alloc: Global,
        at: Stage,
        seen: &Seen,
    ) -> Result<Option<usize>, NoMemory>
        ensures { IfOk result (λ index. index ≡ position_from (decides (matching_of self.now) seen.now.shown) 0
            (rules_at (rule_set self.now).rules at)) }
    {
        deciding_rule(self.context(alloc, at), self.rules.at(at), seen)
    }

    /// What the conditions of a stage's rules are compared by.
    #[inline(always)]
    fn context(&self, alloc: Global, at: Stage) -> Context<'_>
        ensures case { result.case ≡ case_of self.now }
        ensures lists { result.lists.now ≡ named_of self.now }
    {
        Context {
            alloc,
            case: self.case,
            lists: self.named.as_slice(),
            is_searched: self.is_searched(at),
        }
    }

    /// Whether something may have been searched for when the rules of the stage decide.
    fn is_searched(&self, at: Stage) -> bool {
        match at {
            Stage::Rcpt => self.searches_rcpt,
            _ => true,
        }
    }
}

impl Policy for Rules {
    ghost use Rattle.milter_filter_rules.specs.RuleSet.{behavior_of};
    ghost use Rattle.milter_filter_rules.specs.RulesLaw.{lawful_rules};
    ghost use Rattle.milter_filter_rules.specs.RulesValue.{matching_of, rule_set};

    ghost behavior = { λ rules. behavior_of (matching_of rules) (rule_set rules) };

    ghost lawful = { λ rules. lawful_rules (matching_of rules) (rule_set rules) rules.lawful };

    fn wants(&self) -> Options {
        self.options
    }

    fn lists(&self) -> &[SymList] {
        self.lists.as_slice()
    }

    #[inline(always)]
    fn prepare(&self, alloc: Global, at: Stage, seen: &mut Seen) {
        if matches!(at, Stage::Rcpt | Stage::Header | Stage::Body) && self.is_searched(at) {
            search_by(self.context(alloc, at), self.rules.at(at), seen);
        }
    }

    #[inline(always)]
    fn decide(&self, alloc: Global, at: Stage, seen: &Seen) -> Result<Answer, NoMemory> {
        decide_by(self.context(alloc, at), self.rules.at(at), seen)
    }
}
