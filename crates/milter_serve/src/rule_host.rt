//! The subcommand `serve`: the rules of connections that are served at once, and the lines of these.

ghost use Rattle.std.specs.Prelude.{◌≡◌, IfErr, IfOk, OnErr, OnOk, Some};
ghost use Rattle.milter_wire.specs.declared.stage.Stage.{Stage as At};
ghost use Rattle.milter_protocol.specs.Questions.{wanted_of};
ghost use Rattle.milter_filter.specs.Connections.{connected_answered, question_in};
ghost use Rattle.milter_cli.specs.FileRun.{IsFileFault};
ghost use Rattle.milter_serve.specs.RefreshedRules.{Refreshes, behavior_by};

use crate::decision_log::LoggedPolicy;
use crate::line_output::LineOutput;
use crate::rule_source::{RuleSource, RuleText, lines_in};
use crate::service_log::{ServiceEvent, ServiceLog};
use milter_cli::{ConnectionReport, FileError};
use milter_filter::{FilterFault, Served, Wants};
use milter_rules::Rules;
use milter_service::{
    AskedConnection, Host, Key, QuestionKey, ServiceError, Shortage, policy_wants,
};
use milter_wire::{NoMemory, Stage, Verdict};
use std::alloc::Global;
use std::io::Write;
use std::rc::Rc;
use std::time::Instant;

/// Rules, which have memory as long as they are in force or a connection goes by them, and where their decisions are
/// logged.
pub type SharedRules<'l, W> = Rc<LoggedPolicy<'l, Rules, W>, Global>;

/// Gives each connection the rules that hold when it comes, and writes a line for it as it ends, as `filter_run` does,
/// where there is room for it. No line that isn't written ends the service.
#[derive(Drop)]
pub struct RuleHost<'p, 'w, S: RuleSource, W: Write + Drop, E: Write + Drop> {
    /// The allocator of rules and lines.
    pub alloc: Global,
    /// Where the rules come from after the first.
    pub source: S,
    /// The rules of connections that come, and whether decisions are logged.
    pub current: SharedRules<'p, E>,
    /// Where the lines of connections go.
    pub output: &'w mut LineOutput<W>,
    /// The log.
    pub log: &'p ServiceLog<E>,
    /// Why rules were not read at the last look; none where they were, or did not change.
    pub failed: Option<FileError>,
    /// Whether memory was refused for the last connection that came.
    pub is_refusing: bool,
}

impl<'p, 'w, S: RuleSource, W: Write + Drop, E: Write + Drop> RuleHost<'p, 'w, S, W, E> {
    /// Has connections that come go by these rules; by those before where memory is refused. Those before are freed
    /// as soon as no connection goes by them.
    fn change(&mut self, rules: Rules) -> Result<(), FileError>
        ensures taken { OnOk result ((self.new.current.value.policy ≡ rules)
            × (self.new.current.value.log ≡ self.old.current.value.log)) }
        ensures refused { OnErr result (self.new.current ≡ self.old.current) }
        ensures memory { IfErr result (λ e. e ≡ FileError.NoMemory) }
        ensures source { self.new.source ≡ self.old.source }
    {
        let policy = LoggedPolicy {
            policy: rules,
            lines: lines_in(self.alloc, self.source.text()),
            log: self.current.log,
        };
        match Rc::new(self.alloc, policy) {
            Ok(policy) => {
                self.current = policy;
                Ok(())
            }
            Err(_) => Err(FileError::NoMemory),
        }
    }

    /// Looks whether the rules changed, and answers that. Where memory is refused for rules that did, they are asked
    /// for again at the next look.
    fn refresh(&mut self) -> Result<bool, FileError>
        ensures refreshed { Refreshes (λ policy rules. (policy.policy ≡ rules)
            × (policy.log ≡ self.old.current.value.log)) S.answers S.looks_again
            self.old.source self.old.current.value self.new.source self.new.current.value }
        ensures again { IfErr result (λ e. ¬ IsFileFault e → S.looks_again self.new.source) }
    {
        let rules = match self.source.changed(self.alloc) {
            Some(Ok(rules)) => rules,
            Some(Err(error)) => return Err(error),
            None => return Ok(false),
        };
        match self.change(rules) {
            Ok(()) => Ok(true),
            Err(error) => {
                self.source.forget();
                Err(error)
            }
        }
    }

    /// Logs that rules were read of a file that changed; or why they were not, if they were not: a fault of theirs each
    /// time, since it comes once for each change; any other error only where it isn't that of the look before.
    fn note(&mut self, refreshed: Result<bool, FileError>)
        ensures source { self.new.source ≡ self.old.source }
        ensures current { self.new.current ≡ self.old.current }
    {
        let failed = self.failed;
        self.failed = refreshed.err();
        match refreshed {
            Ok(true) => self.log_rules(),
            Ok(false) => {}
            Err(error) if error.is_file_fault() => self.log_error(error, self.source.text()),
            Err(error) if failed == Some(error) => {}
            Err(error) => {
                let path = self.source.text().map(|file| file.path);
                self.log_error(error, path.map(|path| RuleText { path, bytes: None }));
            }
        }
    }

    /// Logs that the rules were read that are in force.
    fn log_rules(&self) {
        let event = ServiceEvent::Rules {
            file: self.source.text(),
            rules: &self.current.policy,
        };
        self.log.write_event(self.alloc, &event);
    }

    /// Logs why a file gave no rules, also in words where there is memory for these.
    fn log_error(&self, error: FileError, file: Option<RuleText<'_>>) {
        match self.source.explain(self.alloc, error) {
            Ok(words) => self.log_no_rules(file, error, words.as_slice()),
            Err(NoMemory) => self.log_no_rules(file, error, &[]),
        }
    }

    /// Logs that a file gave no rules, and why in these words.
    fn log_no_rules<'x>(&self, file: Option<RuleText<'x>>, error: FileError, words: &'x [u8]) {
        let event = ServiceEvent::NoRules { file, error, words };
        self.log.write_event(self.alloc, &event);
    }

    /// The policy of a connection that has come: the rules that the source gives now where they changed, else those
    /// before.
    fn policy(&mut self) -> Result<SharedRules<'p, E>, NoMemory>
        ensures latest { IfOk result (λ policy. policy.value ≡ self.new.current.value) }
        ensures refreshed { Refreshes (λ policy rules. (policy.policy ≡ rules)
            × (policy.log ≡ self.old.current.value.log)) S.answers S.looks_again
            self.old.source self.old.current.value self.new.source self.new.current.value }
    {
        let refreshed = self.refresh();
        self.note(refreshed);
        match self.current.clone() {
            Ok(policy) => Ok(policy),
            Err(_) => Err(NoMemory),
        }
    }

    /// Writes the line of a connection that has ended; where memory is refused for it, it is lost.
    fn write_report(&mut self, number: u32, served: Served) {
        let report = ConnectionReport { number, served };
        match format!(in self.alloc; "{report}\n") {
            Ok(line) => self.output.put(line.as_bytes()),
            Err(_) => self.output.lose(),
        }
    }
}

impl<'p, 'w, S: RuleSource, W: Write + Drop, E: Write + Drop> Host for RuleHost<'p, 'w, S, W, E> {
    /// The rules by which the connection goes: those that held when it came.
    type Session = SharedRules<'p, E>;

    /// What the rules want that hold now, as the source gives them where they changed.
    fn connect(&mut self, _key: Key) -> Result<(Wants, Self::Session), NoMemory>
        ensures latest { IfOk result (λ begun. begun.1.value ≡ self.new.current.value) }
        ensures wants { IfOk result (λ begun. begun.0 ≡ wanted_of (behavior_by begun.1.value.policy)) }
        ensures refreshed { Refreshes (λ policy rules. (policy.policy ≡ rules)
            × (policy.log ≡ self.old.current.value.log)) S.answers S.looks_again
            self.old.source self.old.current.value self.new.source self.new.current.value }
    {
        let policy = self.policy()?;
        let wants = policy_wants(self.alloc, policy.as_ref())?;
        self.is_refusing = false;
        Ok((wants, policy))
    }

    /// Answers by the rules of the connection.
    fn asked(
        &mut self,
        question: QuestionKey,
        session: &mut Self::Session,
        connection: &mut AskedConnection,
    ) -> Result<(), NoMemory>
        ensures answered { OnOk result ((stage : At) → question_in connection.old ≡ Some stage → connection.new
            ≡ connected_answered connection.old ((behavior_by session.old.value.policy).decide stage
            connection.old.conversation.state.order_state.shown.seen)) }
        ensures kept { session.new ≡ session.old }
        ensures rules { (self.new.current ≡ self.old.current) × (self.new.source ≡ self.old.source) }
    {
        self.log.begin_turn(question.connection().number());
        connection.answer_by(self.alloc, &**session)
    }

    fn default_verdict(&self, _stage: Stage) -> Verdict {
        Verdict::Tempfail
    }

    fn deadline(&self) -> Option<Instant> {
        None
    }

    fn ended(
        &mut self,
        key: Key,
        _session: Self::Session,
        served: Served,
    ) -> Result<(), ServiceError> {
        self.write_report(key.number(), served);
        Ok(())
    }

    /// Logs the first of connections that come one after another and are refused.
    fn refused(&mut self, key: Key) -> Result<(), ServiceError> {
        if !self.is_refusing {
            self.is_refusing = true;
            self.full(Shortage::Memory);
        }
        self.write_report(key.number(), Served::Failed(FilterFault::NoMemory));
        Ok(())
    }

    fn full(&mut self, shortage: Shortage) {
        self.log
            .write_event(self.alloc, &ServiceEvent::Full(shortage));
    }
}
