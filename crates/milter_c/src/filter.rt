//! A filter's end of a connection.

ghost use Rattle.std.specs.Prelude.{◌≡◌, ◌≢◌, ◌<◌, ◌≤◌, ◌↔◌, ◌∷◌, [], IfSome, IsSomeAnd, List, MatchOption, None, Some, drop, length, ℕ};
ghost use Rattle.milter_wire.specs.declared.stage.Stage.{Stage as At};
ghost use Rattle.milter_wire.specs.declared.stage.Stage.TheVariants.{Eob};
ghost use Rattle.milter_protocol.specs.declared.stage_order.CommandOrder.TheVariants.{Lenient};
ghost use Rattle.milter_protocol.specs.declared.filter_fault.FilterFault.{FilterFault as Fault};
ghost use Rattle.milter_protocol.specs.declared.filter_fault.FilterState.TheVariants.{Failed, Quit, Serving};
ghost use Rattle.milter_protocol.specs.Lawful.{AnswerFits};
ghost use Rattle.milter_protocol.specs.Questions.{IsTaking, ProgressReported, event_step};
ghost use Rattle.milter_filter_stream.specs.Conversations.{TakesIn, answered, conversation_by, fresh_conversation, next_step};
ghost use Rattle.milter_c_objects.specs.Faults.{filter_fault_number};
ghost use Rattle.milter_c_objects.specs.Numbers.{stage_number, state_status_of, step_number};
ghost use Rattle.milter_c_objects.specs.Objects.{IsKept, answer_of, filter_of};
ghost use Rattle.milter_c.specs.Answers.{plain_answer};
ghost use Rattle.milter_c.specs.Filters.{BreaksWants, IsGivenUp, IsRefused, wanted_by};
ghost use Rattle.milter_c.specs.Statuses.{kind_status};

use crate::view::{View, let_object};
use milter_c_objects::status::{
    ANSWER_NO_MEMORY, ANSWER_NOT_ASKED, ANSWER_NOT_AT_END, BAD_ARGUMENT, NO_MEMORY, NOTHING, OK,
    WRONG_KIND,
};
use milter_c_objects::{
    Handle, Object, answer_fault_number, answer_status, filter_fault_number, memory_status,
    stage_number, state_status, step_number, wants_fault_number,
};
use milter_filter::FilterConnection;
use milter_filter_stream::Wants;
use milter_protocol::{Answer, CommandOrder};
use milter_wire::{Actions, Options, Protocol, SymLists, Verdict};
use std::alloc::Global;

/// Puts a connection into the handle of which nothing has come, of a filter that wants this.
#[unsafe(no_mangle)]
pub extern "C" fn deiruska_filter_new(
    alloc: Global,
    filter: &mut Handle,
    version: u32,
    actions: u32,
    protocol: u32,
) -> i32
    ensures done { result ≡ OK →
        filter_of filter.new ≡ Some (fresh_conversation Lenient (wanted_by version actions protocol)) }
    ensures kept { result ≢ OK → IsKept filter.old filter.new }
    ensures cause { result ≢ OK → result ≢ NO_MEMORY → BreaksWants (wanted_by version actions protocol) result }
{
    let options = Options {
        version,
        actions: Actions(actions),
        protocol: Protocol(protocol),
    };
    let wants = match Wants::new(options, SymLists::new(Vec::new(alloc))) {
        Ok(wants) => wants,
        Err(fault) => return wants_fault_number(fault),
    };
    let connection = FilterConnection::new(alloc, wants, CommandOrder::Lenient);
    memory_status(filter.put(alloc, Object::Filter(connection)))
}

/// Begins again, for another connection of the same filter. Doesn't allocate.
#[unsafe(no_mangle)]
pub extern "C" fn deiruska_filter_restart(filter: &mut Handle) -> i32
    ensures done { result ≡ OK → IsSomeAnd (filter_of filter.old) (λ old.
        filter_of filter.new ≡ Some (fresh_conversation Lenient old.wanted)) }
    ensures kept { result ≢ OK → IsKept filter.old filter.new }
    ensures status { result ≡ kind_status (filter_of filter.old) }
{
    let_object!(connection: Filter = filter);
    connection.restart(CommandOrder::Lenient);
    OK
}

/// What the caller does next. Doesn't allocate.
#[unsafe(no_mangle)]
pub extern "C" fn deiruska_filter_step(filter: &mut Handle) -> i32
    ensures step { MatchOption (filter_of filter.old) (result ≡ WRONG_KIND) (λ old.
        result ≡ step_number (next_step old.pending old.state.asked old.state.order_state.state)) }
    ensures kept { IsKept filter.old filter.new }
{
    let_object!(connection: Filter = filter);
    step_number(connection.next_step())
}

/// Takes bytes from the start of a piece of what the mail server sends, and says how many.
#[unsafe(no_mangle)]
pub extern "C" fn deiruska_filter_feed(filter: &mut Handle, piece: &[u8], taken: &mut usize) -> i32
    ensures takes { result ≡ OK → IsSomeAnd (filter_of filter.old) (λ old.
        IsTaking old.state → old.pending ≡ [] →
        IsSomeAnd (filter_of filter.new) (λ new. TakesIn old piece.now taken.new new)) }
    ensures waits { IfSome (filter_of filter.old) (λ old. (byte : ℕ) → (bytes : List ℕ) →
        old.state.order_state.state ≡ Serving → old.pending ≡ byte ∷ bytes →
        (result ≡ OK) × (taken.new ≡ 0) × IsKept filter.old filter.new) }
    ensures asks { IfSome (filter_of filter.old) (λ old. (stage : At) →
        old.state.order_state.state ≡ Serving → old.state.asked ≡ Some stage →
        (result ≡ OK) × (taken.new ≡ 0) × IsKept filter.old filter.new) }
    ensures quit { IfSome (filter_of filter.old) (λ old. old.state.order_state.state ≡ Quit →
        (result ≡ OK) × (taken.new ≡ length piece.now) × IsKept filter.old filter.new) }
    ensures failed { IfSome (filter_of filter.old) (λ old. (fault : Fault) →
        old.state.order_state.state ≡ Failed fault →
        (result ≡ filter_fault_number fault) × IsKept filter.old filter.new) }
    ensures gives_up { result ≢ OK → IfSome (filter_of filter.old) (λ old.
        old.state.order_state.state ≡ Serving → IsGivenUp old piece.now result (filter_of filter.new)) }
    ensures unwritten { result ≢ OK → taken.new ≡ taken.old }
    ensures wrong_kind { (result ≡ WRONG_KIND) ↔ (filter_of filter.old ≡ None) }
    ensures kept { result ≡ WRONG_KIND → IsKept filter.old filter.new }
{
    let_object!(connection: Filter = filter);
    match connection.feed(piece) {
        Ok(count) => {
            *taken = count;
            OK
        }
        Err(fault) => filter_fault_number(fault),
    }
}

/// The stage of the question that is open. Doesn't allocate.
#[unsafe(no_mangle)]
pub extern "C" fn deiruska_filter_asked(filter: &mut Handle, stage: &mut u32) -> i32
    ensures asked { MatchOption (filter_of filter.old) (result ≡ WRONG_KIND) (λ old.
        MatchOption old.state.asked (result ≡ NOTHING) (λ at. (result ≡ OK) × (stage.new ≡ stage_number at))) }
    ensures kept { IsKept filter.old filter.new }
    ensures unwritten { result ≢ OK → stage.new ≡ stage.old }
{
    let_object!(connection: Filter = filter);
    let Some(asked) = connection.asked() else {
        return NOTHING;
    };
    *stage = stage_number(asked);
    OK
}

/// The bytes that are to be sent. Doesn't allocate.
#[unsafe(no_mangle)]
pub extern "C" fn deiruska_filter_pending<'a>(filter: &'a mut Handle, out: &mut View<'a>) -> i32
    ensures pending { result ≡ OK → IsSomeAnd (filter_of filter.old) (λ old. out.new.bytes.now ≡ old.pending) }
    ensures unwritten { result ≢ OK → out.new ≡ out.old }
    ensures status { result ≡ kind_status (filter_of filter.old) }
{
    let_object!(connection: Filter = filter);
    out.bytes = connection.pending();
    OK
}

/// The first `count` bytes of what is pending were sent. Doesn't allocate.
#[unsafe(no_mangle)]
pub extern "C" fn deiruska_filter_sent(filter: &mut Handle, count: usize) -> i32
    ensures done { result ≡ OK → IsSomeAnd (filter_of filter.old) (λ old.
        filter_of filter.new ≡ Some (record old { pending = drop count old.pending })) }
    ensures kept { result ≢ OK → IsKept filter.old filter.new }
    ensures too_many { result ≡ BAD_ARGUMENT → IsSomeAnd (filter_of filter.old) (λ old. length old.pending < count) }
    ensures within { IfSome (filter_of filter.old) (λ old. count ≤ length old.pending → result ≡ OK) }
    ensures wrong_kind { (result ≡ WRONG_KIND) ↔ (filter_of filter.old ≡ None) }
{
    let_object!(connection: Filter = filter);
    if connection.pending().len() < count {
        return BAD_ARGUMENT;
    }
    connection.sent(count);
    OK
}

/// How many bytes of a packet that isn't whole were taken. Doesn't allocate.
#[unsafe(no_mangle)]
pub extern "C" fn deiruska_filter_unread(filter: &mut Handle, count: &mut usize) -> i32
    ensures unread { result ≡ OK → IsSomeAnd (filter_of filter.old) (λ old. count.new ≡ length old.unread) }
    ensures kept { IsKept filter.old filter.new }
    ensures unwritten { result ≢ OK → count.new ≡ count.old }
    ensures status { result ≡ kind_status (filter_of filter.old) }
{
    let_object!(connection: Filter = filter);
    *count = connection.unread();
    OK
}

/// Whether it goes on. Doesn't allocate.
#[unsafe(no_mangle)]
pub extern "C" fn deiruska_filter_state(filter: &mut Handle) -> i32
    ensures state { MatchOption (filter_of filter.old) (result ≡ WRONG_KIND) (λ old.
        result ≡ state_status_of old.state.order_state.state) }
    ensures kept { IsKept filter.old filter.new }
{
    let_object!(connection: Filter = filter);
    state_status(connection.state())
}

/// Frees the memory for one packet where no packet has begun. Doesn't allocate.
#[unsafe(no_mangle)]
pub extern "C" fn deiruska_filter_release(filter: &mut Handle) -> i32
    ensures kept { IsKept filter.old filter.new }
    ensures status { result ≡ kind_status (filter_of filter.old) }
{
    let_object!(connection: Filter = filter);
    connection.release();
    OK
}

/// Answers the question that is open by the answer of another handle, which is Continue without edits then.
#[unsafe(no_mangle)]
pub extern "C" fn deiruska_filter_answer(
    alloc: Global,
    filter: &mut Handle,
    answer: &mut Handle,
) -> i32
    ensures done { result ≡ OK → IsSomeAnd (filter_of filter.old) (λ old. IsSomeAnd (answer_of answer.old) (λ given.
        filter_of filter.new ≡ Some (answered old given))) }
    ensures fits { result ≡ OK → IfSome (filter_of filter.old) (λ old. (stage : At) → old.state.asked ≡ Some stage →
        IfSome (answer_of answer.old) (λ given. AnswerFits stage given)) }
    ensures kept { result ≢ OK → IsKept filter.old filter.new }
    ensures emptied { result ≢ WRONG_KIND → answer_of answer.new ≡ Some plain_answer }
    ensures kept_answer { result ≡ WRONG_KIND → IsKept answer.old answer.new }
    ensures not_asked { IfSome (filter_of filter.old) (λ old. old.state.asked ≡ None →
        IfSome (answer_of answer.old) (λ given. result ≡ ANSWER_NOT_ASKED)) }
    ensures refused { result ≢ OK → IfSome (filter_of filter.old) (λ old. (stage : At) →
        old.state.asked ≡ Some stage → IfSome (answer_of answer.old) (λ given. IsRefused stage given result)) }
    ensures lawful { IfSome (filter_of filter.old) (λ old. (stage : At) → old.state.asked ≡ Some stage →
        IfSome (answer_of answer.old) (λ given. AnswerFits stage given → result ≢ OK → result ≡ ANSWER_NO_MEMORY)) }
    ensures no_filter { filter_of filter.old ≡ None → result ≡ WRONG_KIND }
    ensures no_answer { answer_of answer.old ≡ None → result ≡ WRONG_KIND }
{
    let_object!(connection: Filter = filter);
    let_object!(given: Answer = answer);
    let empty = Answer::of_verdict(alloc, Verdict::Continue);
    match connection.answer(std::mem::replace(given, empty)) {
        Ok(()) => OK,
        Err(fault) => answer_fault_number(fault),
    }
}

/// Reports progress, while the end of a message is asked about.
#[unsafe(no_mangle)]
pub extern "C" fn deiruska_filter_progress(filter: &mut Handle) -> i32
    ensures done { result ≡ OK → IsSomeAnd (filter_of filter.old) (λ old. filter_of filter.new
        ≡ Some (conversation_by old (event_step old.wanted old.state ProgressReported))) }
    ensures at_end { result ≡ OK → IsSomeAnd (filter_of filter.old) (λ old. old.state.asked ≡ Some Eob) }
    ensures kept { result ≢ OK → IsKept filter.old filter.new }
    ensures cause { result ≢ OK → result ≢ ANSWER_NO_MEMORY → IfSome (filter_of filter.old) (λ old.
        (result ≡ ANSWER_NOT_AT_END) × (old.state.asked ≢ Some Eob)) }
    ensures wrong_kind { (result ≡ WRONG_KIND) ↔ (filter_of filter.old ≡ None) }
{
    let_object!(connection: Filter = filter);
    answer_status(connection.progress())
}
