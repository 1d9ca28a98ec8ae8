// One call on the room: document 01, "The plain machine", all that it answers. Here the calls are told apart, once: the manager by value and the
// run of a day come in by `perform`, with every queue's least tag lent. A new call gets its variant of `Call` and its line in `perform`.
#![tactic(auto)]

ghost use Rattle.std.specs.Prelude.{◌≡◌, ◌≤◌, length};
ghost use Rattle.machine.specs.State.{State};
ghost use Rattle.machine.specs.Machine as M;
ghost use Rattle.state_events.specs.Slots.{room_for_events};
ghost use Rattle.call_pop_ready.specs.Gathering.{Grown};
ghost use Rattle.state_room.specs.PartRows.{spare_room, Queued, Headed, Shows};
ghost use Rattle.state_room.specs.Holds.{rows_of, Kept, Performs, reply_of as replied};
ghost use Rattle.call_pop.specs.Pops.{reply_of as peeked_reply};
ghost use Rattle.value_store.specs.Views.{answer_of};
ghost use Rattle.call_transition.specs.Transiting.{call_of as transit_of};
ghost use Rattle.call_perform.specs.Calls.{marks, question_of, call_of, value_reply, said_reply, answer_reply, reply_of, Idle, Tells};

use call_pop_ready::Gathered;
use call_push::Push;
use call_transition_plan::Request;
use refusals::Refusal;
use state_room::{Counts, Room};
use tags::GlobalTag;

// What is asked, and changes nothing.
#[derive(Clone, Copy)]
pub enum Question {
    PeekTag,
    ControlOnly,
    OrdinaryWork,
    Active(u16),
    EverActive(u16),
}

// A call; the reaction keys of a push stand beside it.
#[derive(Clone, Copy)]
pub enum Call {
    Push(Push),
    Transition(Request),
    Pop,
    Ask(Question),
    Value(value_store::Call),
}

// What a call answers that is not refused, but for a ready event.
#[derive(Clone, Copy)]
pub enum Answer {
    Done,
    Nothing,
    Tag(GlobalTag),
    Flag(bool),
    Number(u64),
}

// The tag of the ready event that a pop found, if it found one, and what was gathered, the action keys in the lent array; else the answer.
#[derive(Clone, Copy)]
pub struct Performed {
    pub tag: Option<GlobalTag>,
    pub answer: Result<Answer, Refusal>,
    pub gathered: Gathered,
}

// ---- answers

// An answer that is no ready event.
pub fn told(answer: Result<Answer, Refusal>) -> Performed
    ensures { Idle result × (result.answer ≡ answer) }
{
    Performed {
        tag: None,
        answer,
        gathered: Gathered::nothing_yet(),
    }
}

fn done_answer(outcome: Result<(), Refusal>) -> Result<Answer, Refusal>
    ensures { answer_reply result ≡ replied outcome }
{
    outcome?;
    Ok(Answer::Done)
}

fn peek_answer(tag: Option<GlobalTag>) -> Answer
    ensures { said_reply result ≡ peeked_reply tag }
{
    match tag {
        Some(t) => Answer::Tag(t),
        None => Answer::Nothing,
    }
}

fn value_answer(said: Result<value_store::Answer, Refusal>) -> Result<Answer, Refusal>
    ensures { answer_reply result ≡ value_reply (answer_of said) }
{
    Ok(match said? {
        value_store::Answer::Done => Answer::Done,
        value_store::Answer::Nothing => Answer::Nothing,
        value_store::Answer::Number(n) => Answer::Number(n),
    })
}

// ---- questions

// Its mark, if the table has the scope: else 5.
fn scope_answer(
    image: &[u8],
    scopes: &[u64; state_scopes::ROOM],
    i: u16,
    ever: bool,
) -> Result<Answer, Refusal>
    ensures { (s : State) → Shows s scopes.now → answer_reply result ≡ (M.perform image.now s (marks ever i)).reply }
{
    if table_rows::count(image, table_rows::SCOPE) <= i {
        return Err(Refusal::Key);
    }
    let s = state_scopes::scope_at(scopes, usize::from(i));
    Ok(Answer::Flag(if ever { s.ever } else { s.active }))
}

fn ask(
    image: &[u8],
    scopes: &[u64; state_scopes::ROOM],
    events: &[u64; state_events::ROOM],
    heads: &[u64; state_queues::HEADS],
    counts: Counts,
    question: Question,
) -> Result<Answer, Refusal>
    requires waiting_le_room_for_events { counts.waiting ≤ room_for_events }
    requires headed { Headed heads.now events.now counts }
    ensures { (s : State) → Queued s.waiting s.work events.now counts → Shows s scopes.now →
        answer_reply result ≡ (M.perform image.now s (question_of question)).reply }
{
    match question {
        Question::PeekTag => Ok(peek_answer(call_pop::peek_tag(image, scopes, heads))),
        Question::ControlOnly => {
            let only = call_pop::peek_is_control_only(image, scopes, events, counts, heads);
            Ok(Answer::Flag(only))
        }
        Question::OrdinaryWork => Ok(Answer::Number(counts.work as u64)),
        Question::Active(i) => scope_answer(image, scopes, i, false),
        Question::EverActive(i) => scope_answer(image, scopes, i, true),
    }
}

// ---- a transition

// Every queue's least tag is found anew after it.
fn transit(
    image: &[u8],
    room: &mut Room,
    heads: &mut [u64; state_queues::HEADS],
    spare: &mut [u64],
    request: Request,
) -> Result<Answer, Refusal>
    requires kept { Kept image.now (rows_of room.old) }
    requires spare_room_in_bounds { spare_room ≤ length spare.old }
    ensures performs { Performs image.now (transit_of request) (rows_of room.old) (answer_reply result) (rows_of room.new) }
    ensures headed { Headed heads.new room.new.events room.new.ledger.counts }
{
    let outcome = call_transition::apply_transition(image, room, spare, request);
    *heads = state_queues::heads(&room.events, room.ledger.counts.waiting);
    done_answer(outcome)
}

// ---- the call

// The call on the room, with every queue's least tag, room for a pop's action keys and a transition's spare.
pub fn perform(
    image: &[u8],
    room: &mut Room,
    heads: &mut [u64; state_queues::HEADS],
    actions: &mut [u16; state_events::ROOM_FOR_EVENTS],
    spare: &mut [u64],
    call: Call,
    keys: &[u16],
) -> Performed
    requires kept { Kept image.now (rows_of room.old) }
    requires headed { Headed heads.old room.old.events room.old.ledger.counts }
    requires actions_len { (length actions.old ≡ room_for_events) × (spare_room ≤ length spare.old) }
    ensures performs { Performs image.now (call_of call keys.now) (rows_of room.old) (reply_of result actions.new) (rows_of room.new) }
    ensures headed_2 { Headed heads.new room.new.events room.new.ledger.counts }
    ensures grown { Grown 0 result.gathered.actions actions.old actions.new × (result.gathered.actions ≤ room_for_events) }
    ensures tells { Tells call result }
{
    let waits = room.ledger.counts;
    match call {
        Call::Push(push) => {
            match call_push::push_with(
                image,
                &room.scopes,
                &mut room.events,
                waits,
                heads,
                push,
                keys,
            ) {
                Ok(counts) => {
                    room.ledger.counts = counts;
                    told(Ok(Answer::Done))
                }
                Err(n) => told(Err(n)),
            }
        }
        Call::Pop => {
            let p = call_pop::pop_next_event(
                image,
                &room.scopes,
                &mut room.events,
                waits,
                actions,
                heads,
            );
            room.ledger.counts = p.counts;
            Performed {
                tag: p.tag,
                answer: Ok(Answer::Nothing),
                gathered: p.gathered,
            }
        }
        Call::Transition(request) => told(transit(image, room, heads, spare, request)),
        Call::Ask(question) => {
            let answer = ask(image, &room.scopes, &room.events, heads, waits, question);
            told(answer)
        }
        Call::Value(call) => {
            let c = value_store::call_rows(
                image,
                &mut room.values,
                &mut room.buckets,
                room.ledger.held,
                call,
            );
            room.ledger.held = c.held;
            told(value_answer(c.answer))
        }
    }
}
