// The event manager by value: document 01, "Arrays by value of scope clocks, active flags and event slots inside the manager".
// Each call goes to rows, tests the state rules, works there, and comes back; the run of a day works on the rows themselves.
// A new part of the state comes in here in `Manager` and in its two conversions, `unpack` and `pack`.
// Every call of the plain machine (crate machine, `Call`) has its method:
//   plain -> push_event, network -> push_network_event, control -> push_control_event, action -> push_action_event,
//   transit -> apply_transition, pop -> pop_next_event, peek_tag -> peek_tag, only_control -> peek_is_control_only,
//   ordinary_work -> nonterminal_work and has_nonterminal_work, active_now -> scope_active, ever_active -> scope_ever_active,
//   push_value -> push_value, next_step -> next_value_microstep, take_value -> take_value,
//   clear_before -> clear_values_older_than, move_value -> move_value, clear_action -> clear_values.
#![tactic(auto)]

ghost use Rattle.std.specs.Prelude.{false, cond, ◌||◌, ◌≡◌, List, [], map, ℕ, ◌≤◌, min, length, take, replicate};
ghost use Rattle.tags.specs.Views.{of_clock, of_global};
ghost use Rattle.store_words.specs.Entries.{room_for_entries};
ghost use Rattle.store.specs.Layout.{HeldIn};
ghost use Rattle.state_events.specs.Slots.{event_of, events_of};
ghost use Rattle.state_events.specs.Slots as slot;
ghost use Rattle.state_scopes.specs.Scopes.{most_scopes, scopes_of};
ghost use Rattle.state_scopes.specs.Scopes as scope;
ghost use Rattle.state_events.specs.Slots.{room_for_events};
ghost use Rattle.state_room.specs.Padded.{padded};
ghost use Rattle.state_room.specs.PartRows.{Scoped, most_reactors};
ghost use Rattle.state_room.specs.Holds.{rows_of};
ghost use Rattle.manager.specs.Arrays.{asks, is_refusal, step_on, shown_ready, popped, fresh_over};
ghost use Rattle.table.specs.Check.{check};
ghost use Rattle.manager.specs.Views.{joined, arrays_of, arrays_in, Blank, Unpacks, answered_of, called_of, work_reply, some_work};
ghost use Rattle.manager.specs.Views.{TellsOrEleven, shown_of, ready_from, ready_in, popped_of};
ghost use Rattle.value_store.specs.Views.{call_of as store_call};
ghost use Rattle.call_perform.specs.Calls.{value_call, call_of, answer_reply, reply_of, is_pop};
ghost use Rattle.call_perform.specs.declared.Call.TheVariants as K;
ghost use Rattle.machine.specs.Machine.{plain, network, control, action, transit, peek_tag, only_control, ordinary_work, active_now, ever_active, pop};
ghost use Rattle.machine.specs.Machine.{push_value, next_step, take_value, clear_before, move_value, clear_action};

use call_perform::{Answer, Call, Performed, Question};
use call_pop_ready::Gathered;
use call_push::{ActionPush, Push};
use call_transition_plan::Request;
use key_set::KeySet;
use refusals::Refusal;
use state_events::{ROOM_FOR_EVENTS, Slot};
use state_room::{Ledger, MOST_REACTORS, Room};
use state_scopes::{MOST_SCOPES, Scope};
use store::Entry;
use store_words::ROOM_FOR_ENTRIES;
use table::ImageRefusal;
use tags::{GlobalTag, ScopeClock};
use value_store::Store;

// Clocks, active now and ever active by scope, modes by reactor, the events that wait and how many of them are ordinary, and the value store.
#[derive(Clone, Copy)]
pub struct Manager {
    pub clocks: [ScopeClock; MOST_SCOPES],
    pub active: [bool; MOST_SCOPES],
    pub ever: [bool; MOST_SCOPES],
    pub modes: [u16; MOST_REACTORS],
    pub slots: [Slot; ROOM_FOR_EVENTS],
    pub waiting: usize,
    pub work: usize,
    pub store: Store,
}

// ---- to rows that are blank as they are lent: what is in use, so that blanks stand behind it

// Zeros behind the first n.
fn only_first(numbers: &mut [u16], n: usize)
    ensures { numbers.new ≡ padded 0 (length numbers.old) (take n numbers.old) }
{
    let end = n.min(numbers.len());
    numbers[end..].fill(0);
}

fn lay_scopes(
    rows: &mut [u64; state_scopes::ROOM],
    clocks: &[ScopeClock; MOST_SCOPES],
    active: &[bool; MOST_SCOPES],
    ever: &[bool; MOST_SCOPES],
    n: usize,
)
    requires { scope.Held rows.old (replicate most_scopes scope.blank) }
    ensures scoped { Scoped (take n (joined (map of_clock clocks.now) active.now ever.now)) rows.new }
    ensures clocks_len { (length clocks.now ≡ most_scopes) × (length active.now ≡ most_scopes) × (length ever.now ≡ most_scopes) }
{
    for i in 0..n.min(MOST_SCOPES) {
        let s = Scope {
            clock: clocks[i],
            active: active[i],
            ever: ever[i],
        };
        state_scopes::put_scope(rows, i, s);
    }
}

fn lay_slots(rows: &mut [u64; state_events::ROOM], slots: &[Slot; ROOM_FOR_EVENTS], n: usize)
    requires { slot.Held rows.old (replicate room_for_events slot.blank) }
    ensures held { slot.Held rows.new (padded slot.blank room_for_events (take n (map event_of slots.now))) }
    ensures slots_len { length slots.now ≡ room_for_events }
{
    for i in 0..n.min(ROOM_FOR_EVENTS) {
        state_events::put_slot(rows, i, slots[i]);
    }
}

fn lay_entries<E: Entry>(rows: &mut E::Rows, entries: &[E; ROOM_FOR_ENTRIES], n: usize)
    requires { HeldIn E.layout (E.words rows.old) (replicate room_for_entries E.layout.blank) }
    ensures held { HeldIn E.layout (E.words rows.new) (padded E.layout.blank room_for_entries (take n (map E.of entries.now))) }
    ensures entries_len { length entries.now ≡ room_for_entries }
{
    for i in 0..n.min(ROOM_FOR_ENTRIES) {
        entries[i].put(rows, i);
    }
}

// The manager is lent too: it is 32 KB.
fn unpack(image: &[u8], room: &mut Room, m: &Manager)
    requires { Blank room.old.scopes room.old.events room.old.values room.old.buckets }
    ensures { Unpacks image.now (arrays_of m.now) (rows_of room.new) }
{
    let scopes_there = table_rows::count(image, table_rows::SCOPE) as usize;
    let reactors_there = table_rows::count(image, table_rows::REACTOR) as usize;
    lay_scopes(
        &mut room.scopes,
        &m.clocks,
        &m.active,
        &m.ever,
        scopes_there,
    );
    lay_slots(&mut room.events, &m.slots, m.waiting);
    lay_entries(&mut room.values, &m.store.values, m.store.held);
    lay_entries(&mut room.buckets, &m.store.buckets, m.store.open);
    let mut modes = m.modes;
    only_first(&mut modes, reactors_there);
    room.ledger = Ledger {
        modes,
        counts: state_room::Counts {
            waiting: m.waiting,
            work: m.work,
        },
        held: store_calls::Counts {
            values: m.store.held,
            buckets: m.store.open,
        },
    };
}

// ---- and back
// Stays: four loops of one form; `array::from_fn` was tried, and what it ensures of each call does not say that the closure still sees these rows.

fn slots_of(rows: &[u64; state_events::ROOM]) -> [Slot; ROOM_FOR_EVENTS]
    ensures { map event_of result ≡ events_of rows.now }
{
    let mut slots = [Slot::blank(); ROOM_FOR_EVENTS];
    for (i, slot) in slots.iter_mut().enumerate() {
        *slot = state_events::slot_at(rows, i);
    }
    slots
}

fn clocks_of(rows: &[u64; state_scopes::ROOM]) -> [ScopeClock; MOST_SCOPES]
    ensures { map of_clock result ≡ map (λ x. x.clock) (scopes_of rows.now) }
{
    let mut clocks = [ScopeClock::fresh(false); MOST_SCOPES];
    for (i, clock) in clocks.iter_mut().enumerate() {
        *clock = state_scopes::scope_at(rows, i).clock;
    }
    clocks
}

fn active_of(rows: &[u64; state_scopes::ROOM]) -> [bool; MOST_SCOPES]
    ensures { result ≡ map (λ x. x.active) (scopes_of rows.now) }
{
    let mut flags = [false; MOST_SCOPES];
    for (i, flag) in flags.iter_mut().enumerate() {
        *flag = state_scopes::scope_at(rows, i).active;
    }
    flags
}

fn ever_of(rows: &[u64; state_scopes::ROOM]) -> [bool; MOST_SCOPES]
    ensures { result ≡ map (λ x. x.ever) (scopes_of rows.now) }
{
    let mut flags = [false; MOST_SCOPES];
    for (i, flag) in flags.iter_mut().enumerate() {
        *flag = state_scopes::scope_at(rows, i).ever;
    }
    flags
}

fn pack(room: &Room) -> Manager
    ensures { arrays_of result ≡ arrays_in (rows_of room.now) }
{
    let clocks = clocks_of(&room.scopes);
    let active = active_of(&room.scopes);
    let ever = ever_of(&room.scopes);
    let modes = room.ledger.modes;
    let slots = slots_of(&room.events);
    Manager {
        clocks,
        active,
        ever,
        modes,
        slots,
        waiting: room.ledger.counts.waiting,
        work: room.ledger.counts.work,
        store: value_store::store_of(&room.values, &room.buckets, room.ledger.held),
    }
}

// ---- a fresh manager

// What the table check answers, and over an accepted table the fresh manager, else a blank one.
// Stays: `fresh` promises the blank manager of a refused image too (`manager_value`), which a `Result` would not hold.
#[derive(Clone, Copy)]
pub struct Fresh {
    pub checked: Result<(), ImageRefusal>,
    pub manager: Manager,
}

// ---- what every call begins and ends with

// The answer, and the manager after the call.
#[derive(Clone, Copy)]
pub struct Answered {
    pub answer: Result<Answer, Refusal>,
    pub manager: Manager,
}

// A ready event: its tag, flags and reactions, and the keys of its actions in order of taking, zeros behind them.
#[derive(Clone, Copy)]
pub struct Ready {
    pub tag: GlobalTag,
    pub terminal: bool,
    pub work: bool,
    pub network: bool,
    pub held: bool,
    pub reactions: KeySet,
    pub actions: [u16; ROOM_FOR_EVENTS],
    pub count: usize,
}

// The ready event that a pop found, or none, or the refusal.
#[derive(Clone, Copy)]
pub struct Popped {
    pub ready: Result<Option<Ready>, Refusal>,
    pub manager: Manager,
}

fn ready_of(tag: GlobalTag, g: Gathered, mut actions: [u16; ROOM_FOR_EVENTS]) -> Ready
    requires { g.actions ≤ room_for_events }
    ensures { (shown_of result ≡ shown_ready (ready_from tag g actions)) × (ready_in (shown_of result) ≡ ready_from tag g actions) }
{
    only_first(&mut actions, g.actions);
    Ready {
        tag,
        terminal: g.terminal,
        work: g.work,
        network: g.network,
        held: g.held,
        reactions: g.reactions,
        actions,
        count: g.actions,
    }
}

// ---- one call

// A call on the values that only asks.
fn only_reads(call: value_store::Call) -> bool
    ensures { result ≡ asks (value_call (store_call call)) }
{
    matches!(call, value_store::Call::NextMicrostep(_, _, _))
}

// A call that only asks.
fn only_asks(call: Call) -> bool
    ensures { (ks : List ℕ) → result ≡ asks (call_of call ks) }
{
    match call {
        Call::Push(_) | Call::Transition(_) | Call::Pop => false,
        Call::Ask(_) => true,
        Call::Value(c) => only_reads(c),
    }
}

// The manager as it was handed in where a call only asks or is refused, else the one of the rows after it.
fn left_by(m: Manager, room: &Room, call: Call, p: Performed) -> Manager
    ensures { (ks keys : List ℕ) → arrays_of result ≡
        cond (asks (call_of call ks) || is_refusal (reply_of p keys)) (arrays_of m) (arrays_in (rows_of room.now)) }
{
    if only_asks(call) || p.tag.is_none() && p.answer.is_err() {
        m
    } else {
        pack(room)
    }
}

// What a call answers, a ready event's action keys in an array, and the manager after it.
#[derive(Clone, Copy)]
struct Called {
    performed: Performed,
    actions: [u16; ROOM_FOR_EVENTS],
    manager: Manager,
}

// To rows, 11, the call there, and back.
fn step_on(m: Manager, image: &[u8], call: Call, keys: &[u16]) -> Called
    ensures result_value { called_of result ≡ step_on image.now (arrays_of m) (call_of call keys.now) }
    ensures actions_le_room_for_events { (result.performed.gathered.actions ≤ room_for_events) × TellsOrEleven call result.performed }
{
    // Made where it lies: a room that a function hands back is copied on the way.
    let mut room = Room {
        scopes: state_scopes::blank_rows(),
        events: state_events::blank_rows(),
        values: [0; store_words::ROOM_FOR_ENTRIES * store_words::VALUE_WORDS],
        buckets: [0; store_words::ROOM_FOR_ENTRIES * store_words::BUCKET_WORDS],
        ledger: state_room::bare_ledger([0; MOST_REACTORS]),
    };
    unpack(image, &mut room, &m);
    let mut actions = [0u16; ROOM_FOR_EVENTS];
    let sound = state_rules::keeps_rules(image, &room);
    if !sound {
        return Called {
            performed: call_perform::told(Err(Refusal::StateRule)),
            actions,
            manager: m,
        };
    }
    let mut heads = state_queues::heads(&room.events, room.ledger.counts.waiting);
    let mut spare = [0u64; state_room::SPARE];
    let performed = call_perform::perform(
        image,
        &mut room,
        &mut heads,
        &mut actions,
        &mut spare,
        call,
        keys,
    );
    let manager = left_by(m, &room, call, performed);
    Called {
        performed,
        actions,
        manager,
    }
}

// A call that is no pop.
fn answer_to(m: Manager, image: &[u8], call: Call, keys: &[u16]) -> Answered
    requires { is_pop call ≡ false }
    ensures { answered_of result ≡ step_on image.now (arrays_of m) (call_of call keys.now) }
{
    let c = step_on(m, image, call, keys);
    Answered {
        answer: c.performed.answer,
        manager: c.manager,
    }
}

// One with no reaction keys.
fn ask_of(m: Manager, image: &[u8], call: Call) -> Answered
    requires { is_pop call ≡ false }
    ensures { answered_of result ≡ step_on image.now (arrays_of m) (call_of call []) }
{
    answer_to(m, image, call, &[])
}

// A number as a yes or no.
fn some_work(answer: Result<Answer, Refusal>) -> Result<Answer, Refusal>
    ensures { answer_reply result ≡ work_reply (answer_reply answer) }
{
    Ok(match answer? {
        Answer::Number(n) => Answer::Flag(0 < n),
        other => other,
    })
}

// What a pop answers: the ready event, "nothing", or 11.
fn popped_of(c: Called) -> Popped
    requires { (c.performed.gathered.actions ≤ room_for_events) × TellsOrEleven K.Pop c.performed }
    ensures { popped_of result ≡ popped (called_of c) }
{
    let p = c.performed;
    let ready = match (p.tag, p.answer) {
        (Some(tag), _) => Ok(Some(ready_of(tag, p.gathered, c.actions))),
        (None, Ok(_)) => Ok(None),
        (None, Err(n)) => Err(n),
    };
    Popped {
        ready,
        manager: c.manager,
    }
}

impl Manager {
    // The initial modes, and nothing waits or is held.
    pub fn fresh(image: &[u8]) -> Fresh
        ensures checked_value { result.checked ≡ check image.now }
        ensures manager_value { arrays_of result.manager ≡ fresh_over image.now }
    {
        let checked = table::check(image);
        let manager = match checked {
            Ok(()) => pack(&state_fresh::room(image)),
            Err(_) => pack(&state_fresh::bare([0; MOST_REACTORS], state_scopes::blank_rows())),
        };
        Fresh { checked, manager }
    }

    // ---- pushes

    // A plain event, to the root at its tag.
    pub fn push_event(self, image: &[u8], tag: GlobalTag, terminal: bool, keys: &[u16]) -> Answered
        ensures { answered_of result ≡ step_on image.now (arrays_of self) (plain (of_global tag) terminal keys.now) }
    {
        answer_to(self, image, Call::Push(Push::Plain(tag, terminal)), keys)
    }

    // An event from the network, to the root at its tag.
    pub fn push_network_event(self, image: &[u8], tag: GlobalTag, keys: &[u16]) -> Answered
        ensures { answered_of result ≡ step_on image.now (arrays_of self) (network (of_global tag) keys.now) }
    {
        answer_to(self, image, Call::Push(Push::Network(tag)), keys)
    }

    // A control event, to the root at its tag.
    pub fn push_control_event(self, image: &[u8], tag: GlobalTag) -> Answered
        ensures { answered_of result ≡ step_on image.now (arrays_of self) (control (of_global tag)) }
    {
        ask_of(self, image, Call::Push(Push::Control(tag)))
    }

    // An action's event, to the root or to its scope at the local tag.
    pub fn push_action_event(self, image: &[u8], push: ActionPush, keys: &[u16]) -> Answered
        ensures { answered_of result ≡ step_on image.now (arrays_of self) (action push.action (of_global push.tag) push.terminal keys.now) }
    {
        answer_to(self, image, Call::Push(Push::Action(push)), keys)
    }

    // ---- transitions

    // A reactor goes to one of its modes, by a reset or by history.
    pub fn apply_transition(self, image: &[u8], request: Request) -> Answered
        ensures { answered_of result ≡ step_on image.now (arrays_of self) (transit request.reactor request.mode request.reset (of_global request.c)) }
    {
        ask_of(self, image, Call::Transition(request))
    }

    // ---- questions

    // The least head's tag over root and active scopes.
    pub fn peek_tag(self, image: &[u8]) -> Answered
        ensures { answered_of result ≡ step_on image.now (arrays_of self) peek_tag }
    {
        ask_of(self, image, Call::Ask(Question::PeekTag))
    }

    // Only control events of the root are at the peek tag.
    pub fn peek_is_control_only(self, image: &[u8]) -> Answered
        ensures { answered_of result ≡ step_on image.now (arrays_of self) only_control }
    {
        ask_of(self, image, Call::Ask(Question::ControlOnly))
    }

    // How many ordinary events wait, those of suspended scopes too.
    pub fn nonterminal_work(self, image: &[u8]) -> Answered
        ensures { answered_of result ≡ step_on image.now (arrays_of self) ordinary_work }
    {
        ask_of(self, image, Call::Ask(Question::OrdinaryWork))
    }

    // Some ordinary event waits.
    pub fn has_nonterminal_work(self, image: &[u8]) -> Answered
        ensures { answered_of result ≡ some_work (step_on image.now (arrays_of self) ordinary_work) }
    {
        let r = ask_of(self, image, Call::Ask(Question::OrdinaryWork));
        Answered {
            answer: some_work(r.answer),
            manager: r.manager,
        }
    }

    // The scope is active now.
    pub fn scope_active(self, image: &[u8], scope: u16) -> Answered
        ensures { answered_of result ≡ step_on image.now (arrays_of self) (active_now scope) }
    {
        ask_of(self, image, Call::Ask(Question::Active(scope)))
    }

    // The scope was active at some time.
    pub fn scope_ever_active(self, image: &[u8], scope: u16) -> Answered
        ensures { answered_of result ≡ step_on image.now (arrays_of self) (ever_active scope) }
    {
        ask_of(self, image, Call::Ask(Question::EverActive(scope)))
    }

    // ---- values

    // Pushing again overwrites; the bucket rises to the largest pushed plus one, held at the limit.
    pub fn push_value(self, image: &[u8], action: u16, tag: GlobalTag, value: u64) -> Answered
        ensures { answered_of result ≡ step_on image.now (arrays_of self) (push_value action (of_global tag) value) }
    {
        ask_of(
            self,
            image,
            Call::Value(value_store::Call::Push(action, tag, value)),
        )
    }

    // The larger of the bucket's next microstep and the least, or the least if no bucket; "nothing" at the limit.
    pub fn next_value_microstep(
        self,
        image: &[u8],
        action: u16,
        offset: u64,
        least: u32,
    ) -> Answered
        ensures { answered_of result ≡ step_on image.now (arrays_of self) (next_step action offset least) }
    {
        ask_of(
            self,
            image,
            Call::Value(value_store::Call::NextMicrostep(action, offset, least)),
        )
    }

    // "Nothing" for a value not held; the bucket stays.
    pub fn take_value(self, image: &[u8], action: u16, tag: GlobalTag) -> Answered
        ensures { answered_of result ≡ step_on image.now (arrays_of self) (take_value action (of_global tag)) }
    {
        ask_of(
            self,
            image,
            Call::Value(value_store::Call::Take(action, tag)),
        )
    }

    // The action's values before the tag, and the buckets that have none left.
    pub fn clear_values_older_than(self, image: &[u8], action: u16, tag: GlobalTag) -> Answered
        ensures { answered_of result ≡ step_on image.now (arrays_of self) (clear_before action (of_global tag)) }
    {
        ask_of(
            self,
            image,
            Call::Value(value_store::Call::ClearOlderThan(action, tag)),
        )
    }

    // A take and then a push; nothing for equal tags or a value not held.
    pub fn move_value(self, image: &[u8], action: u16, old: GlobalTag, new: GlobalTag) -> Answered
        ensures { answered_of result ≡ step_on image.now (arrays_of self) (move_value action (of_global old) (of_global new)) }
    {
        ask_of(
            self,
            image,
            Call::Value(value_store::Call::MoveValue(action, old, new)),
        )
    }

    // All that the action has.
    pub fn clear_values(self, image: &[u8], action: u16) -> Answered
        ensures { answered_of result ≡ step_on image.now (arrays_of self) (clear_action action) }
    {
        ask_of(self, image, Call::Value(value_store::Call::Clear(action)))
    }

    // ---- pop

    // The events at the peek tag: the root's, then the scopes'.
    pub fn pop_next_event(self, image: &[u8]) -> Popped
        ensures { popped_of result ≡ popped (step_on image.now (arrays_of self) pop) }
    {
        popped_of(step_on(self, image, Call::Pop, &[]))
    }
}
