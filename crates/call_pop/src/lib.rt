// Pop and peek over the events and scopes in lent rows: document 01, "Pop at peek tag t", "Peek", "Control only"; the contracts cite the machine.
// Callers lend every queue's least tag; `pop_next_event` keeps it.
#![tactic(auto)]

ghost use Rattle.std.specs.Prelude.{◌≡◌, ◌&&◌, ◌+◌, ◌≤◌, length, take};
ghost use Rattle.lists.specs.Lists.{every};
ghost use Rattle.tags.specs.Views.{of_global, of_queue};
ghost use Rattle.machine.specs.State.{State};
ghost use Rattle.state_events.specs.Slots.{room_for_events};
ghost use Rattle.machine.specs.Heads.{sooner, is_at, scope_head, controlled, taken, take_at_of, take_scopes, held_at};
ghost use Rattle.machine.specs.Machine.{peek_at, perform, pop, peek_tag, only_control, flag};
ghost use Rattle.state_events.specs.Slots.{events_of, event_of};
ghost use Rattle.state_scopes.specs.Scopes.{scopes_of};
ghost use Rattle.state_queues.specs.Queue.{heads_of, Held};
ghost use Rattle.state_heads.specs.Found.{head_of};
ghost use Rattle.state_room.specs.PartRows.{waiting_in, Headed, Queued, Waits, Shows};
ghost use Rattle.call_pop.specs.Pops.{reply_of, lent, Takes, Pops};

use call_pop_ready::Gathered;
use state_events::Slot;
use state_heads::HeadAt;
use state_queues::Which;
use state_room::Counts;
use tags::GlobalTag;

// The tag of the least head, if there is one, what was gathered there (the action keys stand in the lent array), and what still waits.
#[derive(Clone, Copy)]
pub struct Popped {
    pub tag: Option<GlobalTag>,
    pub gathered: Gathered,
    pub counts: Counts,
}

// What was gathered so far, and what still waits.
#[derive(Clone, Copy)]
struct Taking {
    gathered: Gathered,
    counts: Counts,
}

// What the scopes are taken by: the tag, the least of their heads, and how many turns there are at most.
#[derive(Clone, Copy)]
struct Turn {
    tag: GlobalTag,
    local: Option<HeadAt>,
    turns: usize,
}

// ---- heads

fn is_at(h: Option<HeadAt>, t: GlobalTag) -> bool
    ensures { result ≡ is_at (of_global t) (head_of h) }
{
    match h {
        Some(x) => x.tag == t,
        None => false,
    }
}

// The tag of the earlier of two heads.
fn peek_of(root: Option<HeadAt>, local: Option<HeadAt>) -> Option<GlobalTag>
    ensures { reply_of result ≡ peek_at (sooner (head_of root) (head_of local)) }
{
    match (root, local) {
        (Some(x), Some(y)) => Some(if y.tag < x.tag { y.tag } else { x.tag }),
        (Some(x), None) => Some(x.tag),
        (None, Some(y)) => Some(y.tag),
        (None, None) => None,
    }
}

// ---- taking

// All events at a head.
fn take_at(
    scopes: &[u64; state_scopes::ROOM],
    events: &mut [u64; state_events::ROOM],
    keys: &mut [u16; state_events::ROOM_FOR_EVENTS],
    heads: &mut [u64; state_queues::HEADS],
    given: Taking,
    h: HeadAt,
) -> Taking
    requires waits { Waits events.old given.counts }
    requires keys_len { (length keys.old ≡ room_for_events) × (given.gathered.actions + given.counts.waiting ≤ room_for_events) }
    requires headed { Headed heads.old events.old given.counts }
    ensures takes { Takes (scopes_of scopes.now) (taken h.queue (of_queue h.stamp) (lent events.old given.counts)) given result keys.old events.new keys.new }
    ensures headed_2 { Headed heads.new events.new result.counts }
{
    let counts = given.counts;
    let which = Which::At(h.queue, h.stamp);
    let gone = call_pop_ready::take_out(
        events,
        counts.waiting,
        which,
        h.queue,
        keys,
        given.gathered,
    );
    state_queues::renew(heads, h.queue, gone.lowest);
    let held = gone.count < counts.waiting && state_heads::is_held(scopes, h);
    Taking {
        gathered: gone.gathered.hold(held),
        counts: Counts {
            waiting: gone.count,
            work: counts.work - gone.ordinary,
        },
    }
}

// All events at a head, if the head is t.
fn take_head(
    scopes: &[u64; state_scopes::ROOM],
    events: &mut [u64; state_events::ROOM],
    keys: &mut [u16; state_events::ROOM_FOR_EVENTS],
    heads: &mut [u64; state_queues::HEADS],
    given: Taking,
    h: Option<HeadAt>,
    t: GlobalTag,
) -> Taking
    requires waits { Waits events.old given.counts }
    requires keys_len { (length keys.old ≡ room_for_events) × (given.gathered.actions + given.counts.waiting ≤ room_for_events) }
    requires headed { Headed heads.old events.old given.counts }
    ensures takes { Takes (scopes_of scopes.now) (take_at_of (of_global t) (lent events.old given.counts) (head_of h)) given result keys.old events.new keys.new }
    ensures headed_2 { Headed heads.new events.new result.counts }
{
    match h {
        Some(x) if x.tag == t => take_at(scopes, events, keys, heads, given, x),
        _ => given,
    }
}

// While the least scope head is the tag, all events at that head.
fn take_scopes(
    image: &[u8],
    scopes: &[u64; state_scopes::ROOM],
    events: &mut [u64; state_events::ROOM],
    keys: &mut [u16; state_events::ROOM_FOR_EVENTS],
    heads: &mut [u64; state_queues::HEADS],
    given: Taking,
    turn: Turn,
) -> Taking
    requires waits { Waits events.old given.counts }
    requires keys_len { (length keys.old ≡ room_for_events) × (given.gathered.actions + given.counts.waiting ≤ room_for_events) }
    requires headed { Headed heads.old events.old given.counts }
    requires local_value { head_of turn.local ≡ scope_head image.now (scopes_of scopes.now) (waiting_in events.old given.counts) }
    ensures takes { Takes (scopes_of scopes.now) (take_scopes turn.turns image.now (scopes_of scopes.now) (of_global turn.tag) (lent events.old given.counts)) given result keys.old events.new keys.new }
    ensures headed_2 { Headed heads.new events.new result.counts }
{
    let n = table_rows::count(image, table_rows::SCOPE);
    let mut local = turn.local;
    let mut out = given;
    for _i in 0..turn.turns {
        if !is_at(local, turn.tag) {
            return out;
        }
        out = take_head(scopes, events, keys, heads, out, local, turn.tag);
        local = state_heads::scope_head(heads, scopes, n);
    }
    out
}

// The events at the least head's tag: the root's, then the scopes'. Every queue's least tag is lent, and kept.
pub fn pop_next_event(
    image: &[u8],
    scopes: &[u64; state_scopes::ROOM],
    events: &mut [u64; state_events::ROOM],
    counts: Counts,
    keys: &mut [u16; state_events::ROOM_FOR_EVENTS],
    heads: &mut [u64; state_queues::HEADS],
) -> Popped
    requires waits { Waits events.old counts }
    requires keys_len { length keys.old ≡ room_for_events }
    requires headed { Headed heads.old events.old counts }
    ensures pops { (s : State) → Queued s.waiting s.work events.old counts → Shows s scopes.now → Pops (perform image.now s pop) result keys.old events.new keys.new }
    ensures headed_2 { Headed heads.new events.new result.counts }
{
    let n = table_rows::count(image, table_rows::SCOPE);
    let root = state_heads::root_head(heads);
    let local = state_heads::scope_head(heads, scopes, n);
    let start = Taking {
        gathered: Gathered::nothing_yet(),
        counts,
    };
    let Some(tag) = peek_of(root, local) else {
        return Popped {
            tag: None,
            gathered: start.gathered,
            counts,
        };
    };
    let first = take_head(scopes, events, keys, heads, start, root, tag);
    let turn = Turn {
        tag,
        local,
        turns: counts.waiting,
    };
    let all = take_scopes(image, scopes, events, keys, heads, first, turn);
    Popped {
        tag: Some(tag),
        gathered: all.gathered,
        counts: all.counts,
    }
}

// ---- peeking

pub fn peek_tag(
    image: &[u8],
    scopes: &[u64; state_scopes::ROOM],
    heads: &[u64; state_queues::HEADS],
) -> Option<GlobalTag>
    ensures { (s : State) → Held heads.now (heads_of s.waiting) → Shows s scopes.now → reply_of result ≡ (perform image.now s peek_tag).reply }
{
    let n = table_rows::count(image, table_rows::SCOPE);
    let root = state_heads::root_head(heads);
    let local = state_heads::scope_head(heads, scopes, n);
    peek_of(root, local)
}

// An event that is the root's at the tag is a control event.
fn is_controlled(s: Slot, t: GlobalTag) -> bool
    ensures { result ≡ controlled (of_global t) (event_of s) }
{
    s.queue != state_events::NONE || s.tag.as_global() != t || s.control
}

fn all_controlled(events: &[u64; state_events::ROOM], waiting: usize, t: GlobalTag) -> bool
    requires { waiting ≤ room_for_events }
    ensures { result ≡ every (controlled (of_global t)) (take waiting (events_of events.now)) }
{
    (0..waiting).all(|i| is_controlled(state_events::slot_at(events, i), t))
}

pub fn peek_is_control_only(
    image: &[u8],
    scopes: &[u64; state_scopes::ROOM],
    events: &[u64; state_events::ROOM],
    counts: Counts,
    heads: &[u64; state_queues::HEADS],
) -> bool
    requires waiting_le_room_for_events { counts.waiting ≤ room_for_events }
    requires headed { Headed heads.now events.now counts }
    ensures { (s : State) → Queued s.waiting s.work events.now counts → Shows s scopes.now → flag result ≡ (perform image.now s only_control).reply }
{
    let n = table_rows::count(image, table_rows::SCOPE);
    let root = state_heads::root_head(heads);
    let local = state_heads::scope_head(heads, scopes, n);
    match peek_of(root, local) {
        Some(t) => is_at(root, t) && !is_at(local, t) && all_controlled(events, counts.waiting, t),
        None => false,
    }
}
