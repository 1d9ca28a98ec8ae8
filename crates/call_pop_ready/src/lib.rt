// What a pop gathers from the events that it takes: document 01, "union of reactions, terminal, some ordinary work, network by "or", and each action key
// once, in order of taking". Whether they were held back (02, C-20) is known of all that are taken out at once, and said by `hold`. A new part of a ready event comes in here: in `Gathered`, in `add`, and in `Gathering` of specs/.
#![tactic(auto)]

ghost use Rattle.std.specs.Prelude.{◌≡◌, ◌||◌, ◌+◌, ◌≤◌, ◌<◌, length, take, eqb};
ghost use Rattle.lists.specs.Lists.{any, lose, over};
ghost use Rattle.lists.specs.Lay.{lay};
ghost use Rattle.machine.specs.State.{ordinary};
ghost use Rattle.state_events.specs.Slots.{room_for_events};
ghost use Rattle.state_events.specs.Slots.{events_of, event_of, blank, Whole, Held};
ghost use Rattle.state_queues.specs.Queue.{goes_of};
ghost use Rattle.call_pop_ready.specs.Gathering.{none_yet, held_too, added_to, gathering_of, count_after, keys_after, Grown, Sifted};

use key_set::KeySet;
use state_events::Slot;
use state_queues::Which;
use tags::QueueTag;

// The action keys taken so far stand beside it, in a lent array.
#[derive(Clone, Copy)]
pub struct Gathered {
    pub terminal: bool,
    pub work: bool,
    pub network: bool,
    pub held: bool,
    pub reactions: KeySet,
    pub actions: usize,
}

impl Gathered {
    pub fn nothing_yet() -> Self
        ensures { result ≡ none_yet }
    {
        Self {
            terminal: false,
            work: false,
            network: false,
            held: false,
            reactions: KeySet::empty(),
            actions: 0,
        }
    }

    // Also held back, if that is so.
    pub fn hold(self, held: bool) -> Self
        ensures { result ≡ held_too held self }
    {
        Self {
            held: self.held || held,
            ..self
        }
    }
}

// An action's key comes last, if it is one and is not there yet; how many there are then.
fn add_key(keys: &mut [u16; state_events::ROOM_FOR_EVENTS], n: usize, a: u16) -> usize
    requires { (length keys.old ≡ room_for_events) × (n < room_for_events) }
    ensures value { result ≡ count_after keys.old n a }
    ensures keys_after { keys.new ≡ keys_after keys.old n a }
{
    if a == state_events::NONE || keys[..n].contains(&a) {
        return n;
    }
    keys[n] = a;
    n + 1
}

// One event more.
fn add(keys: &mut [u16; state_events::ROOM_FOR_EVENTS], g: Gathered, s: Slot) -> Gathered
    requires { (length keys.old ≡ room_for_events) × (g.actions < room_for_events) }
    ensures keys_after { gathering_of result keys.new ≡ added_to (gathering_of g keys.old) (event_of s) }
    ensures actions_bound { (result.actions ≤ g.actions + 1) × Grown g.actions result.actions keys.old keys.new }
{
    let actions = add_key(keys, g.actions, s.action);
    Gathered {
        terminal: g.terminal || s.terminal,
        work: g.work || s.is_ordinary(),
        network: g.network || s.network,
        held: g.held,
        reactions: g.reactions.union(s.reactions),
        actions,
    }
}

// What was gathered, how many events are left, how many ordinary ones went, and the least tag that a queue has left, if it has one.
#[derive(Clone, Copy)]
pub struct Taken {
    pub gathered: Gathered,
    pub count: usize,
    pub ordinary: usize,
    pub lowest: Option<QueueTag>,
}

// The events that go are gathered, in order of acceptance; those that stay, over the front.
fn sift(
    rows: &mut [u64; state_events::ROOM],
    n: usize,
    which: Which,
    queue: u16,
    keys: &mut [u16; state_events::ROOM_FOR_EVENTS],
    g: Gathered,
) -> Taken
    requires whole { Whole rows.old × (n ≤ room_for_events) }
    requires keys_len { (length keys.old ≡ room_for_events) × (g.actions + n ≤ room_for_events) }
    ensures sifted { Sifted queue (goes_of which) (take n (events_of rows.old)) g keys.old result keys.new }
    ensures held { Held rows.new (over (lose (goes_of which) (take n (events_of rows.old))) (events_of rows.old)) }
{
    let mut out = g;
    let mut w = 0;
    let mut ordinary = 0;
    let mut lowest = None;
    for i in 0..n {
        let d = state_events::due_at(rows, i);
        if which.goes(d) {
            let s = state_events::slot_at(rows, i);
            out = add(keys, out, s);
            ordinary += usize::from(s.is_ordinary());
        } else {
            state_queues::stay(rows, i, w);
            w += 1;
            if state_queues::is_lower(queue, lowest, d) {
                lowest = Some(d.tag);
            }
        }
    }
    Taken {
        gathered: out,
        count: w,
        ordinary,
        lowest,
    }
}

// The events that go are taken out and gathered; the slots that they free are blank.
pub fn take_out(
    rows: &mut [u64; state_events::ROOM],
    n: usize,
    which: Which,
    queue: u16,
    keys: &mut [u16; state_events::ROOM_FOR_EVENTS],
    g: Gathered,
) -> Taken
    requires whole { Whole rows.old × (n ≤ room_for_events) }
    requires keys_len { (length keys.old ≡ room_for_events) × (g.actions + n ≤ room_for_events) }
    ensures sifted { Sifted queue (goes_of which) (take n (events_of rows.old)) g keys.old result keys.new }
    ensures held { Held rows.new (lay blank (events_of rows.old) (lose (goes_of which) (take n (events_of rows.old))) n) }
{
    let r = sift(rows, n, which, queue, keys, g);
    state_queues::clear(rows, r.count, n);
    r
}
