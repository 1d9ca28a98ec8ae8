// Waiting events in lent rows: document 01, "Events lie in a root queue and one local queue per scope". The Rust's sched/queue.rs.
// An event joins the rows by `accept` (8) alone, and leaves them by `remove`, or by `take_out` of call_pop_ready. Each queue's least tag is worked out by `heads`
// and kept by `grow` and `renew`.
#![tactic(auto)]

ghost use Rattle.std.specs.Prelude.{◌≡◌, ◌+◌, ◌≤◌, ◌<◌, length, get_or, set, take};
ghost use Rattle.lists.specs.Lists.{lose, keep, count};
ghost use Rattle.lists.specs.Lists as lists;
ghost use Rattle.lists.specs.Lay.{lay};
ghost use Rattle.machine.specs.State.{Event, ordinary, at_head};
ghost use Rattle.machine.specs.Heads.{no_tag, least, lesser};
ghost use Rattle.tags.specs.Views.{of_queue};
ghost use Rattle.state_events.specs.Slots.{events_of, event_of, blank, IsDue, room_for_events};
ghost use Rattle.state_events.specs.Slots as slot;
ghost use Rattle.state_queues.specs.Queue.{accepted_at, accepted_in, of_earliest, lowers, is_lower, entry_of, leasts_of, Whole, Held, heads_of, goes_of};

use key_set::KeySet;
use refusals::Refusal;
use state_events::{Due, Slot};
use tags::QueueTag;

// One entry for each scope, and the root's last.
pub const QUEUES: usize = state_scopes::MOST_SCOPES + 1;

const LEAST_WORDS: usize = 3;

pub const HEADS: usize = QUEUES * LEAST_WORDS;

// ---- accepting

// One more event comes last, behind n, and so many wait now; 8 where as many wait as may, which is the limit.
pub fn accept(
    rows: &mut [u64; state_events::ROOM],
    n: usize,
    limit: usize,
    s: Slot,
) -> Result<usize, Refusal>
    requires { slot.Whole rows.old }
    ensures value { result ≡ accepted_at limit n }
    ensures held { slot.Held rows.new (accepted_in limit n (event_of s) (events_of rows.old)) }
{
    if limit <= n {
        return Err(Refusal::Waiting);
    }
    state_events::put_slot(rows, n, s);
    Ok(n + 1)
}

// ---- the least tag of each queue

// The entry of a queue.
// Stays: past the end for what is no queue, as `entry_of` of specs/ says, which the contracts of `renew` and `note` name.
fn entry_of(queue: u16) -> usize
    ensures { result ≡ entry_of queue }
{
    if queue == state_events::NONE {
        return state_scopes::MOST_SCOPES;
    }
    let scope = usize::from(queue);
    if scope < state_scopes::MOST_SCOPES {
        scope
    } else {
        QUEUES
    }
}

// A queue's least tag, or nothing.
pub fn least_at(heads: &[u64; HEADS], k: usize) -> Option<QueueTag>
    ensures { of_earliest result ≡ get_or (leasts_of heads.now) k no_tag }
{
    if QUEUES <= k {
        return None;
    }
    let b = k * LEAST_WORDS;
    if heads[b] == 1 {
        Some(QueueTag(heads[b + 1], (heads[b + 2] % 4294967296) as u32))
    } else {
        None
    }
}

// A queue's least tag, or nothing, written.
// Stays: word by word; a copied slice takes half as many instructions more for each event in `heads`.
fn put_least(heads: &mut [u64; HEADS], k: usize, least: Option<QueueTag>)
    requires { Whole heads.old }
    ensures { Held heads.new (set (leasts_of heads.old) k (of_earliest least)) }
{
    if QUEUES <= k {
        return;
    }
    let b = k * LEAST_WORDS;
    let (there, offset, microstep) = match least {
        Some(t) => (1, t.0, u64::from(t.1)),
        None => (0, 0, 0),
    };
    heads[b] = there;
    heads[b + 1] = offset;
    heads[b + 2] = microstep;
}

// A tag takes the place of the least so far, if there is one, unless that is earlier.
// Stays: branches, most taken at the offset; the derived order makes numbers of both tests, and a pop with many waiting takes half as long again.
fn lowers(t: QueueTag, least: Option<QueueTag>) -> bool
    ensures { result ≡ lowers (of_queue t) (of_earliest least) }
{
    let Some(u) = least else {
        return true;
    };
    if u.0 < t.0 {
        return false;
    }
    t.0 < u.0 || t.1 <= u.1
}

// One event more; where its queue has an earlier one nothing is written.
fn note(heads: &mut [u64; HEADS], d: Due)
    requires { Whole heads.old }
    ensures { Held heads.new (set (leasts_of heads.old) (entry_of d.queue) (lesser (of_queue d.tag) (get_or (leasts_of heads.old) (entry_of d.queue) no_tag))) }
{
    let k = entry_of(d.queue);
    if lowers(d.tag, least_at(heads, k)) {
        put_least(heads, k, Some(d.tag));
    }
}

// Every queue's least tag, in one pass.
pub fn heads(rows: &[u64; state_events::ROOM], n: usize) -> [u64; HEADS]
    requires { n ≤ room_for_events }
    ensures { Held result (heads_of (take n (events_of rows.now))) }
{
    let mut out = [0u64; HEADS];
    for i in (0..n).rev() {
        note(&mut out, state_events::due_at(rows, i));
    }
    out
}

// ---- the same, kept from call to call

// One event more may wait: the entry of its queue is rewritten.
pub fn grow(heads: &mut [u64; HEADS], rows: &[u64; state_events::ROOM], before: usize, after: usize)
    requires held { Held heads.old (heads_of (take before (events_of rows.now))) }
    requires before_le_after { (before ≤ after) × (after ≤ before + 1) × (after ≤ room_for_events) }
    ensures { Held heads.new (heads_of (take after (events_of rows.now))) }
{
    if after == before {
        return;
    }
    note(heads, state_events::due_at(rows, before));
}

// The entry of a queue whose least tag is another now, or which has none.
pub fn renew(heads: &mut [u64; HEADS], queue: u16, lowest: Option<QueueTag>)
    requires { Whole heads.old }
    ensures { Held heads.new (set (leasts_of heads.old) (entry_of queue) (of_earliest lowest)) }
{
    put_least(heads, entry_of(queue), lowest);
}

// An event of the queue takes the place of the lowest so far, if there is one, unless that is earlier.
pub fn is_lower(queue: u16, lowest: Option<QueueTag>, d: Due) -> bool
    ensures { (e : Event) → IsDue d e → result ≡ is_lower queue (of_earliest lowest) e }
{
    d.queue == queue && lowers(d.tag, lowest)
}

// ---- taking out

// Which events go: those of a queue at a tag, or all of some scopes.
#[derive(Clone, Copy)]
pub enum Which {
    At(u16, QueueTag),
    Inside(KeySet),
}

// How many events are left, and how many ordinary ones went.
#[derive(Clone, Copy)]
pub struct Removed {
    pub count: usize,
    pub ordinary: usize,
}

// Offsets differ more often than queues, and end the test by a branch of their own: three tests at once cost a pop with many waiting a third more.
fn is_at(d: Due, queue: u16, t: QueueTag) -> bool
    ensures { (e : Event) → IsDue d e → result ≡ at_head queue (of_queue t) e }
{
    if d.tag.0 != t.0 {
        return false;
    }
    d.queue == queue && d.tag.1 == t.1
}

impl Which {
    // An event goes if it is due so.
    pub fn goes(self, d: Due) -> bool
        ensures { (e : Event) → IsDue d e → result ≡ goes_of self e }
    {
        match self {
            Which::At(queue, t) => is_at(d, queue, t),
            Which::Inside(scopes) => scopes.contains(usize::from(d.queue)),
        }
    }
}

// The event of row `from` stays, in row `to`.
pub fn stay(rows: &mut [u64; state_events::ROOM], from: usize, to: usize)
    requires whole { slot.Whole rows.old }
    requires from_lt_room_for_events { (from < room_for_events) × (to ≤ from) }
    ensures { slot.Held rows.new (set (events_of rows.old) to (get_or (events_of rows.old) from blank)) }
{
    if to == from {
        return;
    }
    state_events::copy_slot(rows, from, to);
}

// Those that stay, over the front.
fn compact(rows: &mut [u64; state_events::ROOM], n: usize, which: Which) -> Removed
    requires whole { slot.Whole rows.old }
    requires n_le_room_for_events { n ≤ room_for_events }
    ensures count_value { result.count ≡ length (lose (goes_of which) (take n (events_of rows.old))) }
    ensures ordinary_value { result.ordinary ≡ count ordinary (keep (goes_of which) (take n (events_of rows.old))) }
    ensures held { slot.Held rows.new (lists.over (lose (goes_of which) (take n (events_of rows.old))) (events_of rows.old)) }
{
    let mut w = 0;
    let mut ordinary = 0;
    for i in 0..n {
        if which.goes(state_events::due_at(rows, i)) {
            ordinary += usize::from(state_events::slot_at(rows, i).is_ordinary());
        } else {
            stay(rows, i, w);
            w += 1;
        }
    }
    Removed { count: w, ordinary }
}

// The rows from w to n blank.
pub fn clear(rows: &mut [u64; state_events::ROOM], w: usize, n: usize)
    requires whole { slot.Whole rows.old }
    requires w_le_n { (w ≤ n) × (n ≤ room_for_events) }
    ensures { slot.Held rows.new (lay blank (events_of rows.old) (take w (events_of rows.old)) n) }
{
    for i in w..n {
        state_events::put_slot(rows, i, Slot::blank());
    }
}

// The events that go are taken out; the slots that they free are blank.
pub fn remove(rows: &mut [u64; state_events::ROOM], n: usize, which: Which) -> Removed
    requires whole { slot.Whole rows.old }
    requires n_le_room_for_events { n ≤ room_for_events }
    ensures count_value { result.count ≡ length (lose (goes_of which) (take n (events_of rows.old))) }
    ensures ordinary_value { result.ordinary ≡ count ordinary (keep (goes_of which) (take n (events_of rows.old))) }
    ensures held { slot.Held rows.new (lay blank (events_of rows.old) (lose (goes_of which) (take n (events_of rows.old))) n) }
{
    let r = compact(rows, n, which);
    clear(rows, r.count, n);
    r
}
