// What a reset clears, on the room's rows: document 01, "drop all local events and set L and S to zero; clear the values and buckets".
// The modes are the plan's. What else a reset clears comes in here, in `reset`, and in the machine's `step1`.
#![tactic(auto)]

ghost use Rattle.std.specs.Prelude.{◌≡◌, Bool, true, ◌≤◌, map, length, get_or, set, take};
ghost use Rattle.lists.specs.Lists.{lose};
ghost use Rattle.lists.specs.Lay.{lay};
ghost use Rattle.table_rows.specs.Limits.{limits};
ghost use Rattle.table.specs.Check.{is_table};
ghost use Rattle.store_words.specs.Entries.{room_for_entries};
ghost use Rattle.store.specs.Layout.{things_in, WholeIn, HeldIn};
ghost use Rattle.store_calls.specs.Lent.{store_of};
ghost use Rattle.machine.specs.Table.{scopes as scopes_in};
ghost use Rattle.machine.specs.State.{State};
ghost use Rattle.state_scopes.specs.Scopes.{scope_of, scopes_of, blank};
ghost use Rattle.state_scopes.specs.Scopes as scope;
ghost use Rattle.state_room.specs.PartRows.{Waits, Scoped};
ghost use Rattle.call_transition_plan.specs.Plans.{Inner};
ghost use Rattle.state_room.specs.Holds.{rows_of, Held};
ghost use Rattle.state_room.specs.Parts.{Keeps, queue_in};
ghost use Rattle.call_transition_resets.specs.Resetting.{dropped_in, zeroed_scope, scope_after, clears, cleared_all, zeroed_scopes, Resets};

use call_transition_plan::Plan;
use key_set::KeySet;
use state_queues::Which;
use state_room::Room;
use state_scopes::Scope;
use store::Entry;
use store_words::{Bucket, BucketRows, Value, ValueRows};
use tags::{LocalTag, ScopeClock};

// ---- events

// The events of the scopes of the set go.
fn drop_events(
    events: &mut [u64; state_events::ROOM],
    counts: state_room::Counts,
    inside: KeySet,
) -> state_room::Counts
    requires { Waits events.old counts }
    ensures waits { Waits events.new result }
    ensures counts_value { (t : State) → dropped_in inside.words (queue_in t events.old counts) ≡ queue_in t events.new result }
{
    let gone = state_queues::remove(events, counts.waiting, Which::Inside(inside));
    state_room::Counts {
        waiting: gone.count,
        work: counts.work - gone.ordinary,
    }
}

// ---- clocks

// L and S zero.
fn zeroed(s: Scope) -> Scope
    ensures { scope_of result ≡ zeroed_scope (scope_of s) }
{
    let clock = ScopeClock {
        activation_local: LocalTag::ZERO,
        suspended_local: LocalTag::ZERO,
        ..s.clock
    };
    Scope { clock, ..s }
}

// The same in row i, where i is in the set.
fn zero_if(scopes: &mut [u64; state_scopes::ROOM], inside: KeySet, i: u16)
    requires { scope.Whole scopes.old }
    ensures { scope.Held scopes.new (set (scopes_of scopes.old) i (scope_after inside.words i (get_or (scopes_of scopes.old) i blank))) }
{
    let k = i as usize;
    if inside.contains(k) {
        let s = state_scopes::scope_at(scopes, k);
        state_scopes::put_scope(scopes, k, zeroed(s));
    }
}

// The clocks of the table's scopes that are in the set.
fn zero_clocks(image: &[u8], scopes: &mut [u64; state_scopes::ROOM], inside: KeySet)
    requires image_value { is_table image.now ≡ true }
    requires scoped { Scoped (take (scopes_in image.now) (scopes_of scopes.old)) scopes.old }
    ensures { Scoped (zeroed_scopes inside.words (take (scopes_in image.now) (scopes_of scopes.old))) scopes.new }
{
    for i in 0..table_rows::count(image, table_rows::SCOPE) {
        zero_if(scopes, inside, i);
    }
}

// ---- values and buckets

// A logical action of the table whose scope is in the set.
fn is_cleared(image: &[u8], inside: KeySet, a: u16) -> bool
    ensures { result ≡ clears image.now inside.words a }
{
    a < table_rows::count(image, table_rows::ACTION)
        && inside.contains(table_rows::action_scope(image, a) as usize)
        && table_rows::is_logical(image, a)
}

// The entries that go are lost, and the rows they free are blank; how many stay.
fn lose<E: Entry, F: Fn(E) -> bool>(rows: &mut E::Rows, n: usize, goes: F) -> usize
    requires whole { WholeIn E.layout (E.words rows.old) }
    requires n_le_room_for_entries { n ≤ room_for_entries }
    requires goes_callable { F.IsAlwaysCallable goes }
    ensures { (test : E.Thing → Bool) → ((e : E) (b : Bool) → F.post goes e b → b ≡ test (E.of e)) →
        (result ≡ length (lose test (take n (things_in E.layout (E.words rows.old)))))
        × HeldIn E.layout (E.words rows.new) (lay E.layout.blank (things_in E.layout (E.words rows.old)) (lose test (take n (things_in E.layout (E.words rows.old)))) n) }
{
    let mut w = 0;
    for i in 0..n {
        let e = E::at(rows, i);
        if !goes(e) {
            e.put(rows, w);
            w += 1;
        }
    }
    store::blank::<E>(rows, w, n);
    w
}

// All that the actions of the set's scopes have, in one pass over the values and one over the buckets.
fn clear_actions(
    image: &[u8],
    values: &mut ValueRows,
    buckets: &mut BucketRows,
    inside: KeySet,
    held: store_calls::Counts,
) -> store_calls::Counts
    requires { Keeps (limits image.now).held values.old buckets.old held }
    ensures keeps { Keeps (limits image.now).held values.new buckets.new result }
    ensures result_value { store_of values.new buckets.new result ≡ cleared_all image.now inside.words (store_of values.old buckets.old held) }
{
    let left = lose(
        values,
        held.values,
        |v: Value| is_cleared(image, inside, v.action),
    );
    let open = lose(
        buckets,
        held.buckets,
        |b: Bucket| is_cleared(image, inside, b.action),
    );
    store_calls::Counts {
        values: left,
        buckets: open,
    }
}

// ---- the step

pub fn reset(image: &[u8], room: &mut Room, plan: Plan)
    requires inner { Inner image.now plan }
    requires held { Held image.now (rows_of room.old) }
    ensures { Resets image.now plan (rows_of room.old) (rows_of room.new) }
{
    let inside = plan.inside;
    if !inside.is_empty() {
        let counts = room.ledger.counts;
        room.ledger.counts = drop_events(&mut room.events, counts, inside);
        zero_clocks(image, &mut room.scopes, inside);
        let held = room.ledger.held;
        room.ledger.held = clear_actions(image, &mut room.values, &mut room.buckets, inside, held);
    }
}
