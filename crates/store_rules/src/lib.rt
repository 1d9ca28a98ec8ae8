// The state rules of the value store on lent rows: document 01, "values are unique by action and tag; buckets by action and offset".
// Equal keys have equal slots, so a value whose slot no other has marked is under no other's key: few rows are compared with all others.
// A new rule on values comes in here and in `store_rules` of store; callers ask `keeps_rules` alone.
#![tactic(auto)]

ghost use Rattle.std.specs.Prelude.{◌≡◌, ℕ, true, not, ◌≤◌, ◌<◌, take};
ghost use Rattle.lists.specs.Lists.{any, every, distinct};
ghost use Rattle.store_words.specs.Entries.{room_for_entries, of_value, of_bucket};
ghost use Rattle.store_words.specs.Words.{values_of, buckets_of};
ghost use Rattle.store.specs.Store.{has_bucket};
ghost use Rattle.store.specs.Layout.{things_in};
ghost use Rattle.store_calls.specs.Lent.{store_of};
ghost use Rattle.store_rules.specs.Rules.{slots, slot_of, counted_rules};
ghost use Rattle.store_rules.specs.Slots.{Slots, slot_of_value, slot_of_bucket, value_slots, bucket_slots};

use store::{BucketTest, Entry, ValueTest};
use store_calls::Counts;
use store_words::{Bucket, BucketRows, Value, ValueRows};

const SLOTS: usize = 4096;

fn slot_of(action: u16, offset: u64, microstep: u32) -> usize
    ensures { (result ≡ slot_of action offset microstep) × (result < slots) }
{
    let sum = offset % 4093 + microstep as u64 * 31 + action as u64 * 997;
    (sum % SLOTS as u64) as usize
}

// An entry whose key has a slot: equal keys have equal slots.
trait Slotted: Entry {
    ghost slot: { Self → ℕ };

    fn slot(self) -> usize
        ensures { (result ≡ slot self) × (result < slots) };

    ghost by_key: { Slots Self.Entry.of Self.Entry.own slot };
}

impl Slotted for Value {
    ghost slot = { slot_of_value };

    ghost by_key = { value_slots };

    fn slot(self) -> usize {
        slot_of(self.action, self.tag.0, self.tag.1)
    }
}

impl Slotted for Bucket {
    ghost slot = { slot_of_bucket };

    ghost by_key = { bucket_slots };

    fn slot(self) -> usize {
        slot_of(self.action, self.offset, 0)
    }
}

// No two have one key: those whose slot no later one has marked are known not to be under a later one's key.
fn differ<E: Slotted>(rows: &E::Rows, n: usize) -> bool
    requires { n ≤ room_for_entries }
    ensures { result ≡ distinct (λ x y. E.own y x) (take n (things_in E.layout (E.words rows.now))) }
{
    let mut seen = [false; SLOTS];
    for i in (0..n).rev() {
        let e = E::at(rows, i);
        let h = e.slot();
        if seen[h] && store::find_from::<E>(rows, i + 1, n, e.key()) < n {
            return false;
        }
        seen[h] = true;
    }
    true
}

// ---- each value has its bucket

// Notes at each bucket's slot its row: a guess, which is looked at before it is believed.
fn note_buckets(places: &mut [u16; SLOTS], rows: &BucketRows, n: usize)
    requires { n ≤ room_for_entries }
{
    for i in 0..n {
        places[Bucket::at(rows, i).slot()] = i as u16;
    }
}

// The row noted has the value's bucket.
fn is_noted(places: &[u16; SLOTS], rows: &BucketRows, n: usize, v: Value) -> bool
    requires { n ≤ room_for_entries }
    ensures { result ≡ true → has_bucket (take n (buckets_of rows.now)) (of_value v) ≡ true }
{
    let j = places[slot_of(v.action, v.tag.0, 0)] as usize;
    j < n && store::is_cover(Bucket::at(rows, j), v.action, v.tag)
}

fn has_bucket(places: &[u16; SLOTS], rows: &BucketRows, n: usize, v: Value) -> bool
    requires { n ≤ room_for_entries }
    ensures { result ≡ has_bucket (take n (buckets_of rows.now)) (of_value v) }
{
    is_noted(places, rows, n, v)
        || store::find::<Bucket>(rows, n, BucketTest::Covers(v.action, v.tag)) < n
}

fn all_covered(values: &ValueRows, n: usize, buckets: &BucketRows, m: usize) -> bool
    requires { (n ≤ room_for_entries) × (m ≤ room_for_entries) }
    ensures { result ≡ every (has_bucket (take m (buckets_of buckets.now))) (take n (values_of values.now)) }
{
    let mut places = [0u16; SLOTS];
    note_buckets(&mut places, buckets, m);
    for i in 0..n {
        if !has_bucket(&places, buckets, m, Value::at(values, i)) {
            return false;
        }
    }
    true
}

// ---- keys exist and tags are within limits

fn none<E: Entry>(rows: &E::Rows, n: usize, which: E::Test) -> bool
    requires { n ≤ room_for_entries }
    ensures { result ≡ not (any (E.passes which) (take n (things_in E.layout (E.words rows.now)))) }
{
    n <= store::find::<E>(rows, n, which)
}

// The state rules that speak of values and buckets, where there are so many actions and no more than the limit may be held.
pub fn keeps_rules(
    values: &ValueRows,
    buckets: &BucketRows,
    held: Counts,
    limit: usize,
    actions: u16,
) -> bool
    requires { limit ≤ room_for_entries }
    ensures { result ≡ counted_rules limit actions held.values held.buckets (store_of values.now buckets.now held) }
{
    if limit < held.values || limit < held.buckets {
        return false;
    }
    none::<Value>(values, held.values, ValueTest::Stray(actions))
        && none::<Bucket>(buckets, held.buckets, BucketTest::Stray(actions))
        && differ::<Value>(values, held.values)
        && differ::<Bucket>(buckets, held.buckets)
        && all_covered(values, held.values, buckets, held.buckets)
}
