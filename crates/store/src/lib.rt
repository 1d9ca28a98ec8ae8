// Values and buckets found, set and lost in lent rows: what the calls of the value store are made of. Document 01, "Values and level walks", first part.
// What values and buckets share is `Entry`, and all that goes over rows is written once over it; which of them are meant is in `ValueTest` and `BucketTest`.
// The manager's crates use store_calls.
#![tactic(auto)]

ghost use Rattle.std.specs.Prelude.{ℕ, Bool, List, get_or, set, ◌≡◌, ◌+◌, ◌≤◌, ◌<◌, length, take, drop};
ghost use Rattle.lists.specs.Lists.{lose, over, upsert};
ghost use Rattle.lists.specs.Lay.{lay};
ghost use Rattle.tags.specs.Views.{of_global};
ghost use Rattle.store_words.specs.Entries.{room_for_entries, of_value, of_bucket};
ghost use Rattle.store_words.specs.Entries as entries;
ghost use Rattle.store_words.specs.Words.{values_of, buckets_of, WholeValues, WholeBuckets, HeldValues, HeldBuckets};
ghost use Rattle.store.specs.Layout.{Layout, things_in, WholeIn, HeldIn, value_layout, bucket_layout};
ghost use Rattle.lists.specs.Loops.{place};
ghost use Rattle.store.specs.Store.{following, covered_by};
ghost use Rattle.store.specs.Views.{value_test, bucket_test, own_value, own_bucket, renewed_value, renewed_bucket};

use store_words::{Bucket, BucketRows, Value, ValueRows};
use tags::{GlobalTag, Scale};

// A thing of the definitions that is held as a row of words: what values and buckets share.
pub trait Entry: Copy {
    // The array of words, with room for ROOM_FOR_ENTRIES of them.
    type Rows;

    // Which of them are meant.
    type Test: Copy;

    ghost Thing: { Type 0 };

    ghost of: { Self → Thing };

    ghost words: { Self.Rows → List ℕ };

    ghost layout: { Layout Thing };

    ghost passes: { Self.Test → Thing → Bool };

    // It has the key of the first.
    ghost own: { Thing → Thing → Bool };

    // What the first makes of one under its key.
    ghost renewed: { Thing → Thing → Thing };

    fn blank() -> Self
        ensures { of result ≡ layout.blank };

    // The entry in row k; past the end a blank.
    fn at(rows: &Self::Rows, k: usize) -> Self
        ensures { of result ≡ get_or (things_in layout (words rows.now)) k layout.blank };

    // The entry into row k; past the end nothing changes.
    fn put(self, rows: &mut Self::Rows, k: usize)
        requires { WholeIn layout (words rows.old) }
        ensures { HeldIn layout (words rows.new) (set (things_in layout (words rows.old)) k (of self)) };

    fn passes(self, which: Self::Test) -> bool
        ensures { result ≡ passes which (of self) };

    // The test for the one under its key.
    fn key(self) -> Self::Test
        ensures { passes result ≡ own (of self) };

    fn renew(self, by: Self) -> Self
        ensures { of result ≡ renewed (of by) (of self) };
}

// Which values are meant.
#[derive(Clone, Copy)]
pub enum ValueTest {
    // the one under action and tag
    At(u16, GlobalTag),
    // those of the action before the tag
    Before(u16, GlobalTag),
    // those of the action at the offset
    There(u16, u64),
    // those of the action
    Of(u16),
    // those that break a rule, where there are so many actions
    Stray(u16),
}

// Which buckets are meant.
#[derive(Clone, Copy)]
pub enum BucketTest {
    // the one under action and offset
    At(u16, u64),
    // those that a clearing before the tag empties; whether values are left at its offset
    Spent(u16, GlobalTag, bool),
    // those of the action
    Of(u16),
    // the one that a value under action and tag has
    Covers(u16, GlobalTag),
    // those that break a rule, where there are so many actions
    Stray(u16),
}

impl Entry for Value {
    type Rows = ValueRows;

    type Test = ValueTest;

    ghost Thing = { entries.Value };

    ghost of = { of_value };

    ghost words = { λ rows. rows };

    ghost layout = { value_layout };

    ghost passes = { value_test };

    ghost own = { own_value };

    ghost renewed = { renewed_value };

    fn blank() -> Self {
        Value::blank()
    }

    fn at(rows: &ValueRows, k: usize) -> Self {
        store_words::value_at(rows, k)
    }

    fn put(self, rows: &mut ValueRows, k: usize) {
        store_words::put_value(rows, k, self);
    }

    fn passes(self, which: ValueTest) -> bool {
        match which {
            ValueTest::At(action, tag) => self.action == action && self.tag == tag,
            ValueTest::Before(action, tag) => self.action == action && self.tag < tag,
            ValueTest::There(action, offset) => self.action == action && self.tag.0 == offset,
            ValueTest::Of(action) => self.action == action,
            ValueTest::Stray(actions) => !(self.action < actions && self.tag.within()),
        }
    }

    fn key(self) -> ValueTest {
        ValueTest::At(self.action, self.tag)
    }

    fn renew(self, by: Self) -> Self {
        Value {
            value: by.value,
            ..self
        }
    }
}

impl Entry for Bucket {
    type Rows = BucketRows;

    type Test = BucketTest;

    ghost Thing = { entries.Bucket };

    ghost of = { of_bucket };

    ghost words = { λ rows. rows };

    ghost layout = { bucket_layout };

    ghost passes = { bucket_test };

    ghost own = { own_bucket };

    ghost renewed = { renewed_bucket };

    fn blank() -> Self {
        Bucket::blank()
    }

    fn at(rows: &BucketRows, k: usize) -> Self {
        store_words::bucket_at(rows, k)
    }

    fn put(self, rows: &mut BucketRows, k: usize) {
        store_words::put_bucket(rows, k, self);
    }

    fn passes(self, which: BucketTest) -> bool {
        match which {
            BucketTest::At(action, offset) => self.action == action && self.offset == offset,
            BucketTest::Spent(action, tag, left) => {
                self.action == action && (self.offset < tag.0 || self.offset == tag.0 && !left)
            }
            BucketTest::Of(action) => self.action == action,
            BucketTest::Covers(action, tag) => is_cover(self, action, tag),
            BucketTest::Stray(actions) => {
                !(self.action < actions && GlobalTag(self.offset, self.next).within())
            }
        }
    }

    fn key(self) -> BucketTest {
        BucketTest::At(self.action, self.offset)
    }

    fn renew(self, by: Self) -> Self {
        Bucket {
            next: self.next.max(by.next),
            ..self
        }
    }
}

pub fn next_after(microstep: u32) -> u32
    ensures { result ≡ following microstep }
{
    if microstep < tags::MAX_MICROSTEP {
        microstep + 1
    } else {
        tags::MAX_MICROSTEP
    }
}

pub fn is_cover(b: Bucket, action: u16, tag: GlobalTag) -> bool
    ensures { result ≡ covered_by action (of_global tag) (of_bucket b) }
{
    b.action == action && b.offset == tag.0 && next_after(tag.1) <= b.next
}

// ---- the rows

// The first row from `from` on whose entry passes, or n.
pub fn find_from<E: Entry>(rows: &E::Rows, from: usize, n: usize, which: E::Test) -> usize
    requires { (from ≤ n) × (n ≤ room_for_entries) }
    ensures { result ≡ from + place (E.passes which) (drop from (take n (things_in E.layout (E.words rows.now)))) }
{
    for i in from..n {
        if E::at(rows, i).passes(which) {
            return i;
        }
    }
    n
}

// The first row whose entry passes, or n.
pub fn find<E: Entry>(rows: &E::Rows, n: usize, which: E::Test) -> usize
    requires { n ≤ room_for_entries }
    ensures { result ≡ place (E.passes which) (take n (things_in E.layout (E.words rows.now))) }
{
    find_from::<E>(rows, 0, n, which)
}

// The entries that don't pass, over the front; how many.
pub fn compact<E: Entry>(rows: &mut E::Rows, n: usize, which: E::Test) -> usize
    requires whole { WholeIn E.layout (E.words rows.old) }
    requires n_le_room_for_entries { n ≤ room_for_entries }
    ensures value { result ≡ length (lose (E.passes which) (take n (things_in E.layout (E.words rows.old)))) }
    ensures held { HeldIn E.layout (E.words rows.new) (over (lose (E.passes which) (take n (things_in E.layout (E.words rows.old)))) (things_in E.layout (E.words rows.old))) }
{
    let mut w = 0;
    for i in 0..n {
        let e = E::at(rows, i);
        if !e.passes(which) {
            e.put(rows, w);
            w += 1;
        }
    }
    w
}

// The rows from w to n blank.
pub fn blank<E: Entry>(rows: &mut E::Rows, w: usize, n: usize)
    requires whole { WholeIn E.layout (E.words rows.old) }
    requires w_le_n { (w ≤ n) × (n ≤ room_for_entries) }
    ensures { HeldIn E.layout (E.words rows.new) (lay E.layout.blank (things_in E.layout (E.words rows.old)) (take w (things_in E.layout (E.words rows.old))) n) }
{
    for i in w..n {
        E::blank().put(rows, i);
    }
}

// The entries that pass go, and the rows they free are blank; how many stay.
pub fn lose<E: Entry>(rows: &mut E::Rows, n: usize, which: E::Test) -> usize
    requires whole { WholeIn E.layout (E.words rows.old) }
    requires n_le_room_for_entries { n ≤ room_for_entries }
    ensures value { result ≡ length (lose (E.passes which) (take n (things_in E.layout (E.words rows.old)))) }
    ensures held { HeldIn E.layout (E.words rows.new) (lay E.layout.blank (things_in E.layout (E.words rows.old)) (lose (E.passes which) (take n (things_in E.layout (E.words rows.old)))) n) }
{
    let w = compact::<E>(rows, n, which);
    blank::<E>(rows, w, n);
    w
}

// e in row i, which is its own or the first that is free: a value overwrites, a bucket rises to e's next microstep; how many are held then.
pub fn upsert<E: Entry>(rows: &mut E::Rows, n: usize, i: usize, e: E) -> usize
    requires whole { WholeIn E.layout (E.words rows.old) }
    requires i_value { i ≡ place (E.own (E.of e)) (take n (things_in E.layout (E.words rows.old))) }
    requires n_le_room_for_entries { (n ≤ room_for_entries) × (i < room_for_entries) }
    ensures value { result ≡ length (upsert (E.own (E.of e)) (E.renewed (E.of e)) (E.of e) (take n (things_in E.layout (E.words rows.old)))) }
    ensures held { HeldIn E.layout (E.words rows.new) (lay E.layout.blank (things_in E.layout (E.words rows.old)) (upsert (E.own (E.of e)) (E.renewed (E.of e)) (E.of e) (take n (things_in E.layout (E.words rows.old)))) n) }
{
    if i < n {
        E::at(rows, i).renew(e).put(rows, i);
        return n;
    }
    e.put(rows, n);
    n + 1
}

// ---- at values and at buckets, as the crates above call them

pub fn find_value(rows: &ValueRows, n: usize, which: ValueTest) -> usize
    requires { n ≤ room_for_entries }
    ensures { result ≡ place (value_test which) (take n (values_of rows.now)) }
{
    find::<Value>(rows, n, which)
}

pub fn blank_values(rows: &mut ValueRows, w: usize, n: usize)
    requires whole_values { WholeValues rows.old }
    requires w_le_n { (w ≤ n) × (n ≤ room_for_entries) }
    ensures { HeldValues rows.new (lay entries.blank_value (values_of rows.old) (take w (values_of rows.old)) n) }
{
    blank::<Value>(rows, w, n);
}

pub fn blank_buckets(rows: &mut BucketRows, w: usize, n: usize)
    requires whole_buckets { WholeBuckets rows.old }
    requires w_le_n { (w ≤ n) × (n ≤ room_for_entries) }
    ensures { HeldBuckets rows.new (lay entries.blank_bucket (buckets_of rows.old) (take w (buckets_of rows.old)) n) }
{
    blank::<Bucket>(rows, w, n);
}
