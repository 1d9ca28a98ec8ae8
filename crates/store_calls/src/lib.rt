// The calls of the value store on lent rows: document 01, "pushing again overwrites" to "a move of a value not held". Carried over from
// boomerang_runtime's action/store.rs (`ActionStore`). Two arrays of rows are lent, with how many of each are held; a row that is freed is blank.
// Refusal 9 is decided here, by the limit that is given: that of the image. A new call comes in here and in `Call` of value_store.
#![tactic(auto)]

ghost use Rattle.std.specs.Prelude.{◌≡◌, ◌≤◌, take};
ghost use Rattle.tags.specs.Views.{of_global};
ghost use Rattle.store_words.specs.Entries.{room_for_entries};
ghost use Rattle.store_words.specs.Words.{values_of, buckets_of};
ghost use Rattle.store.specs.Store.{pushed, next_in, at_least, unless_last, value_in, taken, cleared_before, cleared, moved};
ghost use Rattle.store_calls.specs.Lent.{store_of, Lent, Laid, Did, found_of, next_of, overfull};

use refusals::Refusal;
use store::{BucketTest, Entry, ValueTest};
use store_words::{Bucket, BucketRows, Value, ValueRows};
use tags::GlobalTag;

// How many values and buckets are held.
#[derive(Clone, Copy)]
pub struct Counts {
    pub values: usize,
    pub buckets: usize,
}

// What a call that may refuse comes to.
#[derive(Clone, Copy)]
pub struct Changed {
    pub outcome: Result<(), Refusal>,
    pub held: Counts,
}

// What a take comes to: the value that was held, if any.
#[derive(Clone, Copy)]
pub struct Taken {
    pub found: Option<u64>,
    pub held: Counts,
}

// As many are held as may be.
fn full(held: Counts) -> Changed
    ensures { result ≡ overfull held }
{
    Changed {
        outcome: Err(Refusal::Held),
        held,
    }
}

// Pushing again overwrites; the bucket rises to the largest pushed plus one, held at the limit.
pub fn push(
    values: &mut ValueRows,
    buckets: &mut BucketRows,
    held: Counts,
    limit: usize,
    action: u16,
    tag: GlobalTag,
    value: u64,
) -> Changed
    requires { Lent limit values.old buckets.old held }
    ensures { Did values.old buckets.old held (pushed limit (store_of values.old buckets.old held) action (of_global tag) value) values.new buckets.new result }
{
    let i = store::find::<Value>(values, held.values, ValueTest::At(action, tag));
    let j = store::find::<Bucket>(buckets, held.buckets, BucketTest::At(action, tag.0));
    if limit <= i || limit <= j {
        return full(held);
    }
    let value = Value { action, tag, value };
    let bucket = Bucket {
        action,
        offset: tag.0,
        next: store::next_after(tag.1),
    };
    Changed {
        outcome: Ok(()),
        held: Counts {
            values: store::upsert(values, held.values, i, value),
            buckets: store::upsert(buckets, held.buckets, j, bucket),
        },
    }
}

// None at the limit.
fn unless_last(microstep: u32) -> Option<u32>
    ensures { next_of result ≡ unless_last microstep }
{
    if microstep == tags::MAX_MICROSTEP {
        return None;
    }
    Some(microstep)
}

// The larger of the bucket's and the least, or the least if no bucket.
pub fn next_microstep(
    buckets: &BucketRows,
    n: usize,
    action: u16,
    offset: u64,
    least: u32,
) -> Option<u32>
    requires { n ≤ room_for_entries }
    ensures { next_of result ≡ at_least (next_in action offset (take n (buckets_of buckets.now))) least }
{
    let j = store::find::<Bucket>(buckets, n, BucketTest::At(action, offset));
    if n <= j {
        return unless_last(least);
    }
    unless_last(Bucket::at(buckets, j).next.max(least))
}

// The value under action and tag goes, and its bucket stays.
pub fn take(
    values: &mut ValueRows,
    buckets: &mut BucketRows,
    held: Counts,
    action: u16,
    tag: GlobalTag,
) -> Taken
    requires { Lent room_for_entries values.old buckets.old held }
    ensures found_value { found_of result.found ≡ value_in action (of_global tag) (take held.values (values_of values.old)) }
    ensures laid { Laid values.old buckets.old held (taken (store_of values.old buckets.old held) action (of_global tag)) values.new buckets.new result.held }
{
    let own = ValueTest::At(action, tag);
    let i = store::find::<Value>(values, held.values, own);
    if held.values <= i {
        return Taken { found: None, held };
    }
    let found = Value::at(values, i).value;
    let left = store::lose::<Value>(values, held.values, own);
    Taken {
        found: Some(found),
        held: Counts {
            values: left,
            ..held
        },
    }
}

// Clearing before a tag: the action's earlier values, and the buckets that have none left.
pub fn clear_older_than(
    values: &mut ValueRows,
    buckets: &mut BucketRows,
    held: Counts,
    action: u16,
    tag: GlobalTag,
) -> Counts
    requires { Lent room_for_entries values.old buckets.old held }
    ensures { Laid values.old buckets.old held (cleared_before (store_of values.old buckets.old held) action (of_global tag)) values.new buckets.new result }
{
    let left = store::lose::<Value>(values, held.values, ValueTest::Before(action, tag));
    let there = store::find::<Value>(values, left, ValueTest::There(action, tag.0));
    let spent = BucketTest::Spent(action, tag, there < left);
    Counts {
        values: left,
        buckets: store::lose::<Bucket>(buckets, held.buckets, spent),
    }
}

// All that the action has.
pub fn clear(values: &mut ValueRows, buckets: &mut BucketRows, held: Counts, action: u16) -> Counts
    requires { Lent room_for_entries values.old buckets.old held }
    ensures { Laid values.old buckets.old held (cleared (store_of values.old buckets.old held) action) values.new buckets.new result }
{
    Counts {
        values: store::lose::<Value>(values, held.values, ValueTest::Of(action)),
        buckets: store::lose::<Bucket>(buckets, held.buckets, BucketTest::Of(action)),
    }
}

// A take and then a push; nothing for equal tags or a value not held.
pub fn move_value(
    values: &mut ValueRows,
    buckets: &mut BucketRows,
    held: Counts,
    limit: usize,
    action: u16,
    old: GlobalTag,
    new: GlobalTag,
) -> Changed
    requires { Lent limit values.old buckets.old held }
    ensures { Did values.old buckets.old held (moved limit (store_of values.old buckets.old held) action (of_global old) (of_global new)) values.new buckets.new result }
{
    if old == new {
        return Changed {
            outcome: Ok(()),
            held,
        };
    }
    let own = ValueTest::At(action, old);
    let i = store::find::<Value>(values, held.values, own);
    let j = store::find::<Bucket>(buckets, held.buckets, BucketTest::At(action, new.0));
    if held.values <= i {
        return Changed {
            outcome: Ok(()),
            held,
        };
    }
    if limit <= j {
        return full(held);
    }
    let v = Value::at(values, i);
    let less = Counts {
        values: store::lose::<Value>(values, held.values, own),
        ..held
    };
    push(values, buckets, less, limit, action, new, v.value)
}
