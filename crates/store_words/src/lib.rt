// Values and buckets as rows of words in two lent arrays: document 01, "A value is a u64 under action and tag", "A bucket remembers the next microstep".
// Only the four functions here know the words: another width or field comes in here, and in `encode_value`, `decode_value` and the bucket's two of specs/.
#![tactic(auto)]

ghost use Rattle.std.specs.Prelude.{◌≡◌, get_or, set};
ghost use Rattle.store_words.specs.Entries.{of_value, of_bucket, blank_value, blank_bucket};
ghost use Rattle.store_words.specs.Words.{values_of, buckets_of, WholeValues, WholeBuckets, HeldValues, HeldBuckets};

use tags::GlobalTag;

// How many values, and how many buckets, there is room for; `room_for_entries` of specs/ says the same.
pub const ROOM_FOR_ENTRIES: usize = 256;

// The words of a value's row: action, offset, microstep, value.
pub const VALUE_WORDS: usize = 4;

// The words of a bucket's row: action, offset, next microstep.
pub const BUCKET_WORDS: usize = 3;

pub type ValueRows = [u64; ROOM_FOR_ENTRIES * VALUE_WORDS];

pub type BucketRows = [u64; ROOM_FOR_ENTRIES * BUCKET_WORDS];

// A value is a u64 under action and tag.
#[derive(Clone, Copy)]
pub struct Value {
    pub action: u16,
    pub tag: GlobalTag,
    pub value: u64,
}

// A bucket remembers the next microstep, under action and offset.
#[derive(Clone, Copy)]
pub struct Bucket {
    pub action: u16,
    pub offset: u64,
    pub next: u32,
}

impl Value {
    pub fn blank() -> Self
        ensures { of_value result ≡ blank_value }
    {
        Self {
            action: 0,
            tag: GlobalTag(0, 0),
            value: 0,
        }
    }
}

impl Bucket {
    pub fn blank() -> Self
        ensures { of_bucket result ≡ blank_bucket }
    {
        Self {
            action: 0,
            offset: 0,
            next: 0,
        }
    }
}

// The value in row k; past the end a blank.
pub fn value_at(rows: &ValueRows, k: usize) -> Value
    ensures { of_value result ≡ get_or (values_of rows.now) k blank_value }
{
    if ROOM_FOR_ENTRIES <= k {
        return Value::blank();
    }
    let b = k * VALUE_WORDS;
    Value {
        action: (rows[b] % 65536) as u16,
        tag: GlobalTag(rows[b + 1], (rows[b + 2] % 4294967296) as u32),
        value: rows[b + 3],
    }
}

// A value into row k; past the end nothing changes.
pub fn put_value(rows: &mut ValueRows, k: usize, v: Value)
    requires { WholeValues rows.old }
    ensures { HeldValues rows.new (set (values_of rows.old) k (of_value v)) }
{
    if ROOM_FOR_ENTRIES <= k {
        return;
    }
    let b = k * VALUE_WORDS;
    rows[b] = v.action as u64;
    rows[b + 1] = v.tag.0;
    rows[b + 2] = v.tag.1 as u64;
    rows[b + 3] = v.value;
}

// The bucket in row k; past the end a blank.
pub fn bucket_at(rows: &BucketRows, k: usize) -> Bucket
    ensures { of_bucket result ≡ get_or (buckets_of rows.now) k blank_bucket }
{
    if ROOM_FOR_ENTRIES <= k {
        return Bucket::blank();
    }
    let b = k * BUCKET_WORDS;
    Bucket {
        action: (rows[b] % 65536) as u16,
        offset: rows[b + 1],
        next: (rows[b + 2] % 4294967296) as u32,
    }
}

// A bucket into row k; past the end nothing changes.
pub fn put_bucket(rows: &mut BucketRows, k: usize, e: Bucket)
    requires { WholeBuckets rows.old }
    ensures { HeldBuckets rows.new (set (buckets_of rows.old) k (of_bucket e)) }
{
    if ROOM_FOR_ENTRIES <= k {
        return;
    }
    let b = k * BUCKET_WORDS;
    rows[b] = e.action as u64;
    rows[b + 1] = e.offset;
    rows[b + 2] = e.next as u64;
}
