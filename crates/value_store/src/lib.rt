// The value store by value: document 01, "for the value store 11, 5, 6, 9", in that order.
// Each call goes to rows, tests, works there, and comes back; the run of a day works on the rows themselves.
// A new call is a case of `Call`; `Store` and the manager both go through `call_rows`.
#![tactic(auto)]

ghost use Rattle.std.specs.Prelude.{◌≡◌, map};
ghost use Rattle.tags.specs.Views.{of_global};
ghost use Rattle.table_rows.specs.Limits.{limits};
ghost use Rattle.store.specs.Layout.{things_in, WholeIn, HeldIn};
ghost use Rattle.value_store.specs.Calls.{push, next, take_out, clear_before_lem, clear, move, said};
ghost use Rattle.value_store.specs.Calls.{perform as performed, action_of, arguments_in, called, fresh_arrays, is_sound, step, answered};
ghost use Rattle.store_calls.specs.Lent.{store_of, Lent, found_of};
ghost use Rattle.value_store.specs.Views.{arrays_of, said_of, answer_of, call_of, DidCall, answered_of, answer_for, arrays_in};

use refusals::Refusal;
use store::Entry;
use store_calls::{Changed, Counts};
use store_words::{
    BUCKET_WORDS, Bucket, BucketRows, ROOM_FOR_ENTRIES, VALUE_WORDS, Value, ValueRows,
};
use tags::{GlobalTag, Scale};

// Values and buckets, and how many of each are held; what stands in the rest is no part of the store.
#[derive(Clone, Copy)]
pub struct Store {
    pub values: [Value; ROOM_FOR_ENTRIES],
    pub held: usize,
    pub buckets: [Bucket; ROOM_FOR_ENTRIES],
    pub open: usize,
}

// What a call answers that is not refused.
// Stays: the new form is no plainer: done, a number and "nothing" are three answers of the definitions, and `Found(Option<u64>)` would nest two of them.
#[derive(Clone, Copy)]
pub enum Answer {
    Done,
    Number(u64),
    Nothing,
}

// The answer, and the store after the call.
#[derive(Clone, Copy)]
pub struct Answered {
    pub answer: Result<Answer, Refusal>,
    pub store: Store,
}

// ---- to rows and back

fn lay<E: Entry>(rows: &mut E::Rows, entries: &[E; ROOM_FOR_ENTRIES])
    requires { WholeIn E.layout (E.words rows.old) }
    ensures { HeldIn E.layout (E.words rows.new) (map E.of entries.now) }
{
    for (i, e) in entries.iter().enumerate() {
        e.put(rows, i);
    }
}

fn entries<E: Entry>(rows: &E::Rows) -> [E; ROOM_FOR_ENTRIES]
    ensures { map E.of result ≡ things_in E.layout (E.words rows.now) }
{
    let mut entries = [E::blank(); ROOM_FOR_ENTRIES];
    for (i, e) in entries.iter_mut().enumerate() {
        *e = E::at(rows, i);
    }
    entries
}

pub fn store_of(values: &ValueRows, buckets: &BucketRows, held: Counts) -> Store
    ensures { arrays_of result ≡ arrays_in values.now buckets.now held }
{
    Store {
        values: entries(values),
        held: held.values,
        buckets: entries(buckets),
        open: held.buckets,
    }
}

// ---- the calls on lent rows

// An action, and what the call says of it.
#[derive(Clone, Copy)]
pub enum Call {
    Push(u16, GlobalTag, u64),
    NextMicrostep(u16, u64, u32),
    Take(u16, GlobalTag),
    ClearOlderThan(u16, GlobalTag),
    Clear(u16),
    MoveValue(u16, GlobalTag, GlobalTag),
}

// What a call on lent rows answers, and how many of each are held after it.
#[derive(Clone, Copy)]
pub struct Called {
    pub answer: Result<Answer, Refusal>,
    pub held: Counts,
}

fn changed(c: Changed) -> Called
    ensures { (answer_of result.answer ≡ answer_for c.outcome) × (result.held ≡ c.held) }
{
    Called {
        answer: c.outcome.and(Ok(Answer::Done)),
        held: c.held,
    }
}

fn said(found: Option<u64>) -> Answer
    ensures { said_of result ≡ said (found_of found) }
{
    match found {
        Some(n) => Answer::Number(n),
        None => Answer::Nothing,
    }
}

impl Call {
    fn action(self) -> u16
        ensures { result ≡ action_of (call_of self) }
    {
        match self {
            Call::Push(action, _, _)
            | Call::NextMicrostep(action, _, _)
            | Call::Take(action, _)
            | Call::ClearOlderThan(action, _)
            | Call::Clear(action)
            | Call::MoveValue(action, _, _) => action,
        }
    }

    // The argument tags are within the limits.
    fn within(self) -> bool
        ensures { result ≡ arguments_in (call_of self) }
    {
        match self {
            Call::Push(_, tag, _) | Call::Take(_, tag) | Call::ClearOlderThan(_, tag) => {
                tag.within()
            }
            Call::NextMicrostep(_, offset, least) => GlobalTag(offset, least).within(),
            Call::Clear(_) => true,
            Call::MoveValue(_, old, new) => old.within() && new.within(),
        }
    }
}

fn perform(
    values: &mut ValueRows,
    buckets: &mut BucketRows,
    held: Counts,
    limit: usize,
    call: Call,
) -> Called
    requires { Lent limit values.old buckets.old held }
    ensures { DidCall values.old buckets.old held (performed limit (store_of values.old buckets.old held) (call_of call)) values.new buckets.new result }
{
    match call {
        Call::Push(action, tag, value) => changed(store_calls::push(
            values, buckets, held, limit, action, tag, value,
        )),
        Call::NextMicrostep(action, offset, least) => {
            let next = store_calls::next_microstep(buckets, held.buckets, action, offset, least);
            Called {
                answer: Ok(said(next.map(u64::from))),
                held,
            }
        }
        Call::Take(action, tag) => {
            let taken = store_calls::take(values, buckets, held, action, tag);
            Called {
                answer: Ok(said(taken.found)),
                held: taken.held,
            }
        }
        Call::ClearOlderThan(action, tag) => Called {
            answer: Ok(Answer::Done),
            held: store_calls::clear_older_than(values, buckets, held, action, tag),
        },
        Call::Clear(action) => Called {
            answer: Ok(Answer::Done),
            held: store_calls::clear(values, buckets, held, action),
        },
        Call::MoveValue(action, old, new) => changed(store_calls::move_value(
            values, buckets, held, limit, action, old, new,
        )),
    }
}

// The call on rows that keep the state rules: 5, 6, then 9.
pub fn call_rows(
    image: &[u8],
    values: &mut ValueRows,
    buckets: &mut BucketRows,
    held: Counts,
    call: Call,
) -> Called
    requires { Lent (limits image.now).held values.old buckets.old held }
    ensures { DidCall values.old buckets.old held (called image.now (store_of values.old buckets.old held) (call_of call)) values.new buckets.new result }
{
    if table_rows::count(image, table_rows::ACTION) <= call.action() {
        return Called {
            answer: Err(Refusal::Key),
            held,
        };
    }
    if !call.within() {
        return Called {
            answer: Err(Refusal::ArgumentTag),
            held,
        };
    }
    perform(values, buckets, held, table_rows::most_held(image), call)
}

// ---- the store by value

// The table is accepted and the store keeps the rules: else 11.
fn is_sound(image: &[u8], values: &ValueRows, buckets: &BucketRows, held: Counts) -> bool
    ensures { result ≡ is_sound image.now (arrays_in values.now buckets.now held) }
{
    table::accepted(image)
        && store_rules::keeps_rules(
            values,
            buckets,
            held,
            table_rows::most_held(image),
            table_rows::count(image, table_rows::ACTION),
        )
}

impl Store {
    // Nothing is held.
    pub fn new() -> Self
        ensures { arrays_of result ≡ fresh_arrays }
    {
        Self {
            values: [Value::blank(); ROOM_FOR_ENTRIES],
            held: 0,
            buckets: [Bucket::blank(); ROOM_FOR_ENTRIES],
            open: 0,
        }
    }

    // To rows, 11, the call there, and back.
    fn run(self, image: &[u8], call: Call) -> Answered
        ensures { answered_of result ≡ answered (arrays_of self) (step image.now (arrays_of self) (call_of call)) }
    {
        let held = Counts {
            values: self.held,
            buckets: self.open,
        };
        let mut values: ValueRows = [0; ROOM_FOR_ENTRIES * VALUE_WORDS];
        lay(&mut values, &self.values);
        let mut buckets: BucketRows = [0; ROOM_FOR_ENTRIES * BUCKET_WORDS];
        lay(&mut buckets, &self.buckets);
        if !is_sound(image, &values, &buckets, held) {
            return Answered {
                answer: Err(Refusal::StateRule),
                store: self,
            };
        }
        let called = call_rows(image, &mut values, &mut buckets, held, call);
        Answered {
            answer: called.answer,
            store: store_of(&values, &buckets, called.held),
        }
    }

    // Stays, here and below: one `run(image, Call::Push(..))` for all is no plainer, since each call has its own contract by the definitions' name for it.
    // Pushing again overwrites; the bucket rises to the largest pushed plus one, held at the limit.
    pub fn push(self, image: &[u8], action: u16, tag: GlobalTag, value: u64) -> Answered
        ensures { answered_of result ≡ answered (arrays_of self) (step image.now (arrays_of self) (push action (of_global tag) value)) }
    {
        self.run(image, Call::Push(action, tag, value))
    }

    // The larger of the bucket's next microstep and the least, or the least if no bucket; "nothing" at the limit.
    pub fn next_microstep(self, image: &[u8], action: u16, offset: u64, least: u32) -> Answered
        ensures { answered_of result ≡ answered (arrays_of self) (step image.now (arrays_of self) (next action offset least)) }
    {
        self.run(image, Call::NextMicrostep(action, offset, least))
    }

    // "Nothing" for a value not held; the bucket stays.
    pub fn take(self, image: &[u8], action: u16, tag: GlobalTag) -> Answered
        ensures { answered_of result ≡ answered (arrays_of self) (step image.now (arrays_of self) (take_out action (of_global tag))) }
    {
        self.run(image, Call::Take(action, tag))
    }

    // Clearing before a tag.
    pub fn clear_older_than(self, image: &[u8], action: u16, tag: GlobalTag) -> Answered
        ensures { answered_of result ≡ answered (arrays_of self) (step image.now (arrays_of self) (clear_before_lem action (of_global tag))) }
    {
        self.run(image, Call::ClearOlderThan(action, tag))
    }

    // All that the action has.
    pub fn clear(self, image: &[u8], action: u16) -> Answered
        ensures { answered_of result ≡ answered (arrays_of self) (step image.now (arrays_of self) (clear action)) }
    {
        self.run(image, Call::Clear(action))
    }

    // A take and then a push; nothing for equal tags or a value not held.
    pub fn move_value(self, image: &[u8], action: u16, old: GlobalTag, new: GlobalTag) -> Answered
        ensures { answered_of result ≡ answered (arrays_of self) (step image.now (arrays_of self) (move action (of_global old) (of_global new))) }
    {
        self.run(image, Call::MoveValue(action, old, new))
    }
}
