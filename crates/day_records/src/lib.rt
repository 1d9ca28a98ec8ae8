// The records of a gate day: document 01, "length 4, version 1 (holding 1), op 1, operands". One is parsed from exactly the bytes that its length counts.
// Total on bytes: a call, or malformed. Any tag and any key is well formed; whether the table has them is for the call.
// A new op comes in here: `Op`, its form, `Parsed`, `parse`, and `op_of` of specs/. The rescue goes by the same test, `is_formed`.
#![tactic(auto)]

ghost use Rattle.std.specs.Prelude.{◌≡◌, true, false, ◌+◌, ◌≤◌, ◌<◌, length, MatchResult};
ghost use Rattle.table_rows.specs.Bytes.{be};
ghost use Rattle.tags.specs.Views.{of_global};
ghost use Rattle.day_records.specs.Records.{most_keys, tag_at, is_bit, is_one, keys_fill, body_of, is_formed, length_of};
ghost use Rattle.day_records.specs.Views.{Parses, Filled, Names, HasOp, form_of, of_head};

use tags::GlobalTag;

// A record names at most so many reactions.
pub const MOST_KEYS: usize = 128;

// No record is longer, its length not counted.
pub const MOST_BYTES: usize = 512;

// The bytes of a length.
pub const LENGTH_BYTES: usize = 4;

const VERSION: u8 = 1;

// The bytes of the version and the op.
const VERSION_AND_OP: usize = 2;

// The bytes are no record.
#[derive(Clone, Copy, Debug, PartialEq, Eq)]
pub struct Malformed;

// A record; where it has reaction keys, how many, and they stand beside it in a lent array.
#[derive(Clone, Copy)]
pub enum Parsed {
    // tag, terminal, keys
    Plain(GlobalTag, bool, u16),
    // tag, keys
    Network(GlobalTag, u16),
    Control(GlobalTag),
    // action, tag, terminal, keys
    Action(u16, GlobalTag, bool, u16),
    // reactor, target mode, reset, current tag
    Transition(u16, u16, bool, GlobalTag),
    Pop,
}

// ---- numbers whose bytes are known to be there: the length is tested once, and then the compiler makes one load of each

#[tactic(auto, using(crate::proofs::Laws::two_are))]
fn two_there(body: &[u8], at: usize) -> u16
    requires { at + 2 ≤ length body.now }
    ensures { result ≡ be 2 body.now at }
{
    u16::from_be_bytes([body[at], body[at + 1]])
}

#[tactic(auto, using(crate::proofs::Laws::four_are))]
fn four_there(body: &[u8], at: usize) -> u32
    requires { at + 4 ≤ length body.now }
    ensures { result ≡ be 4 body.now at }
{
    u32::from_be_bytes([body[at], body[at + 1], body[at + 2], body[at + 3]])
}

#[tactic(auto, using(crate::proofs::Laws::eight_are))]
fn eight_there(body: &[u8], at: usize) -> u64
    requires { at + 8 ≤ length body.now }
    ensures { result ≡ be 8 body.now at }
{
    u64::from_be_bytes([
        body[at],
        body[at + 1],
        body[at + 2],
        body[at + 3],
        body[at + 4],
        body[at + 5],
        body[at + 6],
        body[at + 7],
    ])
}

fn tag_there(body: &[u8], at: usize) -> GlobalTag
    requires { at + 12 ≤ length body.now }
    ensures { of_global result ≡ tag_at body.now at }
{
    GlobalTag(eight_there(body, at), four_there(body, at + 8))
}

// ---- the operands, at a place of any bytes

pub fn tag_at(body: &[u8], at: u8) -> GlobalTag
    ensures { of_global result ≡ tag_at body.now at }
{
    let i = at as usize;
    GlobalTag(
        table_rows::eight_bytes(body, i),
        table_rows::four_bytes(body, i + 8),
    )
}

pub fn is_bit(body: &[u8], at: usize) -> bool
    ensures { result ≡ is_bit body.now at }
{
    table_rows::one_byte(body, at) < 2
}

pub fn is_one(body: &[u8], at: usize) -> bool
    ensures { result ≡ is_one body.now at }
{
    table_rows::one_byte(body, at) == 1
}

// The keys of a record whose keys fill it, put over the front of the array; how many they are.
fn read_keys(body: &[u8], at: usize, keys: &mut [u16; MOST_KEYS]) -> u16
    requires { (length keys.old ≡ most_keys) × (keys_fill body.now at ≡ true) }
    ensures { Filled body.now at result keys.old keys.new }
{
    let count = two_there(body, at);
    for k in 0..usize::from(count) {
        keys[k] = two_there(body, at + 2 + 2 * k);
    }
    count
}

// ---- whether a body is well formed

// What a record asks for, by its number.
#[derive(Clone, Copy)]
enum Op {
    Plain,
    Network,
    Control,
    Action,
    Transition,
    Pop,
}

impl TryFrom<u8> for Op {
    type Error = Malformed;

    ghost try_from_gives = { Names };

    fn try_from(number: u8) -> Result<Op, Malformed> {
        match number {
            1 => Ok(Op::Plain),
            2 => Ok(Op::Network),
            3 => Ok(Op::Control),
            4 => Ok(Op::Action),
            5 => Ok(Op::Transition),
            6 => Ok(Op::Pop),
            _ => Err(Malformed),
        }
    }
}

// Where a record's operands stand: the byte that is 0 or 1 (the version, where no other is), the count of what is at its end, how many bytes each of
// these has, and how many bytes all the others have.
#[derive(Clone, Copy)]
struct Form {
    bit: usize,
    count: usize,
    each: usize,
    fixed: usize,
}

impl Op {
    fn form(self) -> Form
        ensures { result ≡ form_of self }
    {
        match self {
            Op::Plain => Form {
                bit: 14,
                count: 15,
                each: 2,
                fixed: 17,
            },
            Op::Network => Form {
                bit: 0,
                count: 14,
                each: 2,
                fixed: 16,
            },
            Op::Control => Form {
                bit: 0,
                count: 0,
                each: 0,
                fixed: 14,
            },
            Op::Action => Form {
                bit: 16,
                count: 17,
                each: 2,
                fixed: 19,
            },
            Op::Transition => Form {
                bit: 6,
                count: 0,
                each: 0,
                fixed: 19,
            },
            Op::Pop => Form {
                bit: 0,
                count: 0,
                each: 0,
                fixed: 2,
            },
        }
    }
}

// The op of a record that is well formed. At most five bytes are looked at.
fn formed_op(body: &[u8]) -> Result<Op, Malformed>
    ensures { MatchResult result (λ op. HasOp body.now op) (λ e. is_formed (body_of body.now) ≡ false) }
{
    if body.len() < VERSION_AND_OP || body[0] != VERSION {
        return Err(Malformed);
    }
    let op = Op::try_from(body[1])?;
    let form = op.form();
    if body.len() < form.fixed || 1 < body[form.bit] {
        return Err(Malformed);
    }
    let more = form.each * usize::from(two_there(body, form.count));
    if 2 * MOST_KEYS < more || body.len() != form.fixed + more {
        return Err(Malformed);
    }
    Ok(op)
}

// Whether the record that has exactly these bytes behind its length is well formed.
pub fn is_formed(body: &[u8]) -> bool
    ensures { result ≡ is_formed (body_of body.now) }
{
    formed_op(body).is_ok()
}

// The record that has exactly these bytes behind its length.
#[tactic(auto, using(crate::proofs::Laws::parts))]
pub fn parse(body: &[u8], keys: &mut [u16; MOST_KEYS]) -> Result<Parsed, Malformed>
    requires { length keys.old ≡ most_keys }
    ensures { Parses result keys.old keys.new (body_of body.now) }
{
    Ok(match formed_op(body)? {
        Op::Plain => {
            let n = read_keys(body, 15, keys);
            Parsed::Plain(tag_there(body, 2), body[14] == 1, n)
        }
        Op::Network => {
            let n = read_keys(body, 14, keys);
            Parsed::Network(tag_there(body, 2), n)
        }
        Op::Control => Parsed::Control(tag_there(body, 2)),
        Op::Action => {
            let n = read_keys(body, 17, keys);
            Parsed::Action(two_there(body, 2), tag_there(body, 4), body[16] == 1, n)
        }
        Op::Transition => {
            let reactor = two_there(body, 2);
            let mode = two_there(body, 4);
            Parsed::Transition(reactor, mode, body[6] == 0, tag_there(body, 7))
        }
        Op::Pop => Parsed::Pop,
    })
}

// What the bytes say where a length is due, as many as are left and at most LENGTH_BYTES: how many bytes follow, none where no byte is left; malformed
// is a length over the most, or 1 to 3 bytes.
#[tactic(auto, using(crate::proofs::Laws::lengths))]
pub fn length_of(head: &[u8]) -> Result<Option<usize>, Malformed>
    ensures { of_head result ≡ length_of head.now }
{
    if head.is_empty() {
        return Ok(None);
    }
    if head.len() < LENGTH_BYTES {
        return Err(Malformed);
    }
    let n = four_there(head, 0) as usize;
    if MOST_BYTES < n {
        return Err(Malformed);
    }
    Ok(Some(n))
}
