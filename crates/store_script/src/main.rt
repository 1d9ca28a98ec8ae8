// Runs scripts of store calls through `Store`: document 01, "All else is run against the Rust". Each script starts with an empty store.
// Standard input, big-endian. A script: number of actions 2, number of calls 2, then the calls: op 1, action 2, operands
// (1 push: tag 12, value 8; 2 next microstep: offset 8, least 4; 3 take: tag; 4 clear before: tag; 5 clear: none; 6 move: from, to;
// any other: from, a move to the zero tag).
// Standard output. An answer a call: kind 1 (0 done, 1 a number, 2 nothing, 3 refused), number 8. After a script's calls, what is held,
// in the store's order: number of values 2, each action 2, tag 12, value 8; number of buckets 2, each action 2, offset 8, next microstep 4.
#![tactic(auto)]

ghost use Rattle.std.specs.Prelude.{◌≤◌};

use refusals::Refusal;
use std::io;
use std::io::{Read, Write};
use store_words::{Bucket, Value};
use tags::GlobalTag;
use value_store::{Answer, Answered, Store};

// The bytes of an image with the most actions.
const IMAGE: usize = 225;

const MOST_ACTIONS: usize = 64;

// ---- what is read

// The next bytes; None where the input ends before.
fn bytes<const N: usize>(input: &mut impl Read) -> Option<[u8; N]> {
    let mut bytes = [0; N];
    if streams::read_full(input, &mut bytes) < N {
        return None;
    }
    Some(bytes)
}

fn short(input: &mut impl Read) -> Option<u16> {
    Some(u16::from_be_bytes(bytes(input)?))
}

fn microstep(input: &mut impl Read) -> Option<u32> {
    Some(u32::from_be_bytes(bytes(input)?))
}

fn number(input: &mut impl Read) -> Option<u64> {
    Some(u64::from_be_bytes(bytes(input)?))
}

fn tag(input: &mut impl Read) -> Option<GlobalTag> {
    Some(GlobalTag(number(input)?, microstep(input)?))
}

// ---- the image

#[derive(Drop)]
struct Image {
    bytes: [u8; IMAGE],
    len: usize,
    ghost in_room: { len ≤ 225 },
}

impl Image {
    // One scope, one reactor, and so many logical actions.
    fn new(actions: u16) -> Self {
        let n = (actions as usize).min(MOST_ACTIONS);
        let mut bytes = [0; IMAGE];
        bytes[3] = (29 + 3 * n) as u8;
        bytes[4] = 1;
        bytes[6] = 1;
        bytes[8] = 1;
        bytes[14] = n as u8;
        bytes[23..25].fill(255);
        bytes[27..29].fill(255);
        bytes[31..33].fill(255);
        for action in 0..MOST_ACTIONS {
            bytes[35 + 3 * action] = 1;
        }
        Self {
            bytes,
            len: 33 + 3 * n,
        }
    }

    fn bytes(&self) -> &[u8] {
        &self.bytes[..self.len]
    }
}

// ---- what is written

// What is held, as it is told.
trait Told: Copy {
    fn tell(self, output: &mut impl Write) -> io::Result<()>;
}

impl Told for Value {
    fn tell(self, output: &mut impl Write) -> io::Result<()> {
        let mut out = [0; 22];
        out[..2].copy_from_slice(&self.action.to_be_bytes());
        out[2..10].copy_from_slice(&self.tag.0.to_be_bytes());
        out[10..14].copy_from_slice(&self.tag.1.to_be_bytes());
        out[14..].copy_from_slice(&self.value.to_be_bytes());
        streams::write_all(output, &out)
    }
}

impl Told for Bucket {
    fn tell(self, output: &mut impl Write) -> io::Result<()> {
        let mut out = [0; 14];
        out[..2].copy_from_slice(&self.action.to_be_bytes());
        out[2..10].copy_from_slice(&self.offset.to_be_bytes());
        out[10..].copy_from_slice(&self.next.to_be_bytes());
        streams::write_all(output, &out)
    }
}

// How many are held, and each of them; what the last write came to.
fn tell_held<T: Told>(output: &mut impl Write, all: &[T], held: usize) -> io::Result<()> {
    let mut told = streams::write_all(output, &((held % 65536) as u16).to_be_bytes());
    for x in all.iter().take(held) {
        told = x.tell(output);
    }
    told
}

fn answer_bytes(answer: Result<Answer, Refusal>) -> [u8; 9] {
    let (kind, n) = match answer {
        Ok(Answer::Done) => (0, 0),
        Ok(Answer::Number(n)) => (1, n),
        Ok(Answer::Nothing) => (2, 0),
        Err(refusal) => (3, u8::from(refusal) as u64),
    };
    let mut out = [0; 9];
    out[0] = kind;
    out[1..].copy_from_slice(&n.to_be_bytes());
    out
}

// ---- the calls

// The next call of the input on the store: its head in one read and its operands in another, whose fields are then taken. None where the input ends before.
fn call(input: &mut impl Read, store: Store, image: &[u8]) -> Option<Answered> {
    let [op, high, low] = bytes::<3>(input)?;
    let action = u16::from_be_bytes([high, low]);
    Some(match op {
        1 => {
            let operands = bytes::<20>(input)?;
            let mut fields = operands.as_slice();
            store.push(image, action, tag(&mut fields)?, number(&mut fields)?)
        }
        2 => {
            let operands = bytes::<12>(input)?;
            let mut fields = operands.as_slice();
            store.next_microstep(image, action, number(&mut fields)?, microstep(&mut fields)?)
        }
        5 => store.clear(image, action),
        6 => {
            let operands = bytes::<24>(input)?;
            let mut fields = operands.as_slice();
            store.move_value(image, action, tag(&mut fields)?, tag(&mut fields)?)
        }
        _ => {
            let operands = bytes::<12>(input)?;
            let at = tag(&mut operands.as_slice())?;
            match op {
                3 => store.take(image, action, at),
                4 => store.clear_older_than(image, action, at),
                _ => store.move_value(image, action, at, GlobalTag::ZERO),
            }
        }
    })
}

// One script; None at the end of the input, and where the last of what is held cannot be written. A call that is cut off, or whose answer cannot be written,
// leaves the store as it was.
fn script(input: &mut impl Read, output: &mut impl Write) -> Option<()> {
    let head = bytes::<4>(input)?;
    let mut fields = head.as_slice();
    let image = Image::new(short(&mut fields)?);
    let calls = short(&mut fields)?;
    let mut store = Store::new();
    for _ in 0..calls {
        if let Some(called) = call(input, store, image.bytes())
            && streams::write_all(output, &answer_bytes(called.answer)).is_ok()
        {
            store = called.store;
        }
    }
    tell_held(output, &store.values, store.held).ok()?;
    tell_held(output, &store.buckets, store.open).ok()
}

fn main(rt: HostRuntime) {
    let mut input = rt.stdin();
    let mut output = rt.stdout();
    for _ in 0..u32::MAX {
        if script(&mut input, &mut output).is_none() {
            return;
        }
    }
}
