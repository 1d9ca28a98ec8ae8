// Goes through the same public calls of `Manager` by value lap after lap, to be timed beside the Rust: document 01, "Arrays by value .. inside the manager".
// Standard input, big-endian, at most 65,536 bytes: number of laps 4, how many bytes the records have that fill the manager 4, then a gate day, an image and its
// records. Those behind the first make up a lap; where there are none, a lap asks for the least tag.
// Standard output: 8 bytes mixed of every answer, in order.
#![tactic(auto)]

ghost use Rattle.std.specs.Prelude.{◌<◌, IfSome, length};

use call_perform::Answer;
use call_push::ActionPush;
use call_transition_plan::Request;
use day_records::Parsed;
use manager::{Answered, Manager, Popped};
use refusals::Refusal;
use tags::GlobalTag;

// Most bytes of the input.
const MOST: usize = 65536;

// Where the day begins.
const DAY: usize = 8;

// All answers so far, mixed into one number.
#[derive(Clone, Copy)]
struct Sum(u64);

impl Sum {
    // One more number: turned, added and changed by fixed bits, so that neither order nor number is lost when laps repeat.
    fn mix(&mut self, n: u64) {
        self.0 = self.0.rotate_left(5).wrapping_add(n) ^ 0x9e37_79b9_7f4a_7c15;
    }

    fn mix_tag(&mut self, tag: GlobalTag) {
        self.mix(tag.0);
        self.mix(u64::from(tag.1));
    }

    fn mix_refusal(&mut self, why: Refusal) {
        self.mix(5);
        self.mix(u64::from(u8::from(why)));
    }

    // An answer: its case, then what it says.
    fn mix_answer(&mut self, answer: Result<Answer, Refusal>) {
        match answer {
            Ok(Answer::Done) => self.mix(0),
            Ok(Answer::Nothing) => self.mix(1),
            Ok(Answer::Tag(tag)) => {
                self.mix(2);
                self.mix_tag(tag);
            }
            Ok(Answer::Flag(flag)) => {
                self.mix(3);
                self.mix(u64::from(flag));
            }
            Ok(Answer::Number(n)) => {
                self.mix(4);
                self.mix(n);
            }
            Err(why) => self.mix_refusal(why),
        }
    }

    // What a pop found: a ready event's tag and how many action keys it has.
    fn mix_popped(&mut self, popped: &Popped) {
        match &popped.ready {
            Ok(Some(ready)) => {
                self.mix(6);
                self.mix_tag(ready.tag);
                self.mix(ready.count as u64);
            }
            Ok(None) => self.mix(1),
            Err(why) => self.mix_refusal(*why),
        }
    }
}

// The manager over its image, and what it has answered.
#[derive(Drop)]
struct Laps<'a> {
    image: &'a [u8],
    manager: Manager,
    sum: Sum,
}

impl Laps<'_> {
    // After a call's answer.
    fn answer(&mut self, answered: Answered) {
        self.sum.mix_answer(answered.answer);
        self.manager = answered.manager;
    }

    // One record, by the public call that it asks for; its keys lie before others.
    fn call(&mut self, parsed: Parsed, keys: &[u16; day_records::MOST_KEYS]) {
        let manager = self.manager;
        let image = self.image;
        let answered = match parsed {
            Parsed::Plain(tag, terminal, n) => {
                manager.push_event(image, tag, terminal, first(keys, n))
            }
            Parsed::Network(tag, n) => manager.push_network_event(image, tag, first(keys, n)),
            Parsed::Control(tag) => manager.push_control_event(image, tag),
            Parsed::Action(action, tag, terminal, n) => {
                let push = ActionPush {
                    action,
                    tag,
                    terminal,
                };
                manager.push_action_event(image, push, first(keys, n))
            }
            Parsed::Transition(reactor, mode, reset, c) => {
                let request = Request {
                    reactor,
                    mode,
                    reset,
                    c,
                };
                manager.apply_transition(image, request)
            }
            Parsed::Pop => {
                let popped = manager.pop_next_event(image);
                self.sum.mix_popped(&popped);
                self.manager = popped.manager;
                return;
            }
        };
        self.answer(answered);
    }

    // The least tag.
    fn peek(&mut self) {
        let answered = self.manager.peek_tag(self.image);
        self.answer(answered);
    }

    // Records one after the other, up to the first that is cut short.
    fn call_all(&mut self, records: &[u8]) {
        let mut keys = [0; day_records::MOST_KEYS];
        let mut left = records;
        while let Some((body, rest)) = first_record(left) {
            if let Ok(parsed) = day_records::parse(body, &mut keys) {
                self.call(parsed, &keys);
            }
            left = rest;
        }
    }
}

// So many of the keys, or all.
fn first(keys: &[u16; day_records::MOST_KEYS], n: u16) -> &[u16] {
    &keys[..keys.len().min(usize::from(n))]
}

// The body of the first record, and what stands behind it; None where it is cut short.
fn first_record(records: &[u8]) -> Option<(&[u8], &[u8])>
    ensures { IfSome result (λ parts. length parts.1.now < length records.now) }
{
    let (length, behind) = records.split_first_chunk::<{ day_records::LENGTH_BYTES }>()?;
    behind.split_at_checked(u32::from_be_bytes(*length) as usize)
}

// The records that fill the manager, then all laps.
fn run(input: &[u8]) -> Option<u64> {
    let count = table_rows::four_bytes(input, 0);
    let filling = table_rows::four_bytes(input, 4) as usize;
    let size = table_rows::four_bytes(input, DAY) as usize;
    let (day, records) = input.split_at_checked(DAY + day_records::LENGTH_BYTES + size)?;
    let (filling, lap) = records.split_at_checked(filling)?;
    let image = &day[DAY..];
    let mut laps = Laps {
        image,
        manager: Manager::fresh(image).manager,
        sum: Sum(0),
    };
    laps.call_all(filling);
    for _ in 0..count {
        if lap.is_empty() {
            laps.peek();
        } else {
            laps.call_all(lap);
        }
    }
    Some(laps.sum.0)
}

fn main(rt: HostRuntime) {
    let mut input = [0; MOST];
    let end = streams::read_full(&mut rt.stdin(), &mut input);
    let sum = run(&input[..end]).unwrap_or(0);
    streams::write_all(&mut rt.stdout(), &sum.to_be_bytes()).ok();
}
