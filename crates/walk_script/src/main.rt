// Runs a script of level walks through `LevelWalk`: document 01, "All else is run against the Rust".
// Standard input, big-endian, for each walk: number of reactions 2, the level of each 1, the start set (number of keys 2, keys 2 each),
// the keys added before the first level (likewise), number of steps 2, and for each step the keys added after the level of that number,
// from 0 (likewise).
// Standard output, for each walk: number of levels given 2, and for each: level 1, number of keys 2, keys 2 each, ascending.
#![tactic(auto)]

ghost use Rattle.std.specs.Prelude.{◌≤◌};

use key_set::KeySet;
use level_walk::LevelWalk;
use std::io::{Read, Write};

// The most reactions of a walk.
const REACTIONS: usize = 128;

// The most levels of a walk.
const LEVELS: usize = 256;

// Room for an answer: each key is given once, so there are no more levels than keys.
const ROOM: usize = 1024;

// What is answered of a walk so far; what has no room is dropped.
#[derive(Drop)]
struct Answer {
    bytes: [u8; ROOM],
    end: usize,
    ghost in_room: { end ≤ 1024 },
}

impl Answer {
    // Room for the number of levels, and no levels yet.
    fn new() -> Self {
        Self {
            bytes: [0; ROOM],
            end: 2,
        }
    }

    fn put(&mut self, b: u8) {
        if self.end < ROOM {
            self.bytes[self.end] = b;
            self.end += 1;
        }
    }

    fn put_short(&mut self, n: usize) {
        self.put((n / 256 % 256) as u8);
        self.put((n % 256) as u8);
    }

    fn put_keys(&mut self, keys: KeySet) {
        self.put_short(keys.size());
        for k in keys.keys() {
            self.put_short(k);
        }
    }

    // All bytes, with the number of levels before them.
    fn told(&mut self, levels: u16) -> &[u8] {
        let [high, low] = levels.to_be_bytes();
        self.bytes[0] = high;
        self.bytes[1] = low;
        &self.bytes[..self.end]
    }
}

// A walk, and how many steps the script still has for it.
#[derive(Drop)]
struct Walking {
    walk: LevelWalk,
    steps: u16,
}

impl Walking {
    // Keys added after a level, where the script has some.
    fn add(&mut self, input: &mut impl Read, levels: &[u8]) {
        if 0 < self.steps {
            self.walk = self.walk.add(keys(input), levels).walk;
            self.steps -= 1;
        }
    }

    // The whole walk: how many levels it gave.
    fn run(&mut self, input: &mut impl Read, levels: &[u8], answer: &mut Answer) -> u16 {
        for n in 0..LEVELS {
            let step = self.walk.next(levels);
            self.walk = step.next;
            let Some(level) = step.given else {
                return n as u16;
            };
            answer.put(level);
            answer.put_keys(step.keys);
            self.add(input, levels);
        }
        LEVELS as u16
    }

    // The steps after the walk's end are added too, and a level is asked for after each: how many that gives.
    fn run_late(&mut self, input: &mut impl Read, levels: &[u8]) -> u16 {
        let mut given = 0u16;
        for _ in 0..self.steps {
            self.add(input, levels);
            if self.walk.next(levels).given.is_some() {
                given = given.wrapping_add(1);
            }
        }
        given
    }
}

// The next two bytes of the script.
fn short(input: &mut impl Read) -> u16 {
    let mut bytes = [0; 2];
    streams::read_full(input, &mut bytes);
    u16::from_be_bytes(bytes)
}

// The next set of the script.
fn keys(input: &mut impl Read) -> KeySet {
    let mut set = KeySet::empty();
    for _ in 0..short(input) {
        set = set.insert(short(input) as usize);
    }
    set
}

// One walk; None at the end of the script, where there is no room for its reactions, and where its answer cannot be written.
fn walked(input: &mut impl Read, output: &mut impl Write) -> Option<()> {
    let mut head = [0; 2];
    if streams::read_full(input, &mut head) < head.len() {
        return None;
    }
    let reactions = u16::from_be_bytes(head) as usize;
    let mut room = [0; REACTIONS];
    if room.len() < reactions {
        return None;
    }
    let levels = &mut room[..reactions];
    streams::read_full(input, levels);
    let start = LevelWalk::new(keys(input), levels).walk;
    let mut walking = Walking {
        walk: start.add(keys(input), levels).walk,
        steps: short(input),
    };
    let mut answer = Answer::new();
    let given = walking.run(input, levels, &mut answer);
    let late = walking.run_late(input, levels);
    streams::write_all(output, answer.told(given.wrapping_add(late))).ok()
}

fn main(rt: HostRuntime) {
    let mut input = rt.stdin();
    let mut output = rt.stdout();
    for _ in 0..u64::MAX {
        if walked(&mut input, &mut output).is_none() {
            return;
        }
    }
}
