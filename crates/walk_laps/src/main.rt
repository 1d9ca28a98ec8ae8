// Goes through the same level walks lap after lap, to be timed beside the Rust: document 02, C-13, "Faster level walks".
// Standard input, big-endian, at most 65,536 bytes: number of laps 4, number of reactions 2, the level of each 1, then the walks' sets (number of keys 2,
// keys 2 each).
// Standard output: 8 bytes mixed of every level and key, in the order in which they were given.
#![tactic(auto)]

ghost use Rattle.std.specs.Prelude.{◌<◌, ◌≤◌, length};

use key_set::KeySet;
use level_walk::LevelWalk;

// Most bytes of the input.
const MOST: usize = 65536;

// Where the levels begin.
const LEVELS: usize = 6;

// All levels and keys so far, mixed into one number.
#[derive(Clone, Copy)]
struct Sum(u64);

impl Sum {
    // One more number: turned, added and changed by fixed bits, so that neither order nor number is lost when laps repeat.
    fn mix(&mut self, n: u64) {
        self.0 = self.0.rotate_left(5).wrapping_add(n) ^ 0x9e37_79b9_7f4a_7c15;
    }

    // The keys of a level.
    fn mix_keys(&mut self, keys: KeySet) {
        for k in keys.keys() {
            self.mix(k as u64);
        }
    }

    // The levels of a walk, of which there are at most as many as bytes.
    fn mix_walk(&mut self, keys: KeySet, levels: &[u8]) {
        let mut walk = LevelWalk::new(keys, levels).walk;
        for _ in 0..=u8::MAX {
            let step = walk.next(levels);
            let Some(level) = step.given else {
                return;
            };
            self.mix(u64::from(level));
            self.mix_keys(step.keys);
            walk = step.next;
        }
    }

    // The walks of one lap.
    fn mix_lap(&mut self, sets: &[u8], levels: &[u8])
        requires { length sets.now ≤ 65536 }
    {
        let mut at = 0;
        // Stays: a turn goes on by the length that its set says, which no range or iterator says more plainly.
        while at < sets.len() {
            let count = table_rows::two_bytes(sets, at) as usize;
            let keys = at + 2;
            self.mix_walk(set_at(sets, keys, count), levels);
            at = keys + 2 * count;
        }
    }
}

// The set of so many keys at a place.
fn set_at(sets: &[u8], at: usize, count: usize) -> KeySet
    requires { (at ≤ 65538) × (count < 65536) }
{
    let mut set = KeySet::empty();
    for i in 0..count {
        set = set.insert(table_rows::two_bytes(sets, at + 2 * i) as usize);
    }
    set
}

// All laps.
fn laps(input: &[u8]) -> u64
    requires { length input.now ≤ 65536 }
{
    let mut sum = Sum(0);
    let reactions = table_rows::two_bytes(input, 4) as usize;
    let sets = LEVELS + reactions;
    if sets <= input.len() {
        for _ in 0..table_rows::four_bytes(input, 0) {
            sum.mix_lap(&input[sets..], &input[LEVELS..sets]);
        }
    }
    sum.0
}

fn main(rt: HostRuntime) {
    let mut input = [0; MOST];
    let end = streams::read_full(&mut rt.stdin(), &mut input);
    let sum = laps(&input[..end]);
    streams::write_all(&mut rt.stdout(), &sum.to_be_bytes()).ok();
}
