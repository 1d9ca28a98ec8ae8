// Sets of keys over 64-bit words: document 01, "Set facts are proved for any number of words"; the set under key_set.rs (tinymap's `KeySet`).
// A key at or above KEYS is beyond the capacity: no set has it, and inserting it changes nothing.
// How many words there are comes in here, in WORDS and `word_count`; callers use the methods, and only state_events goes over the words.
#![tactic(auto)]

ghost use Rattle.std.specs.Prelude.{◌≡◌, cond, ◌/◌, ◌%◌, ◌^◌, eqb};
ghost use Rattle.std.specs.Iterator.{YieldsFirst, item_count};
ghost use Rattle.key_set.specs.Sets.{no_keys, has, keys_of, insert_key, union_of, lowest_from, size_of, is_empty_of, word_count};
ghost use Rattle.key_set.specs.Views.{found_of, keys_left};

// How many words a set has; `word_count` of specs/ says the same.
pub const WORDS: usize = 2;

// How many keys a set can have.
pub const KEYS: usize = WORDS * 64;

// A set of keys by value: key k is bit k % 64 of word k / 64.
#[derive(Clone, Copy)]
pub struct KeySet {
    pub words: [u64; WORDS],
}

// The keys of a set from `at` on, ascending.
#[derive(Clone, Copy)]
pub struct Keys {
    set: KeySet,
    at: usize,
}

impl Iterator for Keys {
    type Item = usize;

    ghost next_gives = { YieldsFirst keys_left };

    ghost remaining = { item_count keys_left };

    fn next(&mut self) -> Option<usize> {
        let k = self.set.lowest_from(self.at)?;
        self.at = k + 1;
        Some(k)
    }
}

// Key k's bit in word i: 0 in any word but its own.
fn bit_in(k: usize, i: usize) -> u64
    ensures { result ≡ cond (eqb (k / 64) i) (2 ^ (k % 64)) 0 }
{
    if k / 64 == i { 1 << (k % 64) } else { 0 }
}

impl KeySet {
    pub fn empty() -> Self
        ensures { result.words ≡ no_keys word_count }
    {
        Self { words: [0; WORDS] }
    }

    pub fn contains(self, k: usize) -> bool
        ensures { result ≡ has self.words k }
    {
        k / 64 < WORDS && (self.words[k / 64] >> (k % 64)) % 2 == 1
    }

    // Word by word: a word written at a computed place would keep the set out of registers.
    pub fn insert(self, k: usize) -> Self
        ensures { result.words ≡ insert_key self.words k }
    {
        let mut next = self;
        for (i, w) in next.words.iter_mut().enumerate() {
            *w |= bit_in(k, i);
        }
        next
    }

    pub fn insert_if(self, test: bool, k: usize) -> Self
        ensures { result.words ≡ cond test (insert_key self.words k) self.words }
    {
        if test { self.insert(k) } else { self }
    }

    pub fn union(self, other: KeySet) -> Self
        ensures { result.words ≡ union_of self.words other.words }
    {
        let mut next = self;
        for (i, w) in next.words.iter_mut().enumerate() {
            *w |= other.words[i];
        }
        next
    }

    // The keys, ascending: the one way to go over a set.
    pub fn keys(self) -> Keys
        ensures { keys_left result ≡ keys_of self.words }
    {
        Keys { set: self, at: 0 }
    }

    // The lowest key at or above k, by trailing zeros.
    pub fn lowest_from(self, k: usize) -> Option<usize>
        ensures { found_of result ≡ lowest_from self.words k }
    {
        let mut at = k;
        for (i, w) in self.words.iter().enumerate() {
            let end = (i + 1) * 64;
            if at < end {
                let rest = w >> (at % 64);
                if rest != 0 {
                    return Some(at + rest.trailing_zeros() as usize);
                }
                at = end;
            }
        }
        None
    }

    // How many keys the set has, by the ones of its words.
    pub fn size(self) -> usize
        ensures { result ≡ size_of self.words }
    {
        let mut n = 0;
        for w in self.words {
            n += w.count_ones() as usize;
        }
        n
    }

    pub fn is_empty(self) -> bool
        ensures { result ≡ is_empty_of self.words }
    {
        self.lowest_from(0).is_none()
    }
}
