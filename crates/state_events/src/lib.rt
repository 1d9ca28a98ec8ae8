// A waiting event as a slot, and slots as rows of words in one array that can be lent: document 01, "in order of acceptance, one slot each".
// Only `slot_of`, `due_at` and `words_of` know the words; every other function speaks of rows or of slots.
// Another width or a new field of an event comes in here: these three, NUMBER_WORDS, and `numbers_of` and `decode` of specs/.
#![tactic(auto)]

ghost use Rattle.std.specs.Prelude.{◌≡◌, ◌<◌, get_or, set, replicate};
ghost use Rattle.std.proofs.lemmas.List.Edits.{sets};
ghost use Rattle.lists.specs.Rows.{row_at, put_row};
ghost use Rattle.state_events.specs.Slots.{blank, number_words, slot_words, head_word, steps_word, encode, decode, events_of, Whole, Held, event_of, IsDue, room_for_events};
ghost use Rattle.machine.specs.State.{ordinary};

use key_set::KeySet;
use tags::{GlobalTag, QueueTag};

// How many events there is room for; `room_for_events` of specs/ says the same.
pub const ROOM_FOR_EVENTS: usize = 256;

// How many words a slot takes before those of its reactions; `number_words` of specs/ says the same.
const NUMBER_WORDS: usize = 4;

// How many words a slot takes; `slot_words` of specs/ says the same.
pub const SLOT_WORDS: usize = NUMBER_WORDS + key_set::WORDS;

// All slots.
pub const ROOM: usize = ROOM_FOR_EVENTS * SLOT_WORDS;

// The number that means "no scope" (the root's queue) and "no action".
// Stays: the definitions' `root` is this number, and rows of words hold it.
pub const NONE: u16 = 65535;

// An event: its queue (a scope, or NONE for the root), its tag on that queue's scale, reactions, flags, and perhaps an action
// (or NONE) with its stored tag.
#[derive(Clone, Copy)]
pub struct Slot {
    pub queue: u16,
    pub tag: QueueTag,
    pub reactions: KeySet,
    pub terminal: bool,
    pub control: bool,
    pub network: bool,
    pub action: u16,
    pub stored: GlobalTag,
}

// When an event is due: its queue, and its tag on that queue's scale.
#[derive(Clone, Copy)]
pub struct Due {
    pub queue: u16,
    pub tag: QueueTag,
}

impl Slot {
    pub fn blank() -> Self
        ensures { event_of result ≡ blank }
    {
        Self {
            queue: 0,
            tag: QueueTag::ZERO,
            reactions: KeySet::empty(),
            terminal: false,
            control: false,
            network: false,
            action: 0,
            stored: GlobalTag::ZERO,
        }
    }

    // Neither terminal nor control.
    pub fn is_ordinary(self) -> bool
        ensures { result ≡ ordinary (event_of self) }
    {
        !self.terminal && !self.control
    }
}

// Queue, action and the three flags in one word.
fn head_word(s: Slot) -> u64
    ensures { result ≡ head_word (event_of s) }
{
    u64::from(s.queue)
        + u64::from(s.action) * 65536
        + u64::from(s.terminal) * 4294967296
        + u64::from(s.control) * 8589934592
        + u64::from(s.network) * 17179869184
}

// The microsteps of the tag and of the stored tag in one word.
fn steps_word(s: Slot) -> u64
    ensures { result ≡ steps_word (event_of s) }
{
    u64::from(s.tag.1) + u64::from(s.stored.1) * 4294967296
}

// The words of row k.
// Stays: word by word, here and below; a copied slice takes three times the instructions of `copy_slot`.
fn row_at(rows: &[u64; ROOM], k: usize) -> [u64; SLOT_WORDS]
    requires { k < room_for_events }
    ensures { result ≡ row_at slot_words rows.now k }
{
    let b = k * SLOT_WORDS;
    let mut row = [0; SLOT_WORDS];
    for j in 0..SLOT_WORDS {
        row[j] = rows[b + j];
    }
    row
}

// These words as row k.
fn put_row(rows: &mut [u64; ROOM], k: usize, row: [u64; SLOT_WORDS])
    requires { k < room_for_events }
    ensures { rows.new ≡ put_row slot_words rows.old k row }
{
    let b = k * SLOT_WORDS;
    for j in 0..SLOT_WORDS {
        rows[b + j] = row[j];
    }
}

// The slot that a row's words are.
fn slot_of(row: [u64; SLOT_WORDS]) -> Slot
    ensures { event_of result ≡ decode row }
{
    let head = row[0];
    let steps = row[2];
    let mut reactions = KeySet::empty();
    reactions.words.copy_from_slice(&row[NUMBER_WORDS..]);
    Slot {
        queue: (head % 65536) as u16,
        tag: QueueTag(row[1], (steps % 4294967296) as u32),
        reactions,
        terminal: head / 4294967296 % 2 == 1,
        control: head / 8589934592 % 2 == 1,
        network: head / 17179869184 % 2 == 1,
        action: (head / 65536 % 65536) as u16,
        stored: GlobalTag(row[3], (steps / 4294967296 % 4294967296) as u32),
    }
}

// A slot's words, which `slot_of` reads again.
fn words_of(s: Slot) -> [u64; SLOT_WORDS]
    ensures { (result ≡ encode (event_of s)) × (decode result ≡ event_of s) }
{
    let mut row = [0; SLOT_WORDS];
    row[0] = head_word(s);
    row[1] = s.tag.0;
    row[2] = steps_word(s);
    row[3] = s.stored.0;
    row[NUMBER_WORDS..].copy_from_slice(&s.reactions.words);
    row
}

// The slot in row k; past the last row a blank one.
pub fn slot_at(rows: &[u64; ROOM], k: usize) -> Slot
    ensures { event_of result ≡ get_or (events_of rows.now) k blank }
{
    if ROOM_FOR_EVENTS <= k {
        return Slot::blank();
    }
    slot_of(row_at(rows, k))
}

// When the event in row k is due: what a search through the rows asks for.
pub fn due_at(rows: &[u64; ROOM], k: usize) -> Due
    requires { k < room_for_events }
    ensures { IsDue result (get_or (events_of rows.now) k blank) }
{
    let b = k * SLOT_WORDS;
    Due {
        queue: (rows[b] % 65536) as u16,
        tag: QueueTag(rows[b + 1], (rows[b + 2] % 4294967296) as u32),
    }
}

// The slot into row k; past the last row nothing changes.
pub fn put_slot(rows: &mut [u64; ROOM], k: usize, s: Slot)
    requires { Whole rows.old }
    ensures { Held rows.new (set (events_of rows.old) k (event_of s)) }
{
    if ROOM_FOR_EVENTS <= k {
        return;
    }
    put_row(rows, k, words_of(s));
}

// The slot of row `from` into row `to`.
pub fn copy_slot(rows: &mut [u64; ROOM], from: usize, to: usize)
    requires whole { Whole rows.old }
    requires from_lt_room_for_events { (from < room_for_events) × (to < room_for_events) }
    ensures { Held rows.new (set (events_of rows.old) to (get_or (events_of rows.old) from blank)) }
{
    put_row(rows, to, row_at(rows, from));
}

// Rows of blank slots.
pub fn blank_rows() -> [u64; ROOM]
    ensures { Held result (replicate room_for_events blank) }
{
    [0; ROOM]
}
