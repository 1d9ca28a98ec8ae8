// One room for the state: document 01, "The plain machine", its events, scopes, modes, work and values, in rows of words that are lent, and a ledger
// of all that lies in no row. What the rows hold, and what a call does to them, is in specs/. A new part of the state comes in here: in the ledger or
// as a row, in `Holds` and in `state_in`; crates above speak of these alone.
#![tactic(auto)]

ghost use Rattle.std.specs.Prelude.{◌≡◌};
ghost use Rattle.state_room.specs.PartRows.{bare_ledger};

use store_words::{BucketRows, ValueRows};

// How many reactors there may be; `most_reactors` of specs/ says the same.
pub const MOST_REACTORS: usize = 16;

// The words of all rows, for which a spare has room; `spare_room` of specs/ says the same.
pub const SPARE: usize = state_scopes::ROOM
    + state_events::ROOM
    + store_words::ROOM_FOR_ENTRIES * store_words::VALUE_WORDS
    + store_words::ROOM_FOR_ENTRIES * store_words::BUCKET_WORDS;

// How many events wait, and how many of them are ordinary.
#[derive(Clone, Copy)]
pub struct Counts {
    pub waiting: usize,
    pub work: usize,
}

// All of the state that lies in no row: a mode for each reactor, zeros behind them, how many events wait and how much is held.
#[derive(Clone, Copy)]
pub struct Ledger {
    pub modes: [u16; MOST_REACTORS],
    pub counts: Counts,
    pub held: store_calls::Counts,
}

// These modes, and nothing waits or is held.
pub fn bare_ledger(modes: [u16; MOST_REACTORS]) -> Ledger
    ensures { result ≡ bare_ledger modes }
{
    Ledger {
        modes,
        counts: Counts {
            waiting: 0,
            work: 0,
        },
        held: store_calls::Counts {
            values: 0,
            buckets: 0,
        },
    }
}

// The whole state by value: its rows of words, blanks behind what is in use, and the ledger.
#[derive(Clone, Copy)]
pub struct Room {
    pub scopes: [u64; state_scopes::ROOM],
    pub events: [u64; state_events::ROOM],
    pub values: ValueRows,
    pub buckets: BucketRows,
    pub ledger: Ledger,
}
