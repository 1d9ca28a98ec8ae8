// The scopes of a manager as rows of words in one array that can be lent: document 01, "A scope clock has ..", "active now, ever active".
// Only `scope_at` and `put_scope` know the words: a new field of a scope comes in here, in both, in SCOPE_WORDS, and in `encode` and `decode`.
#![tactic(auto)]

ghost use Rattle.std.specs.Prelude.{◌≡◌, ◌<◌, get_or, set, replicate};
ghost use Rattle.machine.specs.State.{fresh_scope};
ghost use Rattle.state_scopes.specs.Scopes.{most_scopes, scope_of, blank, marks_word, scopes_of, Whole, Held};

use tags::{GlobalTag, LocalTag, ScopeClock};

// How many scopes there may be; `most_scopes` of specs/ says the same.
pub const MOST_SCOPES: usize = 32;

// How many words a scope takes; `scope_words` of specs/ says the same.
pub const SCOPE_WORDS: usize = 7;

// All scopes.
pub const ROOM: usize = MOST_SCOPES * SCOPE_WORDS;

#[derive(Clone, Copy)]
pub struct Scope {
    pub clock: ScopeClock,
    pub active: bool,
    pub ever: bool,
}

impl Scope {
    // One that starts active or not.
    pub fn fresh(active: bool) -> Self
        ensures { scope_of result ≡ fresh_scope active }
    {
        Self {
            clock: ScopeClock::fresh(active),
            active,
            ever: active,
        }
    }

    pub fn blank() -> Self
        ensures { scope_of result ≡ blank }
    {
        Self::fresh(false)
    }
}

// The three marks in one word.
fn marks_word(s: Scope) -> u64
    ensures { result ≡ marks_word (scope_of s) }
{
    u64::from(s.clock.allowed) + u64::from(s.active) * 2 + u64::from(s.ever) * 4
}

// The scope in row k; past the last row a blank one.
pub fn scope_at(rows: &[u64; ROOM], k: usize) -> Scope
    ensures { scope_of result ≡ get_or (scopes_of rows.now) k blank }
{
    if MOST_SCOPES <= k {
        return Scope::blank();
    }
    let b = k * SCOPE_WORDS;
    let marks = rows[b];
    Scope {
        clock: ScopeClock {
            activation_global: GlobalTag(rows[b + 1], (rows[b + 2] % 4294967296) as u32),
            activation_local: LocalTag(rows[b + 3], (rows[b + 4] % 4294967296) as u32),
            allowed: marks % 2 == 1,
            suspended_local: LocalTag(rows[b + 5], (rows[b + 6] % 4294967296) as u32),
        },
        active: marks / 2 % 2 == 1,
        ever: marks / 4 % 2 == 1,
    }
}

// The scope into row k; past the last row nothing changes.
pub fn put_scope(rows: &mut [u64; ROOM], k: usize, s: Scope)
    requires { Whole rows.old }
    ensures { Held rows.new (set (scopes_of rows.old) k (scope_of s)) }
{
    if MOST_SCOPES <= k {
        return;
    }
    let b = k * SCOPE_WORDS;
    let c = s.clock;
    let row = [
        marks_word(s),
        c.activation_global.0,
        u64::from(c.activation_global.1),
        c.activation_local.0,
        u64::from(c.activation_local.1),
        c.suspended_local.0,
        u64::from(c.suspended_local.1),
    ];
    rows[b..b + SCOPE_WORDS].copy_from_slice(&row);
}

// Rows of blank scopes.
pub fn blank_rows() -> [u64; ROOM]
    ensures { Held result (replicate most_scopes blank) }
{
    [0; ROOM]
}
