// A fresh manager's room: document 01, "A fresh manager has the initial modes, and nothing waits or is held."
// What a new part of the state is at first comes in here, in `bare`; callers use `room` and `bare` alone.
#![tactic(auto)]

ghost use Rattle.std.specs.Prelude.{◌≡◌, true, map};
ghost use Rattle.lists.specs.Lists.{from};
ghost use Rattle.table_rows.specs.Rows.{initial_mode};
ghost use Rattle.table_schedule.specs.Schedule.{is_active};
ghost use Rattle.table.specs.Check.{is_table};
ghost use Rattle.machine.specs.Table.{scopes as scopes_in, reactors};
ghost use Rattle.machine.specs.State.{fresh_scope, fresh};
ghost use Rattle.state_room.specs.Padded.{padded};
ghost use Rattle.state_room.specs.PartRows.{Scoped, most_reactors};
ghost use Rattle.state_room.specs.Holds.{rows_of, Holds};
ghost use Rattle.state_fresh.specs.Fresh.{Bare};

use state_room::{MOST_REACTORS, Room};
use state_scopes::Scope;

// Each reactor's initial mode, zeros behind them.
fn modes(image: &[u8]) -> [u16; MOST_REACTORS]
    requires { is_table image.now ≡ true }
    ensures { result ≡ padded 0 most_reactors (map (initial_mode image.now) (from 0 (reactors image.now))) }
{
    let n = table_rows::count(image, table_rows::REACTOR);
    let mut out = [0; MOST_REACTORS];
    for i in 0..n {
        out[usize::from(i)] = table_rows::initial_mode(image, i);
    }
    out
}

// Each scope by these modes, blanks behind them.
fn scopes(image: &[u8], modes: &[u16]) -> [u64; state_scopes::ROOM]
    requires { is_table image.now ≡ true }
    ensures { Scoped (map (λ i. fresh_scope (is_active image.now modes.now i)) (from 0 (scopes_in image.now))) result }
{
    let n = table_rows::count(image, table_rows::SCOPE);
    let mut out = state_scopes::blank_rows();
    for i in 0..n {
        let active = table_schedule::is_active(image, modes, i);
        let s = Scope::fresh(active);
        state_scopes::put_scope(&mut out, usize::from(i), s);
    }
    out
}

// A room with these modes and scopes, in which nothing waits and nothing is held.
pub fn bare(modes: [u16; MOST_REACTORS], scopes: [u64; state_scopes::ROOM]) -> Room
    ensures { Bare modes scopes (rows_of result) }
{
    Room {
        scopes,
        events: state_events::blank_rows(),
        values: [0; store_words::ROOM_FOR_ENTRIES * store_words::VALUE_WORDS],
        buckets: [0; store_words::ROOM_FOR_ENTRIES * store_words::BUCKET_WORDS],
        ledger: state_room::bare_ledger(modes),
    }
}

// A fresh manager's room over an accepted table.
pub fn room(image: &[u8]) -> Room
    requires { is_table image.now ≡ true }
    ensures { Holds image.now (fresh image.now) (rows_of result) }
{
    let modes = modes(image);
    let n = usize::from(table_rows::count(image, table_rows::REACTOR));
    let scopes = scopes(image, &modes[..n]);
    bare(modes, scopes)
}
