// What a transition goes by, worked out before anything changes: document 01, "the target scope's subtree, itself included", "Set the reactor's mode".
// What the steps must know of the table and the modes comes in here, in `Plan` and `Planned`; they take it by value and work nothing out twice.
#![tactic(auto)]

ghost use Rattle.std.specs.Prelude.{◌≡◌, Bool, true, ◌&&◌, ℕ, map, ◌≤◌, ◌<◌, length};
ghost use Rattle.lists.specs.Lists.{from};
ghost use Rattle.table_rows.specs.Lineage.{in_subtree};
ghost use Rattle.table_schedule.specs.Schedule.{is_active};
ghost use Rattle.table.specs.Check.{is_table};
ghost use Rattle.state_room.specs.Padded.{padded};
ghost use Rattle.machine.specs.Table.{scopes as scopes_in, reactors as reactors_in};
ghost use Rattle.call_transition_plan.specs.Plans.{Marks, mode_after, Planned};
ghost use Rattle.state_room.specs.PartRows.{most_reactors};

use key_set::KeySet;
use state_room::MOST_REACTORS;
use tags::GlobalTag;

// The tag c, the target scope, the scopes of the reset subtree (none for a history transition), those that are active from now on,
// and the modes from now on.
#[derive(Clone, Copy)]
pub struct Plan {
    pub c: GlobalTag,
    pub target: u16,
    pub inside: KeySet,
    pub now: KeySet,
    pub modes: [u16; MOST_REACTORS],
}

// What is asked for: a reactor, the mode it goes to, whether by reset, and the current tag c.
#[derive(Clone, Copy)]
pub struct Request {
    pub reactor: u16,
    pub mode: u16,
    pub reset: bool,
    pub c: GlobalTag,
}

// ---- sets of scopes

// The scopes of the table that pass.
pub fn scopes_where<F: Fn(u16) -> bool>(image: &[u8], passes: F) -> KeySet
    requires image_value { is_table image.now ≡ true }
    requires passes_callable { F.IsAlwaysCallable passes }
    ensures { (test : ℕ → Bool) → ((i : ℕ) (b : Bool) → F.post passes i b → b ≡ test i) → Marks test (scopes_in image.now) result.words }
{
    let mut set = KeySet::empty();
    for i in 0..table_rows::count(image, table_rows::SCOPE) {
        set = set.insert_if(passes(i), i as usize);
    }
    set
}

// The target scope's subtree, itself included; none for a history transition.
fn subtree_if(image: &[u8], reset: bool, target: u16) -> KeySet
    requires { is_table image.now ≡ true }
    ensures { Marks (λ i. reset && in_subtree image.now target i) (scopes_in image.now) result.words }
{
    if reset {
        scopes_where(image, |i| table_rows::in_subtree(image, target, i))
    } else {
        KeySet::empty()
    }
}

// The scopes that are active by the modes.
fn active_scopes(image: &[u8], modes: &[u16]) -> KeySet
    requires { is_table image.now ≡ true }
    ensures { Marks (is_active image.now modes.now) (scopes_in image.now) result.words }
{
    scopes_where(image, |i| table_schedule::is_active(image, modes, i))
}

// ---- modes

// A reactor's mode from now on: the one asked for, its initial one in the reset subtree, or as it was.
fn mode_after(image: &[u8], modes: &[u16; MOST_REACTORS], request: Request, reactor: u16) -> u16
    requires { (length modes.now ≡ most_reactors) × (reactor < most_reactors) }
    ensures { result ≡ mode_after image.now modes.now request reactor }
{
    if reactor == request.reactor {
        return request.mode;
    }
    if !request.reset {
        return modes[reactor as usize];
    }
    let target = table_rows::mode_scope(image, request.mode);
    let root = table_rows::root_scope(image, reactor);
    if table_rows::under(image, target, root) {
        table_rows::initial_mode(image, reactor)
    } else {
        modes[reactor as usize]
    }
}

// The modes of the first n reactors from now on, and zeros behind them.
fn new_modes(
    image: &[u8],
    modes: &[u16; MOST_REACTORS],
    request: Request,
    n: u16,
) -> [u16; MOST_REACTORS]
    requires { (length modes.now ≡ most_reactors) × (n ≤ most_reactors) }
    ensures { result ≡ padded 0 most_reactors (map (mode_after image.now modes.now request) (from 0 n)) }
{
    let mut out = [0u16; MOST_REACTORS];
    for i in 0..n {
        out[i as usize] = mode_after(image, modes, request, i);
    }
    out
}

// ---- the plan

pub fn plan_of(image: &[u8], modes: &[u16; MOST_REACTORS], request: Request) -> Plan
    requires image_value { is_table image.now ≡ true }
    requires modes_len { length modes.now ≡ most_reactors }
    requires reactor_bound { request.reactor < reactors_in image.now }
    ensures { Planned image.now modes.now request result }
{
    let target = table_rows::mode_scope(image, request.mode);
    let inside = subtree_if(image, request.reset, target);
    let n = table_rows::count(image, table_rows::REACTOR);
    let after = new_modes(image, modes, request, n);
    let now = active_scopes(image, &after[..n as usize]);
    Plan {
        c: request.c,
        target,
        inside,
        now,
        modes: after,
    }
}
