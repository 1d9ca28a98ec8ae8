// The state rules on lent rows: document 01, "State rules", and 11, "the state handed in breaks a state rule".
// A new rule comes in here beside the machine's `rules`; callers ask `keeps_rules` alone.
#![tactic(auto)]

ghost use Rattle.std.specs.Prelude.{◌≡◌, ◌&&◌, map, ◌≤◌, leb, length, get_or, take};
ghost use Rattle.lists.specs.Lists.{every, count, from};
ghost use Rattle.tags.specs.Tags.{within_clock};
ghost use Rattle.machine.specs.State.{ordinary};
ghost use Rattle.machine.specs.Machine.{mode_rules, scope_rules, event_rules, queue_rules, image_rules};
ghost use Rattle.table_rows.specs.Limits.{limits};
ghost use Rattle.state_events.specs.Slots.{events_of, event_of, room_for_events};
ghost use Rattle.state_scopes.specs.Scopes.{most_scopes, scopes_of, blank};
ghost use Rattle.state_room.specs.PartRows.{most_reactors, waiting_in};
ghost use Rattle.state_room.specs.Holds.{rows_of};
ghost use Rattle.state_rules.specs.Sound.{keys_below, event_keeps, scopes_sound, queue_sound, queue_rules_in, sound_in};

use key_set::KeySet;
use state_events::Slot;
use state_room::{Counts, Ledger, Room};
use tags::Scale;

// ---- modes

#[tactic(auto, using(std::proofs::lemmas::Bool::Decides::nat_tests), unfolding(machine::specs::Machine::mode_rules))]
fn mode_exists(image: &[u8], m: u16) -> bool
    ensures { result ≡ mode_rules image.now m }
{
    m == table_rows::NONE || m < table_rows::count(image, table_rows::MODE)
}

fn modes_exist(image: &[u8], modes: &[u16]) -> bool
    ensures { result ≡ every (mode_rules image.now) modes.now }
{
    modes.iter().all(|&m| mode_exists(image, m))
}

// ---- scopes

fn clocks_within(scopes: &[u64; state_scopes::ROOM], n: usize) -> bool
    requires { n ≤ most_scopes }
    ensures { result ≡ every (λ x. within_clock x.clock) (take n (scopes_of scopes.now)) }
{
    (0..n).all(|i| state_scopes::scope_at(scopes, i).clock.within())
}

// Scope i is active exactly if the modes say so, and counts as active before where it is.
#[tactic(auto, using(std::proofs::lemmas::Bool::Decides::nat_tests), unfolding(machine::specs::Machine::scope_rules))]
fn scope_keeps(image: &[u8], modes: &[u16], scopes: &[u64; state_scopes::ROOM], i: u16) -> bool
    ensures { result ≡ scope_rules image.now modes.now (scopes_of scopes.now) i }
{
    let s = state_scopes::scope_at(scopes, usize::from(i));
    let current = table_schedule::is_active(image, modes, i);
    if s.active {
        current && s.ever
    } else {
        !current
    }
}

fn scopes_keep(image: &[u8], modes: &[u16], scopes: &[u64; state_scopes::ROOM], n: u16) -> bool
    ensures { result ≡ every (scope_rules image.now modes.now (scopes_of scopes.now)) (from 0 n) }
{
    (0..n).all(|i| scope_keeps(image, modes, scopes, i))
}

// ---- events

// Every key of the set is below n: there is none from n on.
fn keys_exist(set: KeySet, n: u16) -> bool
    ensures { result ≡ keys_below set.words n }
{
    set.lowest_from(usize::from(n)).is_none()
}

// All keys exist, and tags are within limits.
#[tactic(auto, using(std::proofs::lemmas::Bool::Decides::nat_tests), unfolding(machine::specs::Machine::event_rules))]
fn is_proper(image: &[u8], s: Slot) -> bool
    ensures { result ≡ event_rules image.now (event_of s) }
{
    s.tag.within()
        && keys_exist(s.reactions, table_rows::count(image, table_rows::REACTION))
        && (s.action == state_events::NONE
            || s.action < table_rows::count(image, table_rows::ACTION) && s.stored.within())
}

// Only scopes with a parent have local events.
#[tactic(auto, using(std::proofs::lemmas::Bool::Decides::nat_tests), unfolding(machine::specs::Machine::queue_rules, machine::specs::Table::has_parent))]
fn has_queue(image: &[u8], s: Slot) -> bool
    ensures { result ≡ queue_rules image.now (event_of s) }
{
    s.queue == state_events::NONE
        || s.queue < table_rows::count(image, table_rows::SCOPE)
            && table_rows::parent(image, s.queue) != table_rows::NONE
}

// An event in an active scope maps within limits.
#[tactic(auto, using(std::proofs::lemmas::Bool::Decides::nat_tests), unfolding(machine::specs::Machine::image_rules))]
fn has_image(scopes: &[u64; state_scopes::ROOM], s: Slot) -> bool
    ensures { result ≡ image_rules (scopes_of scopes.now) (event_of s) }
{
    if s.queue == state_events::NONE {
        return true;
    }
    let x = state_scopes::scope_at(scopes, usize::from(s.queue));
    !x.active || x.clock.to_global(s.tag.as_local()).is_ok()
}

#[tactic(auto, using(std::proofs::lemmas::Bool::Decides::nat_tests), unfolding(crate::specs::Sound::event_keeps))]
fn event_keeps(image: &[u8], scopes: &[u64; state_scopes::ROOM], s: Slot) -> bool
    ensures { result ≡ event_keeps image.now (scopes_of scopes.now) (event_of s) }
{
    is_proper(image, s) && has_queue(image, s) && has_image(scopes, s)
}

fn events_keep(
    image: &[u8],
    scopes: &[u64; state_scopes::ROOM],
    events: &[u64; state_events::ROOM],
    n: usize,
) -> bool
    requires { n ≤ room_for_events }
    ensures { result ≡ every (event_keeps image.now (scopes_of scopes.now)) (take n (events_of events.now)) }
{
    (0..n).all(|i| event_keeps(image, scopes, state_events::slot_at(events, i)))
}

// How many of the events are ordinary.
fn ordinary_work(events: &[u64; state_events::ROOM], n: usize) -> usize
    requires { n ≤ room_for_events }
    ensures { result ≡ count ordinary (take n (events_of events.now)) }
{
    let mut work = 0;
    for i in 0..n {
        work += usize::from(state_events::slot_at(events, i).is_ordinary());
    }
    work
}

// ---- all but the store's

#[tactic(auto, using(std::proofs::lemmas::Bool::Decides::nat_tests), unfolding(crate::specs::Sound::scopes_sound))]
fn scopes_sound(image: &[u8], modes: &[u16], scopes: &[u64; state_scopes::ROOM], n: u16) -> bool
    requires { n ≤ most_scopes }
    ensures { result ≡ scopes_sound image.now modes.now (scopes_of scopes.now) n }
{
    modes_exist(image, modes)
        && clocks_within(scopes, usize::from(n))
        && scopes_keep(image, modes, scopes, n)
}

#[tactic(auto, using(std::proofs::lemmas::Bool::Decides::nat_tests), unfolding(crate::specs::Sound::queue_sound))]
fn queue_sound(
    image: &[u8],
    scopes: &[u64; state_scopes::ROOM],
    events: &[u64; state_events::ROOM],
    counts: Counts,
) -> bool
    requires { counts.waiting ≤ room_for_events }
    ensures { result ≡ queue_sound image.now (scopes_of scopes.now) (waiting_in events.now counts) counts.work }
{
    events_keep(image, scopes, events, counts.waiting)
        && counts.work == ordinary_work(events, counts.waiting)
}

// The table's rules first, then those on modes, scopes and events; of the scopes and modes those that the table has are looked at.
fn queue_rules(
    image: &[u8],
    scopes: &[u64; state_scopes::ROOM],
    events: &[u64; state_events::ROOM],
    ledger: Ledger,
) -> bool
    ensures { result ≡ (leb ledger.counts.waiting (limits image.now).waiting && queue_rules_in image.now ledger.modes scopes.now events.now ledger.counts) }
{
    let counts = ledger.counts;
    if table_rows::most_waiting(image) < counts.waiting || !table::accepted(image) {
        return false;
    }
    let n = table_rows::count(image, table_rows::SCOPE);
    let reactors = usize::from(table_rows::count(image, table_rows::REACTOR));
    scopes_sound(image, &ledger.modes[..reactors], scopes, n)
        && queue_sound(image, scopes, events, counts)
}

// ---- all

// The state handed in keeps the state rules.
pub fn keeps_rules(image: &[u8], room: &Room) -> bool
    ensures { result ≡ sound_in image.now (rows_of room.now) }
{
    let ledger = room.ledger;
    let limit = table_rows::most_held(image);
    let actions = table_rows::count(image, table_rows::ACTION);
    queue_rules(image, &room.scopes, &room.events, ledger)
        && store_rules::keeps_rules(&room.values, &room.buckets, ledger.held, limit, actions)
}
