// What a transition starts, on the room's rows: document 01, "If any scope active for the first time has startup rows" (4), "for each timer row" (5).
// A refusal ends a step; its caller then puts the other rows as given back. Each part takes the whole room, so that its contract is a step of the machine.
// Where a timer's event waits, and at which tag, is in `timer_slot` and `timer_image`; callers use `firsts`, `startups` and `restarts`.
#![tactic(auto)]

ghost use Rattle.std.specs.Prelude.{◌≡◌, true, ◌≤◌, OnErr};
ghost use Rattle.tags.specs.Tags.{tag_only};
ghost use Rattle.tags.specs.Views.{of_global, mapped_global};
ghost use Rattle.table.specs.Check.{is_table};
ghost use Rattle.machine.specs.Table.{scopes as scopes_in};
ghost use Rattle.machine.specs.State.{tally, accepted};
ghost use Rattle.machine.specs.Transition as T;
ghost use Rattle.state_events.specs.Slots.{event_of, room_for_events};
ghost use Rattle.state_room.specs.Holds.{rows_of, Held, Steps};
ghost use Rattle.call_transition_plan.specs.Plans.{Marks};
ghost use Rattle.call_transition_events.specs.Starting.{first_time, startups_on, restarts_on, some_row, value_step, event_step, put_step};
ghost use Rattle.call_transition_events.specs.Starting.{image_in, timer_step, startups_at, resets_on};

use call_transition_plan::Plan;
use key_set::KeySet;
use refusals::Refusal;
use state_events::Slot;
use state_room::{Counts, Room};
use tags::{GlobalTag, Mapped, QueueTag, Scale};

// ---- one value, one event

// An action's 0 value, or 9.
fn hold(image: &[u8], room: &mut Room, action: u16, tag: GlobalTag) -> Result<(), Refusal>
    requires { Held image.now (rows_of room.old) }
    ensures steps { Steps image.now (T.held image.now action (of_global tag)) (rows_of room.old) result (rows_of room.new) }
    ensures scopes { room.new.scopes ≡ room.old.scopes }
{
    let limit = table_rows::most_held(image);
    let pushed = store_calls::push(
        &mut room.values,
        &mut room.buckets,
        room.ledger.held,
        limit,
        action,
        tag,
        0,
    );
    room.ledger.held = pushed.held;
    pushed.outcome
}

fn more_work(s: Slot, work: usize) -> usize
    requires { work ≤ room_for_events }
    ensures { result ≡ tally (event_of s) work }
{
    if s.is_ordinary() { work + 1 } else { work }
}

// One more event waits, or 8.
fn accept(image: &[u8], room: &mut Room, s: Slot) -> Result<(), Refusal>
    requires { Held image.now (rows_of room.old) }
    ensures steps { Steps image.now (λ t. accepted image.now t (event_of s)) (rows_of room.old) result (rows_of room.new) }
    ensures scopes { room.new.scopes ≡ room.old.scopes }
{
    let before = room.ledger.counts;
    let work = more_work(s, before.work);
    let limit = table_rows::most_waiting(image);
    let waiting = state_queues::accept(&mut room.events, before.waiting, limit, s)?;
    room.ledger.counts = Counts { waiting, work };
    Ok(())
}

// A plain ordinary event of the root.
fn plain(there: GlobalTag, reactions: KeySet) -> Slot
    ensures { event_of result ≡ T.plain_event (of_global there) reactions.words }
{
    Slot {
        queue: state_events::NONE,
        tag: QueueTag::of_global(there),
        reactions,
        terminal: false,
        control: false,
        network: false,
        action: state_events::NONE,
        stored: GlobalTag::ZERO,
    }
}

// ---- 4. a scope that is active for the first time

// Scope i is active now and never was before.
fn is_first(scopes: &[u64; state_scopes::ROOM], active: KeySet, i: u16) -> bool
    ensures { result ≡ first_time active.words scopes.now i }
{
    active.contains(i as usize) && !state_scopes::scope_at(scopes, i as usize).ever
}

// The scopes that are active from now on and never were before, as the rows say before the scopes change.
pub fn firsts(image: &[u8], scopes: &[u64; state_scopes::ROOM], plan: Plan) -> KeySet
    requires { is_table image.now ≡ true }
    ensures { Marks (first_time plan.now.words scopes.now) (scopes_in image.now) result.words }
{
    call_transition_plan::scopes_where(image, |i| is_first(scopes, plan.now, i))
}

// The scopes whose rows are taken, and the tag of a startup.
#[derive(Clone, Copy)]
struct Chosen {
    set: KeySet,
    there: GlobalTag,
}

// A startup row's value, where its scope is chosen.
fn hold_startup(image: &[u8], room: &mut Room, f: Chosen, j: u16) -> Result<(), Refusal>
    requires { Held image.now (rows_of room.old) }
    ensures steps { Steps image.now (λ s. value_step image.now f s j) (rows_of room.old) result (rows_of room.new) }
    ensures scopes { room.new.scopes ≡ room.old.scopes }
{
    if !f.set.contains(table_rows::startup_scope(image, j) as usize) {
        return Ok(());
    }
    let action = table_rows::startup_action(image, j);
    hold(image, room, action, f.there)
}

// A scope's event, where it is chosen.
fn accept_startup(image: &[u8], room: &mut Room, f: Chosen, i: u16) -> Result<(), Refusal>
    requires { Held image.now (rows_of room.old) }
    ensures steps { Steps image.now (λ s. event_step image.now f s i) (rows_of room.old) result (rows_of room.new) }
    ensures scopes { room.new.scopes ≡ room.old.scopes }
{
    if !f.set.contains(i as usize) {
        return Ok(());
    }
    let s = plain(f.there, table_schedule::startups(image, i));
    accept(image, room, s)
}

// ---- 5. a timer

fn timer_scope(image: &[u8], j: u16) -> u16
    ensures { result ≡ T.timer_scope image.now j }
{
    table_rows::action_scope(image, table_rows::timer_action(image, j))
}

// A timer's tag on the global scale, by its scope's clock. No scope that is restarted runs on global time itself: `timer_parent` of machine_rules_kept.
fn timer_image(image: &[u8], scopes: &[u64; state_scopes::ROOM], j: u16) -> Result<Mapped, Refusal>
    ensures { tag_only (mapped_global result) ≡ image_in image.now scopes.now j }
{
    let s = state_scopes::scope_at(scopes, timer_scope(image, j) as usize);
    s.clock.to_global(table_schedule::timer_tag(image, j))
}

fn timer_slot(image: &[u8], j: u16, g: GlobalTag) -> Slot
    ensures { event_of result ≡ T.timer_event image.now j (of_global g) }
{
    let action = table_rows::timer_action(image, j);
    Slot {
        queue: timer_scope(image, j),
        tag: QueueTag::of_local(table_schedule::timer_tag(image, j)),
        reactions: table_schedule::triggers(image, action),
        terminal: false,
        control: false,
        network: false,
        action,
        stored: g,
    }
}

// An event's 0 value, then the event.
fn put(image: &[u8], room: &mut Room, s: Slot) -> Result<(), Refusal>
    requires { Held image.now (rows_of room.old) }
    ensures steps { Steps image.now (put_step image.now (event_of s)) (rows_of room.old) result (rows_of room.new) }
    ensures scopes { room.new.scopes ≡ room.old.scopes }
{
    hold(image, room, s.action, s.stored)?;
    accept(image, room, s)
}

// A timer anew, where its scope is in the reset subtree: a tag before its value, a value before its event.
fn start_timer(image: &[u8], room: &mut Room, inside: KeySet, j: u16) -> Result<(), Refusal>
    requires { Held image.now (rows_of room.old) }
    ensures steps { Steps image.now (λ s. timer_step image.now inside.words s j) (rows_of room.old) result (rows_of room.new) }
    ensures scopes { room.new.scopes ≡ room.old.scopes }
{
    if !inside.contains(timer_scope(image, j) as usize) {
        return Ok(());
    }
    let at = timer_image(image, &room.scopes, j)?.tag;
    let s = timer_slot(image, j, at);
    put(image, room, s)
}

// ---- the two steps

// Some row of the kind has a scope of the set in its first field. An empty set, as of the first-time scopes on most days, has none.
fn some_row(image: &[u8], kind: u8, set: KeySet) -> bool
    ensures { result ≡ some_row image.now kind set.words }
{
    if set.is_empty() {
        return false;
    }
    for j in 0..table_rows::count(image, kind) {
        if set.contains(table_rows::field16(image, kind, j, 0) as usize) {
            return true;
        }
    }
    false
}

// All values, then all events.
fn start_all(image: &[u8], room: &mut Room, f: Chosen) -> Result<(), Refusal>
    requires { Held image.now (rows_of room.old) }
    ensures steps { Steps image.now (startups_at image.now f) (rows_of room.old) result (rows_of room.new) }
    ensures scopes { room.new.scopes ≡ room.old.scopes }
{
    for j in 0..table_rows::count(image, table_rows::STARTUP) {
        hold_startup(image, room, f, j)?;
    }
    for i in 0..table_rows::count(image, table_rows::SCOPE) {
        accept_startup(image, room, f, i)?;
    }
    Ok(())
}

// Step 4: the startups of the first-time scopes, at c delayed by zero. The scopes stay as they are; refused, the ledger too.
pub fn startups(image: &[u8], room: &mut Room, first: KeySet, plan: Plan) -> Result<(), Refusal>
    requires { Held image.now (rows_of room.old) }
    ensures steps { Steps image.now (startups_on image.now plan first.words) (rows_of room.old) result (rows_of room.new) }
    ensures scopes { room.new.scopes ≡ room.old.scopes }
    ensures ledger { OnErr result (room.new.ledger ≡ room.old.ledger) }
{
    if !some_row(image, table_rows::STARTUP, first) {
        return Ok(());
    }
    let there = plan.c.delay()?;
    let given = room.ledger;
    if let Err(refusal) = start_all(image, room, Chosen { set: first, there }) {
        room.ledger = given;
        return Err(refusal);
    }
    Ok(())
}

// One event with the reset reactions of the subtree, at c delayed by zero.
fn reset_reactions(image: &[u8], room: &mut Room, plan: Plan) -> Result<(), Refusal>
    requires { Held image.now (rows_of room.old) }
    ensures steps { Steps image.now (resets_on image.now plan) (rows_of room.old) result (rows_of room.new) }
    ensures scopes { room.new.scopes ≡ room.old.scopes }
{
    if !some_row(image, table_rows::RESET, plan.inside) {
        return Ok(());
    }
    let there = plan.c.delay()?;
    let event = plain(there, table_schedule::resets(image, plan.target));
    accept(image, room, event)
}

// The timers anew, then the reset reactions.
fn restart_all(image: &[u8], room: &mut Room, plan: Plan) -> Result<(), Refusal>
    requires { Held image.now (rows_of room.old) }
    ensures steps { Steps image.now (restarts_on image.now plan) (rows_of room.old) result (rows_of room.new) }
    ensures scopes { room.new.scopes ≡ room.old.scopes }
{
    for j in 0..table_rows::count(image, table_rows::TIMER) {
        start_timer(image, room, plan.inside, j)?;
    }
    reset_reactions(image, room, plan)
}

// Step 5. The scopes stay as they are; refused, the ledger too.
pub fn restarts(image: &[u8], room: &mut Room, plan: Plan) -> Result<(), Refusal>
    requires { Held image.now (rows_of room.old) }
    ensures steps { Steps image.now (restarts_on image.now plan) (rows_of room.old) result (rows_of room.new) }
    ensures scopes { room.new.scopes ≡ room.old.scopes }
    ensures ledger { OnErr result (room.new.ledger ≡ room.old.ledger) }
{
    let before = room.ledger;
    if let Err(refusal) = restart_all(image, room, plan) {
        room.ledger = before;
        return Err(refusal);
    }
    Ok(())
}
