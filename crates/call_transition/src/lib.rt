// A transition on the room's rows: document 01, "A transition (reactor, target, kind, current tag c), in order", or nothing changes.
// The order of the steps, and of 5, 10 and 6 before them, is here; each step has its crate. A refused one puts the rows as given back, here alone:
// those in use are saved in a lent spare before the steps.
#![tactic(auto)]

ghost use Rattle.std.specs.Prelude.{◌≡◌, ◌&&◌, ◌+◌, ◌≤◌, ltb, length, drop};
ghost use Rattle.std.proofs.Math.Seq.{paste};
ghost use Rattle.machine.specs.Table.{reactors, modes as modes_in};
ghost use Rattle.state_room.specs.PartRows.{spare_room};
ghost use Rattle.state_room.specs.Holds.{rows_of, Held, Steps, Performs, reply_of};
ghost use Rattle.call_transition_plan.specs.Plans.{Inner};
ghost use Rattle.call_transition.specs.Transiting.{call_of, refusal_of, turns_on, steps_on};
ghost use Rattle.call_transition.specs.Saving.{Few, Fit, fronts_of, saved_in};

use call_transition_plan::{Plan, Request};
use refusals::Refusal;
use state_room::{Ledger, Room};
use tags::Scale;

// ---- refusals before anything changes

fn is_known(image: &[u8], request: Request) -> bool
    ensures { result ≡ (ltb request.reactor (reactors image.now) && ltb request.mode (modes_in image.now)) }
{
    request.reactor < table_rows::count(image, table_rows::REACTOR)
        && request.mode < table_rows::count(image, table_rows::MODE)
}

// 5, 10, 6, in this order.
fn refusal_of(image: &[u8], request: Request) -> Result<(), Refusal>
    ensures { result ≡ refusal_of image.now request }
{
    if !is_known(image, request) {
        return Err(Refusal::Key);
    }
    if table_rows::mode_reactor(image, request.mode) != request.reactor {
        return Err(Refusal::TargetMode);
    }
    if !request.c.within() {
        return Err(Refusal::ArgumentTag);
    }
    Ok(())
}

// ---- the steps

// Steps 3 to 5. Which scopes are active for the first time is asked before step 3.
fn turns_on(image: &[u8], room: &mut Room, plan: Plan) -> Result<(), Refusal>
    requires { Held image.now (rows_of room.old) }
    ensures { Steps image.now (turns_on image.now plan) (rows_of room.old) result (rows_of room.new) }
{
    let first = call_transition_events::firsts(image, &room.scopes, plan);
    call_transition_scopes::turn_scopes(image, room, plan)?;
    call_transition_events::startups(image, room, first, plan)?;
    call_transition_events::restarts(image, room, plan)
}

// All steps but the modes, which are the plan's.
fn steps(image: &[u8], room: &mut Room, plan: Plan) -> Result<(), Refusal>
    requires inner { Inner image.now plan }
    requires held { Held image.now (rows_of room.old) }
    ensures { Steps image.now (steps_on image.now plan) (rows_of room.old) result (rows_of room.new) }
{
    call_transition_resets::reset(image, room, plan);
    turns_on(image, room, plan)
}

// ---- the rows as given

// How many words of each part are in use.
#[derive(Clone, Copy)]
struct Fronts {
    scopes: usize,
    events: usize,
    values: usize,
    buckets: usize,
}

fn fronts_of(image: &[u8], ledger: Ledger) -> Fronts
    requires { Few image.now ledger }
    ensures { (result ≡ fronts_of image.now ledger) × Fit result }
{
    let n = table_rows::count(image, table_rows::SCOPE) as usize;
    Fronts {
        scopes: n * state_scopes::SCOPE_WORDS,
        events: ledger.counts.waiting * state_events::SLOT_WORDS,
        values: ledger.held.values * store_words::VALUE_WORDS,
        buckets: ledger.held.buckets * store_words::BUCKET_WORDS,
    }
}

// The n words of one from a place on, over those of the other from a place on.
fn copy(to: &mut [u64], at: usize, from: &[u64], start: usize, n: usize)
    requires { (at + n ≤ length to.old) × (start + n ≤ length from.now) }
    ensures { to.new ≡ paste to.old at (drop start from.now) n }
{
    to[at..at + n].copy_from_slice(&from[start..start + n]);
}

// The rows in use, one part behind the other.
fn save(image: &[u8], room: &Room, spare: &mut [u64])
    requires held { Held image.now (rows_of room.now) }
    requires spare_room_in_bounds { spare_room ≤ length spare.old }
    ensures { saved_in (fronts_of image.now room.now.ledger) room.now.ledger spare.new ≡ rows_of room.now }
{
    let f = fronts_of(image, room.ledger);
    let a = f.scopes;
    let b = a + f.events;
    let c = b + f.values;
    copy(spare, 0, &room.scopes, 0, f.scopes);
    copy(spare, a, &room.events, 0, f.events);
    copy(spare, b, &room.values, 0, f.values);
    copy(spare, c, &room.buckets, 0, f.buckets);
}

// What was saved, and blanks behind it, under the ledger of then.
fn put_back(image: &[u8], room: &mut Room, ledger: Ledger, spare: &[u64])
    requires { Few image.now ledger × (spare_room ≤ length spare.now) }
    ensures { rows_of room.new ≡ saved_in (fronts_of image.now ledger) ledger spare.now }
{
    let f = fronts_of(image, ledger);
    let a = f.scopes;
    let b = a + f.events;
    let c = b + f.values;
    room.scopes = [0; state_scopes::ROOM];
    room.events = [0; state_events::ROOM];
    room.values = [0; store_words::ROOM_FOR_ENTRIES * store_words::VALUE_WORDS];
    room.buckets = [0; store_words::ROOM_FOR_ENTRIES * store_words::BUCKET_WORDS];
    room.ledger = ledger;
    copy(&mut room.scopes, 0, spare, 0, f.scopes);
    copy(&mut room.events, 0, spare, a, f.events);
    copy(&mut room.values, 0, spare, b, f.values);
    copy(&mut room.buckets, 0, spare, c, f.buckets);
}

// ---- the transition

// Done, or refused and all as it was. The spare's content, before and after, is nobody's.
pub fn apply_transition(
    image: &[u8],
    room: &mut Room,
    spare: &mut [u64],
    request: Request,
) -> Result<(), Refusal>
    requires held { Held image.now (rows_of room.old) }
    requires spare_room_in_bounds { spare_room ≤ length spare.old }
    ensures { Performs image.now (call_of request) (rows_of room.old) (reply_of result) (rows_of room.new) }
{
    refusal_of(image, request)?;
    let given = room.ledger;
    let plan = call_transition_plan::plan_of(image, &given.modes, request);
    save(image, room, spare);
    // Stays: tried `room.ledger.modes = plan.modes`, and the check has no proof yet of an array that goes from one field straight into another.
    let modes = plan.modes;
    room.ledger.modes = modes;
    let outcome = steps(image, room, plan);
    if outcome.is_err() {
        put_back(image, room, given, spare);
    }
    outcome
}
