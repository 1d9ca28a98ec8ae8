// Pushes over the events and scopes in lent rows: document 01, "Push (plain, network, control)", "Push of an action"; the contracts cite the machine.
// Refusals in their order: 5, 6, 7, 8. A new one comes in at its place in `root_made` and `action_made`; the event joins in `give`, and a new
// kind of push gets its variant of `Push` and its event in `event_of`. Callers lend every queue's least tag, which `push_with` keeps.
#![tactic(auto)]

ghost use Rattle.std.specs.Prelude.{◌≡◌, true, false, get_or, MatchResult};
ghost use Rattle.lists.specs.Walk as lists;
ghost use Rattle.refusals.specs.declared.Refusal.TheVariants as R;
ghost use Rattle.tags.specs.Views.{of_global, of_queue, mapped_local};
ghost use Rattle.machine.specs.Table.{set_of};
ghost use Rattle.machine.specs.State.{State};
ghost use Rattle.machine.specs.Machine.{keys_ok, root_made, to_root, local_tag, action_event, action_placed, action_made, perform};
ghost use Rattle.state_events.specs.Slots.{event_of};
ghost use Rattle.state_scopes.specs.Scopes.{scopes_of, blank};
ghost use Rattle.state_room.specs.PartRows.{Headed, Queued, Waits, Shows};
ghost use Rattle.call_push.specs.Pushes.{made_of, scope_for, made, call_of, pushed, left, Pushes};

use key_set::KeySet;
use refusals::Refusal;
use state_events::Slot;
use state_room::Counts;
use tags::{GlobalTag, LocalTag, QueueTag, Scale};

// An action's event: its action, the tag given, and whether it is terminal.
#[derive(Clone, Copy)]
pub struct ActionPush {
    pub action: u16,
    pub tag: GlobalTag,
    pub terminal: bool,
}

// What is pushed, at which tag and whether terminal; its reaction keys stand beside it. A control event has none.
#[derive(Clone, Copy)]
pub enum Push {
    Plain(GlobalTag, bool),
    Network(GlobalTag),
    Control(GlobalTag),
    Action(ActionPush),
}

// An event of the root without an action.
#[derive(Clone, Copy)]
struct RootPush {
    tag: GlobalTag,
    terminal: bool,
    control: bool,
    network: bool,
}

// ---- keys

// The set of some keys, or 5 where the table lacks one.
fn keys_of(image: &[u8], keys: &[u16]) -> Result<KeySet, Refusal>
    ensures { MatchResult result (λ set. (keys_ok image.now keys.now ≡ true) × (set.words ≡ set_of keys.now)) (λ n. (keys_ok image.now keys.now ≡ false) × (n ≡ R.Key)) }
{
    let n = table_rows::count(image, table_rows::REACTION);
    let mut set = KeySet::empty();
    for k in keys {
        if n <= *k {
            return Err(Refusal::Key);
        }
        set = set.insert(usize::from(*k));
    }
    Ok(set)
}

// ---- an event of the root

#[tactic(auto, unfolding(machine::specs::Machine::root_made))]
fn root_made(p: RootPush, set: KeySet) -> Result<Slot, Refusal>
    ensures { made_of result ≡ root_made true (of_global p.tag) set.words p.terminal p.control p.network }
{
    if !p.tag.within() {
        return Err(Refusal::ArgumentTag);
    }
    Ok(Slot {
        queue: state_events::NONE,
        tag: QueueTag::of_global(p.tag),
        reactions: set,
        terminal: p.terminal,
        control: p.control,
        network: p.network,
        action: state_events::NONE,
        stored: GlobalTag::ZERO,
    })
}

// ---- an action's event

// The scope's local tag; 7 if it overruns, or in an active scope its global image.
fn local_tag(scopes: &[u64; state_scopes::ROOM], i: u16, t: GlobalTag) -> Result<LocalTag, Refusal>
    ensures { mapped_local result ≡ local_tag (get_or (scopes_of scopes.now) i blank) (of_global t) }
{
    let s = state_scopes::scope_at(scopes, usize::from(i));
    let x = s.clock.to_local(t)?;
    if s.active && s.clock.to_global(x).is_err() {
        return Err(Refusal::MappedTag);
    }
    Ok(x)
}

// The action's events lie in the root's queue.
#[tactic(auto, using(std::proofs::lemmas::Bool::Decides::nat_tests), unfolding(machine::specs::Machine::to_root, machine::specs::Table::has_parent))]
fn to_root(image: &[u8], action: u16) -> bool
    ensures { result ≡ to_root image.now action }
{
    !table_rows::is_logical(image, action)
        || table_rows::parent(image, table_rows::action_scope(image, action)) == table_rows::NONE
        || !table_schedule::is_modal(image)
}

fn action_slot(p: ActionPush, set: KeySet, queue: u16, x: QueueTag) -> Slot
    ensures { event_of result ≡ action_event queue p.action (of_queue x) (of_global p.tag) p.terminal set.words }
{
    Slot {
        queue,
        tag: x,
        reactions: set,
        terminal: p.terminal,
        control: false,
        network: false,
        action: p.action,
        stored: p.tag,
    }
}

// To the root, or to its scope at the local tag.
fn placed(
    image: &[u8],
    scopes: &[u64; state_scopes::ROOM],
    p: ActionPush,
    set: KeySet,
) -> Result<Slot, Refusal>
    ensures { made_of result ≡ action_placed image.now (scope_for image.now scopes.now p.action) p.action (of_global p.tag) p.terminal set.words }
{
    if to_root(image, p.action) {
        let own = QueueTag::of_global(p.tag);
        return Ok(action_slot(p, set, state_events::NONE, own));
    }
    let scope = table_rows::action_scope(image, p.action);
    let x = local_tag(scopes, scope, p.tag)?;
    Ok(action_slot(p, set, scope, QueueTag::of_local(x)))
}

fn action_made(
    image: &[u8],
    scopes: &[u64; state_scopes::ROOM],
    p: ActionPush,
    keys: &[u16],
) -> Result<Slot, Refusal>
    ensures { made_of result ≡ action_made image.now (scope_for image.now scopes.now p.action) p.action (of_global p.tag) p.terminal (keys_ok image.now keys.now) (set_of keys.now) }
{
    if table_rows::count(image, table_rows::ACTION) <= p.action {
        return Err(Refusal::Key);
    }
    let set = keys_of(image, keys)?;
    if !p.tag.within() {
        return Err(Refusal::ArgumentTag);
    }
    placed(image, scopes, p, set)
}

// ---- accepting

// The event comes last, or 8; what waits then.
fn give(
    image: &[u8],
    events: &mut [u64; state_events::ROOM],
    counts: Counts,
    slot: Slot,
) -> Result<Counts, Refusal>
    requires { Waits events.old counts }
    ensures { (s : State) → Queued s.waiting s.work events.old counts → Pushes (pushed image.now s (lists.done (event_of slot))) counts result events.new }
{
    let limit = table_rows::most_waiting(image);
    let waiting = state_queues::accept(events, counts.waiting, limit, slot)?;
    let work = counts.work + usize::from(slot.is_ordinary());
    Ok(Counts { waiting, work })
}

// ---- the call

// The event of a push, or its refusal.
fn event_of(
    image: &[u8],
    scopes: &[u64; state_scopes::ROOM],
    push: Push,
    keys: &[u16],
) -> Result<Slot, Refusal>
    ensures { made_of result ≡ made image.now scopes.now push keys.now }
{
    match push {
        Push::Plain(tag, terminal) => {
            let p = RootPush {
                tag,
                terminal,
                control: false,
                network: false,
            };
            root_made(p, keys_of(image, keys)?)
        }
        Push::Network(tag) => {
            let p = RootPush {
                tag,
                terminal: false,
                control: false,
                network: true,
            };
            root_made(p, keys_of(image, keys)?)
        }
        Push::Control(tag) => {
            let p = RootPush {
                tag,
                terminal: false,
                control: true,
                network: false,
            };
            root_made(p, KeySet::empty())
        }
        Push::Action(p) => action_made(image, scopes, p, keys),
    }
}

// The push with its reaction keys: what waits then, or the refusal, which changes nothing. Every queue's least tag is lent, and kept.
pub fn push_with(
    image: &[u8],
    scopes: &[u64; state_scopes::ROOM],
    events: &mut [u64; state_events::ROOM],
    counts: Counts,
    heads: &mut [u64; state_queues::HEADS],
    push: Push,
    keys: &[u16],
) -> Result<Counts, Refusal>
    requires waits { Waits events.old counts }
    requires headed { Headed heads.old events.old counts }
    ensures pushes { (s : State) → Queued s.waiting s.work events.old counts → Shows s scopes.now → Pushes (perform image.now s (call_of push keys.now)) counts result events.new }
    ensures headed_2 { Headed heads.new events.new (left counts result) }
{
    let slot = event_of(image, scopes, push, keys)?;
    let after = give(image, events, counts, slot)?;
    state_queues::grow(heads, events, counts.waiting, after.waiting);
    Ok(after)
}
