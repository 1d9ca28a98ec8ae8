// Heads, and the least of them: document 01, "Head: root, its least tag; active scope, its least local tag, mapped."
// Which head comes first is decided here; pops and the tellings use `root_head`, `scope_head` and `peek`. Whether a head's events were held back is `is_held`.
#![tactic(auto)]

ghost use Rattle.std.specs.Prelude.{◌≡◌, cond, get_or};
ghost use Rattle.tags.specs.Views.{of_queue};
ghost use Rattle.machine.specs.Heads.{no_tag, least, root_of, mapped_head, scope_head_of, held_at, sooner};
ghost use Rattle.state_scopes.specs.Scopes.{most_scopes, scopes_of, scope_of};
ghost use Rattle.state_queues.specs.Queue.{of_earliest, leasts_of};
ghost use Rattle.state_heads.specs.Found.{head_of, head_here, head_in, least_head};

use state_scopes::Scope;
use tags::{GlobalTag, QueueTag};

// A queue, its least tag on its own scale, and what that is on the global scale.
#[derive(Clone, Copy)]
pub struct HeadAt {
    pub queue: u16,
    pub stamp: QueueTag,
    pub tag: GlobalTag,
}

// A scope's least tag, mapped; nothing where the image overruns.
fn mapped_head(s: Scope, i: u16, t: QueueTag) -> Option<HeadAt>
    ensures { head_of result ≡ mapped_head (scope_of s).clock i (least (of_queue t)) }
{
    let m = s.clock.to_global(t.as_local()).ok()?;
    Some(HeadAt {
        queue: i,
        stamp: t,
        tag: m.tag,
    })
}

// Events at a head were held back, by their scope's clock; the root's never are.
pub fn is_held(scopes: &[u64; state_scopes::ROOM], h: HeadAt) -> bool
    ensures { result ≡ held_at (scopes_of scopes.now) h.queue (of_queue h.stamp) }
{
    if h.queue == state_events::NONE {
        return false;
    }
    let s = state_scopes::scope_at(scopes, usize::from(h.queue));
    tags::is_held(s.clock.to_global(h.stamp.as_local()))
}

// The head of a scope by its least tag; one that is not active has none.
fn scope_head_of(s: Scope, i: u16, t: QueueTag) -> Option<HeadAt>
    ensures { head_of result ≡ scope_head_of (scope_of s) i (least (of_queue t)) }
{
    if s.active { mapped_head(s, i, t) } else { None }
}

// A head takes the place of the best so far, if there is one.
fn is_sooner(x: HeadAt, best: Option<HeadAt>) -> bool
    ensures { sooner (head_of best) (head_here x) ≡ cond result (head_here x) (head_of best) }
{
    best.is_none_or(|b| x.tag < b.tag)
}

// Scope i's head. A scope in which nothing waits is not looked at.
fn head_in(
    heads: &[u64; state_queues::HEADS],
    scopes: &[u64; state_scopes::ROOM],
    i: u16,
) -> Option<HeadAt>
    ensures { head_of result ≡ head_in (scopes_of scopes.now) (leasts_of heads.now) i }
{
    let k = usize::from(i);
    let t = state_queues::least_at(heads, k)?;
    scope_head_of(state_scopes::scope_at(scopes, k), i, t)
}

// The least head of the first n scopes, of the lowest-numbered such scope.
pub fn scope_head(
    heads: &[u64; state_queues::HEADS],
    scopes: &[u64; state_scopes::ROOM],
    n: u16,
) -> Option<HeadAt>
    ensures { head_of result ≡ least_head (scopes_of scopes.now) (leasts_of heads.now) n }
{
    let mut best = None;
    for i in 0..n {
        if let Some(x) = head_in(heads, scopes, i) {
            if is_sooner(x, best) {
                best = Some(x);
            }
        }
    }
    best
}

// The root's head.
pub fn root_head(heads: &[u64; state_queues::HEADS]) -> Option<HeadAt>
    ensures { head_of result ≡ root_of (get_or (leasts_of heads.now) most_scopes no_tag) }
{
    let t = state_queues::least_at(heads, state_scopes::MOST_SCOPES)?;
    Some(HeadAt {
        queue: state_events::NONE,
        stamp: t,
        tag: t.as_global(),
    })
}

// The least head over root and active scopes.
pub fn peek(
    heads: &[u64; state_queues::HEADS],
    scopes: &[u64; state_scopes::ROOM],
    n: u16,
) -> Option<HeadAt>
    ensures { head_of result ≡ sooner (root_of (get_or (leasts_of heads.now) most_scopes no_tag)) (least_head (scopes_of scopes.now) (leasts_of heads.now) n) }
{
    let root = root_head(heads);
    match scope_head(heads, scopes, n) {
        Some(x) if is_sooner(x, root) => Some(x),
        _ => root,
    }
}
