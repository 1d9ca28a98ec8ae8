// Document 01, "One table, one proof over it: m1 to m11 and s1 to s3": the table in specs/, the proof in proofs/. A new worked example is a row of `table` there.
// And what `==` and `<` answer, on each scale of its own: the definitions' words, offset first.
#![tactic(auto)]

ghost use Rattle.std.specs.Prelude.{◌≡◌};
ghost use Rattle.tags.specs.Tags.{same_tag, earlier};
ghost use Rattle.tags.specs.Views.{of_global, of_local, of_queue};

use tags::{GlobalTag, LocalTag, QueueTag};

pub fn same_global(t: GlobalTag, u: GlobalTag) -> bool
    ensures { result ≡ same_tag (of_global t) (of_global u) }
{
    t == u
}

pub fn same_local(x: LocalTag, y: LocalTag) -> bool
    ensures { result ≡ same_tag (of_local x) (of_local y) }
{
    x == y
}

pub fn earlier_global(t: GlobalTag, u: GlobalTag) -> bool
    ensures { result ≡ earlier (of_global t) (of_global u) }
{
    t < u
}

pub fn earlier_local(x: LocalTag, y: LocalTag) -> bool
    ensures { result ≡ earlier (of_local x) (of_local y) }
{
    x < y
}

pub fn earlier_queue(v: QueueTag, w: QueueTag) -> bool
    ensures { result ≡ earlier (of_queue v) (of_queue w) }
{
    v < w
}
