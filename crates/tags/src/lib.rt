// Tags on the two scales, and the scope clock that maps between them: document 01, "a local tag is never given where a global one is due".
// Carried over from boomerang_runtime's time.rs (`Tag`) and sched/modal.rs (`ScopeClockState`, both maps).
// What a map answers is changed here (`Mapped`, specs/Tags); callers use the maps, and name the scale that they mean.
#![tactic(auto)]

ghost use Rattle.std.specs.Prelude.{◌≡◌, ◌&&◌};
ghost use Rattle.tags.specs.Tags.{Tag, within, same_tag, delayed, shifted, at};
ghost use Rattle.lists.specs.Walk.{done};
ghost use Rattle.tags.specs.Tags.{within_clock, checked, held_in, to_local, to_global, global_to_local, local_to_global, fresh_clock};
ghost use Rattle.tags.specs.Views.{of_global, of_local, of_queue, of_clock, of_check, answered, mapped_global, mapped_local, place_of, settled_at, held_at, placed_at};

use refusals::Refusal;

// The limits of every scale: 2^62 - 1 nanoseconds, and the largest microstep.
pub const MAX_OFFSET: u64 = 4611686018427387903;

pub const MAX_MICROSTEP: u32 = 4294967295;

// A tag's scale: offset in nanoseconds, microstep. Each scale has a type of its own, and the scales stay apart.
pub trait Scale: Copy {
    ghost tag: { Self → Tag };

    fn new(offset: u64, microstep: u32) -> Self
        ensures { tag result ≡ at offset microstep };

    fn offset(self) -> u64
        ensures { result ≡ (tag self).offset };

    fn microstep(self) -> u32
        ensures { result ≡ (tag self).microstep };

    // The tag lies within the limits.
    fn within(self) -> bool
        ensures { result ≡ within (tag self) }
    {
        self.offset() <= MAX_OFFSET && self.microstep() <= MAX_MICROSTEP
    }

    // The tag delayed by zero: one microstep more, or 7; 6 of what is no tag.
    fn delay(self) -> Result<Self, Refusal>
        ensures { answered tag result ≡ delayed (tag self) }
    {
        if !self.within() {
            return Err(Refusal::ArgumentTag);
        }
        let step = self.microstep();
        if step < MAX_MICROSTEP {
            Ok(Self::new(self.offset(), step + 1))
        } else {
            Err(Refusal::MappedTag)
        }
    }
}

// A global tag. Order is offset first, here and below.
#[derive(Clone, Copy, PartialEq, Eq, PartialOrd, Ord)]
pub struct GlobalTag(pub u64, pub u32);

impl GlobalTag {
    pub const ZERO: GlobalTag = GlobalTag(0, 0);

    pub const MAX_OFFSET: u64 = MAX_OFFSET;

    pub const MAX_MICROSTEP: u32 = MAX_MICROSTEP;
}

impl Scale for GlobalTag {
    ghost tag = { of_global };

    fn new(offset: u64, microstep: u32) -> Self {
        GlobalTag(offset, microstep)
    }

    fn offset(self) -> u64 {
        self.0
    }

    fn microstep(self) -> u32 {
        self.1
    }
}

// A tag on a scope's own scale.
#[derive(Clone, Copy, PartialEq, Eq, PartialOrd, Ord)]
pub struct LocalTag(pub u64, pub u32);

impl LocalTag {
    pub const ZERO: LocalTag = LocalTag(0, 0);

    pub const MAX_OFFSET: u64 = GlobalTag::MAX_OFFSET;

    pub const MAX_MICROSTEP: u32 = GlobalTag::MAX_MICROSTEP;
}

impl Scale for LocalTag {
    ghost tag = { of_local };

    fn new(offset: u64, microstep: u32) -> Self {
        LocalTag(offset, microstep)
    }

    fn offset(self) -> u64 {
        self.0
    }

    fn microstep(self) -> u32 {
        self.1
    }
}

// The limits that the types supply are those of every scale.
const _: () = prove!(
    LocalTag::MAX_OFFSET == MAX_OFFSET && LocalTag::MAX_MICROSTEP == MAX_MICROSTEP
);

// A scope's clock: activation global G, activation local L, allowed, suspended local S.
#[derive(Clone, Copy)]
pub struct ScopeClock {
    pub activation_global: GlobalTag,
    pub activation_local: LocalTag,
    pub allowed: bool,
    pub suspended_local: LocalTag,
}

// What the map to global answers: the tag, and whether it was held back, that is moved to G delayed by zero.
#[derive(Clone, Copy)]
pub struct Mapped {
    pub tag: GlobalTag,
    pub held: bool,
}

// Held back; what is refused is not.
pub fn is_held(image: Result<Mapped, Refusal>) -> bool
    ensures { result ≡ held_in (mapped_global image) }
{
    image.is_ok_and(|m| m.held)
}

// ---- from one scale to the other

// A place on a scale before its limits are looked at: below zero, beyond 64 bits, or an offset and a microstep.
#[derive(Clone, Copy)]
enum Place {
    Below,
    Beyond,
    At(u64, u64),
}

// to + (x - from) of the microstep, where x has from's offset and at least its microstep; else x's own.
fn shifted_step<T: Scale, F: Scale>(to: T, from: F, x: F) -> u64
    ensures { result ≡ (shifted (T.tag to) (F.tag from) (F.tag x)).microstep }
{
    let (own, first) = (x.microstep(), from.microstep());
    if x.offset() == from.offset() && first <= own {
        u64::from(to.microstep()) + u64::from(own - first)
    } else {
        u64::from(own)
    }
}

// to + (x - from), with its sign.
fn shift<T: Scale, F: Scale>(to: T, from: F, x: F) -> Place
    ensures { result ≡ place_of (shifted (T.tag to) (F.tag from) (F.tag x)) }
{
    let step = shifted_step(to, from, x);
    let (to, from) = (to.offset(), from.offset());
    if from <= to {
        match x.offset().checked_add(to - from) {
            Some(offset) => Place::At(offset, step),
            None => Place::Beyond,
        }
    } else {
        match x.offset().checked_sub(from - to) {
            Some(offset) => Place::At(offset, step),
            None => Place::Below,
        }
    }
}

// A place as a tag, or 7.
fn settle<T: Scale>(p: Place) -> Result<T, Refusal>
    ensures { answered T.tag result ≡ settled_at p }
{
    match p {
        Place::Below | Place::Beyond => Err(Refusal::MappedTag),
        Place::At(offset, microstep) => {
            if offset <= MAX_OFFSET && microstep <= u64::from(MAX_MICROSTEP) {
                Ok(T::new(offset, microstep as u32))
            } else {
                Err(Refusal::MappedTag)
            }
        }
    }
}

// A place is earlier than G, or is G where that is not allowed.
fn is_held_back(g: GlobalTag, allowed: bool, p: Place) -> bool
    ensures { result ≡ held_at (of_global g) allowed p }
{
    match p {
        Place::Below => true,
        Place::Beyond => false,
        Place::At(offset, microstep) => {
            let (x, g) = ((offset, microstep), (g.0, u64::from(g.1)));
            x < g || x == g && !allowed
        }
    }
}

// A place that is held back becomes G delayed by zero.
fn hold_back(g: GlobalTag, allowed: bool, p: Place) -> Result<Mapped, Refusal>
    ensures { mapped_global result ≡ placed_at (of_global g) allowed p }
{
    let held = is_held_back(g, allowed, p);
    let tag = if held { g.delay()? } else { settle(p)? };
    Ok(Mapped { tag, held })
}

impl ScopeClock {
    // All tags zero, allowed if the scope starts active.
    pub fn fresh(active: bool) -> Self
        ensures { of_clock result ≡ fresh_clock active }
    {
        Self {
            activation_global: GlobalTag::ZERO,
            activation_local: LocalTag::ZERO,
            allowed: active,
            suspended_local: LocalTag::ZERO,
        }
    }

    // The clock's tags lie within the limits.
    pub fn within(self) -> bool
        ensures { result ≡ within_clock (of_clock self) }
    {
        self.activation_global.within()
            && self.activation_local.within()
            && self.suspended_local.within()
    }

    // G = L.
    fn is_level(self) -> bool
        ensures { result ≡ same_tag (of_global self.activation_global) (of_local self.activation_local) }
    {
        let (g, l) = (self.activation_global, self.activation_local);
        (g.0, g.1) == (l.0, l.1)
    }

    // G = L and allowed.
    fn is_identity(self) -> bool
        ensures { result ≡ (same_tag (of_global self.activation_global) (of_local self.activation_local) && self.allowed) }
    {
        self.is_level() && self.allowed
    }

    // Global g to local, of a clock and a tag that are not looked at.
    pub fn to_local(self, g: GlobalTag) -> Result<LocalTag, Refusal>
        ensures { mapped_local result ≡ to_local (of_clock self) (of_global g) }
    {
        if self.is_level() {
            return Ok(LocalTag(g.0, g.1));
        }
        settle(shift(self.activation_local, self.activation_global, g))
    }

    // Local x to global, of a clock and a tag that are not looked at; with whether it was held back.
    pub fn to_global(self, x: LocalTag) -> Result<Mapped, Refusal>
        ensures { mapped_global result ≡ to_global (of_clock self) (of_local x) }
    {
        if self.is_identity() {
            return Ok(Mapped {
                tag: GlobalTag(x.0, x.1),
                held: false,
            });
        }
        let p = shift(self.activation_global, self.activation_local, x);
        hold_back(self.activation_global, self.allowed, p)
    }

    // 11 of a clock beyond the limits, then 6 of a tag beyond them.
    fn check<T: Scale>(self, t: T) -> Result<(), Refusal>
        ensures { of_check result ≡ checked (of_clock self) (T.tag t) (done tt) }
    {
        if !self.within() {
            return Err(Refusal::StateRule);
        }
        if !t.within() {
            return Err(Refusal::ArgumentTag);
        }
        Ok(())
    }

    pub fn global_to_local(self, g: GlobalTag) -> Result<LocalTag, Refusal>
        ensures { mapped_local result ≡ global_to_local (of_clock self) (of_global g) }
    {
        self.check(g)?;
        self.to_local(g)
    }

    pub fn local_to_global(self, x: LocalTag) -> Result<Mapped, Refusal>
        ensures { mapped_global result ≡ local_to_global (of_clock self) (of_local x) }
    {
        self.check(x)?;
        self.to_global(x)
    }
}

// ---- a queue's own scale

// A tag on its queue's own scale: global in the root's queue, local in a scope's. Which of the two it is only the queue tells,
// so it is made from either by name, and turned back by name where the queue is known.
// Stays: `from` and `into` would not say which scale is meant.
#[derive(Clone, Copy, PartialEq, Eq, PartialOrd, Ord)]
pub struct QueueTag(pub u64, pub u32);

impl Scale for QueueTag {
    ghost tag = { of_queue };

    fn new(offset: u64, microstep: u32) -> Self {
        QueueTag(offset, microstep)
    }

    fn offset(self) -> u64 {
        self.0
    }

    fn microstep(self) -> u32 {
        self.1
    }
}

impl QueueTag {
    pub const ZERO: QueueTag = QueueTag(0, 0);

    // For the root's queue.
    pub fn of_global(t: GlobalTag) -> Self
        ensures { of_queue result ≡ of_global t }
    {
        Self(t.0, t.1)
    }

    // For a scope's queue.
    pub fn of_local(t: LocalTag) -> Self
        ensures { of_queue result ≡ of_local t }
    {
        Self(t.0, t.1)
    }

    // Of the root's queue.
    pub fn as_global(self) -> GlobalTag
        ensures { of_global result ≡ of_queue self }
    {
        GlobalTag(self.0, self.1)
    }

    // Of a scope's queue.
    pub fn as_local(self) -> LocalTag
        ensures { of_local result ≡ of_queue self }
    {
        LocalTag(self.0, self.1)
    }
}
