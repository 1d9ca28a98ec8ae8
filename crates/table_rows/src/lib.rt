// The table image's bytes, counts and rows, and the way up from a scope: document 01, "nine 2-byte counts, then rows in this order".
// Every reader is total: past the end stand zeros.
// A kind's least and width are in `TABLE`, its fields in `FIELDS`; a new field gets its name here, and callers use the names.
// All limits are in `LIMITS`, a row for each version: a limit is asked of the image, and is not the length of an array.
#![tactic(auto)]

ghost use Rattle.std.specs.Prelude.{◌≡◌, ◌+◌, ◌*◌, ◌^◌, ◌≤◌, ◌<◌, get_or};
ghost use Rattle.table_rows.specs.Bytes.{be};
ghost use Rattle.table_rows.specs.Kinds.{widest, kind_of, count_place, count as count_of, place as place_of};
ghost use Rattle.table_rows.specs.Rows.{row_place, field, is_logical};
ghost use Rattle.table_rows.specs.Fields.{fields_of, field_of};
ghost use Rattle.table_rows.specs.Limits.{limits, most};
ghost use Rattle.table_rows.specs.Rows as fields;
ghost use Rattle.table_rows.specs.Lineage.{in_subtree, under as under_of};

// Length, version and nine counts.
pub const HEAD: usize = 23;

// No image is longer; `largest` of specs/ says the same.
pub const LARGEST: usize = 3287;

// None, for parent, mode and initial mode.
pub const NONE: u16 = 65535;

// The kinds of rows, in their order.
// Stays: `count`, `place`, `row_place`, `most_rows` and `field_of` promise an answer for every u8, which an enum of kinds would narrow.
pub const SCOPE: u8 = 0;

pub const REACTOR: u8 = 1;

pub const MODE: u8 = 2;

pub const REACTION: u8 = 3;

pub const ACTION: u8 = 4;

pub const TRIGGER: u8 = 5;

pub const STARTUP: u8 = 6;

pub const RESET: u8 = 7;

pub const TIMER: u8 = 8;

pub const KINDS: u8 = 9;

// How many versions of the image there are.
pub const VERSIONS: usize = 1;

// A kind of row: the least rows of it, and a row's bytes.
#[derive(Clone, Copy)]
pub struct Kind {
    pub least: u16,
    pub width: usize,
}

// The leasts and widths, of every version: with `LIMITS` they drive the count checks, the total length and each row's place.
const TABLE: [Kind; KINDS as usize] = [
    Kind { least: 1, width: 6 },
    Kind { least: 1, width: 4 },
    Kind { least: 0, width: 4 },
    Kind { least: 0, width: 1 },
    Kind { least: 0, width: 3 },
    Kind { least: 0, width: 4 },
    Kind { least: 0, width: 6 },
    Kind { least: 0, width: 4 },
    Kind {
        least: 0,
        width: 14,
    },
];

// How many rows of each kind there may be, how many events may wait, and how many values and how many buckets may be held.
#[derive(Clone, Copy)]
pub struct Limits {
    pub most: [u16; KINDS as usize],
    pub waiting: usize,
    pub held: usize,
}

// The limits of each version, version 1 first.
const LIMITS: [Limits; VERSIONS] = [Limits {
    most: [32, 16, 32, 128, 64, 256, 64, 64, 64],
    waiting: 256,
    held: 256,
}];

// The bytes of a row's first, second and third field, 0 for one that the kind does not have.
#[derive(Clone, Copy)]
pub struct Fields {
    pub first: u8,
    pub second: u8,
    pub third: u8,
}

const FIELDS: [Fields; KINDS as usize] = [
    Fields {
        first: 2,
        second: 2,
        third: 2,
    },
    Fields {
        first: 2,
        second: 2,
        third: 0,
    },
    Fields {
        first: 2,
        second: 2,
        third: 0,
    },
    Fields {
        first: 1,
        second: 0,
        third: 0,
    },
    Fields {
        first: 2,
        second: 1,
        third: 0,
    },
    Fields {
        first: 2,
        second: 2,
        third: 0,
    },
    Fields {
        first: 2,
        second: 2,
        third: 2,
    },
    Fields {
        first: 2,
        second: 2,
        third: 0,
    },
    Fields {
        first: 2,
        second: 8,
        third: 4,
    },
];

// The byte k places behind `at`.
fn byte(image: &[u8], at: usize, k: usize) -> u64
    ensures { (result ≡ get_or image.now (at + k) 0) × (result < 256) }
{
    if at < image.len() && k < image.len() - at {
        image[at + k] as u64
    } else {
        0
    }
}

// The number of `width` bytes at `at`, the first the highest.
fn number(image: &[u8], at: usize, width: usize) -> u64
    requires { width ≤ 8 }
    ensures { (result ≡ be width image.now at) × (result < 256 ^ width) }
{
    let mut n = 0;
    for k in 0..width {
        n = n * 256 + byte(image, at, k);
    }
    n
}

// Stays: a generic reader is no plainer, since each of the four types would need an impl as long as its function here.
pub fn one_byte(image: &[u8], at: usize) -> u8
    ensures { result ≡ be 1 image.now at }
{
    number(image, at, 1) as u8
}

pub fn two_bytes(image: &[u8], at: usize) -> u16
    ensures { result ≡ be 2 image.now at }
{
    number(image, at, 2) as u16
}

pub fn four_bytes(image: &[u8], at: usize) -> u32
    ensures { result ≡ be 4 image.now at }
{
    number(image, at, 4) as u32
}

pub fn eight_bytes(image: &[u8], at: usize) -> u64
    ensures { result ≡ be 8 image.now at }
{
    number(image, at, 8)
}

// The kind's least and width; a kind past the nine has no rows.
pub fn kind_at(k: u8) -> Kind
    ensures { (result ≡ kind_of k) × (result.width ≤ widest) }
{
    if k < KINDS {
        TABLE[k as usize]
    } else {
        Kind { least: 0, width: 0 }
    }
}

// The limits of the image's version; of one that there is not, which the check refuses, those of version 1.
fn limits_of(image: &[u8]) -> Limits
    ensures { result ≡ limits image.now }
{
    let version = one_byte(image, 4) as usize;
    if 1 <= version && version <= VERSIONS {
        LIMITS[version - 1]
    } else {
        LIMITS[0]
    }
}

// How many events may wait.
pub fn most_waiting(image: &[u8]) -> usize
    ensures { result ≡ (limits image.now).waiting }
{
    limits_of(image).waiting
}

// How many values, and how many buckets, may be held.
pub fn most_held(image: &[u8]) -> usize
    ensures { result ≡ (limits image.now).held }
{
    limits_of(image).held
}

// How many rows of the kind k there may be.
pub fn most_rows(image: &[u8], k: u8) -> u16
    ensures { result ≡ most image.now k }
{
    if k < KINDS {
        limits_of(image).most[k as usize]
    } else {
        0
    }
}

// The bytes of each field of a row of the kind k; a kind past the nine has none.
pub fn fields_at(k: u8) -> Fields
    ensures { (result ≡ fields_of k) × (result.first ≤ 8) × (result.second ≤ 8) × (result.third ≤ 8) }
{
    if k < KINDS {
        FIELDS[k as usize]
    } else {
        Fields {
            first: 0,
            second: 0,
            third: 0,
        }
    }
}

// Where the count of the kind k stands.
pub fn count_place(k: u8) -> usize
    ensures { result ≡ count_place k }
{
    5 + 2 * k as usize
}

// How many rows of the kind k the image says it has.
pub fn count(image: &[u8], k: u8) -> u16
    ensures { result ≡ count_of image.now k }
{
    two_bytes(image, count_place(k))
}

// Where the rows of the kind k begin.
pub fn place(image: &[u8], k: u8) -> usize
    ensures { (result ≡ place_of image.now k) × (result < 2 ^ 28) }
{
    let mut at = HEAD;
    for j in 0..k {
        at += count(image, j) as usize * kind_at(j).width;
    }
    at
}

// Where row i of the kind k begins.
pub fn row_place(image: &[u8], k: u8, i: u16) -> usize
    ensures { (result ≡ row_place image.now k i) × (result < 2 ^ 29) }
{
    place(image, k) + i as usize * kind_at(k).width
}

// Where the byte `offset` of that row stands.
fn field_place(image: &[u8], k: u8, i: u16, offset: u8) -> usize
    ensures { result ≡ row_place image.now k i + offset }
{
    row_place(image, k, i) + offset as usize
}

// A field of one, two, four or eight bytes, at the byte `offset` of row i of the kind k.
pub fn field8(image: &[u8], k: u8, i: u16, offset: u8) -> u8
    ensures { result ≡ field 1 image.now k i offset }
{
    one_byte(image, field_place(image, k, i, offset))
}

pub fn field16(image: &[u8], k: u8, i: u16, offset: u8) -> u16
    ensures { result ≡ field 2 image.now k i offset }
{
    two_bytes(image, field_place(image, k, i, offset))
}

pub fn field32(image: &[u8], k: u8, i: u16, offset: u8) -> u32
    ensures { result ≡ field 4 image.now k i offset }
{
    four_bytes(image, field_place(image, k, i, offset))
}

pub fn field64(image: &[u8], k: u8, i: u16, offset: u8) -> u64
    ensures { result ≡ field 8 image.now k i offset }
{
    eight_bytes(image, field_place(image, k, i, offset))
}

// Field f of row i of the kind k, counted from 0; 0 for one that it does not have.
pub fn field_of(image: &[u8], k: u8, i: u16, f: u8) -> u64
    ensures { result ≡ field_of image.now k i f }
{
    let fields = fields_at(k);
    let (offset, width) = match f {
        0 => (0, fields.first),
        1 => (fields.first, fields.second),
        _ => (fields.first + fields.second, fields.third),
    };
    number(image, field_place(image, k, i, offset), width as usize)
}

// ---- the fields by their names

// The scope's parent, a lower scope, or none.
pub fn parent(image: &[u8], scope: u16) -> u16
    ensures { result ≡ fields.parent image.now scope }
{
    field16(image, SCOPE, scope, 0)
}

pub fn scope_reactor(image: &[u8], scope: u16) -> u16
    ensures { result ≡ fields.scope_reactor image.now scope }
{
    field16(image, SCOPE, scope, 2)
}

// The mode that the scope names, or none.
pub fn scope_mode(image: &[u8], scope: u16) -> u16
    ensures { result ≡ fields.scope_mode image.now scope }
{
    field16(image, SCOPE, scope, 4)
}

pub fn root_scope(image: &[u8], reactor: u16) -> u16
    ensures { result ≡ fields.root_scope image.now reactor }
{
    field16(image, REACTOR, reactor, 0)
}

// The reactor's initial mode, or none.
pub fn initial_mode(image: &[u8], reactor: u16) -> u16
    ensures { result ≡ fields.initial_mode image.now reactor }
{
    field16(image, REACTOR, reactor, 2)
}

pub fn mode_scope(image: &[u8], mode: u16) -> u16
    ensures { result ≡ fields.mode_scope image.now mode }
{
    field16(image, MODE, mode, 0)
}

pub fn mode_reactor(image: &[u8], mode: u16) -> u16
    ensures { result ≡ fields.mode_reactor image.now mode }
{
    field16(image, MODE, mode, 2)
}

pub fn action_scope(image: &[u8], action: u16) -> u16
    ensures { result ≡ fields.action_scope image.now action }
{
    field16(image, ACTION, action, 0)
}

pub fn startup_scope(image: &[u8], j: u16) -> u16
    ensures { result ≡ fields.startup_scope image.now j }
{
    field16(image, STARTUP, j, 0)
}

pub fn startup_action(image: &[u8], j: u16) -> u16
    ensures { result ≡ fields.startup_action image.now j }
{
    field16(image, STARTUP, j, 2)
}

pub fn startup_reaction(image: &[u8], j: u16) -> u16
    ensures { result ≡ fields.startup_reaction image.now j }
{
    field16(image, STARTUP, j, 4)
}

pub fn timer_action(image: &[u8], j: u16) -> u16
    ensures { result ≡ fields.timer_action image.now j }
{
    field16(image, TIMER, j, 0)
}

pub fn level(image: &[u8], reaction: u16) -> u8
    ensures { result ≡ fields.level image.now reaction }
{
    field8(image, REACTION, reaction, 0)
}

// The action's byte for logical, as it stands.
pub fn logical(image: &[u8], action: u16) -> u8
    ensures { result ≡ fields.logical image.now action }
{
    field8(image, ACTION, action, 2)
}

pub fn is_logical(image: &[u8], action: u16) -> bool
    ensures { result ≡ is_logical image.now action }
{
    logical(image, action) == 1
}

pub fn timer_offset(image: &[u8], j: u16) -> u64
    ensures { result ≡ fields.timer_offset image.now j }
{
    field64(image, TIMER, j, 2)
}

pub fn timer_microstep(image: &[u8], j: u16) -> u32
    ensures { result ≡ fields.timer_microstep image.now j }
{
    field32(image, TIMER, j, 10)
}

// ---- the way up from a scope

// Scope i lies in the subtree of the scope `top`, itself included.
pub fn in_subtree(image: &[u8], top: u16, i: u16) -> bool
    ensures { result ≡ in_subtree image.now top i }
{
    if i == top {
        return true;
    }
    let above = parent(image, i);
    above < i && in_subtree(image, top, above)
}

// Scope i lies strictly under the scope `top`.
pub fn under(image: &[u8], top: u16, i: u16) -> bool
    ensures { result ≡ under_of image.now top i }
{
    let above = parent(image, i);
    above < i && in_subtree(image, top, above)
}
