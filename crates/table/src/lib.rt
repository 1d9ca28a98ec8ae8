// The check of a table image: document 01, "Checks", and the rules of its rows. An accepted image is the table itself: nothing is copied.
// A new rule of a row comes in here, in `KEY_FIELDS` or `own_rule` and in specs/Rules; reader and writer go by it, and table_broken_rules tells it.
#![tactic(auto)]

ghost use Rattle.std.specs.Prelude.{◌≡◌, ◌+◌, get_or};
ghost use Rattle.table_rows.specs.Rows.{parent, scope_reactor};
ghost use Rattle.table.specs.Rules.{key, key_fields, key_count, key_exists, keys_exist, parent_rule, agrees, scope_rule};
ghost use Rattle.table.specs.Rules.{reactor_rule, mode_rule, reaction_rule, action_rule, timer_rule, own_rule, row_rule};
ghost use Rattle.table.specs.Check.{number_of, place_of, wrong_length, count_fits, bad_count, bad_row, check_rows, is_table, check as check_of};

use tags::{LocalTag, Scale};

pub const VERSION: u8 = 1;

const MAX_LEVEL: u8 = 15;

// Why an image is refused.
#[derive(Clone, Copy, PartialEq, Eq)]
pub enum ImageRefusal {
    // under 5 bytes or wrong length: 1 at 0
    Length,
    // another version: 2 at 4
    Version,
    // under 23 bytes: 1 at 0
    Short,
    // a count past its limits: 3 at the count
    Count(usize),
    // rows don't fill it exactly: 1 at 0
    Unfilled,
    // a row breaks a rule: 4 at its first byte
    Row(usize),
}

// The refusal's number in document 01.
impl From<ImageRefusal> for u8 {
    ghost from_gives = { λ refusal number. number ≡ number_of refusal };

    fn from(refusal: ImageRefusal) -> u8 {
        match refusal {
            ImageRefusal::Length | ImageRefusal::Short | ImageRefusal::Unfilled => 1,
            ImageRefusal::Version => 2,
            ImageRefusal::Count(_) => 3,
            ImageRefusal::Row(_) => 4,
        }
    }
}

impl ImageRefusal {
    // The place that is answered with it, counted from the image's first byte.
    pub fn place(self) -> usize
        ensures { result ≡ place_of self }
    {
        match self {
            ImageRefusal::Length | ImageRefusal::Short | ImageRefusal::Unfilled => 0,
            ImageRefusal::Version => 4,
            ImageRefusal::Count(at) | ImageRefusal::Row(at) => at,
        }
    }
}

// ---- the rules of a row

// A field that is a key: its row's kind, its place in the row, and the kind that it names.
#[derive(Clone, Copy)]
pub struct KeyField {
    pub kind: u8,
    pub offset: u8,
    pub names: u8,
}

pub const KEYS: usize = 13;

// Every key that must exist.
const KEY_FIELDS: [KeyField; KEYS] = [
    KeyField {
        kind: table_rows::SCOPE,
        offset: 2,
        names: table_rows::REACTOR,
    },
    KeyField {
        kind: table_rows::REACTOR,
        offset: 0,
        names: table_rows::SCOPE,
    },
    KeyField {
        kind: table_rows::MODE,
        offset: 0,
        names: table_rows::SCOPE,
    },
    KeyField {
        kind: table_rows::MODE,
        offset: 2,
        names: table_rows::REACTOR,
    },
    KeyField {
        kind: table_rows::ACTION,
        offset: 0,
        names: table_rows::SCOPE,
    },
    KeyField {
        kind: table_rows::TRIGGER,
        offset: 0,
        names: table_rows::ACTION,
    },
    KeyField {
        kind: table_rows::TRIGGER,
        offset: 2,
        names: table_rows::REACTION,
    },
    KeyField {
        kind: table_rows::STARTUP,
        offset: 0,
        names: table_rows::SCOPE,
    },
    KeyField {
        kind: table_rows::STARTUP,
        offset: 2,
        names: table_rows::ACTION,
    },
    KeyField {
        kind: table_rows::STARTUP,
        offset: 4,
        names: table_rows::REACTION,
    },
    KeyField {
        kind: table_rows::RESET,
        offset: 0,
        names: table_rows::SCOPE,
    },
    KeyField {
        kind: table_rows::RESET,
        offset: 2,
        names: table_rows::REACTION,
    },
    KeyField {
        kind: table_rows::TIMER,
        offset: 0,
        names: table_rows::ACTION,
    },
];

// The field j; past the last, zeros.
pub fn key_field(j: usize) -> KeyField
    ensures { result ≡ get_or key_fields j (key 0 0 0) }
{
    if j < KEYS {
        KEY_FIELDS[j]
    } else {
        KeyField {
            kind: 0,
            offset: 0,
            names: 0,
        }
    }
}

// Row i of the kind k has no such field, or its key exists.
pub fn key_exists(image: &[u8], k: u8, i: u16, f: KeyField) -> bool
    ensures { result ≡ key_exists image.now k i f }
{
    k != f.kind || table_rows::field16(image, k, i, f.offset) < table_rows::count(image, f.names)
}

fn keys_exist(image: &[u8], k: u8, i: u16) -> bool
    ensures { result ≡ keys_exist image.now k i }
{
    KEY_FIELDS.iter().all(|f| key_exists(image, k, i, *f))
}

// None, or lower than scope i.
pub fn parent_rule(image: &[u8], i: u16) -> bool
    ensures { result ≡ parent_rule image.now i }
{
    let above = table_rows::parent(image, i);
    above == table_rows::NONE || above < i
}

// Scope i and the mode that it names.
fn mode_agrees(image: &[u8], i: u16, mode: u16) -> bool
    ensures { result ≡ agrees image.now i (parent image.now i) (scope_reactor image.now i) mode }
{
    let reactor = table_rows::scope_reactor(image, i);
    mode < table_rows::count(image, table_rows::MODE)
        && table_rows::parent(image, i) != table_rows::NONE
        && table_rows::mode_scope(image, mode) == i
        && table_rows::mode_reactor(image, mode) == reactor
        && table_rows::under(image, table_rows::root_scope(image, reactor), i)
}

fn scope_rule(image: &[u8], i: u16) -> bool
    ensures { result ≡ scope_rule image.now i }
{
    let mode = table_rows::scope_mode(image, i);
    parent_rule(image, i) && (mode == table_rows::NONE || mode_agrees(image, i, mode))
}

// A reactor's initial mode is none, or of that reactor.
fn reactor_rule(image: &[u8], i: u16) -> bool
    ensures { result ≡ reactor_rule image.now i }
{
    let mode = table_rows::initial_mode(image, i);
    mode == table_rows::NONE
        || mode < table_rows::count(image, table_rows::MODE)
            && table_rows::mode_reactor(image, mode) == i
}

// The mode's scope names it back.
pub fn mode_rule(image: &[u8], i: u16) -> bool
    ensures { result ≡ mode_rule image.now i }
{
    let scope = table_rows::mode_scope(image, i);
    table_rows::scope_mode(image, scope) == i
}

pub fn reaction_rule(image: &[u8], i: u16) -> bool
    ensures { result ≡ reaction_rule image.now i }
{
    table_rows::level(image, i) <= MAX_LEVEL
}

pub fn action_rule(image: &[u8], i: u16) -> bool
    ensures { result ≡ action_rule image.now i }
{
    table_rows::logical(image, i) <= 1
}

pub fn timer_rule(image: &[u8], i: u16) -> bool
    ensures { result ≡ timer_rule image.now i }
{
    LocalTag(
        table_rows::timer_offset(image, i),
        table_rows::timer_microstep(image, i),
    )
    .within()
}

// What row i of the kind k must keep besides its keys.
fn own_rule(image: &[u8], k: u8, i: u16) -> bool
    ensures { result ≡ own_rule image.now k i }
{
    match k {
        table_rows::SCOPE => scope_rule(image, i),
        table_rows::REACTOR => reactor_rule(image, i),
        table_rows::MODE => mode_rule(image, i),
        table_rows::REACTION => reaction_rule(image, i),
        table_rows::ACTION => action_rule(image, i),
        table_rows::TIMER => timer_rule(image, i),
        _ => true,
    }
}

fn row_rule(image: &[u8], k: u8, i: u16) -> bool
    ensures { result ≡ row_rule image.now k i }
{
    keys_exist(image, k, i) && own_rule(image, k, i)
}

// ---- the check

// The first row of the kind k that breaks a rule, or how many there are.
pub fn bad_row(image: &[u8], k: u8) -> u16
    ensures { result ≡ bad_row image.now k }
{
    let total = table_rows::count(image, k);
    for i in 0..total {
        if !row_rule(image, k, i) {
            return i;
        }
    }
    total
}

// The rows, in order.
pub fn check_rows(image: &[u8]) -> Result<(), ImageRefusal>
    ensures { result ≡ check_rows image.now }
{
    for k in 0..table_rows::KINDS {
        let i = bad_row(image, k);
        if i < table_rows::count(image, k) {
            return Err(ImageRefusal::Row(table_rows::row_place(image, k, i)));
        }
    }
    Ok(())
}

fn count_fits(image: &[u8], k: u8) -> bool
    ensures { result ≡ count_fits image.now k }
{
    let total = table_rows::count(image, k);
    table_rows::kind_at(k).least <= total && total <= table_rows::most_rows(image, k)
}

// The first kind whose count does not fit, or how many kinds there are.
pub fn bad_count(image: &[u8]) -> u8
    ensures { result ≡ bad_count image.now }
{
    for k in 0..table_rows::KINDS {
        if !count_fits(image, k) {
            return k;
        }
    }
    table_rows::KINDS
}

fn wrong_length(image: &[u8]) -> bool
    ensures { result ≡ wrong_length image.now }
{
    image.len() < 5 || table_rows::four_bytes(image, 0) as usize + 4 != image.len()
}

// Accepted, or the refusal, of any byte string.
pub fn check(image: &[u8]) -> Result<(), ImageRefusal>
    ensures { result ≡ check_of image.now }
{
    if wrong_length(image) {
        return Err(ImageRefusal::Length);
    }
    if table_rows::one_byte(image, 4) != VERSION {
        return Err(ImageRefusal::Version);
    }
    if image.len() < table_rows::HEAD {
        return Err(ImageRefusal::Short);
    }
    let k = bad_count(image);
    if k < table_rows::KINDS {
        return Err(ImageRefusal::Count(table_rows::count_place(k)));
    }
    if table_rows::place(image, table_rows::KINDS) != image.len() {
        return Err(ImageRefusal::Unfilled);
    }
    check_rows(image)
}

// The image is accepted.
pub fn accepted(image: &[u8]) -> bool
    ensures { result ≡ is_table image.now }
{
    check(image).is_ok()
}
