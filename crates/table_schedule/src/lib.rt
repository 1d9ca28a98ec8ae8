// What the manager asks of an accepted image, as the Rust asks its `Schedule`: document 01, "traits become the table".
// Activity, modality and sets of reactions; single fields and subtrees are crate table_rows. Every question is total.
// A new question over the table's rows comes in here.
#![tactic(auto)]

ghost use Rattle.std.specs.Prelude.{◌≡◌, ℕ, Bool, ◌+◌, ◌^◌, ◌<◌, ◌≤◌, get_or};
ghost use Rattle.table_rows.specs.Kinds.{kind_of};
ghost use Rattle.table_rows.specs.Rows.{none};
ghost use Rattle.tags.specs.Views.{of_local};
ghost use Rattle.table.specs.Rules.{timer_tag};
ghost use Rattle.table_schedule.specs.Schedule.{names_mode, is_modal, is_current, is_active, reactions_of, triggers_of, startups_of, resets_of};

use key_set::KeySet;
use table_reader::Reader;
use tags::LocalTag;

// A timer row's tag, on its scope's scale.
pub fn timer_tag(image: &[u8], j: u16) -> LocalTag
    ensures { of_local result ≡ timer_tag image.now j }
{
    LocalTag(
        table_rows::timer_offset(image, j),
        table_rows::timer_microstep(image, j),
    )
}

// ---- modes

fn names_mode(image: &[u8], i: u16) -> bool
    ensures { result ≡ names_mode image.now i }
{
    table_rows::scope_mode(image, i) != table_rows::NONE
}

// Some scope names a mode.
pub fn is_modal(image: &[u8]) -> bool
    ensures { result ≡ is_modal image.now }
{
    let scopes = table_rows::count(image, table_rows::SCOPE);
    (0..scopes).any(|i| names_mode(image, i))
}

// The current mode of a reactor; past the end none.
fn mode_of(modes: &[u16], reactor: u16) -> u16
    ensures { result ≡ get_or modes.now reactor none }
{
    modes
        .get(reactor as usize)
        .copied()
        .unwrap_or(table_rows::NONE)
}

fn is_current(image: &[u8], modes: &[u16], i: u16) -> bool
    ensures { result ≡ is_current image.now modes.now i }
{
    let named = table_rows::scope_mode(image, i);
    named == table_rows::NONE || mode_of(modes, table_rows::scope_reactor(image, i)) == named
}

// Scope i and all its ancestors that name a mode find it current.
pub fn is_active(image: &[u8], modes: &[u16], i: u16) -> bool
    ensures { result ≡ is_active image.now modes.now i }
{
    if !is_current(image, modes, i) {
        return false;
    }
    let above = table_rows::parent(image, i);
    i <= above || is_active(image, modes, above)
}

// ---- sets of reactions

// The reactions at the byte `gap`, where the row ends, of the rows of the kind k whose first field passes. One reader goes from row to row.
fn gather<F: Fn(u16) -> bool>(image: &[u8], k: u8, gap: usize, passes: F) -> KeySet
    requires fits { ((kind_of k).width ≡ gap + 2) × (gap ≤ 4) }
    requires callable { F.IsAlwaysCallable passes }
    ensures { (test : ℕ → Bool) → ((x : ℕ) (r : Bool) → x < 2 ^ 16 → F.post passes x r → r ≡ test x) → result.words ≡ reactions_of image.now k test gap }
{
    let mut reader = Reader::new(image, table_rows::place(image, k));
    let mut set = KeySet::empty();
    for _ in 0..table_rows::count(image, k) {
        let x = reader.word();
        reader = reader.moved(gap);
        let reaction = reader.word();
        reader = reader.moved(2);
        set = set.insert_if(passes(x), reaction as usize);
    }
    set
}

// The reactions that the action triggers.
pub fn triggers(image: &[u8], action: u16) -> KeySet
    ensures { result.words ≡ triggers_of image.now action }
{
    gather(image, table_rows::TRIGGER, 2, |x| x == action)
}

// The reactions that the scope starts up.
pub fn startups(image: &[u8], scope: u16) -> KeySet
    ensures { result.words ≡ startups_of image.now scope }
{
    gather(image, table_rows::STARTUP, 4, |x| x == scope)
}

// The reactions that the scope's subtree resets.
pub fn resets(image: &[u8], scope: u16) -> KeySet
    ensures { result.words ≡ resets_of image.now scope }
{
    gather(
        image,
        table_rows::RESET,
        2,
        |x| table_rows::in_subtree(image, scope, x),
    )
}
