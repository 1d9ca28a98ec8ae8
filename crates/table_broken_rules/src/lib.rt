// Why an image's row is refused, for people: which row, and the first rule of document 01's list, "Also: ..", that it breaks. The check itself is
// crate table. A new rule of a row comes in here too, as a case of `Rule`; law `rule_tells` holds the two together.
#![tactic(auto)]

ghost use Rattle.std.specs.Prelude.{◌≡◌, ◌<◌, unwrap_or, IfSome, None};
ghost use Rattle.table_rows.specs.Rows.{parent, scope_reactor};
ghost use Rattle.table.specs.Check.{bad_kind};
ghost use Rattle.table.specs.Rules.{key_count};
ghost use Rattle.table_broken_rules.specs.BrokenRules.{must, missing_key, mode_fault, scope_fault, reactor_fault, own_fault};
ghost use Rattle.table_broken_rules.specs.BrokenRules.{broken_rule, rule_number, field_of, fault_words, row_words};

// A rule that a row breaks.
#[derive(Clone, Copy, PartialEq, Eq)]
pub enum Rule {
    // every other key must exist: which of table's key fields does not
    Key(u8),
    // a parent is lower than its scope
    Parent,
    // the mode that a scope names exists
    NoMode,
    // a scope with a mode has a parent
    NoParent,
    // a mode and its scope agree on each other, said by the scope
    OtherScope,
    // and on the reactor
    OtherReactor,
    // the scope lies strictly under the reactor's root scope
    NotUnder,
    // an initial mode exists
    NoInitial,
    // an initial mode is of that reactor
    InitialElsewhere,
    // a mode and its scope agree on each other, said by the mode
    NotNamedBack,
    // level is at most 15
    Level,
    // logical is 0 or 1
    Logical,
    // a timer's tag is within limits
    TimerTag,
}

// The first kind with a row that breaks a rule, or how many kinds there are.
pub fn bad_kind(image: &[u8]) -> u8
    ensures { result ≡ bad_kind image.now }
{
    for k in 0..table_rows::KINDS {
        if table::bad_row(image, k) < table_rows::count(image, k) {
            return k;
        }
    }
    table_rows::KINDS
}

// The first key field of row i of the kind k whose key does not exist.
fn missing_key(image: &[u8], k: u8, i: u16) -> Option<usize>
    ensures { (unwrap_or result key_count ≡ missing_key image.now k i) × IfSome result (λ j. j < key_count) }
{
    for j in 0..table::KEYS {
        if !table::key_exists(image, k, i, table::key_field(j)) {
            return Some(j);
        }
    }
    None
}

// ---- what a row must keep besides its keys

// None where it holds, or the rule that is broken.
fn must(holds: bool, broken: Rule) -> Option<Rule>
    ensures { result ≡ must holds broken None }
{
    if holds { None } else { Some(broken) }
}

// Scope i and the mode that it names.
fn mode_fault(image: &[u8], i: u16, mode: u16) -> Option<Rule>
    ensures { result ≡ mode_fault image.now i (parent image.now i) (scope_reactor image.now i) mode }
{
    let reactor = table_rows::scope_reactor(image, i);
    if mode >= table_rows::count(image, table_rows::MODE) {
        return Some(Rule::NoMode);
    }
    if table_rows::parent(image, i) == table_rows::NONE {
        return Some(Rule::NoParent);
    }
    if table_rows::mode_scope(image, mode) != i {
        return Some(Rule::OtherScope);
    }
    if table_rows::mode_reactor(image, mode) != reactor {
        return Some(Rule::OtherReactor);
    }
    let root = table_rows::root_scope(image, reactor);
    must(table_rows::under(image, root, i), Rule::NotUnder)
}

fn scope_fault(image: &[u8], i: u16) -> Option<Rule>
    ensures { result ≡ scope_fault image.now i }
{
    if !table::parent_rule(image, i) {
        return Some(Rule::Parent);
    }
    let mode = table_rows::scope_mode(image, i);
    if mode == table_rows::NONE {
        None
    } else {
        mode_fault(image, i, mode)
    }
}

fn reactor_fault(image: &[u8], i: u16) -> Option<Rule>
    ensures { result ≡ reactor_fault image.now i }
{
    let mode = table_rows::initial_mode(image, i);
    if mode == table_rows::NONE {
        return None;
    }
    if mode >= table_rows::count(image, table_rows::MODE) {
        return Some(Rule::NoInitial);
    }
    must(
        table_rows::mode_reactor(image, mode) == i,
        Rule::InitialElsewhere,
    )
}

fn own_fault(image: &[u8], k: u8, i: u16) -> Option<Rule>
    ensures { result ≡ own_fault image.now k i }
{
    match k {
        table_rows::SCOPE => scope_fault(image, i),
        table_rows::REACTOR => reactor_fault(image, i),
        table_rows::MODE => must(table::mode_rule(image, i), Rule::NotNamedBack),
        table_rows::REACTION => must(table::reaction_rule(image, i), Rule::Level),
        table_rows::ACTION => must(table::action_rule(image, i), Rule::Logical),
        table_rows::TIMER => must(table::timer_rule(image, i), Rule::TimerTag),
        _ => None,
    }
}

// The first rule that row i of the kind k breaks.
pub fn broken_rule(image: &[u8], k: u8, i: u16) -> Option<Rule>
    ensures { result ≡ broken_rule image.now k i }
{
    match missing_key(image, k, i) {
        Some(j) => Some(Rule::Key(j as u8)),
        None => own_fault(image, k, i),
    }
}

// ---- as numbers

// The rule's number in the fact line, or 0.
pub fn rule_number(rule: Option<Rule>) -> u64
    ensures { result ≡ rule_number rule }
{
    match rule {
        None => 0,
        Some(Rule::Key(_)) => 1,
        Some(Rule::Parent) => 2,
        Some(Rule::NoMode) => 3,
        Some(Rule::NoParent) => 4,
        Some(Rule::OtherScope) => 5,
        Some(Rule::OtherReactor) => 6,
        Some(Rule::NotUnder) => 7,
        Some(Rule::NoInitial) => 8,
        Some(Rule::InitialElsewhere) => 9,
        Some(Rule::NotNamedBack) => 10,
        Some(Rule::Level) => 11,
        Some(Rule::Logical) => 12,
        Some(Rule::TimerTag) => 13,
    }
}

// The key field that a rule speaks of; one past the last where it speaks of none.
fn field_of(rule: Option<Rule>) -> usize
    ensures { result ≡ field_of rule }
{
    match rule {
        Some(Rule::Key(j)) => j as usize,
        _ => table::KEYS,
    }
}

// Row i of the kind k: both, the rule's number, and of a missing key its place in the row and the kind that it names.
pub fn fault_words(image: &[u8], k: u8, i: u16) -> [u64; 5]
    ensures { result ≡ fault_words image.now k i }
{
    let rule = broken_rule(image, k, i);
    let f = table::key_field(field_of(rule));
    [
        k as u64,
        i as u64,
        rule_number(rule),
        f.offset as u64,
        f.names as u64,
    ]
}

// Row i of the kind k: both, and its fields; 0 for a field that the kind does not have.
pub fn row_words(image: &[u8], k: u8, i: u16) -> [u64; 5]
    ensures { result ≡ row_words image.now k i }
{
    let first = table_rows::field_of(image, k, i, 0);
    let second = table_rows::field_of(image, k, i, 1);
    let third = table_rows::field_of(image, k, i, 2);
    [k as u64, i as u64, first, second, third]
}
