// What a day's tale is told from, made of document 01's sentences: times split, tags mapped and held back, calls and what they lack, each as a line of
// numbers. The words and the picture are made of these lines outside the proofs (folder words), and compute nothing: what is told is computed here.
#![tactic(auto)]

ghost use Rattle.std.specs.Prelude.{◌≡◌, ◌≤◌, length, get_or};
ghost use Rattle.table_rows.specs.Kinds.{count, reaction};
ghost use Rattle.tags.specs.Tags.{tag_only};
ghost use Rattle.tags.specs.Views.{of_global, of_local, of_queue, mapped_global, answered};
ghost use Rattle.state_scopes.specs.Scopes.{scopes_of, scope_of, blank};
ghost use Rattle.byte_writer.specs.Written.{Written};
ghost use Rattle.day_telling.specs.Facts.{time_words, found, offset_in, microstep_in, scope_place, place_words};
ghost use Rattle.day_telling.specs.Facts.{scope_words, local_words, call_words, lacking_reaction, lacking_of, words_text, fact_text};

use day_records::{Malformed, Parsed};
use refusals::Refusal;
use state_scopes::Scope;
use tags::{GlobalTag, LocalTag, Mapped, QueueTag, Scale};

// Nanoseconds.
const SECOND: u64 = 1000000000;

const MINUTE: u64 = 60000000000;

const HOUR: u64 = 3600000000000;

const DAY: u64 = 86400000000000;

// ---- time

// An offset, and its whole days; its hours, minutes, seconds and nanoseconds.
pub fn time_words(offset: u64) -> [u64; 6]
    ensures { result ≡ time_words offset }
{
    let days = offset / DAY;
    let hours = offset / HOUR;
    let minutes = offset % HOUR / MINUTE;
    let seconds = offset % MINUTE / SECOND;
    let rest = offset % SECOND;
    [offset, days, hours, minutes, seconds, rest]
}

// ---- tags on the two scales

// A tag of either scale, or none.
#[derive(Clone, Copy)]
struct Words {
    found: u64,
    offset: u64,
    microstep: u64,
}

fn words_of<T: Scale>(image: Result<T, Refusal>) -> Words
    ensures { (result.found ≡ found (answered T.tag image)) × ((result.offset ≡ offset_in (answered T.tag image)) × (result.microstep ≡ microstep_in (answered T.tag image))) }
{
    match image {
        Ok(t) => Words {
            found: 1,
            offset: t.offset(),
            microstep: t.microstep() as u64,
        },
        Err(_) => Words {
            found: 0,
            offset: 0,
            microstep: 0,
        },
    }
}

// Whether it was held back left out.
fn tag_of(image: Result<Mapped, Refusal>) -> Result<GlobalTag, Refusal>
    ensures { answered of_global result ≡ tag_only (mapped_global image) }
{
    Ok(image?.tag)
}

// A scope's local tag: the queue, the tag, whether the scope is active, the tag's image, and whether it is held back.
fn scope_place(s: Scope, queue: u16, x: LocalTag) -> [u64; 8]
    ensures { result ≡ scope_place (scope_of s) queue (of_local x) }
{
    let image = s.clock.to_global(x);
    let m = words_of(tag_of(image));
    let active = lists::bit(s.active);
    let held = lists::bit(tags::is_held(image));
    [
        queue as u64,
        x.0,
        x.1 as u64,
        active,
        m.found,
        m.offset,
        m.microstep,
        held,
    ]
}

// The same of any queue: the root's tags are global already.
pub fn place_words(scopes: &[u64; state_scopes::ROOM], queue: u16, tag: QueueTag) -> [u64; 8]
    ensures { result ≡ place_words (scopes_of scopes.now) queue (of_queue tag) }
{
    if queue == state_events::NONE {
        let g = tag.as_global();
        let step = g.1 as u64;
        return [queue as u64, g.0, step, 1, 1, g.0, step, 0];
    }
    let s = state_scopes::scope_at(scopes, queue as usize);
    scope_place(s, queue, tag.as_local())
}

// A scope: active, ever active, allowed, and its clock's G, L and S.
pub fn scope_words(scopes: &[u64; state_scopes::ROOM], i: u16) -> [u64; 10]
    ensures { result ≡ scope_words i (get_or (scopes_of scopes.now) i blank) }
{
    let s = state_scopes::scope_at(scopes, i as usize);
    let c = s.clock;
    let g = c.activation_global;
    let l = c.activation_local;
    let p = c.suspended_local;
    let active = lists::bit(s.active);
    let ever = lists::bit(s.ever);
    let allowed = lists::bit(c.allowed);
    [
        i as u64, active, ever, allowed, g.0, g.1 as u64, l.0, l.1 as u64, p.0, p.1 as u64,
    ]
}

// A global tag on a scope's scale: the scope, whether it maps, and the local tag.
pub fn local_words(scopes: &[u64; state_scopes::ROOM], i: u16, tag: GlobalTag) -> [u64; 4]
    ensures { result ≡ local_words i (get_or (scopes_of scopes.now) i blank) (of_global tag) }
{
    let s = state_scopes::scope_at(scopes, i as usize);
    let m = words_of(s.clock.to_local(tag));
    [i as u64, m.found, m.offset, m.microstep]
}

// ---- calls

// A record: its op, or 0 if malformed; the action or the reactor; the mode; terminal or reset; the tag.
pub fn call_words(parsed: Result<Parsed, Malformed>) -> [u64; 6]
    ensures { result ≡ call_words parsed }
{
    match parsed {
        Ok(Parsed::Plain(t, terminal, _)) => [1, 0, 0, lists::bit(terminal), t.0, t.1 as u64],
        Ok(Parsed::Network(t, _)) => [2, 0, 0, 0, t.0, t.1 as u64],
        Ok(Parsed::Control(t)) => [3, 0, 0, 0, t.0, t.1 as u64],
        Ok(Parsed::Action(action, t, terminal, _)) => {
            [4, action as u64, 0, lists::bit(terminal), t.0, t.1 as u64]
        }
        Ok(Parsed::Transition(reactor, mode, reset, t)) => {
            let flag = lists::bit(reset);
            [5, reactor as u64, mode as u64, flag, t.0, t.1 as u64]
        }
        Ok(Parsed::Pop) => [6, 0, 0, 0, 0, 0],
        Err(_) => [0, 0, 0, 0, 0, 0],
    }
}

// The first of the reaction keys that the table lacks: 1, the kind and the key; or 0s.
fn lacking_reaction(image: &[u8], keys: &[u16]) -> [u64; 3]
    ensures { result ≡ lacking_reaction (count image.now reaction) keys.now }
{
    let total = table_rows::count(image, table_rows::REACTION);
    for key in keys {
        if total <= *key {
            return [1, table_rows::REACTION as u64, *key as u64];
        }
    }
    [0, 0, 0]
}

// The first key of a call that the table lacks, in the order in which 5 looks at them.
pub fn lacking(image: &[u8], parsed: Result<Parsed, Malformed>, keys: &[u16]) -> [u64; 3]
    ensures { result ≡ lacking_of image.now parsed keys.now }
{
    match parsed {
        Ok(Parsed::Plain(_, _, _) | Parsed::Network(_, _)) => lacking_reaction(image, keys),
        Ok(Parsed::Action(action, _, _, _)) => {
            if action < table_rows::count(image, table_rows::ACTION) {
                lacking_reaction(image, keys)
            } else {
                [1, table_rows::ACTION as u64, action as u64]
            }
        }
        Ok(Parsed::Transition(reactor, mode, _, _)) => {
            if table_rows::count(image, table_rows::REACTOR) <= reactor {
                [1, table_rows::REACTOR as u64, reactor as u64]
            } else if table_rows::count(image, table_rows::MODE) <= mode {
                [1, table_rows::MODE as u64, mode as u64]
            } else {
                [0, 0, 0]
            }
        }
        Ok(Parsed::Control(_) | Parsed::Pop) | Err(_) => [0, 0, 0],
    }
}

// ---- lines

fn write_words(buffer: &mut [u8], at: usize, words: &[u64]) -> usize
    requires { at ≤ length buffer.old }
    ensures { Written buffer.old at (words_text words.now) buffer.new result }
{
    let mut end = at;
    for word in words {
        let space = byte_writer::put(buffer, end, b' ');
        end = day_lines::write_decimal(buffer, space, *word);
    }
    end
}

// A name, the numbers with a space before each, and the line's end.
pub fn write_fact(buffer: &mut [u8], name: &[u8], words: &[u64]) -> usize
    ensures { Written buffer.old 0 (fact_text name.now words.now) buffer.new result }
{
    let named = byte_writer::write_text(buffer, 0, name);
    let end = write_words(buffer, named, words);
    byte_writer::put(buffer, end, b'\n')
}
