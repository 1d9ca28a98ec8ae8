// What is still whole of a damaged gate day: document 02, C-23, "it takes each record that is well formed by 01's rules". The bytes behind the image
// come in pieces of any size; the kept ones go over the front of a lent slice, the dropped runs, by place and length, over another. What is well formed
// is said in crate day_records alone. A byte is looked at from at most twelve places, each tried at most twice; a kept byte is copied once.
#![tactic(auto)]

ghost use Rattle.std.specs.Prelude.{◌≡◌, true, ◌+◌, ◌≤◌, ◌<◌, length, Some};
ghost use Rattle.byte_writer.specs.Written.{Written};
ghost use Rattle.day_rescue.specs.Rescue as rules;
ghost use Rattle.day_rescue.specs.declared.RescueRefusal.TheVariants.{Image};
ghost use Rattle.day_rescue.specs.Rescue.{listed, run_bytes, last_place, answered, piecing, saved};
ghost use Rattle.day_rescue.specs.Places.{size_at, Sized, Barren, RoomyEnd, Stands, Skipped, Stretched};

use day_records::Malformed;
use table::ImageRefusal;

// The bytes of a length, and of the shortest record.
const LENGTH: usize = day_records::LENGTH_BYTES;

const SHORTEST: usize = 6;

// The last op.
const LAST_OP: u8 = 6;

// So many bytes behind a place may be its record's; `last_place` of specs/ says the same.
const AHEAD: usize = day_records::MOST_BYTES + 3;

// Place and length of a run in the list.
pub const RUN_BYTES: usize = 16;

// A run of dropped bytes: where it begins, counted from the file's first byte, and how many they are.
#[derive(Clone, Copy)]
pub struct Run {
    pub place: u64,
    pub length: u64,
}

// What a piece comes to: how many of its bytes are done, how many stand in the output and in the list, how many records were kept, and the run of
// dropped bytes that the next piece goes on with.
#[derive(Clone, Copy)]
pub struct Piece {
    pub used: usize,
    pub written: usize,
    pub listed: usize,
    pub records: usize,
    pub pending: Run,
}

// Bytes of the output, bytes of the list, and how many records were kept.
#[derive(Clone, Copy)]
pub struct Totals {
    pub written: usize,
    pub listed: usize,
    pub records: usize,
}

// Why nothing of a day is rescued.
#[derive(Clone, Copy, PartialEq, Eq)]
pub enum RescueRefusal {
    // the image is refused
    Image(ImageRefusal),
    // the output has fewer bytes than the day, or the list fewer than 16 and 3 for each byte of it
    NoRoom,
}

impl From<ImageRefusal> for RescueRefusal {
    ghost from_gives = { λ why r. r ≡ Image why };

    fn from(why: ImageRefusal) -> RescueRefusal {
        RescueRefusal::Image(why)
    }
}

// ---- one place

// How many bytes the well-formed record at a place has, the four of its length with them; none where none stands there.
fn size_at(bytes: &[u8], at: usize) -> Option<usize>
    requires { at ≤ length bytes.now }
    ensures { Sized bytes.now at result }
{
    let left = bytes.len() - at;
    if left < LENGTH {
        return None;
    }
    let start = at + LENGTH;
    match day_records::length_of(&bytes[at..start]) {
        Ok(Some(n)) => {
            if n <= left - LENGTH && day_records::is_formed(&bytes[start..start + n]) {
                Some(LENGTH + n)
            } else {
                None
            }
        }
        Ok(None) => None,
        Err(Malformed) => None,
    }
}

// A pop is the same six bytes always.
fn is_pop(bytes: &[u8], at: usize) -> bool
    requires { at ≤ length bytes.now }
    ensures { result ≡ true → Sized bytes.now at (Some 6) }
{
    SHORTEST <= bytes.len() - at
        && bytes[at + 5] == 6
        && bytes[at + 4] == 1
        && bytes[at + 3] == 2
        && bytes[at + 2] == 0
        && bytes[at + 1] == 0
        && bytes[at] == 0
}

// Neither here nor at the next place can a record stand: a length begins with two zeros, and behind it stand a version and an op, 1 to 6.
fn is_barren(bytes: &[u8], at: usize) -> bool
    requires { at + 6 ≤ length bytes.now }
    ensures { result ≡ true → Barren bytes.now at }
{
    bytes[at + 1] != 0 || bytes[at + 5] == 0 || LAST_OP < bytes[at + 5]
}

// As size_at, pops first.
fn next_size(bytes: &[u8], at: usize) -> Option<usize>
    requires { at ≤ length bytes.now }
    ensures { Sized bytes.now at result }
{
    if is_pop(bytes, at) {
        Some(SHORTEST)
    } else {
        size_at(bytes, at)
    }
}

// ---- many places

// The places from here on have no six bytes behind them.
fn roomy_end(bytes: &[u8], end: usize) -> usize
    ensures { RoomyEnd bytes.now end result }
{
    end.min(bytes.len().saturating_sub(SHORTEST - 1))
}

// The first place from `from` on where a well-formed record stands, or `end`.
fn skip(bytes: &[u8], from: usize, end: usize) -> usize
    requires { (from ≤ end) × (end ≤ length bytes.now) }
    ensures { Skipped bytes.now end from result }
{
    let stop = roomy_end(bytes, end);
    let mut at = from;
    while at < stop {
        if is_barren(bytes, at) {
            at += 2;
        } else if size_at(bytes, at).is_some() {
            return at;
        } else {
            at += 1;
        }
    }
    end
}

// Well-formed records one behind the other: the place behind them, and how many they are.
#[derive(Clone, Copy)]
struct Span {
    end: usize,
    records: usize,
}

// Not inlined: within `rescue_piece` its place is kept in memory, and a clean day takes a quarter longer.
#[inline(never)]
fn stretch(bytes: &[u8], from: usize, end: usize) -> Span
    requires { (from ≤ length bytes.now) × (end ≤ length bytes.now) }
    ensures stretched { Stretched bytes.now end from result.end result.records }
    ensures from_lt_end { from < end → Stands bytes.now from → from < result.end }
{
    let mut at = from;
    let mut records = 0;
    while at < end {
        let Some(n) = next_size(bytes, at) else {
            break;
        };
        at += n;
        records += 1;
    }
    Span { end: at, records }
}

// A run behind those of the list; nothing, where it has no byte.
fn put_run(list: &mut [u8], at: usize, run: Run) -> usize
    requires { at ≤ length list.old }
    ensures { Written list.old at (run_bytes (listed run)) list.new result }
{
    if run.length == 0 {
        return at;
    }
    let next = byte_writer::put_number(list, at, 8, run.place);
    byte_writer::put_number(list, next, 8, run.length)
}

// ---- a piece

fn roomy(n: usize, pending: Run, out: usize, list: usize) -> bool
    ensures { result ≡ rules.roomy n pending out list }
{
    n <= out
        && RUN_BYTES <= list
        && n <= (list - RUN_BYTES) / 3
        && pending.length <= u64::MAX - pending.place
        && n as u64 <= u64::MAX - pending.place - pending.length
}

// The places before it may be tried.
fn last_place(last: bool, n: usize) -> usize
    ensures { result ≡ last_place last n }
{
    if last { n } else { n.saturating_sub(AHEAD) }
}

// Nothing of a piece is done.
fn untouched(pending: Run) -> Piece
    ensures { result ≡ rules.untouched pending }
{
    Piece {
        used: 0,
        written: 0,
        listed: 0,
        records: 0,
        pending,
    }
}

// A piece of the bytes behind the image, from a pending run on, which ends where they begin; `last` says that no more will come. Of a piece that has too
// little room in the output (as many bytes) or in the list (16 and 3 for each byte) nothing is done.
pub fn rescue_piece(
    bytes: &[u8],
    last: bool,
    pending: Run,
    out: &mut [u8],
    list: &mut [u8],
) -> Piece
    ensures { answered result out.new list.new ≡ piecing bytes.now last pending out.old list.old }
{
    if !roomy(bytes.len(), pending, out.len(), list.len()) {
        return untouched(pending);
    }
    let end = last_place(last, bytes.len());
    let mut at = 0;
    let mut written = 0;
    let mut listed = 0;
    let mut records = 0;
    let mut run = pending;
    while at < end {
        let next = skip(bytes, at, end);
        run.length += (next - at) as u64;
        let kept = stretch(bytes, next, end);
        at = kept.end;
        if next < at {
            listed = put_run(list, listed, run);
            written = byte_writer::write_text(out, written, &bytes[next..at]);
            records += kept.records;
            run.place = run.place + run.length + (at - next) as u64;
            run.length = 0;
        }
    }
    if last {
        listed = put_run(list, listed, run);
        run.place += run.length;
        run.length = 0;
    }
    Piece {
        used: at,
        written,
        listed,
        records,
        pending: run,
    }
}

// ---- a whole day

// Image and kept records over the front of the output, the dropped runs over the front of the list.
pub fn rescue(day: &[u8], out: &mut [u8], list: &mut [u8]) -> Result<Totals, RescueRefusal>
    ensures { answered result out.new list.new ≡ saved day.now out.old list.old }
{
    day_run::open(day)?;
    let none = Run {
        place: 0,
        length: 0,
    };
    if !roomy(day.len(), none, out.len(), list.len()) {
        return Err(RescueRefusal::NoRoom);
    }
    let end = day_run::image_end(day);
    let pending = Run {
        place: end as u64,
        length: 0,
    };
    byte_writer::write_text(out, 0, &day[..end]);
    let piece = rescue_piece(&day[end..], true, pending, &mut out[end..], list);
    Ok(Totals {
        written: end + piece.written,
        listed: piece.listed,
        records: piece.records,
    })
}
