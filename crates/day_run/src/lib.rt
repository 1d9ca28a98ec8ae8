// The run of a gate day on rows: document 01, "The bench program". One record, one answer: `take_record` makes its call, `say` writes its line.
// No test of the state rules is made on the way: every call keeps them (crate machine_rules_kept). Records come in pieces of any size; a piece's run takes as many
// whole ones as there are. A new op comes in here in `call_of`; what else is made of an answer, beside `say`.
#![tactic(auto)]

ghost use Rattle.std.specs.Prelude.{◌≡◌, true, ◌+◌, ◌≤◌, length, Ok, IfOk};
ghost use Rattle.machine.specs.State.{State, fresh as fresh_state};
ghost use Rattle.state_events.specs.Slots.{room_for_events};
ghost use Rattle.machine.specs.Machine.{rules};
ghost use Rattle.call_perform.specs.Calls.{reply_of};
ghost use Rattle.day_records.specs.Records.{most_keys, records_from};
ghost use Rattle.day_records.specs.Views.{key_count, of_parsed, Parses};
ghost use Rattle.table.specs.Check.{is_table};
ghost use Rattle.byte_writer.specs.Written.{Written};
ghost use Rattle.day_lines.specs.Lines.{line_of};
ghost use Rattle.day_run.specs.Days.{next_at, body_at, ran, answers_of, fitting, image_end, opened, day_answers};
ghost use Rattle.day_run.specs.Views.{of_next, call_of, line_from, Kept, Taking, Pieced};
ghost use Rattle.state_room.specs.PartRows.{spare_room, Headed};
ghost use Rattle.state_room.specs.Holds.{Holds, rows_of, state_in};

use call_perform::{Answer, Call, Performed};
use call_push::{ActionPush, Push};
use call_transition_plan::Request;
use day_records::{Malformed, Parsed};
use state_room::Room;
use table::ImageRefusal;

// The room that the longest line needs, with much to spare; `longest` of specs/ says the same.
pub const LONGEST: usize = 4096;

// What a piece's run comes to: the state after it, how many bytes its records have, how many bytes their lines, and whether a bad length ended the run.
#[derive(Clone, Copy)]
pub struct Pieces {
    pub day: Room,
    pub used: usize,
    pub written: usize,
    pub ended: bool,
}

// A fresh manager over an accepted table.
pub fn start(image: &[u8]) -> Room
    requires { is_table image.now ≡ true }
    ensures kept { Kept image.now (rows_of result) }
    ensures result_value { state_in image.now (rows_of result) ≡ fresh_state image.now }
{
    state_fresh::room(image)
}

// What stands at a place of the bytes: a record, and how many bytes its length counts; none where there are fewer bytes than a record has; malformed
// is a length that no record has.
fn next_at(bytes: &[u8], at: usize) -> Result<Option<usize>, Malformed>
    requires { at ≤ length bytes.now }
    ensures { of_next result ≡ next_at bytes.now at }
{
    let left = bytes.len() - at;
    if left < day_records::LENGTH_BYTES {
        return Ok(None);
    }
    let n = table_rows::four_bytes(bytes, at) as usize;
    if day_records::MOST_BYTES < n {
        return Err(Malformed);
    }
    if left < day_records::LENGTH_BYTES + n {
        return Ok(None);
    }
    Ok(Some(n))
}

// ---- one record

// The record whose length counts n bytes, its reaction keys over the front of the array.
fn read(
    bytes: &[u8],
    at: usize,
    n: usize,
    keys: &mut [u16; day_records::MOST_KEYS],
) -> Result<Parsed, Malformed>
    requires { (at + 4 + n ≤ length bytes.now) × (length keys.old ≡ most_keys) }
    ensures { Parses result keys.old keys.new (body_at bytes.now at n) }
{
    let start = at + day_records::LENGTH_BYTES;
    let end = start + n;
    day_records::parse(&bytes[start..end], keys)
}

// What a record asks for.
fn call_of(parsed: Parsed) -> Call
    ensures { result ≡ call_of parsed }
{
    match parsed {
        Parsed::Plain(tag, terminal, _) => Call::Push(Push::Plain(tag, terminal)),
        Parsed::Network(tag, _) => Call::Push(Push::Network(tag)),
        Parsed::Control(tag) => Call::Push(Push::Control(tag)),
        Parsed::Action(action, tag, terminal, _) => Call::Push(Push::Action(ActionPush {
            action,
            tag,
            terminal,
        })),
        Parsed::Transition(reactor, mode, reset, c) => Call::Transition(Request {
            reactor,
            mode,
            reset,
            c,
        }),
        Parsed::Pop => Call::Pop,
    }
}

// How many reaction keys it has.
fn key_count(parsed: Parsed) -> usize
    ensures { result ≡ key_count (Ok parsed) }
{
    match parsed {
        Parsed::Plain(_, _, n) | Parsed::Network(_, n) | Parsed::Action(_, _, _, n) => n as usize,
        Parsed::Control(_) | Parsed::Transition(_, _, _, _) | Parsed::Pop => 0,
    }
}

// A record's call on the room, with the least tags, a pop's action keys and a transition's spare in theirs; what is malformed changes nothing.
fn take_record(
    image: &[u8],
    room: &mut Room,
    heads: &mut [u64; state_queues::HEADS],
    actions: &mut [u16; state_events::ROOM_FOR_EVENTS],
    spare: &mut [u64],
    parsed: Result<Parsed, Malformed>,
    keys: &[u16],
) -> Result<Performed, Malformed>
    requires kept { Kept image.now (rows_of room.old) }
    requires headed { Headed heads.old room.old.events room.old.ledger.counts }
    requires actions_len { (length actions.old ≡ room_for_events) × (key_count parsed ≤ length keys.now) × (spare_room ≤ length spare.old) }
    ensures taking { Taking image.now (rows_of room.old) (of_parsed parsed keys.now) (line_from image.now result actions.new) (rows_of room.new) }
    ensures headed_2 { Headed heads.new room.new.events room.new.ledger.counts }
    ensures actions_len_2 { (length actions.new ≡ room_for_events) × IfOk result (λ p. p.gathered.actions ≤ room_for_events) }
{
    let parsed = parsed?;
    let n = key_count(parsed);
    let performed = call_perform::perform(
        image,
        room,
        heads,
        actions,
        spare,
        call_of(parsed),
        &keys[..n],
    );
    Ok(performed)
}

// ---- its line

// The line of a call's answer; no record asks a question.
fn say_answer(
    out: &mut [u8],
    at: usize,
    image: &[u8],
    p: Performed,
    actions: &[u16; state_events::ROOM_FOR_EVENTS],
) -> usize
    requires at_in_bounds { at ≤ length out.old }
    requires actions_len { (length actions.now ≡ room_for_events) × (p.gathered.actions ≤ room_for_events) }
    ensures { Written out.old at (line_of image.now (reply_of p actions.now)) out.new result }
{
    if let Some(tag) = p.tag {
        return day_lines::write_ready(out, at, image, tag, p.gathered, actions);
    }
    match p.answer {
        Ok(Answer::Done) => day_lines::write_ok(out, at),
        Ok(Answer::Nothing) => day_lines::write_nothing(out, at),
        Ok(Answer::Tag(_) | Answer::Flag(_) | Answer::Number(_)) => at,
        Err(n) => day_lines::write_refused(out, at, u8::from(n)),
    }
}

fn say(
    out: &mut [u8],
    at: usize,
    image: &[u8],
    taken: Result<Performed, Malformed>,
    actions: &[u16; state_events::ROOM_FOR_EVENTS],
) -> usize
    requires at_in_bounds { at ≤ length out.old }
    requires actions_len { (length actions.now ≡ room_for_events) × IfOk taken (λ p. p.gathered.actions ≤ room_for_events) }
    ensures { Written out.old at (line_from image.now taken actions.now) out.new result }
{
    match taken {
        Ok(p) => say_answer(out, at, image, p, actions),
        Err(_) => day_lines::write_refused(out, at, 1),
    }
}

// ---- the run

// As many whole records as the bytes have, while a line has room.
pub fn run_records(image: &[u8], mut day: Room, bytes: &[u8], out: &mut [u8]) -> Pieces
    requires { Kept image.now (rows_of day) }
    ensures kept { Kept image.now (rows_of result.day) }
    ensures pieced { Pieced image.now (ran image.now bytes.now (state_in image.now (rows_of day)) (length out.old)) result bytes.now out.old out.new }
{
    let mut heads = state_queues::heads(&day.events, day.ledger.counts.waiting);
    let mut actions = [0u16; state_events::ROOM_FOR_EVENTS];
    let mut keys = [0u16; day_records::MOST_KEYS];
    let mut spare = [0u64; state_room::SPARE];
    let mut used = 0;
    let mut written = 0;
    let mut ended = false;
    while LONGEST <= out.len() - written {
        match next_at(bytes, used) {
            Ok(None) => break,
            Err(_) => {
                written = day_lines::write_refused(out, written, 1);
                ended = true;
                break;
            }
            Ok(Some(n)) => {
                let parsed = read(bytes, used, n, &mut keys);
                let taken = take_record(
                    image,
                    &mut day,
                    &mut heads,
                    &mut actions,
                    &mut spare,
                    parsed,
                    &keys,
                );
                written = say(out, written, image, taken, &actions);
                used += day_records::LENGTH_BYTES + n;
            }
        }
    }
    Pieces {
        day,
        used,
        written,
        ended,
    }
}

// ---- a whole day

// The length that an image begins with.
pub const IMAGE_LENGTH_BYTES: usize = 4;

// Where the image ends that a day begins with.
pub fn image_end(day: &[u8]) -> usize
    ensures { result ≡ image_end day.now }
{
    table_rows::four_bytes(day, 0) as usize + IMAGE_LENGTH_BYTES
}

// The image by its length: cut short, longer than the largest, or checked.
pub fn open(day: &[u8]) -> Result<(), ImageRefusal>
    ensures { result ≡ opened day.now }
{
    let end = image_end(day);
    if day.len() < end || table_rows::LARGEST < end {
        return Err(ImageRefusal::Length);
    }
    table::check(&day[..end])
}

// All records of a day, and what is said of the bytes at its end.
fn run_whole(image: &[u8], records: &[u8], out: &mut [u8]) -> usize
    requires { is_table image.now ≡ true }
    ensures { Written out.old 0 (fitting (length out.old) (answers_of image.now (fresh_state image.now) (records_from records.now 0))) out.new result }
{
    let piece = run_records(image, start(image), records, out);
    if piece.ended || piece.used == records.len() || out.len() - piece.written < LONGEST {
        return piece.written;
    }
    day_lines::write_refused(out, piece.written, 1)
}

// The lines of a whole day, an image and its records, over the front of the buffer: as many as there are while the longest line still has room.
pub fn run_day(day: &[u8], out: &mut [u8]) -> usize
    ensures { Written out.old 0 (fitting (length out.old) (day_answers day.now)) out.new result }
{
    if out.len() < LONGEST {
        return 0;
    }
    let opened = open(day);
    let first = day_lines::write_table(out, 0, opened);
    match opened {
        Ok(()) => {
            let end = image_end(day);
            first + run_whole(&day[..end], &day[end..], &mut out[first..])
        }
        Err(_) => first,
    }
}
