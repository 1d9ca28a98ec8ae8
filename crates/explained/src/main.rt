// The facts of a gate day, made of document 01's sentences: an image and its records from standard input; to standard output, for each record, what it
// asks, what stood before, the line that the bench answers, and what stands after, a fact a line, as numbers. Folder words makes words and pictures of
// them. A new fact comes in here as a line with its name; what it says is computed in day_telling and table_broken_rules.
#![tactic(auto)]

ghost use Rattle.std.specs.Prelude.{◌≡◌, true, ◌≤◌, IfSome, length};
ghost use Rattle.day_run.specs.Views.{Kept};
ghost use Rattle.state_events.specs.Slots.{Whole, room_for_events};
ghost use Rattle.state_room.specs.Holds.{rows_of};
ghost use Rattle.table.specs.Check.{is_table};

use day_records::{Malformed, Parsed};
use state_heads::HeadAt;
use state_queues::Which;
use state_room::Room;
use std::io::{Read, Stdout};
use streams::Cut;
use table::ImageRefusal;
use tags::{GlobalTag, QueueTag};

// The bytes of a length.
const LENGTH: usize = day_run::IMAGE_LENGTH_BYTES;

// ---- lines

// So many bytes may be on their way; then they go.
const ROOM: usize = 8192;

// A line of facts has fewer bytes, and so has a line of the bench that is no record's.
const LINE: usize = 256;

// The lines of a record's answer have fewer bytes.
const ANSWER: usize = 4096;

// Whether an offset's time is told is kept in the cell that its remainder gives.
const TIMES: usize = 61;

// Bytes on their way; what has no room is dropped.
#[derive(Drop)]
struct Text {
    bytes: [u8; ROOM],
    end: usize,
    ghost in_room: { end ≤ 8192 },
}

impl Text {
    fn has_room(&self, n: usize) -> bool {
        n <= ROOM - self.end
    }

    fn push(&mut self, bytes: &[u8]) {
        for b in bytes {
            if self.end < ROOM {
                self.bytes[self.end] = *b;
                self.end += 1;
            }
        }
    }

    fn as_slice(&self) -> &[u8] {
        &self.bytes[..self.end]
    }

    fn clear(&mut self) {
        self.end = 0;
    }
}

// What is on its way, and where it goes; the offsets whose times this record has told.
#[derive(Drop)]
struct Desk {
    output: Stdout,
    text: Text,
    times: [u64; TIMES],
}

impl Desk {
    fn new(output: Stdout) -> Self {
        Self {
            output,
            text: Text {
                bytes: [0; ROOM],
                end: 0,
            },
            times: [0; TIMES],
        }
    }

    // All that is on its way goes out; after a failed write the run goes on.
    fn flush(&mut self) {
        streams::write_all(&mut self.output, self.text.as_slice()).ok();
        self.text.clear();
    }

    // Bytes behind those that are on their way.
    fn put(&mut self, bytes: &[u8]) {
        if !self.text.has_room(bytes.len()) {
            self.flush();
        }
        self.text.push(bytes);
    }

    // A fact, by its name.
    fn say(&mut self, name: &[u8], words: &[u64]) {
        let mut line = [0; LINE];
        let end = day_telling::write_fact(&mut line, name, words);
        self.put(&line[..end]);
    }

    // An offset's hours, minutes, seconds and nanoseconds, once a record; that of zero need not be told.
    fn say_time(&mut self, offset: u64) {
        let cell = (offset % TIMES as u64) as usize;
        if self.times[cell] != offset {
            self.times[cell] = offset;
            self.say(b"time", &day_telling::time_words(offset));
        }
    }

    // No time is told yet.
    fn forget_times(&mut self) {
        self.times = [0; TIMES];
    }

    // The bench's line, behind a word.
    fn say_answer(&mut self, line: &[u8]) {
        self.put(b"answer ");
        self.put(line);
    }

    // The end of a record's facts; they go out before the next record is waited for.
    fn say_end(&mut self) {
        self.put(b"end\n");
        self.flush();
    }
}

// ---- the table

// Row i of the kind k; of a timer its time too, also as it were with its lowest byte first.
fn say_row(desk: &mut Desk, image: &[u8], k: u8, i: u16) {
    desk.say(b"row", &table_broken_rules::row_words(image, k, i));
    if k == table_rows::TIMER {
        let offset = table_rows::timer_offset(image, i);
        let turned = offset.swap_bytes();
        desk.say_time(offset);
        desk.say(b"turned", &[u64::from(i), turned]);
        desk.say_time(turned);
    }
}

fn say_rows(desk: &mut Desk, image: &[u8]) {
    for k in 0..table_rows::KINDS {
        for i in 0..table_rows::count(image, k) {
            say_row(desk, image, k, i);
        }
    }
}

// Each kind's count, its least and most, and where it stands.
fn say_counts(desk: &mut Desk, image: &[u8]) {
    for k in 0..table_rows::KINDS {
        let words = [
            u64::from(k),
            u64::from(table_rows::count(image, k)),
            u64::from(table_rows::kind_at(k).least),
            u64::from(table_rows::most_rows(image, k)),
            table_rows::count_place(k) as u64,
        ];
        desk.say(b"count", &words);
    }
}

// The bytes of row i of the kind k, with their places.
fn say_bytes(desk: &mut Desk, image: &[u8], k: u8, i: u16) {
    let start = table_rows::row_place(image, k, i);
    for at in start..start + table_rows::kind_at(k).width {
        let byte = table_rows::one_byte(image, at);
        desk.say(b"byte", &[at as u64, u64::from(byte)]);
    }
}

// The first row that breaks a rule, and which.
fn say_fault(desk: &mut Desk, image: &[u8]) {
    let k = table_broken_rules::bad_kind(image);
    let i = table::bad_row(image, k);
    desk.say(b"fault", &table_broken_rules::fault_words(image, k, i));
    say_row(desk, image, k, i);
    say_bytes(desk, image, k, i);
}

// Which of the check's steps refuses the image, and what it looked at.
fn refusal_words(image: &[u8], refusal: ImageRefusal) -> [u64; 2] {
    match refusal {
        ImageRefusal::Length => [1, 0],
        ImageRefusal::Version => [2, u64::from(table_rows::one_byte(image, LENGTH))],
        ImageRefusal::Short => [3, 0],
        ImageRefusal::Count(at) => [4, at as u64],
        ImageRefusal::Unfilled => [5, table_rows::place(image, table_rows::KINDS) as u64],
        ImageRefusal::Row(at) => [6, at as u64],
    }
}

// Why the image is refused, and no more follows; where it is long enough for its counts they are told first, and so is a row that breaks a rule.
fn say_refused(desk: &mut Desk, image: &[u8], refusal: ImageRefusal) {
    match refusal {
        ImageRefusal::Length | ImageRefusal::Version | ImageRefusal::Short => {}
        ImageRefusal::Count(_) | ImageRefusal::Unfilled => say_counts(desk, image),
        ImageRefusal::Row(_) => {
            say_counts(desk, image);
            say_fault(desk, image);
        }
    }
    desk.say(b"refusal", &refusal_words(image, refusal));
    desk.flush();
}

// The line of the table's check.
fn say_table(desk: &mut Desk, checked: Result<(), ImageRefusal>) {
    let mut line = [0; LINE];
    let end = day_lines::write_table(&mut line, 0, checked);
    desk.say_answer(&line[..end]);
}

// ---- the state

// A table's image and a day over it, which keeps the rules.
#[derive(Clone, Copy)]
struct Day<'a> {
    image: &'a [u8],
    room: &'a Room,
    ghost kept: { Kept image.now (rows_of room.now) },
}

fn say_scopes(desk: &mut Desk, day: Day) {
    for i in 0..table_rows::count(day.image, table_rows::SCOPE) {
        let words = day_telling::scope_words(&day.room.scopes, i);
        desk.say(b"scope", &words);
        desk.say_time(words[4]);
        desk.say_time(words[6]);
        desk.say_time(words[8]);
    }
}

// Each reactor's current mode.
fn say_modes(desk: &mut Desk, day: Day) {
    let total = usize::from(table_rows::count(day.image, table_rows::REACTOR));
    for (reactor, mode) in day.room.ledger.modes.iter().enumerate() {
        if reactor < total {
            desk.say(b"mode", &[reactor as u64, u64::from(*mode)]);
        }
    }
}

// A tag of a queue, its image, and whether it is held back.
fn say_place(desk: &mut Desk, name: &[u8], day: Day, queue: u16, tag: QueueTag) {
    let words = day_telling::place_words(&day.room.scopes, queue, tag);
    desk.say(name, &words);
    desk.say_time(words[1]);
    desk.say_time(words[5]);
}

// The least tag of a queue, which has the entry k, if it has one.
fn say_queue(desk: &mut Desk, day: Day, heads: &[u64; state_queues::HEADS], queue: u16, k: usize) {
    if let Some(tag) = state_queues::least_at(heads, k) {
        say_place(desk, b"queue", day, queue, tag);
    }
}

// The least tag of every queue that has one.
#[tactic(auto, using(crate::proofs::Laws::few_wait))]
fn say_queues(desk: &mut Desk, day: Day) {
    let heads = state_queues::heads(&day.room.events, day.room.ledger.counts.waiting);
    say_queue(
        desk,
        day,
        &heads,
        state_events::NONE,
        state_scopes::MOST_SCOPES,
    );
    for i in 0..table_rows::count(day.image, table_rows::SCOPE) {
        say_queue(desk, day, &heads, i, usize::from(i));
    }
}

// ---- where a pop's events come from

// The events at a head are told and taken out; how many are left.
#[tactic(auto, using(crate::proofs::Laws::left_few))]
fn take(
    desk: &mut Desk,
    day: Day,
    events: &mut [u64; state_events::ROOM],
    waiting: usize,
    h: HeadAt,
) -> usize
    requires whole { Whole events.old }
    requires waiting_le_room_for_events { waiting ≤ room_for_events }
    ensures { Whole events.new × (result ≤ room_for_events) }
{
    say_place(desk, b"take", day, h.queue, h.stamp);
    state_queues::remove(events, waiting, Which::At(h.queue, h.stamp)).count
}

// What a pop takes, in its own order: the root's events if its head is t, then, while the least scope head is t, all events at that head.
#[tactic(auto, using(crate::proofs::Laws::few_wait, crate::proofs::Laws::whole_events))]
fn say_sources(desk: &mut Desk, day: Day, t: GlobalTag) {
    let scopes = table_rows::count(day.image, table_rows::SCOPE);
    let mut events = day.room.events;
    let mut left = day.room.ledger.counts.waiting;
    let heads = state_queues::heads(&events, left);
    if let Some(h) = state_heads::root_head(&heads)
        && h.tag == t
    {
        left = take(desk, day, &mut events, left, h);
    }
    for _ in 0..left {
        let heads = state_queues::heads(&events, left);
        match state_heads::scope_head(&heads, &day.room.scopes, scopes) {
            Some(h) if h.tag == t => left = take(desk, day, &mut events, left, h),
            _ => break,
        }
    }
}

// What a pop finds.
#[tactic(auto, using(crate::proofs::Laws::few_wait))]
fn say_pop(desk: &mut Desk, day: Day) {
    say_queues(desk, day);
    let scopes = table_rows::count(day.image, table_rows::SCOPE);
    let heads = state_queues::heads(&day.room.events, day.room.ledger.counts.waiting);
    if let Some(h) = state_heads::peek(&heads, &day.room.scopes, scopes) {
        say_sources(desk, day, h.tag);
    }
}

// ---- a record

// The reaction keys of a record, which stand before others.
fn keys_of(parsed: Result<Parsed, Malformed>, keys: &[u16; day_records::MOST_KEYS]) -> &[u16] {
    let n = match parsed {
        Ok(Parsed::Plain(_, _, n) | Parsed::Network(_, n) | Parsed::Action(_, _, _, n)) => n,
        _ => 0,
    };
    &keys[..keys.len().min(usize::from(n))]
}

fn say_call(desk: &mut Desk, parsed: Result<Parsed, Malformed>) {
    let words = day_telling::call_words(parsed);
    desk.say(b"call", &words);
    desk.say_time(words[4]);
}

// The reactions named, and the first that the table lacks.
fn say_keys(desk: &mut Desk, image: &[u8], parsed: Result<Parsed, Malformed>, keys: &[u16]) {
    for (i, key) in keys.iter().enumerate() {
        desk.say(b"key", &[i as u64, u64::from(*key)]);
    }
    let words = day_telling::lacking(image, parsed, keys);
    if words[0] == 1 {
        desk.say(b"lacks", &words);
    }
}

// What a record asks.
fn say_asked(desk: &mut Desk, image: &[u8], body: &[u8]) -> Result<Parsed, Malformed> {
    let mut keys = [0; day_records::MOST_KEYS];
    let parsed = day_records::parse(body, &mut keys);
    say_call(desk, parsed);
    say_keys(desk, image, parsed, keys_of(parsed, &keys));
    parsed
}

// A global tag on a scope's scale.
fn say_local(desk: &mut Desk, day: Day, i: u16, t: GlobalTag) {
    let words = day_telling::local_words(&day.room.scopes, i, t);
    desk.say(b"local", &words);
    desk.say_time(words[2]);
}

// What stands before a record that depends on it.
fn say_before(desk: &mut Desk, day: Day, parsed: Result<Parsed, Malformed>) {
    match parsed {
        Ok(Parsed::Action(action, t, _, _)) => {
            say_local(desk, day, table_rows::action_scope(day.image, action), t);
        }
        Ok(Parsed::Transition(_, _, _, t)) => {
            for i in 0..table_rows::count(day.image, table_rows::SCOPE) {
                say_local(desk, day, i, t);
            }
        }
        Ok(Parsed::Pop) => say_pop(desk, day),
        Ok(Parsed::Plain(_, _, _) | Parsed::Network(_, _) | Parsed::Control(_)) | Err(Malformed) =>
            {}
    }
}

// The event that was accepted last.
fn say_last(desk: &mut Desk, day: Day) {
    let waiting = day.room.ledger.counts.waiting;
    if 0 < waiting {
        let s = state_events::slot_at(&day.room.events, waiting - 1);
        say_place(desk, b"into", day, s.queue, s.tag);
    }
}

// Modes, scopes and the least tag of every queue.
fn say_turned(desk: &mut Desk, day: Day) {
    say_modes(desk, day);
    say_scopes(desk, day);
    say_queues(desk, day);
}

// How many events wait, how many of them are ordinary, how many values and buckets are held.
fn say_held(desk: &mut Desk, day: Day) {
    let counts = day.room.ledger.counts;
    let held = day.room.ledger.held;
    let words = [
        counts.waiting as u64,
        counts.work as u64,
        held.values as u64,
        held.buckets as u64,
    ];
    desk.say(b"held", &words);
}

// What stands after a record that changes it.
fn say_after(desk: &mut Desk, day: Day, parsed: Result<Parsed, Malformed>) {
    say_held(desk, day);
    match parsed {
        Ok(
            Parsed::Plain(_, _, _)
            | Parsed::Network(_, _)
            | Parsed::Control(_)
            | Parsed::Action(_, _, _, _),
        ) => say_last(desk, day),
        Ok(Parsed::Transition(_, _, _, _)) => say_turned(desk, day),
        Ok(Parsed::Pop) | Err(Malformed) => {}
    }
}

// How many bytes a record has, its length included, its version and its op, whatever they are.
fn say_record(desk: &mut Desk, bytes: &[u8]) {
    let words = [
        bytes.len() as u64,
        u64::from(table_rows::one_byte(bytes, LENGTH)),
        u64::from(table_rows::one_byte(bytes, LENGTH + 1)),
    ];
    desk.say(b"record", &words);
}

// One record, its length included: what it asks, its line, and the day after it.
fn tell(desk: &mut Desk, day: Day, bytes: &[u8]) -> Room
    requires { 4 ≤ length bytes.now }
    ensures { Kept day.entry.image.now (rows_of result) }
{
    desk.forget_times();
    say_record(desk, bytes);
    let parsed = say_asked(desk, day.image, &bytes[LENGTH..]);
    say_before(desk, day, parsed);
    let mut lines = [0; ANSWER];
    let piece = day_run::run_records(day.image, *day.room, bytes, &mut lines);
    desk.say_answer(&lines[..piece.written]);
    let after = Day {
        image: day.image,
        room: &piece.day,
    };
    say_after(desk, after, parsed);
    desk.say_end();
    piece.day
}

// ---- the day

// How many bytes of the input are left.
fn unread(input: &mut impl Read) -> u64 {
    let mut space = [0; 65536];
    let mut total: u64 = 0;
    for _ in 0..u64::MAX {
        match streams::read_full(input, &mut space) {
            0 => break,
            n => total = total.saturating_add(n as u64),
        }
    }
    total
}

// A record that ends the run: how many bytes its length says, and how many there are; its line, and how many bytes are not read.
fn say_cut(desk: &mut Desk, input: &mut impl Read, cut: Cut) {
    desk.say(b"cut", &[cut.said as u64, cut.came as u64]);
    let mut line = [0; LINE];
    let end = day_lines::write_refused(&mut line, 0, 1);
    desk.say_answer(&line[..end]);
    desk.say(b"unread", &[unread(input), 0]);
    desk.say_end();
}

// The next record over the front of the space; how many bytes it has, or None where the run ends.
fn read_record(desk: &mut Desk, input: &mut impl Read, space: &mut [u8]) -> Option<usize>
    requires { 4 ≤ length space.old }
    ensures { IfSome result (λ end. (4 ≤ end) × (end ≤ length space.new)) }
{
    match streams::read_frame(input, space) {
        Ok(end) => end,
        Err(cut) => {
            say_cut(desk, input, cut);
            None
        }
    }
}

// The records, one after another.
fn run(desk: &mut Desk, input: &mut impl Read, image: &[u8])
    requires { is_table image.now ≡ true }
{
    let mut room = day_run::start(image);
    say_turned(desk, Day { image, room: &room });
    desk.put(b"records\n");
    desk.flush();
    let mut record = [0; LENGTH + day_records::MOST_BYTES];
    for _ in 0..u64::MAX {
        let Some(end) = read_record(desk, input, &mut record) else {
            break;
        };
        let day = Day { image, room: &room };
        room = tell(desk, day, &record[..end]);
    }
}

// The line of the check, how many bytes the image says and has, and its rows and records; or why it is refused.
#[tactic(auto, unfolding(table::specs::Check::is_table))]
fn answer(desk: &mut Desk, input: &mut impl Read, image: &[u8]) {
    let checked = table::check(image);
    say_table(desk, checked);
    let said = table_rows::four_bytes(image, 0);
    desk.say(b"image", &[u64::from(said), image.len() as u64]);
    match checked {
        Ok(()) => {
            say_counts(desk, image);
            say_rows(desk, image);
            run(desk, input, image);
        }
        Err(refusal) => say_refused(desk, image, refusal),
    }
}

// An image that is cut short or longer than the largest: how many bytes its length says, and how many there are.
fn say_no_image(desk: &mut Desk, cut: Cut) {
    say_table(desk, Err(ImageRefusal::Length));
    desk.say(b"image", &[cut.said as u64, cut.came as u64]);
    desk.say(b"refusal", &[1, 0]);
    desk.flush();
}

fn main(rt: HostRuntime) {
    let mut desk = Desk::new(rt.stdout());
    let mut input = rt.stdin();
    let mut space = [0; table_rows::LARGEST];
    match streams::read_frame(&mut input, &mut space) {
        Ok(Some(end)) => answer(&mut desk, &mut input, &space[..end]),
        Ok(None) => say_no_image(&mut desk, Cut { said: 0, came: 0 }),
        Err(cut) => say_no_image(&mut desk, cut),
    }
}
