// The proved functions for programs in C and Rust: document 01, "Numbers and byte slices are exported to the Rust harness as C functions".
// The crate exports_c exports them; harness/barnshiver.h says what each number and byte is. A new function comes in here, there, in that header, and in the
// wrapper (harness/src).
#![tactic(auto)]

ghost use Rattle.std.specs.Prelude.{◌≡◌, true, false, MatchResult, ◌≤◌, length};
ghost use Rattle.table.specs.Check.{is_table, check};
ghost use Rattle.call_pop.specs.Pops.{reply_of};
ghost use Rattle.refusals.specs.declared.Refusal.TheVariants.{StateRule};
ghost use Rattle.byte_writer.specs.Written.{Written};
ghost use Rattle.day_run.specs.Days.{fitting, day_answers};
ghost use Rattle.state_room.specs.Holds.{rows_of, state_in};
ghost use Rattle.day_run.specs.Views.{Kept};
ghost use Rattle.tags.specs.Tags.{at, global_to_local, local_to_global};
ghost use Rattle.tags.specs.Views.{of_clock, mapped_local, mapped_global};
ghost use Rattle.exports.specs.Told.{word_bytes, tag_bytes, mapped_bytes, told};
ghost use Rattle.exports.specs.State.{peek_words, first_words, state_bytes, after_all, state_told};
ghost use Rattle.table_writer.specs.Writer.{writing};
ghost use Rattle.day_rescue.specs.Rescue.{answered};
ghost use Rattle.exports.specs.Answers.{check_told, write_told, rescue_bytes, clock_in, is_clock, mapped, map_told};

use day_rescue::RescueRefusal;
use refusals::Refusal;
use state_room::Room;
use tags::{GlobalTag, LocalTag, Mapped, ScopeClock};

// ---- what is told in lent bytes

// A lent slice is too short for what it is lent for; no refusal has this number.
// Stays: a number of the C interface.
const NO_ROOM: u8 = 255;

// Numbers of eight bytes.
fn put_words(bytes: &mut [u8], at: usize, words: &[u64]) -> usize
    requires { at ≤ length bytes.old }
    ensures { Written bytes.old at (word_bytes words.now) bytes.new result }
{
    let mut end = at;
    for word in words {
        end = byte_writer::put_number(bytes, end, 8, *word);
    }
    end
}

// ---- the state after a day

// Room for the lines of a piece; `scratch` of proofs/ says the same.
const SCRATCH: usize = 65536;

// The peek tag, control only, and the counts.
const FIRST_WORDS: usize = 8;

// Bytes of a state; `state_length` of specs/ says the same.
const STATE_BYTES: usize = 8
    * (FIRST_WORDS
        + state_room::MOST_REACTORS
        + state_scopes::ROOM
        + state_events::ROOM
        + store_words::ROOM_FOR_ENTRIES * store_words::VALUE_WORDS
        + store_words::ROOM_FOR_ENTRIES * store_words::BUCKET_WORDS);

// The records piece by piece, their lines given up.
fn run_all(image: &[u8], records: &[u8]) -> Room
    requires { is_table image.now ≡ true }
    ensures kept { Kept image.now (rows_of result) }
    ensures result_value { state_in image.now (rows_of result) ≡ after_all image.now records.now }
{
    let mut day = day_run::start(image);
    let mut lines = [0; SCRATCH];
    let mut at = 0;
    for _ in 0..records.len() {
        let piece = day_run::run_records(image, day, &records[at..], &mut lines);
        day = piece.day;
        if piece.ended || piece.used == 0 {
            return day;
        }
        at += piece.used;
    }
    day
}

// What a peek answers: whether there is a tag, its offset and its microstep.
fn peek_words(peeked: Option<GlobalTag>) -> [u64; 3]
    ensures { result ≡ peek_words (reply_of peeked) }
{
    match peeked {
        Some(tag) => [1, tag.0, u64::from(tag.1)],
        None => [0, 0, 0],
    }
}

// The words before the arrays.
fn first_words(image: &[u8], day: &Room) -> [u64; FIRST_WORDS]
    requires { Kept image.now (rows_of day.now) }
    ensures { result ≡ first_words image.now (state_in image.now (rows_of day.now)) }
{
    let counts = day.ledger.counts;
    let held = day.ledger.held;
    let heads = state_queues::heads(&day.events, counts.waiting);
    let peeked = call_pop::peek_tag(image, &day.scopes, &heads);
    let [found, offset, microstep] = peek_words(peeked);
    let only = call_pop::peek_is_control_only(image, &day.scopes, &day.events, counts, &heads);
    [
        found,
        offset,
        microstep,
        u64::from(only),
        counts.work as u64,
        counts.waiting as u64,
        held.values as u64,
        held.buckets as u64,
    ]
}

// The modes as words.
fn mode_words(modes: &[u16; state_room::MOST_REACTORS]) -> [u64; state_room::MOST_REACTORS]
    ensures { result ≡ modes.now }
{
    modes.map(u64::from)
}

// All bytes of a state, over the front.
fn put_state(state: &mut [u8], image: &[u8], day: &Room) -> usize
    requires { Kept image.now (rows_of day.now) }
    ensures { Written state.old 0 (state_bytes image.now (state_in image.now (rows_of day.now))) state.new result }
{
    let modes_at = put_words(state, 0, &first_words(image, day));
    let scopes_at = put_words(state, modes_at, &mode_words(&day.ledger.modes));
    let events_at = put_words(state, scopes_at, &day.scopes);
    let values_at = put_words(state, events_at, &day.events);
    let buckets_at = put_words(state, values_at, &day.values);
    put_words(state, buckets_at, &day.buckets)
}

// The state after a day's records, over the front of the bytes: 0. Or the image's refusal, and they stay as they were.
pub fn barnshiver_state_after(day: &[u8], state: &mut [u8]) -> u8
    ensures { told result state.new ≡ state_told day.now state.old }
{
    if state.len() < STATE_BYTES {
        return NO_ROOM;
    }
    match day_run::open(day) {
        Ok(()) => {
            let (image, records) = day.split_at(day_run::image_end(day));
            put_state(state, image, &run_all(image, records));
            0
        }
        Err(why) => u8::from(why),
    }
}

// ---- the run of a day

// The lines of a day's answers over the front of the buffer, as many as there are while the longest line still has room; how many bytes they take.
pub fn barnshiver_run_day(day: &[u8], lines: &mut [u8]) -> usize
    ensures { Written lines.old 0 (fitting (length lines.old) (day_answers day.now)) lines.new result }
{
    day_run::run_day(day, lines)
}

// ---- the table check

const PLACE_BYTES: usize = 8;

// Whether an image is a table: 0, or the refusal's number; and its place.
pub fn barnshiver_check_table(image: &[u8], place: &mut [u8]) -> u8
    ensures { told result place.new ≡ check_told (check image.now) place.old }
{
    if place.len() < PLACE_BYTES {
        return NO_ROOM;
    }
    match table::check(image) {
        Ok(()) => {
            byte_writer::put_number(place, 0, 8, 0);
            0
        }
        Err(why) => {
            byte_writer::put_number(place, 0, 8, why.place() as u64);
            u8::from(why)
        }
    }
}

// ---- the table writer

// The high half of the answer is the refusal's number, or 0; the low half its place, or how many bytes the image has.
const HALF: u64 = 4294967296;

// The image of counts and rows over the front of the buffer; or the refusal, and the buffer stays as it was.
pub fn barnshiver_write_table(counts: &[u8], rows: &[u8], buffer: &mut [u8]) -> u64
    ensures { told result buffer.new ≡ write_told (writing counts.now rows.now buffer.old) }
{
    let answer = table_writer::write(counts, rows, buffer);
    u64::from(table_writer::number_of(answer)) * HALF + table_writer::place_of(answer) as u64
}

// ---- the rescue of a damaged day

// How many bytes the output has, how many records were kept and how many runs were dropped, eight bytes each; then the runs.
const REPORT_HEAD: usize = 24;

// Image and kept records of a damaged day over the front of the output, the report over the front of its bytes: 0. Or the image's refusal, its number in
// the high half and its place in the low one, or 255 in the high half for too little room; and both stay as they were.
pub fn barnshiver_rescue(day: &[u8], output: &mut [u8], report: &mut [u8]) -> u64
    ensures { answered result output.new report.new ≡ rescue_bytes day.now output.old report.old }
{
    let head = REPORT_HEAD.min(report.len());
    match day_rescue::rescue(day, output, &mut report[head..]) {
        Ok(totals) => {
            let numbers = [
                totals.written as u64,
                totals.records as u64,
                (totals.listed / day_rescue::RUN_BYTES) as u64,
            ];
            put_words(report, 0, &numbers);
            0
        }
        Err(RescueRefusal::Image(why)) => { u64::from(u8::from(why)) * HALF + why.place() as u64 }
        Err(RescueRefusal::NoRoom) => u64::from(NO_ROOM) * HALF,
    }
}

// ---- the clock maps

// G, L, allowed, S.
const CLOCK_BYTES: usize = 37;

const TAG_BYTES: usize = 12;

// A tag, and a byte that is 0 or 1.
const MAPPED_BYTES: usize = 13;

#[tactic(auto, unfolding(crate::specs::Answers::is_clock))]
fn is_clock(clock: &[u8]) -> bool
    ensures { result ≡ is_clock clock.now }
{
    clock.len() == CLOCK_BYTES && day_records::is_bit(clock, 24)
}

// The clock of these bytes; what are no clock's break a state rule.
fn clock_in(clock: &[u8]) -> Result<ScopeClock, Refusal>
    ensures { MatchResult result (λ c. (is_clock clock.now ≡ true) × (of_clock c ≡ clock_in clock.now)) (λ why. (is_clock clock.now ≡ false) × (why ≡ StateRule)) }
{
    if !is_clock(clock) {
        return Err(Refusal::StateRule);
    }
    let g = day_records::tag_at(clock, 0);
    let l = day_records::tag_at(clock, 12);
    let s = day_records::tag_at(clock, 25);
    Ok(ScopeClock {
        activation_global: g,
        activation_local: LocalTag(l.0, l.1),
        allowed: day_records::is_one(clock, 24),
        suspended_local: LocalTag(s.0, s.1),
    })
}

fn mapped_local(clock: &[u8], tag: GlobalTag) -> Result<LocalTag, Refusal>
    ensures { mapped_local result ≡ mapped global_to_local clock.now (at tag.0 tag.1) }
{
    clock_in(clock)?.global_to_local(tag)
}

fn mapped_global(clock: &[u8], tag: LocalTag) -> Result<Mapped, Refusal>
    ensures { mapped_global result ≡ mapped local_to_global clock.now (at tag.0 tag.1) }
{
    clock_in(clock)?.local_to_global(tag)
}

// A tag as a record has it, over the front.
fn put_tag(tag: &mut [u8], offset: u64, microstep: u32) -> usize
    ensures { Written tag.old 0 (tag_bytes (at offset microstep)) tag.new result }
{
    let next = byte_writer::put_number(tag, 0, 8, offset);
    byte_writer::put_number(tag, next, 4, u64::from(microstep))
}

// A global tag on the scope's local scale: 0, or the refusal's number, and the bytes stay as they were.
pub fn barnshiver_global_to_local(clock: &[u8], offset: u64, microstep: u32, tag: &mut [u8]) -> u8
    ensures { told result tag.new ≡ map_told tag_bytes 12 (mapped global_to_local clock.now (at offset microstep)) tag.old }
{
    if tag.len() < TAG_BYTES {
        return NO_ROOM;
    }
    match mapped_local(clock, GlobalTag(offset, microstep)) {
        Ok(mapped) => {
            put_tag(tag, mapped.0, mapped.1);
            0
        }
        Err(why) => u8::from(why),
    }
}

// A local tag on the global scale likewise, and behind it whether it was held back: 1, or 0.
pub fn barnshiver_local_to_global(clock: &[u8], offset: u64, microstep: u32, tag: &mut [u8]) -> u8
    ensures { told result tag.new ≡ map_told mapped_bytes 13 (mapped local_to_global clock.now (at offset microstep)) tag.old }
{
    if tag.len() < MAPPED_BYTES {
        return NO_ROOM;
    }
    match mapped_global(clock, LocalTag(offset, microstep)) {
        Ok(mapped) => {
            let end = put_tag(tag, mapped.tag.0, mapped.tag.1);
            byte_writer::put_number(tag, end, 1, u64::from(mapped.held));
            0
        }
        Err(why) => u8::from(why),
    }
}
