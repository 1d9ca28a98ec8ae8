// The program of ./rescue, document 02, C-23, "A tool copies what still reads": a damaged gate day from standard input, its image and kept records to
// standard output, a line for each dropped run to standard error, and to descriptor 4 one line of what it came to: "rescued RECORDS BYTES RUNS" (the
// records kept, the bytes and the runs dropped), the table's refusal in the bench's words, or "unread", "unwritten" or "untold" where a read, a write or
// the list's write failed. A file of any size runs in the memory of a small one. What is kept is day_rescue's.
#![tactic(auto)]

ghost use Rattle.std.specs.Prelude.{◌≡◌, ◌≤◌, IfOk, length};

use day_rescue::{Piece, Run};
use std::fs::OpenOptions;
use std::io::{Read, Write};
use std::{fs, io};
use table::ImageRefusal;

// The name of descriptor 4.
const VERDICT: &str = "/dev/fd/4";

// Room for a piece of the day, for what is kept of it, and for lines.
const ROOM: usize = 65536;

// Room for the runs of a piece: 16 and 3 for each byte.
const LIST: usize = 196624;

// A run's line has fewer bytes.
const RUN_LINE: usize = 64;

// The line of what it came to has fewer bytes.
const LINE: usize = 128;

// Why a rescue ends before the day does.
#[derive(Clone, Copy)]
enum Failure {
    Table(ImageRefusal),
    Unread,
    Unwritten,
    Untold,
}

impl From<ImageRefusal> for Failure {
    fn from(why: ImageRefusal) -> Self {
        Self::Table(why)
    }
}

// What the pieces came to so far: the records kept, the bytes and the runs dropped.
#[derive(Clone, Copy)]
struct Sums {
    records: u64,
    dropped: u64,
    runs: u64,
}

impl Sums {
    // With one piece more.
    fn with(self, piece: Piece) -> Self {
        Self {
            records: self.records.wrapping_add(piece.records as u64),
            dropped: self
                .dropped
                .wrapping_add(piece.used.saturating_sub(piece.written) as u64),
            runs: self
                .runs
                .wrapping_add((piece.listed / day_rescue::RUN_BYTES) as u64),
        }
    }
}

// Standard input behind what is there, until the buffer is full; how many bytes are there then.
fn fill(input: &mut impl Read, buffer: &mut [u8], from: usize) -> Result<usize, Failure>
    requires { from ≤ length buffer.old }
    ensures { IfOk result (λ total. total ≤ length buffer.new) }
{
    let piece = streams::read_piece(input, &mut buffer[from..]);
    if piece.failed {
        return Err(Failure::Unread);
    }
    Ok(from + piece.count)
}

// "dropped PLACE LENGTH" for each run of a list.
fn say_runs(errors: &mut impl Write, list: &[u8]) -> io::Result<()> {
    let mut text = [0; ROOM];
    let mut end = 0;
    for run in list.chunks_exact(day_rescue::RUN_BYTES) {
        if ROOM - end < RUN_LINE {
            streams::write_all(errors, &text[..end])?;
            end = 0;
        }
        end = byte_writer::write_text(&mut text, end, b"dropped ");
        end = day_lines::write_decimal(&mut text, end, table_rows::eight_bytes(run, 0));
        end = byte_writer::put(&mut text, end, b' ');
        end = day_lines::write_decimal(&mut text, end, table_rows::eight_bytes(run, 8));
        end = byte_writer::put(&mut text, end, b'\n');
    }
    streams::write_all(errors, &text[..end])
}

// The records behind the image, piece by piece; `total` of the buffer's bytes are there, and the records begin at `start`.
fn rescue_records(
    input: &mut impl Read,
    output: &mut impl Write,
    errors: &mut impl Write,
    buffer: &mut [u8; ROOM],
    start: usize,
    mut total: usize,
) -> Result<Sums, Failure>
    requires { (start ≤ total) × (total ≤ 65536) }
{
    let mut kept = [0; ROOM];
    let mut list = [0; LIST];
    let mut from = start;
    let mut pending = Run {
        place: start as u64,
        length: 0,
    };
    let mut sums = Sums {
        records: 0,
        dropped: 0,
        runs: 0,
    };
    for _ in 0..u64::MAX {
        let last = total < ROOM;
        let bytes = &buffer[from..total];
        let piece = day_rescue::rescue_piece(bytes, last, pending, &mut kept, &mut list);
        streams::write_all(output, &kept[..piece.written]).map_err(|_| Failure::Unwritten)?;
        say_runs(errors, &list[..piece.listed]).map_err(|_| Failure::Untold)?;
        sums = sums.with(piece);
        if last {
            break;
        }
        pending = piece.pending;
        let left = byte_writer::shift(buffer, from + piece.used, total);
        total = fill(input, buffer, left)?;
        from = 0;
    }
    Ok(sums)
}

// The image, checked, and what is still whole behind it.
fn rescue(
    input: &mut impl Read,
    output: &mut impl Write,
    errors: &mut impl Write,
) -> Result<Sums, Failure> {
    let mut buffer = [0; ROOM];
    let total = fill(input, &mut buffer, 0)?;
    let day = &buffer[..total];
    day_run::open(day)?;
    let end = day_run::image_end(day);
    streams::write_all(output, &day[..end]).map_err(|_| Failure::Unwritten)?;
    rescue_records(input, output, errors, &mut buffer, end, total)
}

// "rescued RECORDS BYTES RUNS" over the front of a line; how many bytes it has.
fn write_sums(line: &mut [u8], sums: Sums) -> usize
    ensures { result ≤ length line.new }
{
    let mut end = byte_writer::write_text(line, 0, b"rescued ");
    end = day_lines::write_decimal(line, end, sums.records);
    end = byte_writer::put(line, end, b' ');
    end = day_lines::write_decimal(line, end, sums.dropped);
    end = byte_writer::put(line, end, b' ');
    end = day_lines::write_decimal(line, end, sums.runs);
    byte_writer::put(line, end, b'\n')
}

// The line of what it came to over the front; how many bytes it has.
fn write_verdict(line: &mut [u8], came: Result<Sums, Failure>) -> usize
    ensures { result ≤ length line.new }
{
    match came {
        Ok(sums) => write_sums(line, sums),
        Err(Failure::Table(why)) => day_lines::write_table(line, 0, Err(why)),
        Err(Failure::Unread) => byte_writer::write_text(line, 0, b"unread\n"),
        Err(Failure::Unwritten) => byte_writer::write_text(line, 0, b"unwritten\n"),
        Err(Failure::Untold) => byte_writer::write_text(line, 0, b"untold\n"),
    }
}

// Whether descriptor 4 is open to be written. Its name would also write what is open to be read alone.
fn is_writable(rt: HostRuntime) -> bool {
    match fs::symlink_metadata(&rt, VERDICT) {
        Ok(link) => !link.permissions().readonly(),
        Err(_) => false,
    }
}

// Words to descriptor 4. Without one that can be written they are not said.
fn say(rt: HostRuntime, words: &[u8]) -> io::Result<()> {
    if !is_writable(rt) {
        return Ok(());
    }
    let mut verdict = OpenOptions::new().append(true).open(&rt, VERDICT)?;
    streams::write_all(&mut verdict, words)
}

fn main(rt: HostRuntime) {
    let came = rescue(&mut rt.stdin(), &mut rt.stdout(), &mut rt.stderr());
    let mut line = [0; LINE];
    let end = write_verdict(&mut line, came);
    say(rt, &line[..end]).ok();
}
