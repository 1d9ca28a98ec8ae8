// The bench program: document 01, "Standard input: an image, then big-endian records"; the answers go to standard output.
// A day of any length runs in the memory of a small one: records come and lines go through fixed buffers. What is answered is day_run's.
#![tactic(auto)]

ghost use Rattle.std.specs.Prelude.{◌≡◌, true};
ghost use Rattle.table.specs.Check.{is_table};

use std::io;
use std::io::{Read, Write};
use table::ImageRefusal;

// Room for records, and for their lines.
const ROOM: usize = 65536;

// Room for a line that is written alone.
const LINE: usize = 256;

// The line of the table's check.
fn say_table(output: &mut impl Write, checked: Result<(), ImageRefusal>) -> io::Result<()> {
    let mut line = [0; LINE];
    let end = day_lines::write_table(&mut line, 0, checked);
    streams::write_all(output, &line[..end])
}

// The line of a record that is cut off.
fn say_cut(output: &mut impl Write) -> io::Result<()> {
    let mut line = [0; LINE];
    let end = day_lines::write_refused(&mut line, 0, 1);
    streams::write_all(output, &line[..end])
}

// The records, piece by piece.
fn run(input: &mut impl Read, output: &mut impl Write, image: &[u8]) -> io::Result<()>
    requires { is_table image.now ≡ true }
{
    let mut day = day_run::start(image);
    let mut records = [0; ROOM];
    let mut lines = [0; ROOM];
    let mut filled = 0;
    for _ in 0..u64::MAX {
        let total = filled + streams::read_full(input, &mut records[filled..]);
        let piece = day_run::run_records(image, day, &records[..total], &mut lines);
        streams::write_all(output, &lines[..piece.written])?;
        if piece.ended {
            break;
        }
        if piece.used == 0 && total == filled {
            if 0 < filled {
                say_cut(output)?;
            }
            break;
        }
        filled = byte_writer::shift(&mut records, piece.used, total);
        day = piece.day;
    }
    Ok(())
}

// The image by its length, checked, and its records. A failed write ends the run.
fn answer(input: &mut impl Read, output: &mut impl Write) -> io::Result<()> {
    let mut space = [0; table_rows::LARGEST];
    let Ok(Some(end)) = streams::read_frame(input, &mut space) else {
        return say_table(output, Err(ImageRefusal::Length));
    };
    let image = &space[..end];
    say_table(output, table::check(image))?;
    if table::accepted(image) {
        run(input, output, image)?;
    }
    Ok(())
}

fn main(rt: HostRuntime) {
    answer(&mut rt.stdin(), &mut rt.stdout()).ok();
}
