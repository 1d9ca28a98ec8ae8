// The maker of table images, document 02, C-11: the numbers of a table from standard input, its image to standard output. What is written is table_writer's.
// Standard input: numbers of eight bytes, the highest first: nine counts, then three for each row in the image's order, its fields, 0 for one
// that it does not have. Standard output: the line of the table's check, as the bench writes it, then the image; of a table that is refused the
// image as it would stand, for the words; of one that is refused by a count its head alone.
#![tactic(auto)]

use std::io;
use std::io::Write;
use table::ImageRefusal;
use table_writer::WriteRefusal;

// Room for the numbers of the largest table.
const ROOM: usize = 65536;

// Room for the line of the check.
const LINE: usize = 256;

// The line of the check, then the first bytes of the image.
fn say(output: &mut impl Write, checked: Result<(), ImageRefusal>, image: &[u8]) -> io::Result<()> {
    let mut line = [0; LINE];
    let end = day_lines::write_table(&mut line, 0, checked);
    streams::write_all(output, &line[..end])?;
    streams::write_all(output, image)
}

// The image of counts and rows.
fn answer(output: &mut impl Write, counts: &[u8], rows: &[u8]) -> io::Result<()> {
    let mut image = [0; table_rows::LARGEST];
    match table_writer::write(counts, rows, &mut image) {
        Ok(end) => say(output, Ok(()), &image[..end]),
        Err(WriteRefusal::Image(why)) => {
            let shown = match why {
                ImageRefusal::Count(_) => &rows[..0],
                _ => rows,
            };
            let end = table_writer::put_image(counts, shown, &mut image);
            say(output, Err(why), &image[..end])
        }
        Err(WriteRefusal::NoRoom) => Ok(()),
    }
}

fn main(rt: HostRuntime) {
    let mut numbers = [0; ROOM];
    let end = streams::read_full(&mut rt.stdin(), &mut numbers);
    let numbers = &numbers[..end];
    let mut counts = [0; table_writer::COUNT_BYTES];
    table_writer::put_counts(numbers, &mut counts);
    let mut rows = [0; table_writer::LARGEST_ROWS];
    let end = table_writer::put_rows(numbers, &counts, &mut rows);
    answer(&mut rt.stdout(), &counts, &rows[..end]).ok();
}
