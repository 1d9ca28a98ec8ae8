// The writer of table images: document 02, C-11, "given counts and rows, it fills a lent buffer with the image of document 01".
// The rows are checked by the reader's own rules, which crate table has: a new rule needs no line here.
#![tactic(auto)]

ghost use Rattle.std.specs.Prelude.{◌≡◌, ◌≤◌, ◌^◌, length};
ghost use Rattle.byte_writer.specs.Written.{Written};
ghost use Rattle.table_writer.specs.Writer.{image_of, writing, wrote, number_of, place_of};
ghost use Rattle.table_writer.specs.declared.WriteRefusal.TheVariants.{Image};
ghost use Rattle.table_writer.specs.Numbers.{all_counts, row_bytes, kind_rows, all_rows};

use table::ImageRefusal;

// Bytes of the nine counts.
pub const COUNT_BYTES: usize = 2 * table_rows::KINDS as usize;

// No image has longer rows.
pub const LARGEST_ROWS: usize = table_rows::LARGEST - table_rows::HEAD;

// Why nothing is written.
#[derive(Clone, Copy, PartialEq, Eq)]
pub enum WriteRefusal {
    // what the reader would answer
    Image(ImageRefusal),
    // the buffer is too short: 1 at 0
    NoRoom,
}

impl From<ImageRefusal> for WriteRefusal {
    ghost from_gives = { λ why refusal. refusal ≡ Image why };

    fn from(why: ImageRefusal) -> WriteRefusal {
        WriteRefusal::Image(why)
    }
}

// The refusal's number in document 01, or 0.
pub fn number_of(answer: Result<usize, WriteRefusal>) -> u8
    ensures { result ≡ number_of answer }
{
    match answer {
        Ok(_) => 0,
        Err(WriteRefusal::Image(why)) => u8::from(why),
        Err(WriteRefusal::NoRoom) => 1,
    }
}

// The place that is answered with it, or how many bytes the image has.
pub fn place_of(answer: Result<usize, WriteRefusal>) -> usize
    ensures { result ≡ place_of answer }
{
    match answer {
        Ok(bytes) => bytes,
        Err(WriteRefusal::Image(why)) => why.place(),
        Err(WriteRefusal::NoRoom) => 0,
    }
}

// ---- from bytes

// The image of counts and rows, right or wrong, over the front, as much of it as there is room for; how many bytes that are.
pub fn put_image(counts: &[u8], rows: &[u8], buffer: &mut [u8]) -> usize
    ensures { Written buffer.old 0 (image_of counts.now rows.now) buffer.new result }
{
    let rest = 1 + counts.len() + rows.len();
    let version_at = byte_writer::put_number(buffer, 0, 4, rest as u64);
    let counts_at = byte_writer::put(buffer, version_at, table::VERSION);
    let rows_at = byte_writer::write_text(buffer, counts_at, counts);
    byte_writer::write_text(buffer, rows_at, rows)
}

// Counts of 18 bytes and the bytes of all rows in the image's order, as an image at the buffer's front; how many bytes it has.
pub fn write(counts: &[u8], rows: &[u8], buffer: &mut [u8]) -> Result<usize, WriteRefusal>
    ensures { wrote result buffer.new ≡ writing counts.now rows.now buffer.old }
{
    if counts.len() != COUNT_BYTES {
        return Err(WriteRefusal::Image(ImageRefusal::Short));
    }
    let mut image = [0u8; table_rows::LARGEST];
    put_image(counts, rows, &mut image);
    let k = table::bad_count(&image);
    if k < table_rows::KINDS {
        return Err(WriteRefusal::Image(ImageRefusal::Count(table_rows::count_place(k))));
    }
    let end = table_rows::place(&image, table_rows::KINDS);
    if end != table_rows::HEAD + rows.len() {
        return Err(WriteRefusal::Image(ImageRefusal::Unfilled));
    }
    table::check_rows(&image[..end])?;
    if buffer.len() < end {
        return Err(WriteRefusal::NoRoom);
    }
    byte_writer::write_text(buffer, 0, &image[..end]);
    Ok(end)
}

// ---- from numbers of eight bytes: nine counts, then three for each row in the image's order, its fields, and 0 for one that it does not have

// Bytes of a number, of the counts, and of a row's numbers.
const NUMBER: usize = 8;

const COUNT_NUMBERS: usize = NUMBER * table_rows::KINDS as usize;

const ROW_NUMBERS: usize = NUMBER * 3;

// The counts of the numbers over the front, two bytes each; how many bytes that are.
pub fn put_counts(numbers: &[u8], counts: &mut [u8]) -> usize
    ensures { Written counts.old 0 (all_counts numbers.now) counts.new result }
{
    let mut end = 0;
    for k in 0..table_rows::KINDS as usize {
        let n = table_rows::eight_bytes(numbers, NUMBER * k);
        end = byte_writer::put_number(counts, end, 2, n);
    }
    end
}

// The numbers of row j as a row of the kind k.
fn put_row(numbers: &[u8], j: u32, k: u8, rows: &mut [u8], at: usize) -> usize
    requires { at ≤ length rows.old }
    ensures { Written rows.old at (row_bytes k numbers.now j) rows.new result }
{
    let fields = table_rows::fields_at(k);
    let from = COUNT_NUMBERS + ROW_NUMBERS * j as usize;
    let first = table_rows::eight_bytes(numbers, from);
    let second = table_rows::eight_bytes(numbers, from + NUMBER);
    let third = table_rows::eight_bytes(numbers, from + 2 * NUMBER);
    let second_at = byte_writer::put_number(rows, at, fields.first, first);
    let third_at = byte_writer::put_number(rows, second_at, fields.second, second);
    byte_writer::put_number(rows, third_at, fields.third, third)
}

// So many rows of the kind k, the first of them row j.
fn put_rows_of(numbers: &[u8], j: u32, k: u8, n: u16, rows: &mut [u8], at: usize) -> usize
    requires { (at ≤ length rows.old) × (j ≤ 2 ^ 24) }
    ensures { Written rows.old at (kind_rows k numbers.now j n) rows.new result }
{
    let mut end = at;
    for i in 0..n {
        end = put_row(numbers, j + i as u32, k, rows, end);
    }
    end
}

// All rows that the counts name, over the front; how many bytes that are.
pub fn put_rows(numbers: &[u8], counts: &[u8], rows: &mut [u8]) -> usize
    ensures { Written rows.old 0 (all_rows counts.now numbers.now) rows.new result }
{
    let mut end = 0;
    let mut j = 0;
    for k in 0..table_rows::KINDS {
        let n = table_rows::two_bytes(counts, 2 * k as usize);
        end = put_rows_of(numbers, j, k, n, rows, end);
        j += n as u32;
    }
    end
}
