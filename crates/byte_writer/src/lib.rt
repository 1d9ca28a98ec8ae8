// Bytes and numbers put into a lent buffer one behind the other: document 01, "Big-endian". Total: past the buffer's end nothing is written.
// The order of a written number's bytes is in `put_number`; lines, images and exports are written by these functions.
#![tactic(auto)]

ghost use Rattle.std.specs.Prelude.{◌≡◌, ◌∷◌, [], ◌+◌, ◌-◌, ◌≤◌, ◌<◌, length, take, drop};
ghost use Rattle.table_rows.specs.Bytes.{be_bytes};
ghost use Rattle.byte_writer.specs.Written.{Written};

// A byte for which there is room; the place behind it.
pub fn copy_byte(buffer: &mut [u8], at: usize, byte: u8) -> usize
    requires { at < length buffer.old }
    ensures value { result ≡ at + 1 }
    ensures written { Written buffer.old at (byte ∷ []) buffer.new result }
{
    buffer[at] = byte;
    at + 1
}

// One byte; the place behind it.
pub fn put(buffer: &mut [u8], at: usize, byte: u8) -> usize
    requires { at ≤ length buffer.old }
    ensures { Written buffer.old at (byte ∷ []) buffer.new result }
{
    if at < buffer.len() {
        copy_byte(buffer, at, byte)
    } else {
        at
    }
}

// A text for which there is room.
// Stays: byte by byte; with `copy_from_slice` the archive for C needs memmove from outside, where two lent slices meet.
pub fn copy_text(buffer: &mut [u8], at: usize, text: &[u8]) -> usize
    requires { at + length text.now ≤ length buffer.old }
    ensures value { result ≡ at + length text.now }
    ensures written { Written buffer.old at text.now buffer.new result }
{
    for i in 0..text.len() {
        buffer[at + i] = text[i];
    }
    at + text.len()
}

// A text, as much of it as there is room for.
pub fn write_text(buffer: &mut [u8], at: usize, text: &[u8]) -> usize
    requires { at ≤ length buffer.old }
    ensures { Written buffer.old at text.now buffer.new result }
{
    let n = text.len().min(buffer.len() - at);
    copy_text(buffer, at, &text[..n])
}

// The low bytes of a number, so many, the highest first; the place behind them.
pub fn put_number(bytes: &mut [u8], at: usize, width: u8, n: u64) -> usize
    requires { at ≤ length bytes.old }
    ensures { Written bytes.old at (be_bytes width n) bytes.new result }
{
    if width == 0 {
        return at;
    }
    let next = put_number(bytes, at, width - 1, n / 256);
    put(bytes, next, (n % 256) as u8)
}

// The bytes from `from` up to `end` over the front; how many they are.
pub fn shift(buffer: &mut [u8], from: usize, end: usize) -> usize
    requires { (from ≤ end) × (end ≤ length buffer.old) }
    ensures { Written buffer.old 0 (take (end - from) (drop from buffer.old)) buffer.new result }
{
    buffer.copy_within(from..end, 0);
    end - from
}
