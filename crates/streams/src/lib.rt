// Whole pieces from a reader and to a writer: what the programs move goes through here.
#![tactic(auto)]

ghost use Rattle.std.specs.Prelude.{◌≡◌, ◌<◌, ◌≤◌, IfOk, IfSome, OnOk, false, take, length};
ghost use Rattle.std.specs.Io.KnownBytes.{Appends, Consumes, IsAtEnd};
ghost use Rattle.streams.specs.Pieces.{IsPrefixLen};

use std::io;
use std::io::{Read, Write};

// How many bytes stand at the front of a buffer, and whether a read failed behind them.
// Stays: a Result is no plainer, since a failed read keeps its count, which `read_full` answers.
#[derive(Clone, Copy)]
pub struct Piece {
    pub count: usize,
    pub failed: bool,
}

// Bytes that are cut off: how many their length says, and how many came; of a length that is cut off, 0 and its bytes.
#[derive(Clone, Copy)]
pub struct Cut {
    pub said: usize,
    pub came: usize,
}

// Reads until buf is full, the input ends or a read fails. On an empty buf it makes no call.
pub fn read_piece<R: Read>(reader: &mut R, buf: &mut [u8]) -> Piece
    ensures in_bounds { IsPrefixLen result.count buf.new }
    ensures bytes { Consumes (R.remaining reader.old) (R.remaining reader.new) (take result.count buf.new) }
    ensures end { result.failed ≡ false → result.count < length buf.new → IsAtEnd (R.remaining reader.new) }
{
    let mut count = 0;
    // Stays: a turn goes on by what one read gives, which no range or iterator says more plainly.
    while count < buf.len() {
        match reader.read(&mut buf[count..]) {
            Ok(0) => break,
            Ok(n) => count += n,
            Err(_) => {
                return Piece {
                    count,
                    failed: true,
                };
            }
        }
    }
    Piece {
        count,
        failed: false,
    }
}

// The same, where a failed read counts as the end of the input: how many bytes stand at the front of buf.
pub fn read_full<R: Read>(reader: &mut R, buf: &mut [u8]) -> usize
    ensures in_bounds { IsPrefixLen result buf.new }
    ensures bytes { Consumes (R.remaining reader.old) (R.remaining reader.new) (take result buf.new) }
{
    read_piece(reader, buf).count
}

// A length of four bytes, the highest first, and as many bytes behind it, over the front of space; how many bytes both have. None where the input is over.
pub fn read_frame<R: Read>(reader: &mut R, space: &mut [u8]) -> Result<Option<usize>, Cut>
    requires { 4 ≤ length space.old }
    ensures { IfOk result (λ frame. IfSome frame (λ end. (4 ≤ end) × (end ≤ length space.new))) }
{
    let mut length = [0; 4];
    let came = read_full(reader, &mut length);
    if came == 0 {
        return Ok(None);
    }
    if came < length.len() {
        return Err(Cut { said: 0, came });
    }
    let said = u32::from_be_bytes(length) as usize;
    space[..4].copy_from_slice(&length);
    if space.len() - 4 < said {
        return Err(Cut { said, came: 0 });
    }
    let end = 4 + said;
    let came = read_full(reader, &mut space[4..end]);
    if came < said {
        return Err(Cut { said, came });
    }
    Ok(Some(end))
}

// Writes all of buf, or stops at the first write that takes nothing or fails, when some of buf may have been written. On an empty buf it makes no call.
pub fn write_all<W: Write>(writer: &mut W, buf: &[u8]) -> io::Result<()>
    ensures written { OnOk result (Appends (W.contents writer.old) (W.contents writer.new) buf.now) }
{
    writer.write_all(buf)
}

#[cfg(test)]
mod tests {
    use super::*;
    use std::io::{Cursor, ErrorKind};

    // No read of it succeeds.
    #[derive(Drop)]
    struct Broken;

    impl Read for Broken {
        fn read(&mut self, _buf: &mut [u8]) -> io::Result<usize> {
            Err(io::Error::from(ErrorKind::Other))
        }
    }

    #[test]
    fn short_reads_are_joined(rt: HostRuntime) {
        let mut input = b"ab".as_slice().chain(b"cde".as_slice());
        let mut buf = [0u8; 4];
        assert_eq!(rt; read_full(&mut input, &mut buf), 4);
        assert!(rt; buf == *b"abcd");
        assert_eq!(rt; read_full(&mut input, &mut buf), 1);
        assert!(rt; buf == *b"ebcd");
        assert_eq!(rt; read_full(&mut input, &mut buf), 0);
    }

    #[test]
    fn a_failed_read_keeps_what_came_before(rt: HostRuntime) {
        let mut input = b"ab".as_slice().chain(Broken);
        let mut buf = [0u8; 4];
        let got = read_piece(&mut input, &mut buf);
        assert!(rt; got.failed);
        assert_eq!(rt; got.count, 2);
        assert!(rt; buf == *b"ab\0\0");
        let none = read_piece(&mut input, &mut buf[..0]);
        assert!(rt; !none.failed);
    }

    #[test]
    fn a_frame_is_read_whole_or_cut_off(rt: HostRuntime) {
        let mut input = b"\0\0\0\x02ab\0\0\0\x05cd\0".as_slice();
        let mut space = [0u8; 9];
        let frame = read_frame(&mut input, &mut space);
        assert!(rt; matches!(frame, Ok(Some(6))));
        assert!(rt; space.starts_with(b"\0\0\0\x02ab"));
        let short = read_frame(&mut input, &mut space);
        assert!(rt; matches!(short, Err(Cut { said: 5, came: 3 })));
        let over = read_frame(&mut input, &mut space);
        assert!(rt; matches!(over, Ok(None)));
    }

    #[test]
    fn a_full_writer_is_told(rt: HostRuntime) {
        let mut room = Cursor::new([0u8; 4]);
        assert!(rt; write_all(&mut room, b"abc").is_ok());
        assert!(rt; write_all(&mut room, b"").is_ok());
        assert!(rt; write_all(&mut room, b"de").is_err());
        assert!(rt; room.into_inner() == *b"abcd");
    }
}
