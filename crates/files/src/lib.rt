// Readers read and writers written whole. A call that a signal interrupts is made again, at most REPEATS times for a reader or a writer, so that
// every loop ends.
#![tactic(auto)]

ghost use Rattle.std.specs.Prelude.{◌≡◌, ◌<◌, length, take, false, IfSome};
ghost use Rattle.std.specs.Io.KnownBytes.{Appends, Consumes, IsAtEnd};
ghost use Rattle.files.specs.Counts.{IsPrefixLen};

use std::io::{ErrorKind, Read, Write};

const REPEATS: usize = 1000;

// What was read: how many bytes, and whether a read failed. A failed reading has a count too, so the flag stands beside it.
#[derive(Clone, Copy)]
pub struct Reading {
    pub count: usize,
    pub failed: bool,
}

// The bytes of a reader at the front of buf, until buf is full, the reader ends or a read fails.
pub fn read_front<R: Read>(reader: &mut R, buf: &mut [u8]) -> Reading
    ensures within { IsPrefixLen result.count buf.new }
    ensures bytes { Consumes (R.remaining reader.old) (R.remaining reader.new) (take result.count buf.new) }
    ensures end { result.failed ≡ false → result.count < length buf.new → IsAtEnd (R.remaining reader.new) }
{
    let mut count = 0;
    let mut repeats = REPEATS;
    while count < buf.len() {
        match reader.read(&mut buf[count..]) {
            Ok(more) => {
                if more == 0 {
                    return Reading {
                        count,
                        failed: false,
                    };
                }
                count += more;
            }
            Err(e) => {
                if repeats == 0 || e.kind() != ErrorKind::Interrupted {
                    return Reading {
                        count,
                        failed: true,
                    };
                }
                repeats -= 1;
            }
        }
    }
    Reading {
        count,
        failed: false,
    }
}

// The bytes of a reader at the front of buf, as far as both go: how many, unless a read fails.
pub fn read_whole<R: Read>(reader: &mut R, buf: &mut [u8]) -> Option<usize>
    ensures within { IfSome result (λ count. IsPrefixLen count buf.new) }
    ensures bytes { IfSome result (λ count. Consumes (R.remaining reader.old) (R.remaining reader.new) (take count buf.new)) }
    ensures end { IfSome result (λ count. count < length buf.new → IsAtEnd (R.remaining reader.new)) }
{
    let reading = read_front(reader, buf);
    if reading.failed {
        None
    } else {
        Some(reading.count)
    }
}

// Writes a text: how many of its bytes were taken, fewer than all where a write fails or takes none.
pub fn write_whole<W: Write>(writer: &mut W, text: &[u8]) -> usize
    ensures within { IsPrefixLen result text.now }
    ensures bytes { Appends (W.contents writer.old) (W.contents writer.new) (take result text.now) }
{
    let mut written = 0;
    let mut repeats = REPEATS;
    while written < text.len() {
        match writer.write(&text[written..]) {
            Ok(put) => {
                if put == 0 {
                    return written;
                }
                written += put;
            }
            Err(e) => {
                if repeats == 0 || e.kind() != ErrorKind::Interrupted {
                    return written;
                }
                repeats -= 1;
            }
        }
    }
    written
}
