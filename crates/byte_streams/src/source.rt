//! Sources of bytes, and filling a buffer from one.
ghost use Rattle.std.specs.Prelude.{◌≡◌, ℕ, ◌<◌, ◌≤◌, ⊤, List, Option, Some, take, length, IfOk, IfErr, IfSome};
ghost use Rattle.std.specs.Io.{ReadsAtMost};
ghost use Rattle.std.specs.Io.KnownBytes.{ReadConsumes, IsAtEnd};
ghost use Rattle.std.specs.declared.io.Error.{Error};
ghost use Rattle.byte_streams.specs.Streams.{ReadFails};

use crate::TRIES;
use crate::error::StreamError;
use std::io;
use std::io::{ErrorKind, Read};

/// What bytes are read from, with the errors that reading may return.
pub trait Source {
    // the bytes that are still to come, where they are known
    ghost remaining: { Self → Option (List ℕ) };

    // the errors that a read may return
    ghost fails_with: { Error → Type 0 };

    /// Reads some bytes to the front of a buffer and returns how many: none only at the end, or where the buffer is empty.
    fn read_some(&mut self, buffer: &mut [u8]) -> io::Result<usize>
        ensures bound { ReadsAtMost result buffer.new }
        ensures bytes { ReadConsumes (remaining self.old) (remaining self.new) result buffer.new }
        ensures error { IfErr result fails_with };
}

/// Any reader as a source, which may return any error.
#[derive(Drop)]
pub struct FromReader<R>(pub R);

impl<R: Read> Source for FromReader<R> {
    ghost remaining = { λ s. R.remaining s.0 };

    ghost fails_with = { λ _. ⊤ };

    fn read_some(&mut self, buffer: &mut [u8]) -> io::Result<usize> {
        self.0.read(buffer)
    }
}

// Bytes in memory are always read.
impl Source for &[u8] {
    ghost remaining = { λ s. Some s.now };

    ghost fails_with = { λ _. ⊥ };

    fn read_some(&mut self, buffer: &mut [u8]) -> io::Result<usize> {
        self.read(buffer)
    }
}

// One read, made again where a signal interrupts it.
fn read_uninterrupted<S: Source>(source: &mut S, buffer: &mut [u8]) -> io::Result<usize>
    ensures bound { ReadsAtMost result buffer.new }
    ensures bytes { ReadConsumes (S.remaining source.old) (S.remaining source.new) result buffer.new }
    ensures error { IfErr result S.fails_with }
{
    for _ in 1..TRIES {
        match source.read_some(buffer) {
            Err(e) if e.kind() == ErrorKind::Interrupted => {}
            answer => return answer,
        }
    }
    source.read_some(buffer)
}

// Reads until a buffer is full or the source is at its end, and returns how many bytes were read.
fn read_to_fill<S: Source>(source: &mut S, buffer: &mut [u8]) -> io::Result<usize>
    ensures within { IfOk result (λ n. n ≤ length buffer.new) }
    ensures bytes { IfOk result (λ n. IfSome (S.remaining source.old) (λ xs. take n buffer.new ≡ take (length buffer.new) xs)) }
    ensures end { IfOk result (λ n. n < length buffer.new → IsAtEnd (S.remaining source.new)) }
    ensures error { IfErr result S.fails_with }
{
    let mut filled = 0;
    while filled < buffer.len() {
        let read = read_uninterrupted(source, &mut buffer[filled..])?;
        if read == 0 {
            break;
        }
        filled += read;
    }
    Ok(filled)
}

/// Fills a buffer from a source until the buffer is full or the source is at its end, and returns how many bytes were read.
/// A read that a signal interrupts is made again, a thousand times in a row at most; any other error is returned at once, and the bytes read before it are lost.
pub fn fill<S: Source>(source: &mut S, buffer: &mut [u8]) -> Result<usize, StreamError>
    ensures within { IfOk result (λ n. n ≤ length buffer.new) }
    ensures bytes { IfOk result (λ n. IfSome (S.remaining source.old) (λ xs. take n buffer.new ≡ take (length buffer.new) xs)) }
    ensures end { IfOk result (λ n. n < length buffer.new → IsAtEnd (S.remaining source.new)) }
    ensures error { IfErr result (ReadFails S.fails_with) }
{
    read_to_fill(source, buffer).map_err(StreamError::Reading)
}
