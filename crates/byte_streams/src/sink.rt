//! Sinks of bytes, and writing all of some bytes to one.
ghost use Rattle.std.specs.Prelude.{◌≡◌, ℕ, ◌<◌, ⊤, List, Option, Some, length, IfOk, IfErr, OnOk, OnErr};
ghost use Rattle.std.specs.Io.{WritesAtMost};
ghost use Rattle.std.specs.Io.KnownBytes.{WriteAppends, Appends};
ghost use Rattle.std.specs.IoError.{error_kind};
ghost use Rattle.std.specs.declared.io.Error.{Error};
ghost use Rattle.std.specs.declared.io.ErrorKind.TheVariants.{OutOfMemory};
ghost use Rattle.byte_streams.specs.Streams.{AppendsPart, WritesAll};

use crate::TRIES;
use crate::error::StreamError;
use std::io;
use std::io::{ErrorKind, Write};

/// What bytes are written to, with the errors that writing may return.
pub trait Sink {
    // the bytes that were written, where they are known
    ghost contents: { Self → Option (List ℕ) };

    // the errors that a write may return
    ghost fails_with: { Error → Type 0 };

    /// Writes some of the bytes from the front on and returns how many: none only where there are none to write.
    fn write_some(&mut self, bytes: &[u8]) -> io::Result<usize>
        ensures bound { WritesAtMost result bytes.now }
        ensures some { IfOk result (λ n. 0 < length bytes.now → 0 < n) }
        ensures bytes { WriteAppends (contents self.old) (contents self.new) result bytes.now }
        ensures error { IfErr result fails_with };
}

/// Any writer as a sink, which may return any error. Where the writer takes no byte, that is an error too.
#[derive(Drop)]
pub struct ToWriter<W>(pub W);

impl<W: Write> Sink for ToWriter<W> {
    ghost contents = { λ s. W.contents s.0 };

    ghost fails_with = { λ _. ⊤ };

    fn write_some(&mut self, bytes: &[u8]) -> io::Result<usize> {
        match self.0.write(bytes) {
            Ok(0) if !bytes.is_empty() => Err(io::Error::from(ErrorKind::WriteZero)),
            answer => answer,
        }
    }
}

// Bytes in memory fail only where no memory is left.
impl Sink for Vec<u8> {
    ghost contents = { λ v. Some v.items };

    ghost fails_with = { λ e. error_kind e ≡ OutOfMemory };

    fn write_some(&mut self, bytes: &[u8]) -> io::Result<usize> {
        self.write(bytes)
    }
}

// One write, made again where a signal interrupts it.
fn write_uninterrupted<T: Sink>(sink: &mut T, bytes: &[u8]) -> io::Result<usize>
    ensures bound { WritesAtMost result bytes.now }
    ensures some { IfOk result (λ n. 0 < length bytes.now → 0 < n) }
    ensures bytes { WriteAppends (T.contents sink.old) (T.contents sink.new) result bytes.now }
    ensures error { IfErr result T.fails_with }
{
    for _ in 1..TRIES {
        match sink.write_some(bytes) {
            Err(e) if e.kind() == ErrorKind::Interrupted => {}
            answer => return answer,
        }
    }
    sink.write_some(bytes)
}

// Writes until nothing is left to write.
fn write_to_end<T: Sink>(sink: &mut T, bytes: &[u8]) -> io::Result<()>
    ensures all { OnOk result (Appends (T.contents sink.old) (T.contents sink.new) bytes.now) }
    ensures part { OnErr result (AppendsPart (T.contents sink.old) (T.contents sink.new) bytes.now) }
    ensures error { IfErr result T.fails_with }
{
    let mut rest = bytes;
    while !rest.is_empty() {
        let written = write_uninterrupted(sink, rest)?;
        rest = &rest[written..];
    }
    Ok(())
}

/// Writes all of some bytes to a sink. Where the sink returns an error, bytes from the front on were written, but not all.
/// A write that a signal interrupts is made again, a thousand times in a row at most.
pub fn write_all<T: Sink>(sink: &mut T, bytes: &[u8]) -> Result<(), StreamError>
    ensures { WritesAll T.fails_with (T.contents sink.old) (T.contents sink.new) bytes.now result }
{
    write_to_end(sink, bytes).map_err(StreamError::Writing)
}
