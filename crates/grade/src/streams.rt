// Lines read from a source, and their answers written to a sink.
ghost use Rattle.std.specs.Prelude.{◌≡◌, ℕ, ◌<◌, List, Option, length};
ghost use Rattle.std.specs.Io.KnownBytes.{Consumes, IsAtEnd};
ghost use Rattle.grade.specs.Inputs.{Answering, AnswersMore, ReadsMore};
ghost use Rattle.grade.specs.Streams.{Grades};

use crate::input::Input;
use byte_streams::error::StreamError;
use byte_streams::sink::{Sink, write_all};
use byte_streams::source::Source;
use std::alloc::Global;
use std::io::ErrorKind;

// How many bytes are read at once.
const ROOM: usize = 4096;

// Answers the lines that end among some bytes.
fn answer_bytes<T: Sink>(
    alloc: Global,
    sink: &mut T,
    input: &mut Input,
    bytes: &[u8],
) -> Result<(), StreamError>
    ensures { (source middle source' first : Option (List ℕ)) → Answering source middle first (T.contents sink.old) input.old → Consumes middle source' bytes.now → 0 < length bytes.now → AnswersMore (λ _. ⊥) T.fails_with source source' first (T.contents sink.new) input.new result }
{
    let mut page = Vec::new(alloc);
    input.take_all(&mut page, bytes)?;
    write_all(sink, &page)
}

// Reads some bytes, and answers the lines that end among them. Returns whether there may be more.
fn answer_next<S: Source, T: Sink>(
    alloc: Global,
    source: &mut S,
    sink: &mut T,
    input: &mut Input,
) -> Result<bool, StreamError>
    ensures { (known first : Option (List ℕ)) → Answering known (S.remaining source.old) first (T.contents sink.old) input.old → ReadsMore S.fails_with T.fails_with known (S.remaining source.new) first (T.contents sink.new) input.new result }
{
    let mut buffer = [0; ROOM];
    match source.read_some(&mut buffer) {
        Ok(0) => Ok(false),
        Ok(count) => {
            answer_bytes(alloc, sink, input, &buffer[..count])?;
            Ok(true)
        }
        Err(error) if error.kind() == ErrorKind::Interrupted => Ok(true),
        Err(error) => Err(StreamError::Reading(error)),
    }
}

// Answers the line behind the last line feed, if there is one.
fn answer_last<T: Sink>(alloc: Global, sink: &mut T, input: &Input) -> Result<(), StreamError>
    ensures { (source source' first : Option (List ℕ)) → Answering source source' first (T.contents sink.old) input.now → IsAtEnd source' → Grades (λ _. ⊥) T.fails_with source source' first (T.contents sink.new) result }
{
    if !input.is_in_line() {
        return Ok(());
    }
    let mut page = Vec::new(alloc);
    input.print_last(&mut page)?;
    write_all(sink, &page)
}

// The last read that is made: an input that has more bytes is too long.
fn end<S: Source, T: Sink>(
    alloc: Global,
    source: &mut S,
    sink: &mut T,
    input: &Input,
) -> Result<(), StreamError>
    ensures { (known first : Option (List ℕ)) → Answering known (S.remaining source.old) first (T.contents sink.old) input.now → Grades S.fails_with T.fails_with known (S.remaining source.new) first (T.contents sink.new) result }
{
    match source.read_some(&mut [0]) {
        Ok(0) => answer_last(alloc, sink, input),
        Ok(_) => Err(StreamError::OutOfMemory),
        Err(e) => Err(StreamError::Reading(e)),
    }
}

/// Reads an input from its first byte, or behind a byte-order mark that it begins with, to its end, and answers each line: a line is written for each
/// line, and an empty one for a line with no word and no bar. What does not end with a line feed is a line too. Keeps no line whole.
/// Where the source returns an error, the lines that had ended are answered; where the sink does, a part of the answers is written; where there is no memory, as for an input of more than 2^64 - 1 reads,
/// whole lines are answered, and not all.
pub fn grade_lines<S: Source, T: Sink>(
    alloc: Global,
    source: &mut S,
    sink: &mut T,
) -> Result<(), StreamError>
    ensures { Grades S.fails_with T.fails_with (S.remaining source.old) (S.remaining source.new) (T.contents sink.old) (T.contents sink.new) result }
{
    let mut input = Input::new();
    for _ in 0..u64::MAX {
        if !answer_next(alloc, source, sink, &mut input)? {
            return answer_last(alloc, sink, &input);
        }
    }
    end(alloc, source, sink, &input)
}
