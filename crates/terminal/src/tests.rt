//! Sheets that are read and settled from sources and to sinks that fail, are interrupted, or move a byte at a time.
use crate::streams::settle_stream;
use crate::{NO_ENTRY, NO_NOTE};
use byte_streams::error::StreamError;
use byte_streams::sink::ToWriter;
use byte_streams::source::FromReader;
use ledger::entries::Entry;
use ledger::notes::Note;
use ledger::rolls::Roll;
use open_table::begun::begin;
use refusals::{Cause, Refusal};
use run::rolls::Rolls;
use sheet::reader::Reader;
use std::io;
use std::io::{ErrorKind, Read, Write};
use std::test::Fail;

// One round of Makccarat at one seat, with a stake that is laid a second time and refused.
const ROUND: &[u8] = b"\
    \x54\x03\x00\x00\x00\x0A\x00\x00\x03\xE8\
    \x00\x00\x00\x00\x00\x00\x00\x00\x00\x00\x00\x00\x00\x00\x00\x00\x00\x00\
    \x00\x00\x00\x00\x00\x01\x86\xA0\
    \x49\x01\x00\x00\x00\x00\x00\x00\x03\xE8\
    \x42\x01\x01\x00\x00\x00\x64\
    \x42\x01\x01\x00\x00\x00\x64\
    \x44\x04\x93\x50\xD2\x31\
    \x00\x00\x00\x00\x00\x00\x00\x00\x00\x00\x00\x00\x00\x00\x00\x00\x00\x00\x00\x00\x00\x00\x00\x00\x00\x00\x00\x00\x00\x00\x00\x00\x00\x00\x00\x00\
    \x53";

// What is printed of it.
const LINES: &[u8] = b"E 1 1 100 200 100\nX 53 5 1 table\nZ 99900 1100 0\n";

// Reads a byte at a time, is interrupted before each, and fails at the end of its bytes where it is to.
#[derive(Drop)]
struct Halting {
    bytes: &'static [u8],
    fails: bool,
    interrupts: bool,
}

impl Read for Halting {
    fn read(&mut self, buffer: &mut [u8]) -> io::Result<usize> {
        self.interrupts = !self.interrupts;
        if self.interrupts {
            return Err(io::Error::from(ErrorKind::Interrupted));
        }
        if self.bytes.is_empty() && self.fails {
            return Err(io::Error::from(ErrorKind::TimedOut));
        }
        if self.bytes.is_empty() || buffer.is_empty() {
            return Ok(0);
        }
        buffer[0] = self.bytes[0];
        self.bytes = &self.bytes[1..];
        Ok(1)
    }
}

// Takes a byte at a time, is interrupted before each, and takes no more than it has room for.
#[derive(Drop)]
struct Disk {
    held: Vec<u8>,
    room: usize,
    interrupts: bool,
}

impl Write for Disk {
    fn write(&mut self, bytes: &[u8]) -> io::Result<usize> {
        self.interrupts = !self.interrupts;
        if self.interrupts {
            return Err(io::Error::from(ErrorKind::Interrupted));
        }
        if bytes.is_empty() {
            return Ok(0);
        }
        if self.held.len() >= self.room {
            return Err(io::Error::from(ErrorKind::StorageFull));
        }
        self.held.extend_from_slice(&bytes[..1])?;
        Ok(1)
    }

    fn flush(&mut self) -> io::Result<()> {
        Ok(())
    }
}

// The kind of the error, and which step it came from: 0 none, 1 reading, 2 memory, 3 writing.
fn step_of(answer: &Result<(), StreamError>) -> (u8, Option<ErrorKind>) {
    match answer {
        Ok(()) => (0, None),
        Err(StreamError::Reading(e)) => (1, Some(e.kind())),
        Err(StreamError::OutOfMemory) => (2, None),
        Err(StreamError::Writing(e)) => (3, Some(e.kind())),
    }
}

#[test]
fn a_round_is_read_and_settled(rt: HostRuntime) -> Result<(), Fail> {
    let mut page = Vec::new(rt.alloc());
    let mut sheet = ROUND;
    settle_stream(rt.alloc(), &mut sheet, &mut page)?;
    assert_eq!(rt; page.as_slice(), LINES);
    Ok(())
}

// A reader that never ends gives one byte more than a sheet may have.
#[test]
fn a_longer_sheet_is_seen_to_be_too_long(rt: HostRuntime) -> Result<(), Fail> {
    let mut page = Vec::new(rt.alloc());
    let mut sheet = FromReader(io::repeat(0x53));
    settle_stream(rt.alloc(), &mut sheet, &mut page)?;
    assert_eq!(rt; page.as_slice(), b"X 0 22 0 sheet\n".as_slice());
    Ok(())
}

// Reading that fails, and room for so many bytes of output: the step that fails, the kind of its error, and how many bytes are then held.
#[test]
fn each_step_fails_and_leaves_what_is_said(rt: HostRuntime) -> Result<(), Fail> {
    for (fails, room, step, kind, held) in [
        (false, 100, 0, None, 48),
        (true, 100, 1, Some(ErrorKind::TimedOut), 0),
        (false, 47, 3, Some(ErrorKind::StorageFull), 47),
        (false, 0, 3, Some(ErrorKind::StorageFull), 0),
    ] {
        let mut source = FromReader(Halting {
            bytes: ROUND,
            fails,
            interrupts: false,
        });
        let mut sink = ToWriter(Disk {
            held: Vec::new(rt.alloc()),
            room,
            interrupts: false,
        });
        let answer = settle_stream(rt.alloc(), &mut source, &mut sink);
        assert_eq!(rt; step_of(&answer), (step, kind));
        let done = sink.0.held;
        assert_eq!(rt; done.len(), held);
        assert!(rt; LINES.starts_with(&done));
    }
    Ok(())
}

// A reader that is interrupted each time is given up with that error.
#[derive(Drop)]
struct Interrupted;

impl Read for Interrupted {
    fn read(&mut self, _buffer: &mut [u8]) -> io::Result<usize> {
        Err(io::Error::from(ErrorKind::Interrupted))
    }
}

// A writer that takes nothing.
impl Write for Interrupted {
    fn write(&mut self, _bytes: &[u8]) -> io::Result<usize> {
        Ok(0)
    }

    fn flush(&mut self) -> io::Result<()> {
        Ok(())
    }
}

#[test]
fn a_reader_that_is_always_interrupted_and_a_writer_that_takes_nothing_fail(
    rt: HostRuntime,
) -> Result<(), Fail> {
    let mut page = Vec::new(rt.alloc());
    let answer = settle_stream(rt.alloc(), &mut FromReader(Interrupted), &mut page);
    assert_eq!(rt; step_of(&answer), (1, Some(ErrorKind::Interrupted)));
    assert!(rt; page.is_empty());
    let mut sheet = ROUND;
    let answer = settle_stream(rt.alloc(), &mut sheet, &mut ToWriter(Interrupted));
    assert_eq!(rt; step_of(&answer), (3, Some(ErrorKind::WriteZero)));
    Ok(())
}

// To be run with each allocation failing in turn (`rt try --test --fail-alloc N`): where memory gives out nothing is written.
#[test]
fn all_or_nothing_is_written_as_memory_lasts(rt: HostRuntime) -> Result<(), Fail> {
    let mut held = [0u8; 64];
    let mut room: &mut [u8] = &mut held;
    let mut sheet = ROUND;
    let answer = settle_stream(rt.alloc(), &mut sheet, &mut ToWriter(&mut room));
    let left = room.len();
    match answer {
        Ok(()) => assert_eq!(rt; left, 64 - LINES.len()),
        Err(e) => {
            assert_eq!(rt; step_of(&Err(e)), (2, None));
            assert_eq!(rt; left, 64);
        }
    }
    Ok(())
}

// Begins a sheet on a ledger and notes that were each lent, and says whether it opened a table.
fn begins(sheet: &[u8], ledger: &mut Roll<'_, Entry>, notes: &mut Roll<'_, Note>) -> bool {
    let mut rolls = Rolls::take(ledger, notes);
    let begun = begin(&mut Reader::new(sheet), &mut rolls);
    rolls.give_back(ledger, notes);
    matches!(begun, Ok(Some(_)))
}

#[test]
fn a_sheet_is_run_on_rolls_that_were_lent(rt: HostRuntime) -> Result<(), Fail> {
    let mut entries = [NO_ENTRY; 8];
    let mut noted = [NO_NOTE; 2];
    let mut ledger = Roll::new(&mut entries);
    let mut notes = Roll::new(&mut noted);
    assert!(rt; begins(ROUND, &mut ledger, &mut notes));
    let entry = Entry::new(1, 1, 100, 200)?;
    let refusal = Refusal::new(Cause::SpaceTaken, 1);
    assert_eq!(rt; ledger.records(), [entry].as_slice());
    assert_eq!(rt; notes.records(), [Note { place: 53, refusal }].as_slice());
    assert_eq!(rt; (ledger.free(), notes.free()), (7, 1));
    Ok(())
}
