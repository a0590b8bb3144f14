// Each command whole and cut, the bounds of a Deal, the ends of a sheet, and writing back.
use commands::Command;
use refusals::{Cause, Refusal};
use sheet::place::Place;
use sheet::reader::Reader;
use sheet::writing::write;
use std::process::Abort;
use std::test::Fail;

// One command of each kind, back to back, and the places where they begin and where the last ends.
const SHEET: [u8; 129] = *b"T\x03\x00\x00\x00\x0A\x00\x00\x03\xE8\x00\x00\x00\x00\x00\x00\x00\x01\
\x00\x02\x00\x03\x00\x04\x00\x05\x00\x06\x00\x00\x00\x00\x00\x01\x86\xA0\
I\x01\x00\x00\x00\x00\x00\x00\x03\xE8\
C\x02\x00\x00\x00\x00\x00\x00\x00\x01\
F\x01\x02\x03\x04\x05\x06\x07\x08\
W\xFF\xFF\xFF\xFF\xFF\xFF\xFF\xFF\
B\x07\x05\x00\x00\x01\x00\
D\x04\x93\x50\xD2\x31\x00\x00\x00\x00\x00\x00\x00\x00\x00\x00\x00\x00\x00\x00\x00\x00\x00\x00\
\x00\x00\x00\x00\x00\x00\x00\x00\x00\x00\x00\x00\x00\x00\x00\x00\x00\x00\
R\x03L\x04SV";

const PLACES: [usize; 12] = [0, 36, 46, 56, 65, 74, 81, 123, 125, 127, 128, 129];

const NAMES: [&str; 11] = [
    "Open", "Buy", "Cash", "Fill", "Draw", "Bet", "Deal", "Raise", "Leave", "Settle", "Void",
];

fn refused(cause: Cause) -> Refusal {
    Refusal { cause, seat: 0 }
}

// Reading at a place is refused so, and the place stays.
fn check_refused(rt: &impl Abort, sheet: &[u8], at: usize, cause: Cause) -> Result<(), Fail> {
    let mut reader = Reader {
        sheet,
        place: Place { at },
    };
    match reader.read() {
        Err(refusal) => assert_eq!(rt; refusal, refused(cause)),
        Ok(_) => return Err(Fail::new("read")),
    }
    assert!(rt; reader.place.at == at);
    Ok(())
}

#[test]
fn each_command_is_read(rt: HostRuntime) -> Result<(), Fail> {
    let mut reader = Reader::new(&SHEET);
    for (at, name) in PLACES.into_iter().zip(NAMES) {
        assert_eq!(rt; reader.place.at, at);
        match reader.read() {
            Ok(Some(command)) => assert_eq!(rt; command.name(), name),
            _ => return Err(Fail::new("no command")),
        }
    }
    assert_eq!(rt; reader.place.at, 129);
    Ok(())
}

#[test]
fn each_command_cut_after_every_byte_is_cut_short(rt: HostRuntime) -> Result<(), Fail> {
    for pair in PLACES.windows(2) {
        let (start, end) = (pair[0], pair[1]);
        assert!(rt; start < end && end <= 129);
        for cut in start + 1..end {
            assert!(rt; start < cut && cut < end);
            check_refused(&rt, &SHEET[start..cut], 0, Cause::CutShort)?;
        }
    }
    Ok(())
}

#[test]
fn a_deal_counts_at_most_forty_cards_and_zeros_behind_them(rt: HostRuntime) -> Result<(), Fail> {
    let mut deal = [0u8; 42];
    deal[0] = 0x44;
    deal[1] = 40;
    deal[41] = 0x21;
    let mut reader = Reader::new(&deal);
    match reader.read() {
        Ok(Some(Command::Deal { cards })) => assert_eq!(rt; cards.len(), 40),
        _ => return Err(Fail::new("no deal")),
    }
    assert_eq!(rt; reader.place.at, 42);
    deal[1] = 41;
    check_refused(&rt, &deal, 0, Cause::BadDeal)?;
    deal[1] = 39;
    check_refused(&rt, &deal, 0, Cause::BadDeal)
}

#[test]
fn unknown_bytes_and_the_ends_of_a_sheet(rt: HostRuntime) -> Result<(), Fail> {
    check_refused(&rt, &[0x53, 0x00], 1, Cause::UnknownByte)?;
    check_refused(&rt, &[0x55, 0x53], 0, Cause::UnknownByte)?;
    let mut reader = Reader {
        sheet: &SHEET,
        place: Place { at: 129 },
    };
    assert!(rt; matches!(reader.read(), Ok(None)));
    reader.place.at = 1_000_000;
    assert!(rt; matches!(reader.read(), Ok(None)));
    assert_eq!(rt; reader.place.at, 1_000_000);
    let long = vec![in rt.alloc(); 0x53u8; 65_537]?;
    check_refused(&rt, &long, 0, Cause::SheetTooLong)?;
    check_refused(&rt, &long, 70_000, Cause::SheetTooLong)
}

// Copies the command at a place of one sheet to the same place of another, and answers the place behind it.
fn copy_command(sheet: &[u8], copy: &mut [u8], at: usize) -> Result<usize, Fail> {
    let mut reader = Reader {
        sheet,
        place: Place { at },
    };
    let Ok(Some(command)) = reader.read() else {
        return Err(Fail::new("no command"));
    };
    write(&command, copy, at).map_err(|_| Fail::new("refused"))
}

#[test]
fn what_is_read_is_written_as_the_same_bytes(rt: HostRuntime) -> Result<(), Fail> {
    let mut copy = [0xEEu8; 129];
    let out = &mut copy;
    for at in PLACES.iter().take(11) {
        let _ = copy_command(&SHEET, out, *at)?;
    }
    assert!(rt; copy == SHEET);
    Ok(())
}

// Writing a command is refused so.
fn check_not_written(
    rt: &impl Abort,
    command: &Command<'_>,
    out: &mut [u8],
    at: usize,
    cause: Cause,
) -> Result<(), Fail> {
    match write(command, out, at) {
        Err(refusal) => {
            assert_eq!(rt; refusal, refused(cause));
            Ok(())
        },
        Ok(_) => Err(Fail::new("written")),
    }
}

#[test]
fn a_deal_that_does_not_fit_or_has_too_many_cards_is_not_written(
    rt: HostRuntime,
) -> Result<(), Fail> {
    let mut out = [7u8; 42];
    let four = Command::Deal {
        cards: &[0x21, 0x22, 0x23, 0x30],
    };
    check_not_written(&rt, &four, &mut out, 1, Cause::CutShort)?;
    let cards = [0x21u8; 41];
    let deal = Command::Deal { cards: &cards };
    check_not_written(&rt, &deal, &mut out, 1, Cause::CutShort)?;
    check_not_written(&rt, &deal, &mut out, 0, Cause::BadDeal)?;
    assert!(rt; out == [7u8; 42]);
    Ok(())
}
