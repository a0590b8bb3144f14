// Printed lines on examples.
ghost use Rattle.std.specs.Prelude.{[], ◌++◌, ◌∷◌, Some, refl};
ghost use Rattle.lines.specs.Lines.{with_feed};

use crate::printed::{Displayed, Printed, print_all};
use ledger::closings::Closing;
use ledger::entries::Entry;
use ledger::notes::Note;
use refusals::{Cause, Refusal};
use std::alloc::AllocError;
use std::fmt;
use std::test::Fail;

// Two words with a space between them, for a line of any length.
struct Words {
    first: &'static str,
    second: &'static str,
}

impl fmt::Display for Words {
    ghost output = { λ w. Some (w.first.now ++ 32 ∷ w.second.now) };

    fn fmt<W: fmt::Write>(&self, f: &mut fmt::Formatter<W>) -> fmt::Result {
        write!(f, "{} {}", self.first, self.second)
    }
}

impl Displayed for Words {
    ghost shown_as = { λ w. with_feed (w.first.now ++ 32 ∷ w.second.now) };

    ghost displayed = { λ _. refl };
}

// A line that is no text of `{}`: what is printed need not display itself.
struct Rule;

impl Printed for Rule {
    ghost line_of = { λ _. 45 ∷ 45 ∷ 10 ∷ [] };

    fn print(&self, page: &mut Vec<u8>) -> Result<(), AllocError> {
        page.extend_from_slice(b"--\n")
    }
}

#[test]
fn a_line_that_is_no_text_is_printed(rt: HostRuntime) -> Result<(), Fail> {
    let mut page = Vec::new(rt.alloc());
    print_all(&mut page, &[Rule, Rule])?;
    assert_eq!(rt; page.as_slice(), b"--\n--\n".as_slice());
    Ok(())
}

#[test]
fn lines_are_printed(rt: HostRuntime) -> Result<(), Fail> {
    let entry = Entry {
        round: 4_294_967_295,
        seat: 255,
        staked: 18_446_744_073_709_551_615,
        returned: 0,
        net: -9_223_372_036_854_775_808,
    };
    let refusal = Refusal::new(Cause::SpaceTaken, 1);
    let end = Closing {
        tray: 99900,
        racks: 1100,
        spaces: 0,
    };
    let mut page = Vec::new(rt.alloc());
    entry.print(&mut page)?;
    Note { place: 53, refusal }.print(&mut page)?;
    end.print(&mut page)?;
    assert_eq!(rt;
        page.as_slice(),
        b"E 4294967295 255 18446744073709551615 0 -9223372036854775808\nX 53 5 1 table\nZ 99900 1100 0\n".as_slice()
    );
    Ok(())
}

#[test]
fn the_longest_line_is_printed(rt: HostRuntime) -> Result<(), Fail> {
    let entry = Entry {
        round: 4_294_967_295,
        seat: 255,
        staked: 18_446_744_073_709_551_615,
        returned: 18_446_744_073_709_551_615,
        net: -9_223_372_036_854_775_808,
    };
    let mut page = Vec::new(rt.alloc());
    entry.print(&mut page)?;
    assert_eq!(rt;
        page.as_slice(),
        b"E 4294967295 255 18446744073709551615 18446744073709551615 -9223372036854775808\n".as_slice()
    );
    Ok(())
}

const FORTY: &str = "0123456789012345678901234567890123456789";

// The longest line that is made on the stack, with its line feed of 80 bytes.
#[test]
fn a_line_of_eighty_bytes_is_printed(rt: HostRuntime) -> Result<(), Fail> {
    let mut page = Vec::from_slice(rt.alloc(), b"before\n")?;
    Words {
        first: FORTY,
        second: "01234567890123456789012345678901234567",
    }
    .print(&mut page)?;
    assert_eq!(rt;
        page.as_slice(),
        b"before\n0123456789012345678901234567890123456789 01234567890123456789012345678901234567\n".as_slice()
    );
    assert_eq!(rt; page.len(), 7 + 80);
    Ok(())
}

// All but the line feed would fit on the stack.
#[test]
fn a_line_of_eighty_one_bytes_is_printed(rt: HostRuntime) -> Result<(), Fail> {
    let mut page = Vec::from_slice(rt.alloc(), b"before\n")?;
    Words {
        first: FORTY,
        second: "012345678901234567890123456789012345678",
    }
    .print(&mut page)?;
    assert_eq!(rt;
        page.as_slice(),
        b"before\n0123456789012345678901234567890123456789 012345678901234567890123456789012345678\n".as_slice()
    );
    assert_eq!(rt; page.len(), 7 + 81);
    Ok(())
}

// The first word fits on the stack, and the second no more.
#[test]
fn a_longer_line_is_printed_once(rt: HostRuntime) -> Result<(), Fail> {
    let mut page = Vec::from_slice(rt.alloc(), b"before\n")?;
    Words {
        first: "the first word of this line has some seventy bytes and no more than that",
        second: "the second word of this line has some seventy bytes and no more than that",
    }
    .print(&mut page)?;
    assert_eq!(rt;
        page.as_slice(),
        b"before\nthe first word of this line has some seventy bytes and no more than that the second word of this line has some seventy bytes and no more than that\n".as_slice()
    );
    Ok(())
}

#[test]
fn records_are_printed_in_order(rt: HostRuntime) -> Result<(), Fail> {
    let lost = Entry::new(1, 1, 100, 0)?;
    let won = Entry::new(1, 2, 50, 75)?;
    let mut page = Vec::new(rt.alloc());
    print_all(&mut page, &[lost, won])?;
    assert_eq!(rt;
        page.as_slice(),
        b"E 1 1 100 0 -100\nE 1 2 50 75 25\n".as_slice()
    );
    Ok(())
}
