// What is printed as a line, and many of its kind one after another.
ghost use Rattle.std.specs.Prelude.{◌≡◌, ℕ, List, ◌++◌, Some, refl, IfSome, is_ok, if◌then◌else◌, OnOk, OnErr};
ghost use Rattle.std.specs.Fmt.{with_newline};
ghost use Rattle.lines.specs.Lines.{printed_entry, printed_note, printed_closing, too_long_line, lines_of, InPart};

use arrayvec::ArrayString;
use ledger::closings::Closing;
use ledger::entries::Entry;
use ledger::notes::Note;
use std::alloc::AllocError;
use std::fmt;
use std::fmt::Write;

/// Returns what is printed of a sheet that is too long to be read. It is a constant, so that this refusal needs no memory.
#[tactic(auto, using(crate::proofs::TooLong::its_bytes))]
pub fn too_long_note() -> &'static [u8]
    ensures { result.now ≡ too_long_line }
{
    b"X 0 22 0 sheet\n"
}

// The length of the longest line of a sheet, that of an entry, with its line feed.
const LINE_ROOM: usize = 80;

// Prints what `{}` writes, and a line feed. A line that fits is made on the stack: then memory is asked for only where the page has to grow.
#[tactic(auto, using(crate::proofs::Written::text_written))]
fn print_line<D: fmt::Display>(shown: &D, page: &mut Vec<u8>) -> Result<(), AllocError>
    ensures { IfSome (with_newline (D.output shown.now)) (λ line. page.new.items ≡ (if is_ok result then page.old.items ++ line else page.old.items)) }
{
    let mut line = ArrayString::<LINE_ROOM>::new();
    if writeln!(line, "{shown}").is_err() {
        return print_longer(shown, page);
    }
    page.extend_from_slice(line.as_str().as_bytes())
}

// The same for a line that does not fit on the stack. It is seldom called, and inlined it would only lengthen its caller.
#[inline(never)]
fn print_longer<D: fmt::Display>(shown: &D, page: &mut Vec<u8>) -> Result<(), AllocError>
    ensures { IfSome (with_newline (D.output shown.now)) (λ line. page.new.items ≡ (if is_ok result then page.old.items ++ line else page.old.items)) }
{
    let mut longer = String::with_capacity(*page.allocator(), 2 * LINE_ROOM)?;
    writeln!(longer, "{shown}")?;
    page.extend_from_slice(longer.as_bytes())
}

/// What is printed as a line.
pub trait Printed {
    // the line that is printed, with its line feed
    ghost line_of: { Self → List ℕ };

    /// Prints the line to the end of a page. `Err` where an allocation failed: then the page stays as it was.
    fn print(&self, page: &mut Vec<u8>) -> Result<(), AllocError>
        ensures { page.new.items ≡ (if is_ok result then page.old.items ++ line_of self.now else page.old.items) };
}

/// What is printed as it displays itself: its line is what `{}` writes of it, and a line feed.
pub trait Displayed: fmt::Display {
    // the line that is displayed, with its line feed
    ghost shown_as: { Self → List ℕ };

    ghost displayed: { (x : Self) → with_newline (Self.output x) ≡ Some (shown_as x) };
}

impl<T: Displayed> Printed for T {
    ghost line_of = { T.shown_as };

    fn print(&self, page: &mut Vec<u8>) -> Result<(), AllocError> {
        print_line(self, page)
    }
}

impl Displayed for Entry {
    ghost shown_as = { printed_entry };

    ghost displayed = { λ _. refl };
}

impl Displayed for Note {
    ghost shown_as = { printed_note };

    ghost displayed = { λ _. refl };
}

impl Displayed for Closing {
    ghost shown_as = { printed_closing };

    ghost displayed = { λ _. refl };
}

/// Prints a line for each record, in order. `Err` where an allocation failed: then the first few lines are printed, each whole, and not all.
pub fn print_all<R: Printed>(page: &mut Vec<u8>, records: &[R]) -> Result<(), AllocError>
    ensures lines { OnOk result (page.new.items ≡ page.old.items ++ lines_of R.line_of records.now) }
    ensures part { OnErr result (InPart R.line_of records.now page.old.items page.new.items) }
{
    for record in records {
        record.print(page)?;
    }
    Ok(())
}
