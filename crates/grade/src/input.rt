// An input as it is read, byte by byte: its lines are answered as they end.
ghost use Rattle.std.specs.Prelude.{◌≡◌, ℕ, true, List, [], ◌∷◌, ◌++◌, OnOk};
ghost use Rattle.grade.specs.Faults.{as_refusal};
ghost use Rattle.grade.specs.Inputs.{IsInputAfter, IsTypedAfter, ends_mark, head_with};
ghost use Rattle.grade.specs.Streams.{answer_text, answers_of, without_mark};

use crate::answers::Answer;
use crate::faults::Fault;
use crate::line::Line;
use std::alloc::AllocError;
use std::fmt::Write;

// Room for the longest answer; a longer one would only take more.
const LINE_ROOM: usize = 80;

// What editors put at the head of a text in UTF-8.
const MARK: [u8; 3] = [0xEF, 0xBB, 0xBF];

// Prints the line of an answer, an empty one where there is none.
fn print_answer(page: &mut Vec<u8>, answer: Result<Option<Answer>, Fault>) -> Result<(), AllocError>
    ensures { OnOk result (page.new.items ≡ page.old.items ++ (answer_text (as_refusal answer) ++ 10 ∷ [])) }
{
    let mut text = String::with_capacity(*page.allocator(), LINE_ROOM)?;
    match answer {
        Ok(None) => text.push('\n')?,
        Ok(Some(answer)) => writeln!(text, "{answer}")?,
        Err(fault) => writeln!(text, "{fault}")?,
    }
    page.extend_from_slice(text.as_bytes())
}

// How many bytes of a byte-order mark an input begins with, while it has no others.
#[derive(Clone, Copy)]
enum Head {
    Start,
    One,
    Two,
    Past,
}

impl Head {
    // The head with one byte more.
    fn with(self, byte: u8) -> Head
        ensures { result ≡ head_with self byte }
    {
        match self {
            Head::Start if byte == MARK[0] => Head::One,
            Head::One if byte == MARK[1] => Head::Two,
            _ => Head::Past,
        }
    }

    // Whether a byte is the last of a mark.
    fn is_marked_by(self, byte: u8) -> bool
        ensures { result ≡ ends_mark self byte }
    {
        matches!(self, Head::Two) && byte == MARK[2]
    }
}

// The line that is being typed, and whether it has any byte.
#[derive(Clone, Copy)]
struct Typed {
    line: Line,
    begun: bool,
}

impl Typed {
    // A text of which nothing was typed.
    fn new() -> Typed
        ensures { IsTypedAfter result [] [] }
    {
        Typed {
            line: Line::new(),
            begun: false,
        }
    }

    // Takes one byte more. A line feed ends the line, whose answer is printed.
    fn take(&mut self, page: &mut Vec<u8>, byte: u8) -> Result<(), AllocError>
        ensures { OnOk result ((before bytes : List ℕ) → IsTypedAfter self.old bytes (before ++ page.old.items) → IsTypedAfter self.new (bytes ++ byte ∷ []) (before ++ page.new.items)) }
    {
        if byte == b'\n' {
            print_answer(page, self.line.answer())?;
            self.line = Line::new();
            self.begun = false;
        } else {
            self.line.take(byte);
            self.begun = true;
        }
        Ok(())
    }
}

/// What is kept of an input: how much of a byte-order mark it begins with, and the line that is being typed.
#[derive(Clone, Copy)]
pub struct Input {
    head: Head,
    typed: Typed,
}

impl Input {
    /// An input of which nothing was read.
    pub fn new() -> Input
        ensures { IsInputAfter result [] [] }
    {
        Input {
            head: Head::Start,
            typed: Typed::new(),
        }
    }

    // Takes one byte more. The last byte of a mark takes what was read away.
    fn take(&mut self, page: &mut Vec<u8>, byte: u8) -> Result<(), AllocError>
        ensures { OnOk result ((before read : List ℕ) → IsInputAfter self.old read (before ++ page.old.items) → IsInputAfter self.new (read ++ byte ∷ []) (before ++ page.new.items)) }
    {
        if self.head.is_marked_by(byte) {
            self.typed = Typed::new();
        } else {
            self.typed.take(page, byte)?;
        }
        self.head = self.head.with(byte);
        Ok(())
    }

    /// Takes some bytes more, and prints the answers of the lines that end among them. `Err` where an allocation failed.
    pub fn take_all(&mut self, page: &mut Vec<u8>, bytes: &[u8]) -> Result<(), AllocError>
        ensures { OnOk result ((before read : List ℕ) → IsInputAfter self.old read (before ++ page.old.items) → IsInputAfter self.new (read ++ bytes.now) (before ++ page.new.items)) }
    {
        for byte in bytes {
            self.take(page, *byte)?;
        }
        Ok(())
    }

    /// Whether a line is being typed.
    pub fn is_in_line(&self) -> bool
        ensures { result ≡ self.now.typed.begun }
    {
        self.typed.begun
    }

    /// Prints the answer of the line that is being typed. `Err` where an allocation failed.
    pub fn print_last(&self, page: &mut Vec<u8>) -> Result<(), AllocError>
        ensures { OnOk result ((before read : List ℕ) → IsInputAfter self.now read before → self.now.typed.begun ≡ true → page.old.items ≡ [] → before ++ page.new.items ≡ answers_of (without_mark read)) }
    {
        print_answer(page, self.typed.line.answer())
    }
}
