// The closing line: where the chips lie at the end.
ghost use Rattle.std.specs.Prelude.{Some};
ghost use Rattle.ledger.specs.Lines.{closing_line};

use std::fmt;

// The chips of the tray, of all racks together and of all spaces together.
#[derive(Clone, Copy, PartialEq, Eq, Debug)]
pub struct Closing {
    pub tray: u64,
    pub racks: u64,
    pub spaces: u64,
}

impl fmt::Display for Closing {
    ghost output = { λ c. Some (closing_line c) };

    fn fmt<W: fmt::Write>(&self, f: &mut fmt::Formatter<W>) -> fmt::Result {
        write!(f, "Z {} {} {}", self.tray, self.racks, self.spaces)
    }
}
