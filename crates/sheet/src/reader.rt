// The reader: a sheet and the place from which it is read on.
ghost use Rattle.std.specs.Prelude.{◌≡◌};
ghost use Rattle.refusals.specs.Refusals.{Answers};
ghost use Rattle.sheet.specs.Reading.{read_at, sheet_faults, calls, cause_of, behind, SameBytes};
ghost use Rattle.sheet.specs.Writing.{IsWritable};

use crate::place::Place;
use crate::reading::read;
use commands::Command;
use refusals::Refusal;

#[derive(Clone, Copy)]
pub struct Reader<'a> {
    pub sheet: &'a [u8],
    pub place: Place,
}

impl<'a> Reader<'a> {
    // A reader at the first byte of a sheet.
    pub fn new(sheet: &'a [u8]) -> Self
        ensures sheet { result.sheet ≡ sheet.entry }
        ensures place { result.place.at ≡ 0 }
    {
        Reader {
            sheet,
            place: Place { at: 0 },
        }
    }

    // The command at the place, with the place moved behind it; none at the end of the sheet, or past it.
    pub fn read(&mut self) -> Result<Option<Command<'a>>, Refusal>
        ensures answer { calls result ≡ read_at self.old.sheet.now self.old.place.at }
        ensures place { self.new.place.at ≡ behind (calls result) self.old.place.at }
        ensures bytes { SameBytes self.old.sheet.now self.old.place.at (calls result) }
        ensures writable { IsWritable (calls result) }
        ensures least { Answers (sheet_faults self.old.sheet.now self.old.place.at) (cause_of (calls result)) }
        ensures sheet { self.new.sheet ≡ self.old.sheet }
    {
        read(self.sheet, &mut self.place)
    }
}
