// Notes of refusals: what was refused, and at which place of the sheet.
ghost use Rattle.std.specs.Prelude.{◌≡◌, Some};
ghost use Rattle.ledger.specs.Lines.{note_line};
ghost use Rattle.ledger.specs.Notes.{note_number, note_layer};

use crate::seated::NamesSeat;
use refusals::{Layer, Refusal};
use std::fmt;

// The place is that of the refused command's first byte.
#[derive(Clone, Copy, PartialEq, Eq, Debug)]
pub struct Note {
    pub place: usize,
    pub refusal: Refusal,
}

impl Note {
    // The number of the cause.
    pub fn number(&self) -> u8
        ensures { result ≡ note_number self.now }
    {
        self.refusal.cause.number()
    }

    // The layer of the cause.
    pub fn layer(&self) -> Layer
        ensures { result ≡ note_layer self.now }
    {
        self.refusal.cause.layer()
    }
}

impl NamesSeat for Note {
    ghost seat_of = { λ n. n.refusal.seat };

    fn seat(&self) -> u8 {
        self.refusal.seat
    }
}

impl fmt::Display for Note {
    ghost output = { λ n. Some (note_line n) };

    fn fmt<W: fmt::Write>(&self, f: &mut fmt::Formatter<W>) -> fmt::Result {
        write!(
            f,
            "X {} {} {} {}",
            self.place,
            self.number(),
            self.seat(),
            self.layer()
        )
    }
}
