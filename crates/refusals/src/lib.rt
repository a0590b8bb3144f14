// Refusals: why a call is turned down, the seat it concerns, and the layer the cause belongs to.
#![tactic(auto)]

ghost use Rattle.std.specs.Prelude.{◌≡◌, Some};
ghost use Rattle.refusals.specs.Refusals.{number_of, layer_of, refused, word_of};

use std::fmt;

// The causes, each with the number that the rules give it.
#[derive(Clone, Copy, PartialEq, Eq, Debug)]
pub enum Cause {
    WrongStage = 1,
    NoSuchSeat = 2,
    NoBets = 3,
    BadAmount = 4,
    SpaceTaken = 5,
    NoCompanion = 6,
    RackTooSmall = 7,
    TrayTooSmall = 8,
    TotalTooLarge = 9,
    NoStakes = 10,
    NoRoundsLeft = 11,
    NoCard = 12,
    WrongCount = 13,
    NoChoiceOpen = 14,
    LeavingBarred = 15,
    ChoiceMissing = 16,
    NoPlaceFree = 17,
    BadConditions = 18,
    CutShort = 19,
    UnknownByte = 20,
    BadDeal = 21,
    SheetTooLong = 22,
}

#[derive(Clone, Copy, PartialEq, Eq, Debug)]
pub enum Layer {
    Game,
    Sheet,
    Table,
}

// A cause, and the seat that the call named; 0 where it named none, as it is printed, so an Option would only be turned back into it.
#[derive(Clone, Copy, PartialEq, Eq, Debug)]
pub struct Refusal {
    pub cause: Cause,
    pub seat: u8,
}

impl Cause {
    pub fn number(self) -> u8
        ensures { result ≡ number_of self }
    {
        self as u8
    }

    pub fn layer(self) -> Layer
        ensures { result ≡ layer_of self }
    {
        match self {
            Cause::NoBets
            | Cause::NoCompanion
            | Cause::NoCard
            | Cause::WrongCount
            | Cause::NoChoiceOpen
            | Cause::LeavingBarred => Layer::Game,
            Cause::CutShort | Cause::UnknownByte | Cause::BadDeal | Cause::SheetTooLong =>
                Layer::Sheet,
            _ => Layer::Table,
        }
    }
}

impl Refusal {
    // The refusal of a call that named this seat, or 0 for none.
    pub fn new(cause: Cause, seat: u8) -> Refusal
        ensures { result ≡ refused cause seat }
    {
        match cause {
            Cause::NoSuchSeat
            | Cause::CutShort
            | Cause::UnknownByte
            | Cause::BadDeal
            | Cause::SheetTooLong => Refusal { cause, seat: 0 },
            _ => Refusal { cause, seat },
        }
    }
}

impl Layer {
    pub fn word(self) -> &'static str
        ensures { result.now ≡ word_of self }
    {
        match self {
            Layer::Game => "game",
            Layer::Sheet => "sheet",
            Layer::Table => "table",
        }
    }
}

impl fmt::Display for Layer {
    ghost output = { λ l. Some (word_of l) };

    fn fmt<W: fmt::Write>(&self, f: &mut fmt::Formatter<W>) -> fmt::Result {
        f.write_str(self.word())
    }
}
