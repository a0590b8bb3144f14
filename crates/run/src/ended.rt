// How a run ended.
use refusals::Refusal;

/// How a run ended: the sheet was read to its end; a command could not be read, with the refusal that it met; or too few places were free to go on.
#[derive(Clone, Copy, PartialEq, Eq, Debug)]
pub enum Ended {
    SheetEnd,
    Unreadable(Refusal),
    NoRoom,
}
