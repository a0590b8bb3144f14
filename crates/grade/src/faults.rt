// Why a line has no answer: the two causes for which grading refuses, and what each says to a reader.
ghost use Rattle.std.specs.Prelude.{◌≡◌, Some, IfErr};
ghost use Rattle.grade.specs.Faults.{FaultRefused, cause_of, as_refusal, meaning_words, refusal_text};

use refusals::{Cause, Refusal};
use std::fmt;

/// A cause for which grading refuses.
#[derive(Clone, Copy)]
pub enum Fault {
    NoCard,
    WrongCount,
}

impl Fault {
    /// The cause, among those of the whole table.
    pub fn cause(self) -> Cause
        ensures { result ≡ cause_of self }
    {
        match self {
            Fault::NoCard => Cause::NoCard,
            Fault::WrongCount => Cause::WrongCount,
        }
    }

    /// What the fault says to a reader.
    pub fn meaning(self) -> &'static str
        ensures { result.now ≡ meaning_words (cause_of self) }
    {
        match self {
            Fault::NoCard => "a word is no card, or a hand has one card twice",
            Fault::WrongCount =>
                "a hand has neither three nor five cards, or two hands differ in size",
        }
    }
}

/// The answer of grading, with the fault in the place of its refusal.
pub(crate) fn with_fault<X: Drop>(graded: Result<X, Refusal>) -> Result<X, Fault>
    requires { IfErr graded FaultRefused }
    ensures { as_refusal result ≡ graded }
{
    match graded {
        Ok(answer) => Ok(answer),
        Err(refusal) => match refusal.cause {
            Cause::NoCard => Err(Fault::NoCard),
            Cause::WrongCount => Err(Fault::WrongCount),
            _ => unreachable!(),
        },
    }
}

impl fmt::Display for Fault {
    ghost output = { λ fault. Some (refusal_text (cause_of fault)) };

    fn fmt<W: fmt::Write>(&self, f: &mut fmt::Formatter<W>) -> fmt::Result {
        let number = self.cause().number();
        let meaning = self.meaning();
        write!(f, "refused {number}: {meaning}")
    }
}
