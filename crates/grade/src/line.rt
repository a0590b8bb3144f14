// A line as it is typed, byte by byte.
ghost use Rattle.std.specs.Prelude.{◌≡◌, ℕ, List, [], ◌∷◌, ◌++◌};
ghost use Rattle.grade.specs.Answers.{line_answer};
ghost use Rattle.grade.specs.Faults.{as_refusal};
ghost use Rattle.grade.specs.Lines.{is_blank};
ghost use Rattle.grade.specs.States.{IsLineAfter, IsTextState, IsHandAfterText};

use crate::answers::Answer;
use crate::faults::Fault;
use crate::hand::TypedHand;
use crate::words::Word;

// Stands in a hand for a word that names no card: a number and no Option, since a hand refuses it as it does any byte that is no card.
const NO_CARD: u8 = 0;

fn is_blank(byte: u8) -> bool
    ensures { result ≡ is_blank byte }
{
    byte == b' ' || byte == b'\t' || byte == b'\r'
}

/// What decides the answer for a line, of the bytes that were typed so far: the hand before the bar, once there is one, the hand that
/// is being typed, and in it the word that is. However long the line is, it takes no more memory.
#[derive(Clone, Copy)]
pub struct Line {
    before: Option<TypedHand>,
    hand: TypedHand,
    word: Word,
}

impl Line {
    /// A line of which nothing was typed.
    pub fn new() -> Line
        ensures { IsLineAfter result [] }
    {
        Line {
            before: None,
            hand: TypedHand::new(),
            word: Word::Empty,
        }
    }

    // Ends the word that is being typed.
    fn end_word(&mut self)
        ensures before { self.new.before ≡ self.old.before }
        ensures hand { (text : List ℕ) → IsTextState self.old.hand self.old.word text → IsHandAfterText self.new.hand text }
        ensures word { self.new.word ≡ Word.Empty }
    {
        if !self.word.is_empty() {
            self.hand.add(self.word.card().unwrap_or(NO_CARD));
        }
        self.word = Word::Empty;
    }

    /// Takes one byte more: a blank ends a word, the first bar a hand, and any other byte is part of a word.
    pub fn take(&mut self, byte: u8)
        ensures { (bytes : List ℕ) → IsLineAfter self.old bytes → IsLineAfter self.new (bytes ++ byte ∷ []) }
    {
        if is_blank(byte) {
            self.end_word();
        } else if byte == b'|' && self.before.is_none() {
            self.end_word();
            self.before = Some(self.hand);
            self.hand = TypedHand::new();
        } else {
            self.word = self.word.with(byte);
        }
    }

    /// The answer for the line; none, if there is no word and no bar on it.
    pub fn answer(mut self) -> Result<Option<Answer>, Fault>
        ensures { (bytes : List ℕ) → IsLineAfter self bytes → as_refusal result ≡ line_answer bytes }
    {
        self.end_word();
        match self.before {
            Some(first) => Ok(Some(first.answer_beside(&self.hand)?)),
            None if self.hand.is_empty() => Ok(None),
            None => Ok(Some(self.hand.answer()?)),
        }
    }
}
