// The answer for one hand or two: the class of a hand, or the classes of two and which is higher.
ghost use Rattle.std.specs.Prelude.{◌≡◌, Some};
ghost use Rattle.grade.specs.Answers.{one_graded, two_graded, one_hand, two_hands, outcome_word, graded_text, said};
ghost use Rattle.grade.specs.Faults.{as_refusal};

use crate::faults::{Fault, with_fault};
use grading::{
    Comparison, FiveClass, FiveHand, Hand, HandClass, ThreeClass, ThreeHand, class, compare,
};
use std::fmt;

// A hand's class, or those of two hands and how the first compares with the second.
#[derive(Clone, Copy)]
pub enum Graded<K> {
    One(K),
    Two(K, K, Comparison),
}

// Hands of three cards or of five.
#[derive(Clone, Copy)]
pub enum Answer {
    Threes(Graded<ThreeClass>),
    Fives(Graded<FiveClass>),
}

fn grade_one<H: Hand>(cards: &[u8]) -> Result<Graded<H::Class>, Fault>
    ensures { as_refusal result ≡ one_graded (H.classed cards.now) }
{
    Ok(Graded::One(with_fault(class::<H>(cards))?))
}

fn grade_two<H: Hand>(first: &[u8], second: &[u8]) -> Result<Graded<H::Class>, Fault>
    ensures { as_refusal result ≡ two_graded (H.compared first.now second.now) (H.classed first.now) (H.classed second.now) }
{
    let comparison = with_fault(compare::<H>(first, second))?;
    let first_class = with_fault(class::<H>(first))?;
    let second_class = with_fault(class::<H>(second))?;
    Ok(Graded::Two(first_class, second_class, comparison))
}

// One hand, graded at five cards if it has five, and else at three.
pub fn answer_one(cards: &[u8]) -> Result<Answer, Fault>
    ensures { as_refusal result ≡ one_hand cards.now }
{
    if cards.len() == 5 {
        Ok(Answer::Fives(grade_one::<FiveHand>(cards)?))
    } else {
        Ok(Answer::Threes(grade_one::<ThreeHand>(cards)?))
    }
}

// Two hands, graded at five cards if either has five, and else at three.
pub fn answer_two(first: &[u8], second: &[u8]) -> Result<Answer, Fault>
    ensures { as_refusal result ≡ two_hands first.now second.now }
{
    if first.len() == 5 || second.len() == 5 {
        Ok(Answer::Fives(grade_two::<FiveHand>(first, second)?))
    } else {
        Ok(Answer::Threes(grade_two::<ThreeHand>(first, second)?))
    }
}

// Which of two hands is higher, in a word.
pub fn outcome(comparison: Comparison) -> &'static str
    ensures { result.now ≡ outcome_word comparison }
{
    match comparison {
        Comparison::Lower => "second",
        Comparison::Alike => "tie",
        Comparison::Higher => "first",
    }
}

impl<K: HandClass> fmt::Display for Graded<K> {
    ghost output = { λ graded. Some (graded_text K.words graded) };

    fn fmt<W: fmt::Write>(&self, f: &mut fmt::Formatter<W>) -> fmt::Result {
        match self {
            Graded::One(class) => write!(f, "{class}"),
            Graded::Two(first, second, comparison) => {
                let outcome = outcome(*comparison);
                write!(f, "{first} | {second} | {outcome}")
            }
        }
    }
}

impl fmt::Display for Answer {
    ghost output = { λ answer. Some (said answer) };

    fn fmt<W: fmt::Write>(&self, f: &mut fmt::Formatter<W>) -> fmt::Result {
        match self {
            Answer::Threes(graded) => write!(f, "{graded}"),
            Answer::Fives(graded) => write!(f, "{graded}"),
        }
    }
}
