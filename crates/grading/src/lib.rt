// The grading of hands: the class of three or five cards, and which of two hands is higher.
#![tactic(auto)]

pub mod comparisons; // The answer of a comparison of two hands.
pub mod three_classes; // The classes of three cards.
pub mod five_classes; // The classes of five cards.
pub mod classes; // What the classes of every size of hand promise.
pub mod order; // What every order of hands promises.
pub mod cards; // Which bytes are cards, and what a list of them holds.
mod ranks; // Ranks in a row, and cards in order.
mod admission; // Which lists of bytes are hands of a size, and why the others are refused.
mod of_cards; // Making the graded hand of cards that are admitted.
pub mod hands; // Hands of every size: grading them, their classes, and comparing two.
pub mod three; // Hands of three cards.
pub mod three_grading; // Ways of grading three cards, known by class and order alone.
pub mod five; // Hands of five cards.

pub use classes::HandClass;
pub use comparisons::Comparison;
pub use five::FiveHand;
pub use five_classes::FiveClass;
pub use hands::{Hand, class, compare, grade};
pub use order::Order;
pub use three::ThreeHand;
pub use three_classes::ThreeClass;
pub use three_grading::{ByRule, ThreeGrading};
