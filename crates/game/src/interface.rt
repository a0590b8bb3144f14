// The interface of games: each question is answered as the game tells, asks nothing of its caller and alters nothing.
ghost use Rattle.std.specs.Prelude.{◌≡◌};
ghost use Rattle.game.specs.Rules.{Rules, Facts, RaiseSpace, deal_of};

use crate::choice::Choice;
use crate::deal::Deal;
use crate::dealing::Misdeal;
use crate::taking::Barred;

pub trait Game {
    // what the game tells
    ghost rules: { Self → Rules };

    /// Returns whether the space takes a stake beside the seat's other stakes.
    ///
    /// `stakes` are the seat's stakes on the other spaces: the one on the space itself is handed in as 0.
    /// Refused where the space takes no bets, or where a stake that it needs beside it is missing.
    fn takes(&self, stakes: &[u32; 5], space: u8) -> Result<(), Barred>
        ensures { result ≡ (rules self.now).takes stakes.now space };

    // Whether the cards are a lawful deal for the staking seats.
    fn deals(&self, deal: &Deal<'_>) -> Result<(), Misdeal>
        ensures { result ≡ (rules self.now).deals (deal_of deal.now) };

    // Whether a seat with these stakes has a choice.
    fn chooses(&self, stakes: &[u32; 5]) -> bool
        ensures { result ≡ (rules self.now).chooses stakes.now };

    // Whether it may leave.
    fn leaves(&self, stakes: &[u32; 5]) -> bool
        ensures { result ≡ (rules self.now).leaves stakes.now };

    // The raise that it lays if it raises.
    fn raise(&self, stakes: &[u32; 5]) -> u64
        ensures { result ≡ (rules self.now).raise stakes.now };

    // What the seat, counted from 0, gets back for its stakes and its choice.
    fn returns(&self, seat: usize, stakes: &[u32; 5], choice: Choice, deal: &Deal<'_>) -> u64
        ensures { result ≡ (rules self.now).returns seat stakes.now choice (deal_of deal.now) };

    // The most that the bank may have to add to what the seat laid.
    fn ceiling(&self, stakes: &[u32; 5]) -> u64
        ensures { result ≡ (rules self.now).ceiling stakes.now };

    // what it promises
    ghost facts: { (g : Self) → Facts (rules g) };

    // where a choice is ever told, space 2 is the raise's
    ghost raise_space: { (g : Self) → RaiseSpace (rules g) };
}
