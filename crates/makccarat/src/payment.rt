// What a stake on a space returns, and what a seat gets and may cost over its five spaces.
ghost use Rattle.std.specs.Prelude.{◌≡◌, ◌^◌, ◌<◌, sum};
ghost use Rattle.makccarat.specs.Laws.{CardsDecide, LowerBringsNothing};
ghost use Rattle.makccarat.specs.Payment.{side_return, tie_return, pair_return, space_returns, space_ceilings, rules_of};

use crate::posted::Makccarat;
use crate::round::{pair, winner};
use crate::side::Side;
use game::odds::{times, won};

// A side's stake pays 1 to 1 if that side wins, and comes back at a tie.
pub(crate) fn side_return(winner: Option<Side>, side: Side, stake: u32) -> u64
    ensures told { result ≡ side_return winner side stake }
    ensures bound { result < 2 ^ 49 }
{
    match winner {
        None => stake as u64,
        Some(winner) if winner == side => won(stake, 1),
        Some(_) => 0,
    }
}

// A stake on the tie pays its odds at a tie.
pub(crate) fn tie_return(winner: Option<Side>, odds: u16, stake: u32) -> u64
    ensures told { result ≡ tie_return winner odds stake }
    ensures bound { result < 2 ^ 49 }
{
    match winner {
        None => won(stake, odds),
        Some(_) => 0,
    }
}

// A stake on a pair pays its odds if the pair is held, whoever wins.
pub(crate) fn pair_return(held: bool, odds: u16, stake: u32) -> u64
    ensures told { result ≡ pair_return held odds stake }
    ensures bound { result < 2 ^ 49 }
{
    if held { won(stake, odds) } else { 0 }
}

impl Makccarat {
    /// Returns what a seat with these stakes gets back, in chips: what its five spaces return, added.
    pub fn seat_return(&self, stakes: &[u32; 5], cards: &[u8]) -> u64
        ensures amount { result ≡ sum (space_returns self.now stakes.now cards.now) }
        ensures anywhere { CardsDecide (rules_of self.now) stakes.now cards.now result }
        ensures lower { LowerBringsNothing self.now.way (rules_of self.now) }
    {
        let [player, banker, tie, player_pair, banker_pair] = *stakes;
        let winner = winner(self.way, cards);
        side_return(winner, Side::Player, player)
            + side_return(winner, Side::Banker, banker)
            + tie_return(winner, self.tie, tie)
            + pair_return(pair(cards, Side::Player), self.pairs, player_pair)
            + pair_return(pair(cards, Side::Banker), self.pairs, banker_pair)
    }

    // A seat's ceiling: each stake times its odds, added.
    pub(crate) fn seat_ceiling(&self, stakes: &[u32; 5]) -> u64
        ensures { result ≡ sum (space_ceilings self.now stakes.now) }
    {
        let [player, banker, tie, player_pair, banker_pair] = *stakes;
        times(player, 1)
            + times(banker, 1)
            + times(tie, self.tie)
            + times(player_pair, self.pairs)
            + times(banker_pair, self.pairs)
    }
}
