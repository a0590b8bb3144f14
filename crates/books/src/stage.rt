// Whether the table is betting or dealt.
ghost use Rattle.std.specs.Prelude.{◌≡◌, ◌≤◌, length, option_map};
ghost use Rattle.game.specs.Rules.{deal_of};
ghost use Rattle.books.specs.Books.{deal_on};

use game::deal::Deal;
use std::marker::Model;

// The deal of a round, as a table keeps it. Of the forty bytes the first `count` are the cards, and the others are 0.
// An array and no `ArrayVec`, since a round is copied: a table is settled from a copy of its stage.
#[derive(Clone, Copy)]
pub struct Round {
    staking: [bool; 7],
    bytes: [u8; 40],
    count: u8,
}

impl Model for Round {
    ghost use Rattle.game.specs.Rules.{Deal};

    ghost Value = { Deal };

    ghost use Rattle.books.specs.Rounds.{held, IsKept, kept, kept_back};

    ghost view = { held };

    ghost invariant = { IsKept };

    ghost inverse = { kept };

    ghost inverse_ok = { kept_back };
}

#[derive(Clone, Copy)]
pub enum Stage {
    Betting,
    Dealt(Round),
}

impl Stage {
    // The deal on the table.
    pub fn deal(&self) -> Option<Deal<'_>>
        ensures { option_map deal_of result ≡ deal_on self.now }
    {
        match self {
            Stage::Betting => None,
            Stage::Dealt(round) => Some(round.deal()),
        }
    }
}

impl Round {
    // The round of this deal.
    pub fn new(deal: &Deal<'_>) -> Round
        requires few { length deal.now.cards.now ≤ 40 }
        ensures { result ≡ deal_of deal.now }
    {
        let count = deal.cards.len();
        let mut bytes = [0; 40];
        bytes[0..count].copy_from_slice(deal.cards);
        Round {
            staking: deal.staking,
            bytes,
            // A cast that is proved to fit: a conversion would have an error that cannot be.
            count: count as u8,
        }
    }

    // The deal of the round.
    pub fn deal(&self) -> Deal<'_>
        ensures { deal_of result ≡ self.now }
    {
        Deal {
            staking: self.staking,
            cards: &self.bytes[..self.count as usize],
        }
    }
}
