// Fortune's posted odds, with the way in which it grades hands.
ghost use Rattle.std.specs.Prelude.{◌≡◌, true};
ghost use Rattle.game.specs.Odds.{all_postable};

/// A game of Fortune. The odds of Pair Plus are those of straight flush, three, straight, flush and pair, in this order.
#[derive(Drop)]
pub struct Fortune<G> {
    pub(crate) grading: G,
    pub(crate) odds: [u16; 5],
    ghost posted: { all_postable odds ≡ true },
}
