// A way with its odds: fixed in the first way, posted in the second.
ghost use Rattle.std.specs.Prelude.{◌≡◌, true};
ghost use Rattle.makccarat.specs.Ways.{lawful_odds};

use crate::way::Way;

/// A game of Makccarat: its way, and its odds of a tie and of pairs.
#[derive(Clone, Copy)]
pub struct Makccarat {
    pub(crate) way: Way,
    pub(crate) tie: u16,
    pub(crate) pairs: u16,
    ghost posted: { lawful_odds way tie pairs ≡ true },
}
