// The two ways of adding a card; they differ where the side that added is then level with the other.
ghost use Rattle.std.specs.Prelude.{◌≡◌};
ghost use Rattle.makccarat.specs.Ways.{adds_when_level};

/// A way of adding a card.
#[derive(Clone, Copy, PartialEq, Eq, Debug)]
pub enum Way {
    First,
    Second,
}

impl Way {
    // Whether a side that is level with the one that just added adds a card itself.
    pub(crate) fn adds_when_level(self) -> bool
        ensures { result ≡ adds_when_level self }
    {
        match self {
            Way::First => true,
            Way::Second => false,
        }
    }
}
