// The two sides of a round.
ghost use Rattle.std.specs.Prelude.{◌≡◌};
ghost use Rattle.makccarat.specs.Sides.{other};

/// A side of a round.
#[derive(Clone, Copy, PartialEq, Eq, Debug)]
pub enum Side {
    Player,
    Banker,
}

impl Side {
    // The side across.
    pub(crate) fn other(self) -> Side
        ensures { result ≡ other self }
    {
        match self {
            Side::Player => Side::Banker,
            Side::Banker => Side::Player,
        }
    }
}
