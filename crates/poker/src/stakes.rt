// A seat's stakes by their names: the ante on space 1, Pair Plus on space 3.
ghost use Rattle.std.specs.Prelude.{◌≡◌};
ghost use Rattle.poker.specs.Stakes.{ante_stake, pair_plus_stake};

pub(crate) fn ante(stakes: &[u32; 5]) -> u32
    ensures { result ≡ ante_stake stakes.now }
{
    stakes[0]
}

pub(crate) fn pair_plus(stakes: &[u32; 5]) -> u32
    ensures { result ≡ pair_plus_stake stakes.now }
{
    stakes[2]
}
