// A deal, as a game is asked about it: the seats that stake, from seat 1 on, and the cards as handed in.
#[derive(Clone, Copy)]
pub struct Deal<'a> {
    pub staking: [bool; 7],
    pub cards: &'a [u8],
}
