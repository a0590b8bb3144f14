// A seat's choice after the deal: none made yet, raised, or left.
#[derive(Clone, Copy, PartialEq, Eq, Debug)]
pub enum Choice {
    Open,
    Raised,
    Left,
}
