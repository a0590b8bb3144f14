// Ranks in a row, and cards in order.
ghost use Rattle.std.specs.Prelude.{◌≡◌, ◌+◌, ◌<◌, length};
ghost use Rattle.std.specs.List.Sorted.{IsPermutation, IsNonDecreasing};
ghost use Rattle.grading.specs.Steps.{head_at};

const ACE: u8 = 14;

// The head of a sequence of `size` different ranks, told by three of them; under the lowest run stands the ace.
pub(crate) fn head_of(size: u8, highest: u8, second: u8, lowest: u8) -> Option<u8>
    requires { (0 < size) × (lowest + size < 256) }
    ensures { result ≡ head_at size highest second lowest }
{
    if highest == lowest + (size - 1) {
        return Some(highest);
    }
    if highest == ACE && second == size {
        return Some(size);
    }
    None
}

// The cards in rising order: by rank, and within a rank by suit.
pub(crate) fn in_order<const N: usize>(cards: &[u8]) -> [u8; N]
    requires { length cards.now ≡ N }
    ensures shuffled { IsPermutation cards.now result }
    ensures up { IsNonDecreasing result }
{
    let mut sorted: [u8; N] = cards.try_into().unwrap();
    sorted.sort_unstable();
    sorted
}
