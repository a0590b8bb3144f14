// Odds of n to 1: which may be posted, and what a stake wins at them.
ghost use Rattle.std.specs.Prelude.{◌≡◌, ◌*◌, ◌^◌, ◌<◌};
ghost use Rattle.game.specs.Odds.{postable, all_postable, all_unused, won};

/// Returns whether these odds, n to 1, may be posted: 1 to 1,000.
pub fn is_postable(odds: u16) -> bool
    ensures { result ≡ postable odds }
{
    (1..=1000).contains(&odds)
}

/// Returns whether all of these odds may be posted.
pub fn are_postable(odds: &[u16]) -> bool
    ensures { result ≡ all_postable odds.now }
{
    odds.iter().all(|&odds| is_postable(odds))
}

/// Returns whether none of these odds are in use: each is 0.
pub fn are_unused(odds: &[u16]) -> bool
    ensures { result ≡ all_unused odds.now }
{
    odds.iter().all(|&odds| odds == 0)
}

/// Returns a stake times its odds, in chips: what it wins above itself.
pub fn times(stake: u32, odds: u16) -> u64
    ensures product { result ≡ stake * odds }
    ensures bound { result < 2 ^ 48 }
{
    stake as u64 * odds as u64
}

/// Returns what a stake that wins at odds of n to 1 brings, in chips: itself and n times itself.
pub fn won(stake: u32, odds: u16) -> u64
    ensures told { result ≡ won stake odds }
    ensures bound { result < 2 ^ 49 }
{
    stake as u64 + times(stake, odds)
}
