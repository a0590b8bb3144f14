// The sum of records by a signed amount, made once for every kind that carries one.
ghost use Rattle.std.specs.Prelude.{◌≡◌, ℕ, ◌≤◌, length, ℤ};
ghost use Rattle.ledger.specs.Sums.{most_records, within, total_within, summed};

use refusals::{Cause, Refusal};

pub const MOST_AMOUNT: i64 = 1_000_000_000_000;

pub const MOST_RECORDS: usize = 1_000_000;

// A kind of record that carries a signed amount.
pub trait SignedAmount {
    // the amount that the record carries
    ghost amount_of: { Self → ℤ };

    fn amount(&self) -> i64
        ensures { result ≡ amount_of self.now };
}

// The sum of the records' amounts, refused where there are too many or one amount is too large.
pub fn sum<R: SignedAmount>(records: &[R]) -> Result<i64, Refusal>
    ensures { result ≡ summed R.amount_of records.now }
{
    if records.len() > MOST_RECORDS {
        return Err(Refusal::new(Cause::TotalTooLarge, 0));
    }
    total(records).ok_or(Refusal::new(Cause::TotalTooLarge, 0))
}

// The total of so few records that it cannot overflow, or None at an amount past the limit. A loop, since only its invariant bounds the total so far.
fn total<R: SignedAmount>(records: &[R]) -> Option<i64>
    requires { length records.now ≤ most_records }
    ensures { result ≡ total_within R.amount_of records.now }
{
    let mut total: i64 = 0;
    for record in records {
        let amount = record.amount();
        if !is_within(amount) {
            return None;
        }
        total += amount;
    }
    Some(total)
}

// Whether an amount stays within its limit, either way.
fn is_within(amount: i64) -> bool
    ensures { result ≡ within amount }
{
    (-MOST_AMOUNT..=MOST_AMOUNT).contains(&amount)
}
