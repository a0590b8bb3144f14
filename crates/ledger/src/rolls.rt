// A roll of records over a slice that the caller lends. Its ghost field imports every `ghost use` of this file, so no definition that names Roll is cited here.
ghost use Rattle.std.specs.Prelude.{ℕ, ◌≤◌, length};

// Keeping records: what is stored, and where.
pub mod keeping;

// Counting the records of a seat.
pub mod counting;

// The first `len` of the lent places hold the records, in the order in which they were kept. A roll has no memory of its own, so the places are its caller's.
// There is no `impl Model`: behind a view the lender would not learn what its slice holds when the roll ends.
#[derive(Drop)]
pub struct Roll<'a, R> {
    slots: &'a mut [R],
    len: usize,
    ghost fits: { len ≤ length slots.now },
}
