// A kind of record that names a seat.
ghost use Rattle.std.specs.Prelude.{◌≡◌, ℕ};

pub trait NamesSeat {
    // the seat that the record names
    ghost seat_of: { Self → ℕ };

    fn seat(&self) -> u8
        ensures { result ≡ seat_of self.now };
}
