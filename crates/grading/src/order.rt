// What every order of hands promises: total, turned about by swapping the hands, transitive, and the same for hands that are alike.
ghost use Rattle.std.specs.Prelude.{◌≡◌};
ghost use Rattle.grading.specs.Order.{turned_about};
ghost use Rattle.grading.specs.declared.comparisons.Comparison.{Comparison as Answer};
ghost use Rattle.grading.specs.declared.comparisons.Comparison.TheVariants.{Lower, Alike};

use crate::comparisons::Comparison;

pub trait Order {
    ghost order: { Self → Self → Answer };

    // How this hand compares with the other.
    fn compare(&self, other: &Self) -> Comparison
        ensures { result ≡ order self.now other.now };

    ghost turned: { (x y : Self) → order x y ≡ turned_about (order y x) };

    ghost chained: { (x y z : Self) → order x y ≡ Lower → order y z ≡ Lower → order x z ≡ Lower };

    ghost alike: { (x y z : Self) → order x y ≡ Alike → order x z ≡ order y z };
}
