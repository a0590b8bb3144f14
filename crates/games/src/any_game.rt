// The games that a table may be opened with; Makccarat knows in which of its two ways it is played.
use grading::ByRule;
use makccarat::posted::Makccarat;
use poker::fortune::posted::Fortune;
use poker::stud::posted::Stud;

/// One of the four games; Makccarat has two of them.
#[derive(Drop)]
pub enum AnyGame {
    Fortune(Fortune<ByRule>),
    Stud(Stud),
    Makccarat(Makccarat),
}
