// What is said of each failure, and a tally of a few hands.
use crate::counts::Failure;
use crate::tally::{NotCounted, Tally};
use grading::ThreeClass;
use std::io::{Error, ErrorKind};
use std::test::Fail;

// The text of a failure is these words, and for an error of the writer that error's own text behind them.
#[test]
fn each_failure_is_said(rt: HostRuntime) -> Result<(), Fail> {
    let error = Error::from(ErrorKind::StorageFull);
    let written = format!(in rt.alloc(); "writing failed: {error}")?;
    let failures = [
        (Failure::Memory, "out of memory"),
        (Failure::TooMany, "a class has too many hands to count"),
        (Failure::Writing(error), written.as_str()),
    ];
    for (failure, words) in &failures {
        let text = format!(in rt.alloc(); "{failure}")?;
        assert_eq!(rt; text.as_str(), *words);
    }
    Ok(())
}

#[test]
fn what_stops_counting_is_said(rt: HostRuntime) -> Result<(), Fail> {
    let stops = [
        (NotCounted::Memory, "out of memory"),
        (NotCounted::TooMany, "a class has too many hands to count"),
    ];
    for (why, words) in stops {
        let failure = Failure::from(why);
        let text = format!(in rt.alloc(); "{failure}")?;
        assert_eq!(rt; text.as_str(), words);
    }
    Ok(())
}

#[test]
fn hands_are_counted_to_their_classes(rt: HostRuntime) -> Result<(), Fail> {
    let mut tally = Tally::new(rt.alloc());
    for class in [ThreeClass::Pair, ThreeClass::Flush, ThreeClass::Pair] {
        assert!(rt; tally.add(class).is_ok());
    }
    let counted = tally.census(rt.alloc());
    assert!(rt; counted.is_ok());
    if let Ok(census) = counted {
        assert_eq!(rt; census.get(&ThreeClass::Pair).copied(), Some(2));
        assert_eq!(rt; census.get(&ThreeClass::Flush).copied(), Some(1));
        assert_eq!(rt; census.get(&ThreeClass::Straight).copied(), None);
    }
    Ok(())
}
