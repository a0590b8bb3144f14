// Counts by class while hands are counted one after another.
ghost use Rattle.std.specs.Prelude.{◌≡◌, ℕ, ◌+◌, List, false, cond, IfOk, OnOk};
ghost use Rattle.std.specs.BTreeSet.{contains};
ghost use Rattle.std.specs.Ordering.{is_eq};
ghost use Rattle.census.specs.Counts.{count_of, tallied};

use grading::HandClass;
use std::alloc::Global;
use std::collections::{BTreeMap, BTreeSet};
use std::marker::Model;

/// Why hands were not all counted.
#[derive(Clone, Copy)]
pub enum NotCounted {
    Memory,
    TooMany,
}

/// How many hands each class has, at the place that says how many classes are lower: a walk through a map for every hand would
/// take a good part of the time of grading it.
#[derive(Drop)]
pub struct Tally<K: HandClass> {
    seen: BTreeSet<K>,
    counts: [u32; 256],
}

impl<K: HandClass> Model for Tally<K> {
    ghost Value = { List ℕ };

    ghost view = { λ t. t.counts };

    // a class that was not seen has no hands
    ghost invariant = { λ t. (k : K) → contains K.cmp t.seen k ≡ false → tallied K.lower t.counts k ≡ 0 };
}

impl<K: HandClass> Tally<K> {
    /// A tally of no hands.
    pub fn new(alloc: Global) -> Tally<K>
        ensures { (k : K) → tallied K.lower result k ≡ 0 }
    {
        Tally {
            seen: BTreeSet::new(alloc),
            counts: [0; 256],
        }
    }

    /// Counts one hand to its class.
    pub fn add(&mut self, class: K) -> Result<(), NotCounted>
        ensures { OnOk result ((k : K) → tallied K.lower self.new k ≡ tallied K.lower self.old k + cond (is_eq (K.cmp class k)) 1 0) }
    {
        let place = class.below() as usize;
        let count = self.counts[place];
        if count == 0 && self.seen.insert(class).is_err() {
            return Err(NotCounted::Memory);
        }
        let Some(more) = count.checked_add(1) else {
            return Err(NotCounted::TooMany);
        };
        self.counts[place] = more;
        Ok(())
    }

    /// The counts of the classes that were seen.
    pub fn census(&self, alloc: Global) -> Result<BTreeMap<K, u32>, NotCounted>
        ensures { IfOk result (λ census. (k : K) → count_of K.cmp census k ≡ tallied K.lower self.now k) }
    {
        let mut census = BTreeMap::new(alloc);
        for class in &self.seen {
            let count = self.counts[class.below() as usize];
            if census.insert(*class, count).is_err() {
                return Err(NotCounted::Memory);
            }
        }
        Ok(census)
    }
}
