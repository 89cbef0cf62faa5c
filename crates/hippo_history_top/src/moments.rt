//! The moments of entries, by their numbers.
ghost use Rattle.std.specs.Prelude.{◌≡◌, [], ◌∷◌, ◌++◌, cond, int_le, OnOk};
ghost use Rattle.hippo_model.specs.Terms.{History};
ghost use Rattle.hippo_history_top.specs.declared.asking.Bound.TheVariants.{At};
ghost use Rattle.hippo_history_top.specs.Dating.{moments_of, moment_at, count_to};

use crate::asking::Bound;
use crate::gathering::Gather;
use hippo_model::Entry;
use hippo_values::{Memory, Moment, Sequence};
use std::alloc::Global;

/// The moments of entries, one for each entry.
#[derive(Drop)]
pub(crate) struct Moments {
    list: Sequence<Moment>,
}

impl Moments {
    /// No moments. Allocates nothing.
    pub(crate) fn new(alloc: Global) -> Moments
        ensures { result.list ≡ [] }
    {
        Moments {
            list: Sequence::new(alloc),
        }
    }

    // Goes on over the next entry.
    fn add(&mut self, entry: &Entry) -> Result<(), Memory>
        ensures covers { OnOk result ((read : History) → self.old.list ≡ moments_of read
            → self.new.list ≡ moments_of (read ++ entry.now ∷ [])) }
    {
        self.list.push(entry.moment)
    }

    pub(crate) fn as_slice(&self) -> &[Moment]
        ensures { result.now ≡ self.now.list }
    {
        self.list.as_slice()
    }
}

impl Gather<Bound> for Moments {
    ghost Covers = { λ gathered last read. gathered.list ≡ moments_of read };

    fn cover(&mut self, _alloc: Global, _last: &Bound, entry: &Entry) -> Result<(), Memory> {
        self.add(entry)
    }
}

/// The moment of the entry with a number. The number 0 is no entry's.
pub(crate) fn moment_at(moments: &[Moment], number: u64) -> Option<Moment>
    ensures { result ≡ moment_at moments.now number }
{
    if number == 0 {
        return None;
    }
    moments.get((number - 1) as usize).copied()
}

// One if a moment is at another one or before it.
fn one_by(set: &Moment, moment: &Moment) -> u64
    ensures { result ≡ cond (int_le set.now moment.now) 1 0 }
{
    if set.seconds() <= moment.seconds() {
        1
    } else {
        0
    }
}

// How many of the moments are at this one or before it.
fn count_at(moments: &[Moment], moment: Moment) -> u64
    ensures { result ≡ count_to (At moment) moments.now }
{
    let mut count = 0;
    for set in moments {
        count += one_by(set, &moment);
    }
    count
}

/// How many entries are at a bound or before it, by their moments.
pub(crate) fn count_to(bound: Bound, moments: &[Moment]) -> u64
    ensures { result ≡ count_to bound moments.now }
{
    match bound {
        Bound::Number(number) => number,
        Bound::At(moment) => count_at(moments, moment),
    }
}
