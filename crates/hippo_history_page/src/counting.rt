//! How many accesses are by one user for one purpose, and how many are on one day.
ghost use Rattle.std.specs.Prelude.{◌≡◌, [], ◌∷◌, ◌++◌, map, IfOk, OnOk};
ghost use Rattle.std.specs.List.{list_any};
ghost use Rattle.hippo_history_page.specs.Counts.{have_one_asker, asker_count, firsts, access_day, days_from, days};

use hippo_history_formats::Access;
use hippo_model::Lent;
use hippo_values::{DayNumber, Memory, Sequence};
use std::alloc::Global;

const SECONDS_OF_DAY: i64 = 86_400;

/// A day, and how many accesses are on it.
#[derive(Clone, Copy, Drop)]
pub(crate) struct DayCount {
    pub day: DayNumber,
    pub count: usize,
}

fn have_one_asker(one: &Access, other: &Access) -> bool
    ensures { result ≡ have_one_asker one.now other.now }
{
    one.user == other.user && one.purpose == other.purpose
}

/// How many accesses are by the user and for the purpose of one of them.
pub(crate) fn asker_count(accesses: &[Access], access: &Access) -> usize
    ensures { result ≡ asker_count accesses.now access.now }
{
    accesses
        .iter()
        .filter(|other| have_one_asker(access, other))
        .count()
}

// Whether an access by the same user for the same purpose was found.
fn is_found(access: &Access, found: &[&Access]) -> bool
    ensures { result ≡ list_any (have_one_asker access.now) (map (λ one. one.now) found.now) }
{
    for one in found {
        if have_one_asker(access, one) {
            return true;
        }
    }
    false
}

/// The first access of each user and purpose.
pub(crate) fn firsts<'a>(alloc: Global, accesses: &'a [Access]) -> Result<Vec<&'a Access>, Memory>
    ensures { IfOk result (λ found. map (λ one. one.now) found.items ≡ firsts accesses.now) }
{
    let mut found = Vec::new(alloc);
    for access in accesses {
        if !is_found(access, &found) {
            found.push(access)?;
        }
    }
    Ok(found)
}

fn access_day(access: &Access) -> DayNumber
    ensures { result ≡ access_day access.now }
{
    let seconds = access.moment.seconds();
    DayNumber::new(seconds.div_euclid(SECONDS_OF_DAY) as i32).unwrap()
}

// The days from one on which no access was counted yet.
fn days_from(
    alloc: Global,
    first: DayNumber,
    accesses: &[Access],
) -> Result<Sequence<DayCount>, Memory>
    ensures { IfOk result (λ made. map (λ one. (one.day, one.count)) made
        ≡ days_from first 0 accesses.now) }
{
    let mut made = Sequence::new(alloc);
    let mut day = first;
    let mut count = 0;
    for access in accesses {
        let next = access_day(access);
        if next == day {
            count += 1;
        } else {
            made.push(DayCount { day, count })?;
            day = next;
            count = 1;
        }
    }
    made.push(DayCount { day, count })?;
    Ok(made)
}

/// The days of accesses in the order of their moments, and how many are on each.
pub(crate) fn days(alloc: Global, accesses: &[Access]) -> Result<Sequence<DayCount>, Memory>
    ensures { IfOk result (λ made. map (λ one. (one.day, one.count)) made ≡ days accesses.now) }
{
    if accesses.is_empty() {
        return Ok(Sequence::new(alloc));
    }
    days_from(alloc, access_day(&accesses[0]), accesses)
}
