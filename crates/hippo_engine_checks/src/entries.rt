//! Reads one entry, by its number, from the history that a keeper keeps.
ghost use Rattle.std.specs.Prelude.{◌≡◌, ◌≤◌, ◌∷◌, [], true, MatchResult};
ghost use Rattle.std.specs.Bool.{then_some};
ghost use Rattle.hippo_keeper.specs.Keeping.{IsReady};
ghost use Rattle.hippo_model.specs.HandedOver.{is_question};
ghost use Rattle.hippo_engine_checks.specs.Entries.{number_within, IsRead, ReadsEntry};
ghost use Rattle.hippo_engine_checks.specs.Findings.{LooksUp};

use hippo_backlog::{ReadFault, fault_of};
use hippo_entry::decode;
use hippo_keeper::{CountedKeeper, Steps};
use hippo_model::{Act, Entry, StoredEntry};
use hippo_replay::State;
use hippo_values::{Boxed, Memory};
use std::alloc::Global;
use std::sync::ledger::Ledger;

// The number as an entry number, or none if it is below 1 or above the number of entries.
fn number_in(number: &i64, count: u64) -> Option<u64>
    ensures { result ≡ number_within number.now count }
{
    if *number < 1 {
        return None;
    }
    let number = number.unsigned_abs();
    if number <= count { Some(number) } else { None }
}

// Whether an act is a question.
fn is_question(act: &Act) -> bool
    ensures { result ≡ is_question act.now }
{
    matches!(act, Act::Asked { .. })
}

// The entry in a box, or out of memory.
fn boxed(alloc: Global, entry: Entry) -> Result<Boxed<Entry>, ReadFault>
    ensures { MatchResult result (λ boxed. boxed ≡ entry) (λ fault. fault ≡ ReadFault.Memory) }
{
    match Boxed::new(alloc, entry) {
        Ok(boxed) => Ok(boxed),
        Err(Memory) => Err(ReadFault::Memory),
    }
}

// The entry with a number, decoded from its stored form.
fn entry_of(alloc: Global, kept: &StoredEntry, number: u64) -> Result<Boxed<Entry>, ReadFault>
    ensures { IsRead (kept.now ∷ []) number result }
{
    match decode(alloc, kept) {
        Ok(Some(entry)) => {
            if entry.seq == number {
                boxed(alloc, entry)
            } else {
                drop(entry);
                Err(ReadFault::Damaged(number))
            }
        }
        Ok(None) => Err(ReadFault::Damaged(number)),
        Err(Memory) => Err(ReadFault::Memory),
    }
}

// The entry with a number, if it is the first of the list.
fn first_entry(alloc: Global, list: &[StoredEntry], number: u64) -> Result<Boxed<Entry>, ReadFault>
    ensures { IsRead list.now number result }
{
    match list.first() {
        Some(kept) => entry_of(alloc, kept, number),
        None => Err(ReadFault::Damaged(number)),
    }
}

// The entry with a number in the history that a keeper keeps. Or a fault: out of memory, `Keeper`
// only if the keeper failed, or `Damaged` only if the store is not transparent. Each version that
// is read counts as a step.
fn read_entry<P: CountedKeeper<L>, L: Ledger>(
    alloc: Global,
    keeper: &mut P,
    number: u64,
    steps: &mut Steps<L>,
) -> Result<Boxed<Entry>, ReadFault>
    requires ready { IsReady true (P.state keeper.old) }
    requires some { 1 ≤ number }
    ensures reads { ReadsEntry number result (P.state keeper.old) (P.state keeper.new) steps.old
        steps.new }
{
    match keeper.read_all(alloc, number - 1, 1, steps) {
        Ok(list) => {
            let entry = first_entry(alloc, list.as_slice(), number);
            drop(list);
            entry
        }
        Err(fault) => Err(fault_of(fault)),
    }
}

// The entry if it is a question, otherwise none.
fn if_question(entry: Boxed<Entry>) -> Option<Boxed<Entry>>
    ensures { result ≡ then_some (is_question entry.act) entry }
{
    if is_question(&entry.get().act) {
        Some(entry)
    } else {
        drop(entry);
        None
    }
}

/// The question with a number in the history that a keeper keeps, or none if no question has that
/// number. Or a fault, as for reading an entry. Each version that is read counts as a step.
pub(crate) fn question_at<P: CountedKeeper<L>, L: Ledger>(
    alloc: Global,
    keeper: &mut P,
    state: &State,
    number: &i64,
    steps: &mut Steps<L>,
) -> Result<Option<Boxed<Entry>>, ReadFault>
    requires ready { IsReady true (P.state keeper.old) }
    ensures looks { LooksUp number.now result state.now (P.state keeper.old) (P.state keeper.new)
        steps.old steps.new }
{
    match number_in(number, state.count) {
        None => Ok(None),
        Some(place) => match read_entry(alloc, keeper, place, steps) {
            Ok(entry) => Ok(if_question(entry)),
            Err(fault) => Err(fault),
        },
    }
}
