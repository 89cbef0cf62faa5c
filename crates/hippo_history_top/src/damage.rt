//! What is shown of a damaged store: the history before the damage, and then the place.
ghost use Rattle.std.specs.Prelude.{◌≡◌, ◌<◌, false};
ghost use Rattle.hippo_keeper.specs.Keeping.{RisesAbove, IsReady};
ghost use Rattle.hippo_keeper.specs.MemoryKeeping.{memory_keeper_state};
ghost use Rattle.hippo_history_top.specs.Damage.{ThenPlace, ShowsCopied, ShowsDamaged};
ghost use Rattle.hippo_history_top.specs.Progress.{IsReadable};

use crate::asking::View;
use crate::endings::ending_of;
use crate::front::copy_front;
use crate::top::show_view;
use hippo_io::Sink;
use hippo_keeper::{CountedKeeper, KeeperFails, MemoryKeeper, Steps};
use hippo_model::StoredList;
use hippo_program_args::{Ending, say_damaged};
use hippo_replay::{LoadFault, load};
use hippo_values::Memory;
use std::alloc::Global;
use std::marker::Brand;
use std::sync::ledger::{Blank, Ledger};

// Writes the place of the damage if everything before it was shown. A keeper in memory does not
// fail.
fn then_place<K: Sink>(ending: Ending, place: u64, sink: &mut K) -> Ending
    ensures says { ThenPlace place ending result
        (K.written sink.old) (K.written sink.new) (K.faults sink.old) (K.faults sink.new) }
{
    match ending {
        Ending::Served => say_damaged(sink, place),
        Ending::KeeperFault => Ending::NoMemory,
        _ => ending,
    }
}

// Shows what is asked for of the entries in memory, and then the place of the damage.
fn show_stored<K: Sink, L: Ledger>(
    alloc: Global,
    view: &View,
    place: u64,
    sink: &mut K,
    keeper: &mut MemoryKeeper,
    steps: &mut Steps<L>,
) -> Ending
    requires ready { IsReady false (memory_keeper_state keeper.old) }
    ensures shows { ShowsCopied keeper.old.kept view.now place result
        (K.written sink.old) (K.written sink.new) (K.faults sink.old) (K.faults sink.new) }
{
    match load(keeper, alloc, "", steps) {
        Ok(state) => {
            let ending = show_view(alloc, view, state, sink, keeper, steps);
            then_place(ending, place, sink)
        }
        Err(LoadFault::Damaged(_)) => say_damaged(sink, place),
        Err(LoadFault::Keeper) => Ending::NoMemory,
        Err(LoadFault::Memory) => Ending::NoMemory,
    }
}

// Shows what is asked for of these entries, and then the place of the damage. The steps over the
// copies are counted on a ledger of their own.
fn show_copied<K: Sink, L: Ledger>(
    alloc: Global,
    front: StoredList,
    view: &View,
    place: u64,
    sink: &mut K,
    blank: Blank,
) -> Ending
    requires name { blank.name ≡ L.name }
    requires parts { blank.parts ≡ L.parts }
    requires some { 0 < blank.parts }
    requires order { RisesAbove 0 front }
    ensures shows { ShowsCopied front view.now place result
        (K.written sink.old) (K.written sink.new) (K.faults sink.old) (K.faults sink.new) }
{
    let mut steps = Steps::<L>::new(blank);
    let copied = MemoryKeeper::of(alloc, &front, KeeperFails::new(alloc));
    drop(front);
    match copied {
        Ok(mut keeper) => {
            let ending = show_stored(alloc, view, place, sink, &mut keeper, &mut steps);
            drop(keeper);
            ending
        }
        Err(Memory) => Ending::NoMemory,
    }
}

/// Shows what is asked for of the entries before the damaged one at a place, and then the place.
/// These entries are read once more and held in memory.
pub(crate) fn show_damaged<K: Sink, P: CountedKeeper<L>, L: Ledger>(
    alloc: Global,
    view: &View,
    place: u64,
    sink: &mut K,
    keeper: &mut P,
    steps: &mut Steps<L>,
) -> Ending
    requires readable { IsReadable (P.state keeper.old) }
    ensures shows { ShowsDamaged view.now place result (sink.new ≡ sink.old)
        (P.state keeper.old) (P.state keeper.new) (K.written sink.old) (K.written sink.new)
        (K.faults sink.old) (K.faults sink.new) steps.old steps.new }
{
    match copy_front(alloc, place.saturating_sub(1), keeper, steps) {
        Ok(front) => show_copied::<K, Brand>(alloc, front, view, place, sink, Blank::new(1)),
        Err(fault) => ending_of(fault),
    }
}
