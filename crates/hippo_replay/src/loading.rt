//! Loading a stored history from its keeper, piece by piece.
ghost use Rattle.std.specs.Prelude.{◌≡◌, true, false, [], IfOk};
ghost use Rattle.hippo_keeper.specs.Keeping.{RisesAbove, IsReady};
ghost use Rattle.hippo_replay.specs.Standing.{Represents, IsSound};
ghost use Rattle.hippo_replay.specs.Loading.{Loads};
ghost use Rattle.hippo_replay.specs.Reading.{load_fault, ReadsPiece, ReadsAllKept};

use crate::faults::LoadFault;
use crate::state::State;
use hippo_keeper::{CountedKeeper, KeeperFault, Steps};
use std::alloc::Global;
use std::sync::ledger::Ledger;

// How many entries are read at a time.
const PIECE: u64 = 1000;

fn fault_of(fault: KeeperFault) -> LoadFault
    ensures { result ≡ load_fault fault }
{
    match fault {
        KeeperFault::Failed => LoadFault::Keeper,
        KeeperFault::Memory => LoadFault::Memory,
    }
}

// Reads the next entries and takes them in. Returns whether there were any.
fn read_on<P: CountedKeeper<L>, L: Ledger>(
    keeper: &mut P,
    alloc: Global,
    state: &mut State,
    steps: &mut Steps<L>,
) -> Result<bool, LoadFault>
    requires ready { IsReady true (P.state keeper.old) }
    requires sound { IsSound state.old }
    ensures reads { ReadsPiece result (P.state keeper.old)
        (P.state keeper.new) state.old state.new steps.old steps.new }
    ensures sound { IfOk result (λ any. IsSound state.new) }
{
    match keeper.read_all(alloc, state.count, PIECE, steps) {
        Ok(piece) => {
            let any = !piece.is_empty();
            let taken = state.take_in_all(alloc, piece.as_slice());
            drop(piece);
            taken.and(Ok(any))
        }
        Err(fault) => Err(fault_of(fault)),
    }
}

// Reads and takes in all entries.
fn read_all<P: CountedKeeper<L>, L: Ledger>(
    keeper: &mut P,
    alloc: Global,
    state: &mut State,
    steps: &mut Steps<L>,
) -> Result<(), LoadFault>
    requires ready { IsReady true (P.state keeper.old) }
    requires order { (P.state keeper.old).tells → RisesAbove 0 (P.state keeper.old).kept }
    requires empty { Represents state.old [] }
    ensures reads { ReadsAllKept result (P.state keeper.old) (P.state keeper.new) state.new
        steps.old steps.new }
{
    loop {
        match read_on(keeper, alloc, state, steps) {
            Ok(true) => {}
            Ok(false) => return Ok(()),
            Err(fault) => return Err(fault),
        }
    }
}

/// Starts a keeper and loads the history that it stores under this name. The keeper must be neither
/// started nor spent nor closed.
///
/// - `Ok` gives the state of a valid history, and the keeper is then started. If the store's
///   contents are known, the history is the stored one. The load takes as many steps as there are
///   versions in the history.
/// - `Damaged` gives the place, counted from 1, of the first entry for which the stored entries up
///   to and including it are those of no valid history.
/// - `Keeper` is returned only if the keeper's count of faults rose. The keeper is then spent.
/// - `Memory` means that the load ran out of memory.
///
/// Once the keeper has started, the stored entries stay as they were found, whatever the load
/// returns.
///
/// ```text
/// nothing is stored                                        Ok: the state of the empty history
/// CREATE PURPOSE treatment                                 Ok: a state with one entry
/// CREATE PURPOSE treatment, CREATE PURPOSE treatment       Damaged(2)
/// ```
pub fn load<P: CountedKeeper<L>, L: Ledger>(
    keeper: &mut P,
    alloc: Global,
    name: &str,
    steps: &mut Steps<L>,
) -> Result<State, LoadFault>
    requires ready { IsReady false (P.state keeper.old) }
    ensures loads { Loads name.now result (P.state keeper.old) (P.state keeper.new) steps.old
        steps.new }
{
    match keeper.start(alloc, name) {
        Ok(()) => {
            let mut state = State::new(alloc);
            let all = read_all(keeper, alloc, &mut state, steps);
            all.and(Ok(state))
        }
        Err(fault) => Err(fault_of(fault)),
    }
}
