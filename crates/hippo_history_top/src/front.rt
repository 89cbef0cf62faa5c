//! Copies of the first entries that a keeper stores.
ghost use Rattle.std.specs.Prelude.{◌≡◌, ◌-◌, ◌≤◌, ◌++◌, true, [], min, length, OnOk};
ghost use Rattle.hippo_keeper.specs.Keeping.{last_number, IsReady};
ghost use Rattle.hippo_history_top.specs.Fronts.{CopiesNext, CopiesFront};
ghost use Rattle.hippo_history_top.specs.Progress.{IsReadable};

use crate::gathering::reading_of;
use crate::showing::PIECE;
use hippo_keeper::{CountedKeeper, KeeperFault, Steps};
use hippo_model::{StoredEntry, StoredList};
use hippo_values::{Memory, Sequence};
use std::alloc::Global;
use std::sync::ledger::Ledger;

/// Copies of the first stored entries.
#[derive(Drop)]
pub(crate) struct Front {
    entries: Vec<StoredEntry>,
    /// The number of the last of them; 0 if there is none.
    number: u64,
}

// The number of the last entry of a piece, or this number if there is none.
fn last_in(piece: &[StoredEntry], number: u64) -> u64
    ensures { result ≡ last_number number piece.now }
{
    let mut last = number;
    for kept in piece {
        last = kept.seq;
    }
    last
}

impl Front {
    // No entries. Allocates nothing.
    fn new(alloc: Global) -> Front
        ensures none { result.entries.items ≡ [] }
        ensures number { result.number ≡ 0 }
    {
        Front {
            entries: Vec::new(alloc),
            number: 0,
        }
    }

    // How many entries are read next, if `count` are asked for.
    fn next_room(&self, count: u64) -> u64
        requires within { length self.now.entries.items ≤ count }
        ensures { result ≡ min 1000 (count - length self.now.entries.items) }
    {
        let copied = self.entries.as_slice().len() as u64;
        PIECE.min(count - copied)
    }

    // Adds the entries of a piece.
    fn add(&mut self, piece: StoredList) -> Result<(), Memory>
        ensures longer { OnOk result (self.new.entries.items ≡ self.old.entries.items ++ piece) }
        ensures last { OnOk result (self.new.number ≡ last_number self.old.number piece) }
    {
        let number = last_in(piece.as_slice(), self.number);
        let mut more = piece.into_vec();
        let added = self.entries.append(&mut more);
        drop(more);
        added?;
        self.number = number;
        Ok(())
    }

    fn into_list(self) -> StoredList
        ensures { result ≡ self.entries.items }
    {
        let Front { entries, number: _ } = self;
        Sequence::from_vec(entries)
    }
}

// Reads the next piece and copies its entries. Returns whether there were any.
fn copy_next<P: CountedKeeper<L>, L: Ledger>(
    alloc: Global,
    count: u64,
    front: &mut Front,
    keeper: &mut P,
    steps: &mut Steps<L>,
) -> Result<bool, KeeperFault>
    requires ready { IsReady true (P.state keeper.old) }
    requires within { length front.old.entries.items ≤ count }
    ensures copies { CopiesNext count result (P.state keeper.old) (P.state keeper.new)
        front.old front.new steps.old steps.new }
{
    let room = front.next_room(count);
    if room == 0 {
        return Ok(false);
    }
    match keeper.read_all(alloc, front.number, room, steps) {
        Ok(piece) => {
            let any = !piece.is_empty();
            let added = front.add(piece);
            reading_of(added, any)
        }
        Err(fault) => Err(fault),
    }
}

/// Copies of the first `count` entries that a started keeper stores.
pub(crate) fn copy_front<P: CountedKeeper<L>, L: Ledger>(
    alloc: Global,
    count: u64,
    keeper: &mut P,
    steps: &mut Steps<L>,
) -> Result<StoredList, KeeperFault>
    requires readable { IsReadable (P.state keeper.old) }
    ensures copies { CopiesFront count result (P.state keeper.old) (P.state keeper.new)
        steps.old steps.new }
{
    let mut front = Front::new(alloc);
    loop {
        match copy_next(alloc, count, &mut front, keeper, steps) {
            Ok(true) => {}
            Ok(false) => return Ok(front.into_list()),
            Err(fault) => return Err(fault),
        }
    }
}
