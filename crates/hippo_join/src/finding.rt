//! All qualifying combinations, by the places of their rows.
ghost use Rattle.std.specs.Prelude.{◌≡◌, map, unwrap_or, IfOk, OnOk, OnErr};
ghost use Rattle.hippo_join_stages.specs.Finding.{HasOnePlaceMore};

use crate::walking::PlaceVisitor;
use hippo_eval::Onward;
use hippo_model::{Combo, Places};
use hippo_values::{Memory, Sequence};
use std::alloc::Global;
use std::collections::BTreeSet;

// The chosen places, in the order of FROM.
fn chosen_places(alloc: Global, slots: &[Option<usize>]) -> Result<Places, Memory>
    ensures { IfOk result (λ places. places ≡ map (λ slot. unwrap_or slot 0) slots.now) }
{
    let places = slots.iter().map(|slot| slot.unwrap_or(0)).collect(alloc)?;
    Ok(Sequence::from_vec(places))
}

fn insert(found: &mut BTreeSet<Places>, places: Places) -> Result<(), Memory>
    ensures ok { OnOk result (HasOnePlaceMore places found.old.keys found.new.keys) }
    ensures err { OnErr result (found.new.keys ≡ found.old.keys) }
{
    found.insert(places)?;
    Ok(())
}

// Collects the places of qualifying combinations, at most one more than a limit.
#[derive(Drop)]
pub(crate) struct PlaceFinder {
    pub(crate) limit: usize,
}

impl PlaceVisitor for PlaceFinder {
    ghost use Rattle.std.specs.Prelude.{◌≡◌, true};
    ghost use Rattle.hippo_join_stages.specs.Finding.{AreFound, has_places};

    type State = BTreeSet<Places>;

    ghost Keeps = { λ finder sets front visited found. AreFound
        (λ places. has_places places visited ≡ true)
        finder.limit found.keys };

    fn visit(
        &self,
        alloc: Global,
        state: &mut BTreeSet<Places>,
        slots: &[Option<usize>],
        _rows: &Combo<'_>,
    ) -> Result<Onward, Memory> {
        if state.len() > self.limit {
            return Ok(Onward::Enough);
        }
        let places = chosen_places(alloc, slots)?;
        insert(state, places)?;
        Ok(Onward::More)
    }
}
