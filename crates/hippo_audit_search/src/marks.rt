//! The virtual tuple that a set of row combinations has in common, by the places of its rows.
ghost use Rattle.std.specs.Prelude.{◌≡◌, [], ◌∷◌, ◌++◌, ◌||◌, List, IfOk, OnOk};
ghost use Rattle.hippo_model.specs.Terms.{Place};
ghost use Rattle.hippo_join_stages.specs.Finding.{has_places};
ghost use Rattle.hippo_audit_search.specs.Marks.{row_place, row_places, mark_of, has_no_other, is_one};

use hippo_model::{Combo, Places};
use hippo_tables_rows::Sets;
use hippo_values::{Memory, Sequence};
use std::alloc::Global;
use std::collections::BTreeSet;

/// Which virtual tuple a set of combinations has.
#[derive(Drop)]
pub enum Mark {
    /// The set is empty.
    Unmarked,
    /// All combinations have the same tuple. Its rows are at these places of the common tables.
    One(Places),
    /// Two combinations have different tuples.
    Several,
}

// The place of a combination's row in its table.
fn row_place(sets: &Sets<'_>, rows: &Combo<'_>, table: usize) -> usize
    ensures { result ≡ row_place sets.now rows.now table }
{
    if table >= sets.len() || table >= rows.len() {
        return 0;
    }
    sets.get(table).find_like(rows.row(table)).unwrap_or(0)
}

/// Returns the places of a combination's rows in some tables. `tables` gives the places of these
/// tables in FROM. Finding a row by its key takes time logarithmic in the size of its table.
pub fn row_places(
    alloc: Global,
    sets: &Sets<'_>,
    tables: &[usize],
    rows: &Combo<'_>,
) -> Result<Places, Memory>
    ensures { IfOk result (λ places. places ≡ row_places sets.now tables.now rows.now) }
{
    let mut places = Vec::with_capacity(alloc, tables.len())?;
    for table in tables {
        places.push(row_place(sets, rows, *table))?;
    }
    Ok(Sequence::from_vec(places))
}

impl Mark {
    // Whether no combination has a tuple other than that of these places.
    fn has_no_other(&self, places: &Places) -> bool
        ensures { result ≡ has_no_other places.now self.now }
    {
        match self {
            Mark::Unmarked => true,
            Mark::One(others) => others == places,
            Mark::Several => false,
        }
    }

    /// Returns the mark of these combinations together with one more, which has the tuple of these
    /// places.
    pub fn with(&self, places: Places) -> Mark
        ensures { (tuples : List (List Place)) → self.now ≡ mark_of tuples
            → result ≡ mark_of (tuples ++ places ∷ []) }
    {
        if self.has_no_other(&places) {
            Mark::One(places)
        } else {
            Mark::Several
        }
    }

    /// Adds the places of the tuple that all these combinations have, if they have one tuple.
    pub fn add_to(self, candidates: &mut BTreeSet<Places>) -> Result<(), Memory>
        ensures { OnOk result ((places : List Place)
            → has_places places candidates.new.keys
            ≡ (is_one places self || has_places places candidates.old.keys)) }
    {
        match self {
            Mark::One(places) => {
                candidates.insert(places)?;
                Ok(())
            }
            Mark::Unmarked | Mark::Several => Ok(()),
        }
    }
}
