//! The groups of a query's answer, found by a walk over the combinations that count.
ghost use Rattle.std.specs.Prelude.{◌≡◌, [], ◌∷◌, ◌++◌, List, take, OnOk};
ghost use Rattle.hippo_model.specs.declared.query.Shape as shapes;
ghost use Rattle.hippo_model.specs.Terms.{ShownRow};
ghost use Rattle.hippo_model.specs.Forms.{grouped_rows};
ghost use Rattle.hippo_model.specs.Masking.{masked_answer};
ghost use Rattle.hippo_eval.specs.Answering.{IsAnswered};
ghost use Rattle.hippo_eval.specs.Walks.{rows_of};
ghost use Rattle.hippo_groups.specs.KeptGroups.{AreGroups};

use crate::group_rows::{join_at, row_of_first};
use crate::members::{LentRow, Member};
use hippo_eval::{ANSWER_LIMIT, EvalFault, Gatherer, refill};
use hippo_join::gather_joined;
use hippo_model::{Answer, Cell, CellRow, ChoiceView, Combo, Masked, Shape};
use hippo_tables_rows::Sets;
use hippo_values::{Memory, Sequence};
use indexmap::IndexSet;
use std::alloc::Global;
use std::mem;

// The keys of the groups, in the order of their first members, and their rows at the same places.
// `key` is the key of the current row; it is kept only for speed, so that a further member of a
// group needs no allocation.
#[derive(Drop)]
struct Groups {
    keys: IndexSet<Vec<Cell>>,
    rows: Vec<CellRow>,
    key: CellRow,
}

fn first_of<T>(members: &[T], count: usize) -> &[T]
    ensures { result.now ≡ take count members.now }
{
    &members[..count.min(members.len())]
}

/// Returns the first `keys` cells of a row, or all if it has fewer.
pub fn front(row: &CellRow, keys: usize) -> &[Cell]
    ensures { result.now ≡ take keys row.now }
{
    first_of(row.as_slice(), keys)
}

/// Returns the first `keys` cells of a row, in the row's own memory.
pub fn into_front(row: CellRow, keys: usize) -> Vec<Cell>
    ensures { result.items ≡ take keys row }
{
    let mut cells = row.into_vec();
    cells.truncate(keys);
    cells
}

impl Groups {
    fn new(alloc: Global) -> Groups
        ensures { (shape : shapes.Shape) → AreGroups shape [] result }
    {
        Groups {
            keys: IndexSet::new(alloc),
            rows: Vec::new(alloc),
            key: Sequence::new(alloc),
        }
    }

    // Adds a row, whose key is in `key`, to its group, or as the first member of a new group.
    fn add<R: LentRow>(&mut self, alloc: Global, shape: &Shape, row: &R) -> Result<(), Memory>
        ensures { (found : List ShownRow) → AreGroups shape.now found self.old
            → self.old.key ≡ take shape.now.keys (R.cells row.now)
            → OnOk result (AreGroups shape.now (found ++ R.cells row.now ∷ []) self.new) }
    {
        let key = self.key.as_slice();
        if let Some(place) = self.keys.get_index_of(key) {
            return join_at(alloc, &shape.outs, &mut self.rows, place, row);
        }
        let first = row_of_first(alloc, &shape.outs, key, row)?;
        let next = Sequence::with_capacity(alloc, self.key.len())?;
        let key = mem::replace(&mut self.key, next);
        self.keys.insert(key.into_vec())?;
        self.rows.push(first)?;
        Ok(())
    }
}

// Gathers the groups of a shape.
#[derive(Drop)]
struct ByShape<'a> {
    shape: &'a Shape,
}

impl<'a> Gatherer for ByShape<'a> {
    ghost use Rattle.hippo_model.specs.Forms.{grouped_rows};
    ghost use Rattle.hippo_groups.specs.KeptGroups.{AreGroups};

    type Rows = Groups;

    ghost Holds = { λ gatherer found kept. AreGroups gatherer.shape.now found kept };

    ghost answer = { λ gatherer found. grouped_rows gatherer.shape.now found };

    fn start(&self, alloc: Global) -> Groups {
        Groups::new(alloc)
    }

    fn len(&self, groups: &Groups) -> usize {
        groups.rows.len()
    }

    fn add<C: ChoiceView>(
        &self,
        alloc: Global,
        groups: &mut Groups,
        query: &Masked,
        combo: &Combo<'_>,
        choices: &C,
    ) -> Result<(), Memory> {
        let items = query.items.as_slice();
        let keys = first_of(items, self.shape.keys);
        refill(alloc, keys, combo, choices, &mut groups.key)?;
        let member = Member {
            items: &*items,
            combo: &*combo,
            choices: &*choices,
        };
        groups.add(alloc, self.shape, &member)
    }

    fn finish(&self, _alloc: Global, groups: Groups) -> Result<Answer, Memory> {
        let Groups { rows, .. } = groups;
        Ok(Sequence::from_vec(rows))
    }
}

/// Returns the groups of a query's answer (SQL's GROUP BY) over unmasked rows and patients'
/// choices, each at the place of its first combination. Rows belong to one group if their first
/// cells show the same values or are denied by the same rules. A group's row has the cells of its
/// key, and the least or greatest of its members' values. Nulls and denied cells do not count for
/// these; if there is nothing else, the value is null.
///
/// `TooManyRows` if and only if there are more than 100,000 groups. The memory is proportional to
/// the number of groups, not of their members.
pub fn grouped<C: ChoiceView>(
    alloc: Global,
    query: &Masked,
    sets: &Sets<'_>,
    choices: &C,
    shape: &Shape,
) -> Result<Answer, EvalFault>
    ensures { let rows = masked_answer (C.choices choices.now) query.now (rows_of sets.now) in
        IsAnswered ANSWER_LIMIT (grouped_rows shape.now rows) result }
{
    gather_joined(
        alloc,
        query,
        sets,
        choices,
        &ByShape { shape },
        ANSWER_LIMIT,
    )
}
