//! Walks all combinations of one row of each table.
ghost use Rattle.std.specs.Prelude.{◌≡◌, [], ◌∷◌, ◌++◌, List, drop, OnOk};
ghost use Rattle.hippo_model.specs.Terms.{Combination};
ghost use Rattle.hippo_model.specs.Answers.{product};
ghost use Rattle.hippo_eval.specs.Walks.{rows_of, combinations_after, KeptAfter};

use hippo_model::Combo;
use hippo_tables_rows::Sets;
use hippo_values::Memory;
use std::alloc::Global;

/// Whether a visitor wants more combinations.
#[derive(Clone, Copy)]
pub enum Onward {
    More,
    /// The state already holds, whatever combinations follow.
    Enough,
}

/// Visits combinations of rows, one after the other, and keeps a result in a state.
pub trait Visitor {
    ghost use Rattle.std.specs.Prelude.{List};
    ghost use Rattle.hippo_model.specs.Terms.{Combination};

    type State;

    /// Whether a state is the result of visiting these combinations in this order.
    ghost Keeps: { Self → List Combination → Self.State → Type 0 };

    /// Adds one combination to the state.
    fn visit(
        &self,
        alloc: Global,
        state: &mut Self::State,
        combo: &Combo<'_>,
    ) -> Result<Onward, Memory>
        ensures { (before : List Combination) → Keeps self.now before state.old
            → KeptAfter (Keeps self.now) result before (combo.now ∷ []) state.new };
}

// Visits the combinations that begin with these rows, one row of each table before a place.
fn walk_from<'a, V: Visitor>(
    alloc: Global,
    sets: &Sets<'a>,
    place: usize,
    combo: &mut Combo<'a>,
    visitor: &V,
    state: &mut V::State,
) -> Result<Onward, Memory>
    ensures same { OnOk result (combo.new ≡ combo.old) }
    ensures kept { (before : List Combination) → V.Keeps visitor.now before state.old
        → KeptAfter (V.Keeps visitor.now) result before
        (combinations_after combo.old (product (rows_of (drop place sets.now)))) state.new }
{
    if place >= sets.len() {
        return visitor.visit(alloc, state, combo);
    }
    let set = sets.get(place);
    for index in 0..set.len() {
        combo.push(set.row(index), set.born(index))?;
        let onward = walk_from(alloc, sets, place + 1, combo, visitor, state)?;
        combo.pop();
        if let Onward::Enough = onward {
            return Ok(Onward::Enough);
        }
    }
    Ok(Onward::More)
}

/// Visits each combination of one row of each table until the visitor has enough. The combinations
/// are in the order of the product, where the first table varies slowest. Allocates memory for one
/// combination only, apart from what the visitor allocates.
pub fn walk<V: Visitor>(
    alloc: Global,
    sets: &Sets<'_>,
    visitor: &V,
    state: &mut V::State,
) -> Result<(), Memory>
    ensures { (before : List Combination) → V.Keeps visitor.now before state.old
        → OnOk result (V.Keeps visitor.now (before ++ product (rows_of sets.now)) state.new) }
{
    let mut combo = Combo::new(alloc);
    let _onward = walk_from(alloc, sets, 0, &mut combo, visitor, state)?;
    Ok(())
}
