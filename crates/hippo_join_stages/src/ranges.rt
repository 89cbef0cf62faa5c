//! Range scans by key: the first values of the key are fixed, and the next one may have bounds.
ghost use Rattle.std.specs.Prelude.{◌≡◌, ◌∷◌, [], ◌<◌, true, false, None, Some, IfOk, IfSome, length, slice_get, take};
ghost use Rattle.hippo_values.specs.Order.{value_cmp};
ghost use Rattle.hippo_values.specs.Truths.{is_allowed};
ghost use Rattle.hippo_values.specs.declared.values.Value.{Value as AnyValue};
ghost use Rattle.hippo_values.specs.declared.values.Value.TheVariants.{Null};
ghost use Rattle.hippo_model.specs.declared.query.CondOf.TheVariants.{Compare};
ghost use Rattle.hippo_model.specs.Conditions.{outer_parts, is_null};
ghost use Rattle.hippo_tables_keyed.specs.RowSets.{KeyedRows};
ghost use Rattle.hippo_join_stages.specs.Keys.{IsKeyTold, IsWithin};
ghost use Rattle.hippo_join_stages.specs.Ranges.{bounding, flipped_operator, IsEdge, GivesBound};

use crate::keys::Span;
use crate::sides::Side;
use hippo_join_lookups::{is_null, outer_parts, shows_column};
use hippo_model::{Cells, ChoiceView, CondOf, Expr, Ref};
use hippo_tables_rows::{Bound, RowSet};
use hippo_values::{CompareOp, Duplicate, Memory, Value};
use std::alloc::Global;

// The start or the end of the rows whose key begins with these values.
fn front_edge(set: &RowSet, front: &[Value], column: usize, above: bool) -> usize
    ensures { IsEdge set.now front.now column above None result }
{
    if front.is_empty() {
        if above { set.len() } else { 0 }
    } else {
        set.split(front, above)
    }
}

// The start or the end of those of them whose next value is within a bound.
fn bounded_edge(
    alloc: Global,
    set: &RowSet,
    front: &Cells,
    column: usize,
    above: bool,
    bound: Bound<'_>,
) -> Result<usize, Memory>
    requires { slice_get set.now.key (length front.now) ≡ Some column }
    ensures { IfOk result (λ edge. IsEdge set.now front.now column above (Some bound.entry) edge) }
{
    let mut values = front.copy(alloc)?;
    values.push(bound.value.copy(alloc)?)?;
    Ok(set.split(values.as_slice(), bound.is_past(above)))
}

fn edge(
    alloc: Global,
    set: &RowSet,
    front: &Cells,
    column: usize,
    above: bool,
    bound: Option<Bound<'_>>,
) -> Result<usize, Memory>
    requires { slice_get set.now.key (length front.now) ≡ Some column }
    ensures { IfOk result (λ edge. IsEdge set.now front.now column above bound.entry edge) }
{
    match bound {
        None => Ok(front_edge(set, front.as_slice(), column, above)),
        Some(bound) => bounded_edge(alloc, set, front, column, above, bound),
    }
}

// Whether an operator bounds its left side from below (or from above), and if so, whether strictly.
fn strictness(op: CompareOp, above: bool) -> Option<bool>
    ensures { IfSome result (λ strict. op ≡ bounding above strict) }
{
    match op {
        CompareOp::Ge if !above => Some(false),
        CompareOp::Gt if !above => Some(true),
        CompareOp::Le if above => Some(false),
        CompareOp::Lt if above => Some(true),
        _ => None,
    }
}

// The bound that excludes exactly null.
fn over_null(null: &Value) -> Bound<'_>
    requires { null.now ≡ Null }
    ensures { (value : AnyValue) → is_null value ≡ false
        → is_allowed (bounding false result.strict) (value_cmp value result.value.now) ≡ true }
{
    Bound {
        value: null,
        strict: true,
    }
}

// A lower bound that also excludes null.
fn above_null<'b>(bound: Bound<'b>, null: &'b Value) -> Bound<'b>
    requires { null.now ≡ Null }
    ensures { (value : AnyValue) → is_null value ≡ false
        → is_allowed (bounding false bound.entry.strict) (value_cmp value bound.entry.value.now)
        ≡ true
        → is_allowed (bounding false result.strict) (value_cmp value result.value.now) ≡ true }
{
    if is_null(bound.value) {
        over_null(null)
    } else {
        bound
    }
}

// The operator for the same comparison with its sides swapped.
fn flipped(op: CompareOp) -> CompareOp
    ensures { result ≡ flipped_operator op }
{
    match op {
        CompareOp::Lt => CompareOp::Gt,
        CompareOp::Le => CompareOp::Ge,
        CompareOp::Gt => CompareOp::Lt,
        CompareOp::Ge => CompareOp::Le,
        CompareOp::Eq | CompareOp::Ne => op,
    }
}

impl<'a, C: ChoiceView> Side<'a, C> {
    // The bound of a column on the left side of a comparison, if the comparison gives one.
    fn bound_beside(
        &self,
        column: Ref,
        op: CompareOp,
        left: &'a Expr,
        right: &'a Expr,
        above: bool,
        slots: &[Option<usize>],
    ) -> Option<Bound<'a>>
        ensures { GivesBound (C.choices self.now.choices.now) self.now.sets.now slots.now
            (Compare op left.now right.now ∷ []) column above result }
    {
        if !shows_column(left, column) {
            return None;
        }
        let strict = strictness(op, above)?;
        let value = self.shown_value(right, slots)?;
        Some(Bound { value, strict })
    }

    // The bound of a column that a part of the condition gives: a comparison with the column on
    // either side, or a BETWEEN.
    fn bound_by_part(
        &self,
        column: Ref,
        part: &'a CondOf<Expr>,
        above: bool,
        slots: &[Option<usize>],
    ) -> Option<Bound<'a>>
        ensures { GivesBound (C.choices self.now.choices.now) self.now.sets.now slots.now
            (part.now ∷ []) column above result }
    {
        match part {
            CondOf::Compare { op, left, right } => {
                match self.bound_beside(column, *op, left, right, above, slots) {
                    Some(bound) => Some(bound),
                    None => self.bound_beside(column, flipped(*op), right, left, above, slots),
                }
            }
            CondOf::Between { value, low, high } => {
                if above {
                    self.bound_beside(column, CompareOp::Le, value, high, above, slots)
                } else {
                    self.bound_beside(column, CompareOp::Ge, value, low, above, slots)
                }
            }
            _ => None,
        }
    }

    // A lower or upper bound of a column, if the condition gives one by a literal or by a chosen
    // row.
    fn told_bound(&self, column: Ref, above: bool, slots: &[Option<usize>]) -> Option<Bound<'a>>
        ensures { GivesBound (C.choices self.now.choices.now) self.now.sets.now slots.now
            (outer_parts self.now.query.now.cond) column above result }
    {
        for part in outer_parts(&self.query.cond) {
            if let Some(bound) = self.bound_by_part(column, part, above, slots) {
                return Some(bound);
            }
        }
        None
    }

    // A lower or upper bound of a column, where an equality counts as a bound too.
    pub(crate) fn told_end(
        &self,
        column: Ref,
        above: bool,
        slots: &[Option<usize>],
    ) -> Option<Bound<'a>>
        ensures { GivesBound (C.choices self.now.choices.now) self.now.sets.now slots.now
            (outer_parts self.now.query.now.cond) column above result }
    {
        match self.told_value(column, slots) {
            Some(value) => Some(Bound {
                value,
                strict: false,
            }),
            None => self.told_bound(column, above, slots),
        }
    }

    // A lower bound of a column that excludes null, if the condition bounds the column from either
    // side.
    pub(crate) fn lowest<'b>(
        &'b self,
        column: Ref,
        slots: &[Option<usize>],
        null: &'b Value,
    ) -> Option<Bound<'b>>
        requires { null.now ≡ Null }
        ensures { GivesBound (C.choices self.now.choices.now) self.now.sets.now slots.now
            (outer_parts self.now.query.now.cond) column false result }
    {
        match self.told_end(column, false, slots) {
            Some(bound) => Some(above_null(bound, null)),
            None => match self.told_end(column, true, slots) {
                Some(_) => Some(over_null(null)),
                None => None,
            },
        }
    }

    // The range of the rows whose key begins with the fixed values, when the next value of the key
    // is not fixed.
    pub(crate) fn span_from(
        &self,
        alloc: Global,
        table: usize,
        front: &Cells,
        column: usize,
        slots: &[Option<usize>],
    ) -> Result<Span, Memory>
        requires table { table < length self.now.sets.now }
        requires told { (set : KeyedRows) → slice_get self.now.sets.now table ≡ Some set
            → IsKeyTold (C.choices self.now.choices.now) self.now.sets.now slots.now
            (outer_parts self.now.query.now.cond) table (take (length front.now) set.key)
            front.now }
        requires next { (set : KeyedRows) → slice_get self.now.sets.now table ≡ Some set
            → slice_get set.key (length front.now) ≡ Some column }
        ensures { IfOk result (λ span. IsWithin (C.choices self.now.choices.now) self.now.query.now
            self.now.sets.now
            slots.now table span) }
    {
        let set = self.sets.get(table);
        let next = Ref { table, column };
        let low = self.told_bound(next, false, slots);
        let high = self.told_bound(next, true, slots);
        Ok(Span {
            start: edge(alloc, set, front, column, false, low)?,
            end: edge(alloc, set, front, column, true, high)?,
        })
    }
}
