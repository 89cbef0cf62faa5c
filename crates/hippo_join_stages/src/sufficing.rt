//! Whether a tie alone implies all that a query asks of its rows.
ghost use Rattle.std.specs.Prelude.{◌≡◌, ◌<◌, ◌&&◌, true, not, length, Some, IfSome};
ghost use Rattle.std.specs.Option.{option_map_or};
ghost use Rattle.std.specs.List.{list_all};
ghost use Rattle.hippo_values.specs.declared.truths.CompareOp.TheVariants.{Eq};
ghost use Rattle.hippo_model.specs.Masking.{Choices};
ghost use Rattle.hippo_model.specs.Terms.{Combination};
ghost use Rattle.hippo_model.specs.declared.query.CondOf.TheVariants.{Compare};
ghost use Rattle.hippo_model.specs.declared.query.Expr.TheVariants.{Keep};
ghost use Rattle.hippo_join_lookups.specs.Known.{is_chosen};
ghost use Rattle.hippo_join_lookups.specs.Ties.{AreEqual, holds};
ghost use Rattle.hippo_join_stages.specs.Guards.{can_fail};
ghost use Rattle.hippo_join_stages.specs.Stages.{AlwaysQualify, AreTied, HaveValue, HoldsWithEach, Suffices, suffices};
ghost use Rattle.hippo_join_stages.specs.Walking.{candidate_places};
ghost use Rattle.hippo_join_stages.specs.declared.following.Following.TheVariants.{Searched};

use crate::following::Following;
use crate::keys::Span;
use crate::sides::Side;
use crate::stages::Stage;
use hippo_join_lookups::{Tie, is_chosen, is_null, outer_parts};
use hippo_model::{ChoiceView, CondOf, Expr, Guard, Ref};
use hippo_values::{CompareOp, Value};

/// Whether the cell of an expression can be denied, judged by the expression alone.
pub(crate) fn can_fail(expr: &Expr) -> bool
    ensures { result ≡ can_fail expr.now }
{
    match expr {
        Expr::Keep(_) => false,
        Expr::Literal(_) => false,
        _ => true,
    }
}

// Whether no guard can fail.
fn none_fails(guards: &[Guard]) -> bool
    ensures { result ≡ list_all (λ guard. not (can_fail guard.expr)) guards.now }
{
    guards.iter().all(|guard| !can_fail(&guard.expr))
}

// The column that an expression shows for every row.
fn kept_column(expr: &Expr) -> Option<Ref>
    ensures { IfSome result (λ column. expr.now ≡ Keep column) }
{
    match expr {
        Expr::Keep(column) => Some(*column),
        _ => None,
    }
}

fn are(left: Ref, right: Ref, column: Ref, other: Ref) -> bool
    ensures { result ≡ true → (left ≡ column) × (right ≡ other) }
{
    left == column && right == other
}

// Whether two columns are the two columns of a table's tie.
fn are_tied(left: Ref, right: Ref, table: usize, tie: &Tie) -> bool
    ensures { result ≡ true → (rows : Combination) → AreTied table (Some tie.now) rows
        → AreEqual rows left right }
{
    let column = Ref {
        table,
        column: tie.column,
    };
    if are(left, right, column, tie.other) {
        return true;
    }
    are(right, left, column, tie.other)
}

// Whether a tie implies an equality.
fn follows_equality(left: &Expr, right: &Expr, table: usize, tie: &Tie) -> bool
    ensures { result ≡ true → (choices : Choices) (rows : Combination)
        → AreTied table (Some tie.now) rows
        → holds choices rows (Compare Eq left.now right.now) ≡ true }
{
    let (Some(left), Some(right)) = (kept_column(left), kept_column(right)) else {
        return false;
    };
    are_tied(left, right, table, tie)
}

// Whether a tie implies a comparison.
fn follows_comparison(op: CompareOp, left: &Expr, right: &Expr, table: usize, tie: &Tie) -> bool
    ensures { result ≡ true → (choices : Choices) (rows : Combination)
        → AreTied table (Some tie.now) rows
        → holds choices rows (Compare op left.now right.now) ≡ true }
{
    match op {
        CompareOp::Eq => follows_equality(left, right, table, tie),
        _ => false,
    }
}

// Whether a tie implies a part of a condition.
fn follows(part: &CondOf<Expr>, table: usize, tie: &Tie) -> bool
    ensures { result ≡ true → (choices : Choices) (rows : Combination)
        → AreTied table (Some tie.now) rows → holds choices rows part.now ≡ true }
{
    match part {
        CondOf::Compare { op, left, right } => follows_comparison(*op, left, right, table, tie),
        _ => false,
    }
}

fn follows_any(part: &CondOf<Expr>, table: usize, tie: &Option<Tie>) -> bool
    ensures { result ≡ true → (choices : Choices) (rows : Combination) → AreTied table tie.now rows
        → holds choices rows part.now ≡ true }
{
    match tie {
        None => false,
        Some(tie) => follows(part, table, tie),
    }
}

// Whether a tie implies the parts of a condition; at most one part can be implied.
fn all_follow(parts: &[CondOf<Expr>], table: usize, tie: &Option<Tie>) -> bool
    ensures { result ≡ true → (choices : Choices) (rows : Combination) → AreTied table tie.now rows
        → list_all (holds choices rows) parts.now ≡ true }
{
    let Some((part, rest)) = parts.split_first() else {
        return true;
    };
    if !rest.is_empty() {
        return false;
    }
    follows_any(part, table, tie)
}

impl<'a, C: ChoiceView> Side<'a, C> {
    // Whether the rows of a span all have a value in a column. True only if the column is the first
    // of the table's key and the value is not null.
    fn all_have(&self, column: Ref, value: &Value, span: Span) -> bool
        requires { column.table < length self.now.sets.now }
        ensures { result ≡ true → HaveValue self.now.sets.now column.table column.column value.now
            (candidate_places (Searched span)) }
    {
        let set = self.sets.get(column.table);
        match set.key().as_slice().first() {
            Some(first) if *first == column.column && !is_null(value) => {
                set.all_begin_with(value, span.start, span.end)
            }
            _ => false,
        }
    }

    // Whether a comparison is known to hold for each row of a table's span: it equates the first
    // column of the key with a literal.
    fn equals_each(
        &self,
        op: CompareOp,
        left: &Expr,
        right: &Expr,
        table: usize,
        span: Span,
    ) -> bool
        requires { table < length self.now.sets.now }
        ensures { result ≡ true → HoldsWithEach (C.choices self.now.choices.now) self.now.sets.now
            table (candidate_places (Searched span)) (Compare op left.now right.now) }
    {
        match (op, kept_column(left), right) {
            (CompareOp::Eq, Some(column), Expr::Literal(value)) if column.table == table => {
                self.all_have(column, value, span)
            }
            _ => false,
        }
    }

    // Whether a part of the condition is known to hold for each row of a table's span.
    fn holds_with_each(&self, part: &CondOf<Expr>, table: usize, span: Span) -> bool
        requires { table < length self.now.sets.now }
        ensures { result ≡ true → HoldsWithEach (C.choices self.now.choices.now) self.now.sets.now
            table (candidate_places (Searched span)) part.now }
    {
        match part {
            CondOf::Compare { op, left, right } => self.equals_each(*op, left, right, table, span),
            _ => false,
        }
    }

    /// Whether each of these rows of a table is known to qualify with the chosen rows. True only if
    /// they are a span, the condition has one part, which fixes the first value of their key, and
    /// no guard can fail.
    pub fn all_count(&self, table: usize, following: &Following<'_>) -> bool
        requires { table < length self.now.sets.now }
        ensures { result ≡ true → AlwaysQualify (C.choices self.now.choices.now) self.now.query.now
            self.now.sets.now table (candidate_places following.now) }
    {
        match (following, outer_parts(&self.query.cond)) {
            (Following::Searched(span), [part]) => {
                none_fails(self.query.guards.as_slice()) && self.holds_with_each(part, table, *span)
            }
            _ => false,
        }
    }

    // Whether a tie alone makes a combination qualify: the condition has no other part, and no
    // guard can fail.
    pub(crate) fn suffices(&self, table: usize, tie: &Option<Tie>) -> bool
        ensures { result ≡ true → Suffices (C.choices self.now.choices.now) self.now.query.now table
            tie.now }
    {
        if !none_fails(self.query.guards.as_slice()) {
            return false;
        }
        all_follow(outer_parts(&self.query.cond), table, tie)
    }
}

impl Stage {
    // Whether the stage has no tie, or is materialised and the other row of its tie is chosen.
    #[inline(always)]
    fn is_told(&self, slots: &[Option<usize>]) -> bool
        ensures { result ≡ option_map_or (λ tie. not self.now.is_searched
            && is_chosen slots.now tie.other.table) self.now.tie true }
    {
        match &self.tie {
            None => true,
            Some(tie) => !self.is_searched && is_chosen(slots, tie.other.table),
        }
    }

    /// Whether every candidate row makes a qualifying combination with the chosen rows, because the
    /// stage's tie suffices.
    #[inline(always)]
    pub fn suffices(&self, slots: &[Option<usize>]) -> bool
        ensures { result ≡ suffices self.now slots.now }
    {
        self.suffices && self.is_told(slots)
    }
}
