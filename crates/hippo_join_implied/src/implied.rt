//! Adds to a condition what its equalities of columns imply.
ghost use Rattle.std.specs.Prelude.{◌≡◌, ◌-◌, ◌++◌, [], ◌∷◌, IfOk, OnOk, length, map};
ghost use Rattle.hippo_join_implied.specs.Implied.{implied_limit, moved_part, all_beyond, implied_by, implied_from, implied_parts, with_implied};

use crate::equalities::{equalities, next_beyond};
use crate::literals::compared_expr;
use crate::moved::moved_part;
use hippo_model::{CondOf, Expr, Lent};
use hippo_values::{Memory, Sequence};
use std::alloc::Global;

type Conditions = Sequence<CondOf<Expr>>;

// The most parts that are added to a condition.
const IMPLIED_LIMIT: usize = 16;

// Adds a part for each column that equalities lead to from the column of an expression of it.
fn add_beyond(
    alloc: Global,
    equalities: &Lent<'_, CondOf<Expr>>,
    part: &CondOf<Expr>,
    from: &Expr,
    implied: &mut Conditions,
) -> Result<(), Memory>
    ensures { OnOk result (implied.new
        ≡ implied.old ++ map (λ other. moved_part from.now other part.now)
        (all_beyond (implied_limit - length implied.old) equalities.now (from.now ∷ []))) }
{
    let mut reached = Lent::new(alloc);
    reached.push(from)?;
    while implied.len() < IMPLIED_LIMIT {
        let Some(other) = next_beyond(equalities, &reached) else {
            return Ok(());
        };
        implied.push(moved_part(alloc, part, from, other)?)?;
        reached.push(other)?;
    }
    Ok(())
}

// Adds what equalities imply by one part.
fn add_by(
    alloc: Global,
    equalities: &Lent<'_, CondOf<Expr>>,
    part: &CondOf<Expr>,
    implied: &mut Conditions,
) -> Result<(), Memory>
    ensures { OnOk result (implied.new
        ≡ implied.old ++ implied_by (implied_limit - length implied.old) equalities.now part.now) }
{
    match compared_expr(part) {
        Some(from) => add_beyond(alloc, equalities, part, from, implied),
        None => Ok(()),
    }
}

// What equalities imply by some parts.
fn implied_from(
    alloc: Global,
    equalities: &Lent<'_, CondOf<Expr>>,
    parts: &[CondOf<Expr>],
) -> Result<Conditions, Memory>
    ensures { IfOk result (λ implied. implied
        ≡ implied_from implied_limit equalities.now parts.now) }
{
    let mut implied = Sequence::new(alloc);
    if equalities.len() == 0 {
        return Ok(implied);
    }
    for part in parts {
        add_by(alloc, equalities, part, &mut implied)?;
    }
    Ok(implied)
}

// What the parts of a condition imply.
fn implied_parts(alloc: Global, parts: &[CondOf<Expr>]) -> Result<Conditions, Memory>
    ensures { IfOk result (λ implied. implied ≡ implied_parts parts.now) }
{
    let equalities = equalities(alloc, parts)?;
    let implied = implied_from(alloc, &equalities, parts)?;
    Ok(implied)
}

// Adds the members of a list at the end of another one.
fn append(parts: &mut Conditions, more: Conditions) -> Result<(), Memory>
    ensures { OnOk result (parts.new ≡ parts.old ++ more) }
{
    for part in more.into_vec() {
        parts.push(part)?;
    }
    Ok(())
}

fn add_to(alloc: Global, parts: &mut Conditions) -> Result<(), Memory>
    ensures { OnOk result (parts.new ≡ parts.old ++ implied_parts parts.old) }
{
    let implied = implied_parts(alloc, parts.as_slice())?;
    append(parts, implied)
}

/// Adds to a condition what the parts of its outermost AND imply. Where an equality `a = b` of two
/// columns is such a part, each other part that compares one of them with literals (by `=`, `<`,
/// `<=`, `>`, `>=`, BETWEEN or IN) is added for the other one. So it is along several equalities.
/// At most 16 parts are added, by the first 16 equalities. The condition is true of the same rows
/// as before, and rows of more tables can be found by it. Fails when out of memory; the condition
/// may then be any.
pub fn add_implied(alloc: Global, condition: &mut CondOf<Expr>) -> Result<(), Memory>
    ensures { OnOk result (condition.new ≡ with_implied condition.old) }
{
    match condition {
        CondOf::All(parts) => add_to(alloc, parts),
        _ => Ok(()),
    }
}
