//! A query with the rules in force written into it.
ghost use Rattle.std.specs.Prelude.{◌≡◌, IfOk};
ghost use Rattle.hippo_rewrite.specs.Rewriting.{rewritten_query};

use crate::conditions::masked_condition;
use crate::expressions::mask_columns;
use crate::guards::guards;
use hippo_model::{Masked, Query, RulesInForce};
use hippo_values::{Duplicate, Memory};
use std::alloc::Global;

/// A query over unmasked rows with the same answer, for every row, age and choice, as `query` over
/// the rows as the rules mask them (the query rewriting of LeFevre and others, Limiting Disclosure
/// in Hippocratic Databases, VLDB 2004, with table semantics). `rules` are those of the query's
/// tables, in the order of FROM. Each column becomes itself, NULL with the rule that denies it, or
/// what its row's age and the patient's choice show. Each column of a key adds a guard, so that a
/// row with a denied key is dropped. The query's form is not rewritten: the caller that groups the
/// rows applies it. Fails when out of memory.
pub fn rewrite(alloc: Global, query: &Query, rules: &RulesInForce) -> Result<Masked, Memory>
    ensures { IfOk result (λ masked. masked ≡ rewritten_query rules.now query.now) }
{
    let items = mask_columns(alloc, &query.items, rules)?;
    let tables = query.tables.copy(alloc)?;
    let guards = guards(alloc, rules)?;
    let cond = masked_condition(alloc, &query.cond, rules)?;
    Ok(Masked {
        items,
        tables,
        guards,
        cond,
    })
}
