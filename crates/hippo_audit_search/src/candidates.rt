//! The first virtual tuple that a query and an audit share, among those that pass a test.
ghost use Rattle.std.specs.Prelude.{◌≡◌, [], false, None, List, IfOk, length, replicate};
ghost use Rattle.hippo_model.specs.declared.audit.SharedRow as shared_row;
ghost use Rattle.hippo_join.specs.Existence.{HasOne, Decides};
ghost use Rattle.hippo_join_stages.specs.Finding.{IsRising};
ghost use Rattle.hippo_audit_search.specs.Comparing.{HaveRows, IsFirstPassing};
ghost use Rattle.hippo_audit_search.specs.Sharing.{audit_has};
ghost use Rattle.hippo_audit_search.specs.Sides.{RepresentsAudit};

use crate::audited::{Audited, Compared};
use crate::sharing::{AuditSide, audit_side, know_order, sides_of, tuple_found, unmasked_query};
use crate::told::first_candidate;
use hippo_audit_common::order_from;
use hippo_join::{blank_row, has};
use hippo_join_stages::{Side, open_slots};
use hippo_model::{ChoiceView, Masked, Places, SharedTuple};
use hippo_tables_rows::Sets;
use hippo_values::Memory;
use std::alloc::Global;
use std::collections::BTreeSet;

// Whether some combination counts for a side.
fn has_any<C: ChoiceView>(alloc: Global, side: &Side<'_, C>) -> Result<bool, Memory>
    ensures { Decides (HasOne (C.choices side.now.choices.now) side.now.query.now []
        side.now.sets.now
        (replicate (length side.now.sets.now) None)) result }
{
    let order = order_from(alloc, side, &[])?;
    let stages = side.stages(alloc, &order)?;
    let mut slots = open_slots(alloc, side.sets.len())?;
    has(side, alloc, &stages, &[], &mut slots)
}

// Whether some combination of these rows counts for the query that represents an audit.
fn any_counts<C: ChoiceView>(
    alloc: Global,
    unmasked: &Masked,
    sets: &Sets<'_>,
    choices: &C,
) -> Result<bool, Memory>
    ensures { Decides (HasOne (C.choices choices.now) unmasked.now [] sets.now
        (replicate (length sets.now) None))
        result }
{
    let blank = blank_row(alloc)?;
    let side = Side {
        query: &*unmasked,
        sets: &*sets,
        choices: &*choices,
        blank: &blank,
    };
    has_any(alloc, &side)
}

/// Returns whether the audit's condition is true of some combination of its rows. If not, no
/// virtual tuple serves.
pub fn audit_has_any<C: ChoiceView>(alloc: Global, audited: &Audited<'_, C>) -> Result<bool, Memory>
    requires { length audited.now.audit_sets.now ≡ length audited.now.audit.now.tables }
    ensures { IfOk result (λ has. has ≡ false → (tuple : List shared_row.SharedRow)
        → audit_has audited.now.audit.now audited.now.audit_sets.now tuple ≡ false) }
{
    let unmasked = unmasked_query(alloc, audited.audit)?;
    let has = any_counts(alloc, &unmasked, audited.audit_sets, audited.choices);
    drop(unmasked);
    has
}

// The candidates as a list, in ascending order.
fn listed(alloc: Global, candidates: BTreeSet<Places>) -> Result<Vec<Places>, Memory>
    ensures keys { IfOk result (λ listed. listed.items ≡ candidates.keys) }
    ensures order { IsRising candidates.keys }
{
    Ok(candidates.into_iter().collect(alloc)?)
}

// The result of `first_of` for candidates in ascending order, given the audit's side.
fn first_listed<C: ChoiceView>(
    alloc: Global,
    listed: &[Places],
    compared: &Compared<'_, C>,
    side: &AuditSide,
) -> Result<Option<SharedTuple>, Memory>
    requires order { IsRising listed.now }
    requires rows { HaveRows compared.now }
    requires side { RepresentsAudit compared.now.query.now compared.now.audited.now.audit.now
        side.now }
    ensures { IfOk result (IsFirstPassing C.choices compared.now listed.now) }
{
    know_order(compared.audited.audit_sets);
    let sides = sides_of(compared, side);
    let found = first_candidate(alloc, &sides, listed)?;
    tuple_found(alloc, compared, side, found)
}

// The result of `first_of` for candidates in ascending order.
fn first_of_listed<C: ChoiceView>(
    alloc: Global,
    listed: &[Places],
    compared: &Compared<'_, C>,
) -> Result<Option<SharedTuple>, Memory>
    requires order { IsRising listed.now }
    requires rows { HaveRows compared.now }
    ensures { IfOk result (IsFirstPassing C.choices compared.now listed.now) }
{
    let side = audit_side(alloc, compared.query, compared.audited.audit)?;
    let found = first_listed(alloc, listed, compared, &side);
    drop(side);
    found
}

/// Returns the first of some virtual tuples that the query and the audit share, or `None` if they
/// share none of them. `candidates` gives the places of their rows in the common tables. The tuple
/// must be in a combination of the query's rows that makes a row of the answer and in which every
/// expression of `seen` is a shown cell. It must also be in a combination of the audit's rows of
/// which the audit's condition is true. The requirements are those of `first_shared`.
pub fn first_of<C: ChoiceView>(
    alloc: Global,
    candidates: BTreeSet<Places>,
    compared: &Compared<'_, C>,
) -> Result<Option<SharedTuple>, Memory>
    requires { HaveRows compared.now }
    ensures { IfOk result (IsFirstPassing C.choices compared.now candidates.keys) }
{
    let listed = listed(alloc, candidates)?;
    first_of_listed(alloc, &listed, compared)
}
