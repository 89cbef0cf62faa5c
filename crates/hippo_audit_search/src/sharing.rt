//! The first virtual tuple that a query and an audit share.
ghost use Rattle.std.specs.Prelude.{◌≡◌, IfOk, map, option_map};
ghost use Rattle.std.specs.List.{All};
ghost use Rattle.hippo_tables_keyed.specs.RowSets.{IsAscending, key_in};
ghost use Rattle.hippo_audit_search.specs.Comparing.{HaveRows, shared_between};
ghost use Rattle.hippo_audit_search.specs.Searching.{HaveCommon};
ghost use Rattle.hippo_audit_search.specs.Sides.{AreOfTuple, AreSidesOf, RepresentsAudit, condition_alone, tuple_there};

use crate::audited::Compared;
use crate::sides::Sides;
use crate::told::first_places;
use crate::tuples::tuple_at;
use hippo_audit_common::{CommonPlaces, common_places};
use hippo_eval::unmasked_condition;
use hippo_join::blank_row;
use hippo_join_implied::add_implied;
use hippo_join_stages::Side;
use hippo_model::{Audit, BornRow, ChoiceView, Masked, SharedTuple};
use hippo_tables_rows::Sets;
use hippo_values::{Memory, Sequence};
use std::alloc::Global;

// What represents an audit in a search: its condition as a query, and the tables that it has in
// common with the query.
#[derive(Drop)]
pub(crate) struct AuditSide {
    pub unmasked: Masked,
    pub common: CommonPlaces,
    pub blank: BornRow,
}

// An audit's condition, with what it implies, as a query without guards.
pub(crate) fn unmasked_query(alloc: Global, audit: &Audit) -> Result<Masked, Memory>
    ensures { IfOk result (λ query. query ≡ condition_alone audit.now) }
{
    let mut query = Masked {
        items: Sequence::new(alloc),
        tables: Sequence::new(alloc),
        guards: Sequence::new(alloc),
        cond: unmasked_condition(alloc, &audit.cond)?,
    };
    add_implied(alloc, &mut query.cond)?;
    Ok(query)
}

/// Does nothing. Its contract says that the rows of each table are in the order of their keys.
pub fn know_order(sets: &Sets<'_>)
    ensures { All (λ set. IsAscending (map (key_in set.key) set.rows)) sets.now }
{
    for table in 0..sets.len() {
        let _rows = sets.get(table).len();
    }
}

pub(crate) fn audit_side(alloc: Global, query: &Masked, audit: &Audit) -> Result<AuditSide, Memory>
    ensures { IfOk result (RepresentsAudit query.now audit.now) }
{
    let common = common_places(alloc, query.tables.as_slice(), audit.tables.as_slice())?;
    let blank = blank_row(alloc)?;
    let unmasked = unmasked_query(alloc, audit)?;
    Ok(AuditSide {
        unmasked,
        common,
        blank,
    })
}

// Both sides of a search, given what represents the audit.
pub(crate) fn sides_of<'s, C: ChoiceView>(
    compared: &'s Compared<'_, C>,
    side: &'s AuditSide,
) -> Sides<'s, C>
    requires rows { HaveRows compared.now }
    requires side { RepresentsAudit compared.now.query.now compared.now.audited.now.audit.now
        side.now }
    ensures are { AreSidesOf compared.now.query.now compared.now.seen.now compared.now.audited.now
        result }
    ensures common { HaveCommon result }
{
    Sides {
        query: Side {
            query: &*compared.query,
            sets: &*compared.audited.query_sets,
            choices: &*compared.audited.choices,
            blank: &side.blank,
        },
        audit: Side {
            query: &side.unmasked,
            sets: &*compared.audited.audit_sets,
            choices: &*compared.audited.choices,
            blank: &side.blank,
        },
        seen: compared.seen.as_slice(),
        common: &side.common,
    }
}

// The virtual tuple of the rows at some places of the common tables, if places were found.
pub(crate) fn tuple_found<C: ChoiceView>(
    alloc: Global,
    compared: &Compared<'_, C>,
    side: &AuditSide,
    found: Option<Vec<usize>>,
) -> Result<Option<SharedTuple>, Memory>
    requires rows { HaveRows compared.now }
    requires side { RepresentsAudit compared.now.query.now compared.now.audited.now.audit.now
        side.now }
    requires places { AreOfTuple compared.now (option_map (λ places. places.items) found) }
    ensures { IfOk result (λ tuple. tuple ≡ option_map (tuple_there compared.now)
        (option_map (λ places. places.items) found)) }
{
    match found {
        Some(places) => {
            let names = compared.audited.audit.tables.as_slice();
            let tuple = tuple_at(
                alloc,
                names,
                compared.audited.audit_sets,
                &side.common.audit,
                &places,
            )?;
            Ok(Some(tuple))
        }
        None => Ok(None),
    }
}

// The result of `first_shared`, given what represents the audit.
fn first_beside<C: ChoiceView>(
    alloc: Global,
    compared: &Compared<'_, C>,
    side: &AuditSide,
) -> Result<Option<SharedTuple>, Memory>
    requires rows { HaveRows compared.now }
    requires side { RepresentsAudit compared.now.query.now compared.now.audited.now.audit.now
        side.now }
    ensures { IfOk result (λ shared. shared ≡ shared_between C.choices compared.now) }
{
    know_order(compared.audited.audit_sets);
    let sides = sides_of(compared, side);
    let found = first_places(alloc, &sides)?;
    tuple_found(alloc, compared, side, found)
}

/// Returns the first virtual tuple that a query and an audit share, or `None` if they share none. A
/// virtual tuple is a row of each table in both FROM lists, by its key, in the audit's order. The
/// tuple must be in a combination of the query's rows that makes a row of the answer and in which
/// every expression of `seen` is a shown cell. It must also be in a combination of the audit's rows
/// of which the audit's condition is true.
///
/// The rows must be those of each side's tables, in the order of FROM. A table that both sides have
/// must have the same rows on both. The audit must not name a table twice.
///
/// If lookups on one side find the only possible rows of the common tables, or few rows of the only
/// one, the time is proportional to what they find. Otherwise it is proportional to the size of the
/// tables and to the matches on the way to the first tuple.
pub fn first_shared<C: ChoiceView>(
    alloc: Global,
    compared: &Compared<'_, C>,
) -> Result<Option<SharedTuple>, Memory>
    requires { HaveRows compared.now }
    ensures { IfOk result (λ shared. shared ≡ shared_between C.choices compared.now) }
{
    let side = audit_side(alloc, compared.query, compared.audited.audit)?;
    let found = first_beside(alloc, compared, &side);
    drop(side);
    found
}
