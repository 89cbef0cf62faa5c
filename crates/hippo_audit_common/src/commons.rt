//! The tables that a query and an audit have in common.
ghost use Rattle.std.specs.Prelude.{◌≡◌, ◌<◌, ◌≤◌, IfOk, length, map, nat_eq, take};
ghost use Rattle.std.specs.List.{All, Contains, list_any};
ghost use Rattle.hippo_model.specs.Terms.{Place};
ghost use Rattle.hippo_audit_common.specs.Commons.{common_tables, place_in};

use hippo_join::order_after;
use hippo_join_stages::{Side, Stage, push_if};
use hippo_model::ChoiceView;
use hippo_values::{Memory, Name};
use std::alloc::Global;

/// The places of the common tables in the query's FROM list and in the audit's. Both lists are in
/// the audit's order.
#[derive(Drop)]
pub struct CommonPlaces {
    pub query: Vec<usize>,
    pub audit: Vec<usize>,
}

/// The stages of one common table: the query's and the audit's.
#[derive(Clone, Copy)]
pub struct CommonStages<'s> {
    pub query: &'s Stage,
    pub audit: &'s Stage,
}

/// Returns the place of a table in a list of tables, or the length of the list if the table is not
/// in it.
pub fn place_in(tables: &[Name], table: &Name) -> usize
    ensures { result ≡ place_in tables.now table.now }
{
    let mut place = 0;
    for other in tables {
        if table == other {
            return place;
        }
        place += 1;
    }
    place
}

/// Returns the places, in a query's FROM list and in an audit's, of the tables that both name.
pub fn common_places(alloc: Global, query: &[Name], audit: &[Name]) -> Result<CommonPlaces, Memory>
    ensures query { IfOk result (λ common.
        common.query.items ≡ map (place_in query.now) (common_tables query.now audit.now)) }
    ensures audit { IfOk result (λ common.
        common.audit.items ≡ map (place_in audit.now) (common_tables query.now audit.now)) }
{
    let mut query_places = Vec::new(alloc);
    let mut audit_places = Vec::new(alloc);
    for table in audit {
        let place = place_in(query, table);
        let is_common = place < query.len();
        push_if(is_common, &mut query_places, place)?;
        push_if(is_common, &mut audit_places, place_in(audit, table))?;
    }
    Ok(CommonPlaces {
        query: query_places,
        audit: audit_places,
    })
}

fn is_among(places: &[usize], place: usize) -> bool
    ensures { result ≡ list_any (nat_eq place) places.now }
{
    for other in places {
        if place == *other {
            return true;
        }
    }
    false
}

// The places of all tables, with `first` at the front.
fn tables_from(alloc: Global, first: &[usize], tables: usize) -> Result<Vec<usize>, Memory>
    requires { All (λ table. table < tables) first.now }
    ensures below { IfOk result (λ order. All (λ table. table < tables) order.items) }
    ensures whole { IfOk result (λ order. (table : Place) → table < tables
        → Contains order.items table) }
    ensures front { IfOk result (λ order. take (length first.now) order.items ≡ first.now) }
{
    let mut order = Vec::from_slice(alloc, first)?;
    for table in 0..tables {
        let is_new = !is_among(&order, table);
        push_if(is_new, &mut order, table)?;
    }
    Ok(order)
}

/// Returns an order in which to join a side's tables, with `first` at the front.
pub fn order_from<C: ChoiceView>(
    alloc: Global,
    side: &Side<'_, C>,
    first: &[usize],
) -> Result<Vec<usize>, Memory>
    requires { All (λ table. table < length side.now.sets.now) first.now }
    ensures below { IfOk result (λ order. All
        (λ table. table < length side.now.sets.now) order.items) }
    ensures whole { IfOk result (λ order.
        (table : Place) → table < length side.now.sets.now → Contains order.items table) }
    ensures front { IfOk result (λ order. take (length first.now) order.items ≡ first.now) }
{
    let tables = tables_from(alloc, first, side.sets.len())?;
    order_after(alloc, side, first, &tables[first.len()..])
}

/// Returns the first `count` stages of both sides, in pairs.
pub fn common_stages<'s>(
    alloc: Global,
    count: usize,
    query: &'s [Stage],
    audit: &'s [Stage],
) -> Result<Vec<CommonStages<'s>>, Memory>
    requires query { count ≤ length query.now }
    requires audit { count ≤ length audit.now }
    ensures query { IfOk result (λ common. map (λ stages. stages.query.now) common.items
        ≡ take count query.now) }
    ensures audit { IfOk result (λ common. map (λ stages. stages.audit.now) common.items
        ≡ take count audit.now) }
{
    let mut common = Vec::with_capacity(alloc, count)?;
    for place in 0..count {
        common.push(CommonStages {
            query: &query[place],
            audit: &audit[place],
        })?;
    }
    Ok(common)
}
