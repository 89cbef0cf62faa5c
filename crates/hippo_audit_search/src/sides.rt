//! The two sides of a search for rows that a query and an audit share.
use hippo_audit_common::CommonPlaces;
use hippo_join_stages::Side;
use hippo_model::Expr;

// A query and an audit, the expressions that must be shown to the query, and the tables that both
// have.
#[derive(Drop)]
pub(crate) struct Sides<'a, C> {
    pub query: Side<'a, C>,
    pub audit: Side<'a, C>,
    pub seen: &'a [Expr],
    pub common: &'a CommonPlaces,
}
