//! An audit and a query to compare, with the rows of both.
use hippo_model::{Audit, Exprs, Masked};
use hippo_tables_rows::Sets;

/// An audit, the rows of a query's tables and of the audit's own, each in the order of FROM, and
/// the patients' choices.
#[derive(Drop)]
pub struct Audited<'a, C> {
    pub audit: &'a Audit,
    pub query_sets: &'a Sets<'a>,
    pub audit_sets: &'a Sets<'a>,
    pub choices: &'a C,
}

/// A query, the expressions that must be shown to it, and the audit that it is compared with.
#[derive(Drop)]
pub struct Compared<'a, C> {
    pub query: &'a Masked,
    pub seen: &'a Exprs,
    pub audited: &'a Audited<'a, C>,
}
