//! The standpoint at which a query is answered.
use hippo_model::Pair;
use hippo_policy::PolicyBook;
use hippo_tables::Tables;
use hippo_values::Moment;

/// What the answer to a query depends on, apart from the query: a book and tables that represent
/// the first `count` entries, a purpose and recipient, and a moment.
#[derive(Drop)]
pub struct Standpoint<'a> {
    pub book: &'a PolicyBook,
    pub tables: &'a Tables,
    pub count: u64,
    pub pair: &'a Pair,
    pub moment: Moment,
}
