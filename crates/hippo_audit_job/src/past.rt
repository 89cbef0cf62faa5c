//! What an audit knows about the history before it reads from the keeper.
use hippo_policy::PolicyBook;
use hippo_typing_catalog::Catalog;

/// The names, the rules and choices, and the length of the history as it is now. An audit reads
/// everything else about the past from the keeper.
#[derive(Clone, Copy)]
pub struct Past<'a> {
    pub catalog: &'a Catalog,
    pub book: &'a PolicyBook,
    /// The number of entries.
    pub count: u64,
}
