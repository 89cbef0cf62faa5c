//! A masked query with everything that it is answered over.
use hippo_model::Masked;
use hippo_policy::ChoicesAt;
use hippo_tables_rows::Sets;

/// A query with the policy written into it, and the unmasked rows of its tables and the patients'
/// choices that it is answered over.
#[derive(Drop)]
pub(crate) struct Inquiry<'a> {
    pub(crate) query: &'a Masked,
    pub(crate) sets: Sets<'a>,
    pub(crate) choices: ChoicesAt<'a>,
}
