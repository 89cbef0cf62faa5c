//! A table's rows, sorted by key and held in pieces.
#![tactic(auto)]

mod keyed_set;
mod pieces;

pub use keyed_set::{KeyedSet, cell_order};
pub use pieces::Pieces;
