//! One side of a join, and the candidate rows of its tables given the rows already chosen.
#![tactic(auto)]

mod estimates;
mod following;
mod keys;
mod ranges;
mod reaching;
mod seeking;
mod sides;
mod stages;
mod sufficing;

pub use following::{Following, ascends, listed};
pub use keys::Span;
pub use reaching::{open_slots, push_if};
pub use sides::{Side, chosen_row};
pub use stages::Stage;
