//! Numbered slots, sessions with their cursors, and a view of the state of a run.
#![tactic(auto)]

mod cursors;
mod numbered;
mod sessions;
mod world_view;

pub use cursors::Cursor;
pub use numbered::Numbered;
pub use sessions::Session;
pub use world_view::WorldView;
