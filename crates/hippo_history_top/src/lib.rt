//! What a store holds, in a form that people can read: its entries, the rules or the authorizations
//! in force, a digest of its entries, or what was disclosed of a patient. This crate has the command
//! line, the top function and the program that calls it.
#![tactic(auto)]

mod arguments;
mod asking;
mod births;
mod bounds;
mod carrying;
mod damage;
mod digest;
mod disclosing;
mod endings;
mod front;
mod gathering;
mod lines;
mod moments;
mod patients;
mod printing;
mod program;
mod reading;
mod rules;
mod scope;
mod showing;
mod stores;
mod top;
mod users;

pub use asking::{Acts, Bound, Call, Excerpt, Form, Inquiry, Layout, Page, Roster, Scope, View};
pub use program::History;
pub use reading::asked_of;
pub use stores::Stores;
pub use top::history_top;
