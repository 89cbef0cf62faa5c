//! The tables that a query and an audit have in common: their places in both FROM lists, join
//! orders that begin with them, and their stages in pairs.
#![tactic(auto)]

mod commons;

pub use commons::{CommonPlaces, CommonStages, common_places, common_stages, order_from, place_in};
