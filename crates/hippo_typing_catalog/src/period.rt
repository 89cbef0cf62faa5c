//! The period of an audit expression.
use hippo_values::Moment;

/// The two ends of an audit's period. An end is none if its text is not a moment.
#[derive(Drop)]
pub struct Period {
    pub from: Option<Moment>,
    pub to: Option<Moment>,
}
