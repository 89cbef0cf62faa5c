use hippo_io::{Sink, Source};
use hippo_keeper::{Keeper, Steps};
use std::alloc::Global;
use std::sync::ledger::Ledger;

/// All that a program runs on: memory, its input, its output, the keeper of its history, and the
/// number of steps that it took. It has no other hold on the machine.
#[derive(Drop)]
pub struct Host<S: Source, K: Sink, P: Keeper, L: Ledger> {
    pub alloc: Global,
    pub source: S,
    pub sink: K,
    pub keeper: P,
    pub steps: Steps<L>,
}
