//! The program that shows a history, over any host.
ghost use Rattle.hippo_history_top.specs.Calls.{HistoryCallEnds};

use crate::stores::Stores;
use crate::top::history_top;
use hippo_io::{Sink, Source};
use hippo_keeper::CountedKeeper;
use hippo_program_start::{Host, Program};
use hippo_values::Txt;
use std::sync::ledger::Ledger;

/// The program `hippo_history`: [`history_top`] on a host, and what tells which stores there are.
/// It reads no input.
#[derive(Drop)]
pub struct History<D: Stores> {
    pub stores: D,
}

impl<D: Stores> Program for History<D> {
    ghost Answers = { λ program. HistoryCallEnds (D.Answers program.stores) };

    fn call<S: Source, K: Sink, P: CountedKeeper<L>, L: Ledger>(
        &self,
        words: &[Txt],
        host: &mut Host<S, K, P, L>,
    ) -> u8 {
        history_top(
            host.alloc,
            words,
            &self.stores,
            &mut host.sink,
            &mut host.keeper,
            &mut host.steps,
        )
    }
}
