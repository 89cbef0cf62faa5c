//! The program over any host.
ghost use Rattle.hippo_serve.specs.Calls.{CallEnds};

use crate::top::hippo_top;
use hippo_io::{Sink, Source};
use hippo_keeper::CountedKeeper;
use hippo_program_start::{Host, Program};
use hippo_values::Txt;
use std::sync::ledger::Ledger;

/// The program `hippo`: [`hippo_top`] on a host.
#[derive(Clone, Copy)]
pub struct Hippo;

impl Program for Hippo {
    ghost Answers = { λ program. CallEnds };

    fn call<S: Source, K: Sink, P: CountedKeeper<L>, L: Ledger>(
        &self,
        words: &[Txt],
        host: &mut Host<S, K, P, L>,
    ) -> u8 {
        hippo_top(
            host.alloc,
            words,
            &mut host.source,
            &mut host.sink,
            &mut host.keeper,
            &mut host.steps,
        )
    }
}
