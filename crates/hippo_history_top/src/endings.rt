//! How the program ends.
ghost use Rattle.std.specs.Prelude.{◌≡◌, unwrap_or};
ghost use Rattle.hippo_program_args.specs.declared.endings.Ending.TheVariants.{Served};
ghost use Rattle.hippo_history_top.specs.Endings.{ending_of};

use hippo_keeper::KeeperFault;
use hippo_program_args::Ending;

/// The ending that cut the program short, or `Served` if nothing did.
pub(crate) fn served_or(cut: Option<Ending>) -> Ending
    ensures { result ≡ unwrap_or cut Served }
{
    cut.unwrap_or(Ending::Served)
}

/// How the program ends when a call on its keeper failed.
pub(crate) fn ending_of(fault: KeeperFault) -> Ending
    ensures { result ≡ ending_of fault }
{
    match fault {
        KeeperFault::Failed => Ending::KeeperFault,
        KeeperFault::Memory => Ending::NoMemory,
    }
}
