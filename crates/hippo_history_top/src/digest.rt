//! Reads the stored entries piece by piece, and shows their digest.
ghost use Rattle.std.specs.Prelude.{◌≡◌, ◌+◌, ◌-◌, ◌^◌, ◌<◌, ◌≤◌, true, min, length, string_bytes, IfOk};
ghost use Rattle.hippo_keeper.specs.Keeping.{IsReady};
ghost use Rattle.hippo_replay.specs.declared.state.State.{State};
ghost use Rattle.hippo_history_top.specs.declared.asking.View.TheVariants.{Digest as DigestView};
ghost use Rattle.hippo_history_top.specs.Digests.{next_digest, digest_line};
ghost use Rattle.hippo_history_top.specs.Digesting.{CoversEntries, DigestsNext, DigestsAll};
ghost use Rattle.hippo_history_top.specs.Progress.{IsReadable, ShowsLoaded};
ghost use Rattle.hippo_history_top.specs.Saying.{Writes};

use crate::endings::{ending_of, served_or};
use crate::printing::write_lines;
use crate::showing::PIECE;
use hippo_io::Sink;
use hippo_keeper::{CountedKeeper, KeeperFault, Steps};
use hippo_model::StoredEntry;
use hippo_program_args::Ending;
use hippo_values::Memory;
use sha2::{Digest, Sha256};
use std::alloc::Global;
use std::sync::ledger::Ledger;

/// How far the digest has come.
#[derive(Clone, Copy)]
pub(crate) struct Chain {
    /// How many entries it covers.
    pub count: u64,
    /// The number of the last of them; 0 if there is none.
    pub number: u64,
    pub digest: [u8; 32],
}

// The digest with one more body.
fn next_digest(digest: &[u8; 32], body: &[u8]) -> [u8; 32]
    ensures { result ≡ next_digest digest.now body.now }
{
    let mut hasher = Sha256::new();
    hasher.update(digest.as_slice());
    hasher.update(body);
    hasher.finalize()
}

// Goes on over the entries of a piece.
fn cover(chain: &mut Chain, piece: &[StoredEntry])
    requires room { chain.old.count + length piece.now < 2 ^ 64 }
    ensures covers { CoversEntries piece.now chain.old chain.new }
{
    for kept in piece {
        chain.count += 1;
        chain.number = kept.seq;
        chain.digest = next_digest(&chain.digest, kept.body.as_slice());
    }
}

// How many entries are read next, if `count` are covered and `last` are asked for.
fn next_room(count: u64, last: u64) -> u64
    requires within { count ≤ last }
    ensures { result ≡ min 1000 (last - count) }
{
    PIECE.min(last - count)
}

// Reads the next piece and goes on over its entries. Returns whether there were any.
fn digest_next<P: CountedKeeper<L>, L: Ledger>(
    alloc: Global,
    last: u64,
    chain: &mut Chain,
    keeper: &mut P,
    steps: &mut Steps<L>,
) -> Result<bool, KeeperFault>
    requires ready { IsReady true (P.state keeper.old) }
    requires within { chain.old.count ≤ last }
    ensures digests { DigestsNext last result (P.state keeper.old) (P.state keeper.new)
        chain.old chain.new steps.old steps.new }
{
    let room = next_room(chain.count, last);
    if room == 0 {
        return Ok(false);
    }
    match keeper.read_all(alloc, chain.number, room, steps) {
        Ok(piece) => {
            let any = !piece.is_empty();
            cover(chain, piece.as_slice());
            drop(piece);
            Ok(any)
        }
        Err(fault) => Err(fault),
    }
}

// The digest of the first `last` entries that a started keeper stores.
fn digest_all<P: CountedKeeper<L>, L: Ledger>(
    alloc: Global,
    last: u64,
    keeper: &mut P,
    steps: &mut Steps<L>,
) -> Result<Chain, KeeperFault>
    requires readable { IsReadable (P.state keeper.old) }
    ensures digests { DigestsAll last result (P.state keeper.old) (P.state keeper.new)
        steps.old steps.new }
{
    let mut chain = Chain {
        count: 0,
        number: 0,
        digest: [0; 32],
    };
    loop {
        match digest_next(alloc, last, &mut chain, keeper, steps) {
            Ok(true) => {}
            Ok(false) => return Ok(chain),
            Err(fault) => return Err(fault),
        }
    }
}

// The line that shows a digest.
fn digest_line(alloc: Global, chain: &Chain) -> Result<String, Memory>
    ensures { IfOk result (λ line. string_bytes line
        ≡ digest_line chain.now.count chain.now.digest) }
{
    let digits = hex::encode(alloc, chain.digest.as_slice())?;
    let count = chain.count;
    Ok(format!(in alloc; "{count} {digits}\n")?)
}

fn write_digest<K: Sink>(alloc: Global, chain: &Chain, sink: &mut K) -> Option<Ending>
    ensures writes { Writes (digest_line chain.now.count chain.now.digest) result
        (K.written sink.old) (K.written sink.new) (K.faults sink.old) (K.faults sink.new) }
{
    match digest_line(alloc, chain) {
        Ok(line) => write_lines(sink, line.as_str()),
        Err(Memory) => Some(Ending::NoMemory),
    }
}

/// Shows the digest of the first `last` entries that a started keeper stores.
pub(crate) fn show_digest<K: Sink, P: CountedKeeper<L>, L: Ledger>(
    alloc: Global,
    last: u64,
    sink: &mut K,
    keeper: &mut P,
    steps: &mut Steps<L>,
) -> Ending
    requires readable { IsReadable (P.state keeper.old) }
    ensures shows { (state : State) → ShowsLoaded state (DigestView last) result
        (P.state keeper.old) (P.state keeper.new) (K.written sink.old) (K.written sink.new)
        (K.faults sink.old) (K.faults sink.new) steps.old steps.new }
{
    match digest_all(alloc, last, keeper, steps) {
        Ok(chain) => served_or(write_digest(alloc, &chain, sink)),
        Err(fault) => ending_of(fault),
    }
}
