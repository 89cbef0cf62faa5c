//! Reads the stored entries piece by piece, and shows them one after another.
ghost use Rattle.std.specs.Prelude.{◌≡◌, None, true, [], ◌∷◌};
ghost use Rattle.hippo_keeper.specs.Keeping.{last_number, IsReady};
ghost use Rattle.hippo_history_top.specs.Saying.{Writes};
ghost use Rattle.hippo_history_top.specs.ByNames.{shown_as};
ghost use Rattle.hippo_history_top.specs.Progress.{IsReadable, ShowsEntry, ShowsKept, ShowsNext, ShowsAll};

use crate::asking::Excerpt;
use crate::endings::ending_of;
use crate::lines::append_shown;
use crate::printing::write_lines;
use crate::scope::is_asked;
use hippo_entry::decode;
use hippo_io::Sink;
use hippo_keeper::{CountedKeeper, Steps};
use hippo_model::{Entry, StoredEntry};
use hippo_program_args::{Ending, say_damaged};
use hippo_typing_catalog::Catalog;
use hippo_values::{Memory, Moment, Txt};
use std::alloc::Global;
use std::sync::ledger::Ledger;

/// How many entries are read at a time.
pub(crate) const PIECE: u64 = 1000;

// What is shown, and the names that are used for it.
#[derive(Clone, Copy)]
pub(crate) struct Guide<'a> {
    pub alloc: Global,
    pub catalog: &'a Catalog,
    pub excerpt: &'a Excerpt,
}

// How far the output has come: the number of the last entry that was read, and the moment of the
// last one that was shown.
#[derive(Clone, Copy)]
struct Progress {
    number: u64,
    clock: Option<Moment>,
}

// Writes the lines of an entry.
fn write_entry<K: Sink>(
    guide: &Guide<'_>,
    entry: &Entry,
    clock: &Option<Moment>,
    sink: &mut K,
) -> Option<Ending>
    ensures writes { Writes (shown_as guide.now.catalog.now.names guide.now.excerpt.now.form
        clock.now entry.now) result
        (K.written sink.old) (K.written sink.new) (K.faults sink.old) (K.faults sink.new) }
{
    let mut lines = Txt::new(guide.alloc);
    let form = guide.excerpt.form;
    match append_shown(guide.alloc, guide.catalog, form, clock, entry, &mut lines) {
        Ok(()) => write_lines(sink, lines.as_str()),
        Err(Memory) => Some(Ending::NoMemory),
    }
}

// Shows an entry, if it is asked for.
fn show_entry<K: Sink>(
    guide: &Guide<'_>,
    entry: &Entry,
    clock: &mut Option<Moment>,
    sink: &mut K,
) -> Option<Ending>
    ensures shows { ShowsEntry guide.now.catalog.now.names guide.now.excerpt.now entry.now result
        clock.old clock.new
        (K.written sink.old) (K.written sink.new) (K.faults sink.old) (K.faults sink.new) }
{
    match is_asked(guide.alloc, guide.catalog, guide.excerpt, entry) {
        Ok(true) => {
            let ending = write_entry(guide, entry, clock, sink);
            *clock = Some(entry.moment);
            ending
        }
        Ok(false) => None,
        Err(Memory) => Some(Ending::NoMemory),
    }
}

// Shows the entry that has this stored form, if there is one.
fn show_kept<K: Sink>(
    guide: &Guide<'_>,
    kept: &StoredEntry,
    clock: &mut Option<Moment>,
    sink: &mut K,
) -> Option<Ending>
    ensures shows { ShowsKept guide.now.catalog.now.names guide.now.excerpt.now (kept.now ∷ [])
        result clock.old clock.new
        (K.written sink.old) (K.written sink.new) (K.faults sink.old) (K.faults sink.new) }
{
    match decode(guide.alloc, kept) {
        Ok(Some(entry)) => {
            let ending = show_entry(guide, &entry, clock, sink);
            drop(entry);
            ending
        }
        Ok(None) => Some(say_damaged(sink, kept.seq)),
        Err(Memory) => Some(Ending::NoMemory),
    }
}

// Shows the entries of a piece.
fn show_piece<K: Sink>(
    guide: &Guide<'_>,
    piece: &[StoredEntry],
    progress: &mut Progress,
    sink: &mut K,
) -> Option<Ending>
    ensures shows { ShowsKept guide.now.catalog.now.names guide.now.excerpt.now piece.now result
        progress.old.clock progress.new.clock
        (K.written sink.old) (K.written sink.new) (K.faults sink.old) (K.faults sink.new) }
    ensures last { result ≡ None → progress.new.number ≡ last_number progress.old.number piece.now }
{
    for kept in piece {
        match show_kept(guide, kept, &mut progress.clock, sink) {
            None => progress.number = kept.seq,
            Some(ending) => return Some(ending),
        }
    }
    None
}

// Reads the next piece and shows its entries. If there is no next piece, all are shown.
fn show_next<K: Sink, P: CountedKeeper<L>, L: Ledger>(
    guide: &Guide<'_>,
    progress: &mut Progress,
    sink: &mut K,
    keeper: &mut P,
    steps: &mut Steps<L>,
) -> Option<Ending>
    requires ready { IsReady true (P.state keeper.old) }
    ensures shows { ShowsNext guide.now.catalog.now.names guide.now.excerpt.now result
        (P.state keeper.old) (P.state keeper.new) progress.old.number progress.new.number
        progress.old.clock progress.new.clock (K.written sink.old) (K.written sink.new)
        (K.faults sink.old) (K.faults sink.new) steps.old steps.new }
{
    match keeper.read_all(guide.alloc, progress.number, PIECE, steps) {
        Ok(piece) => {
            if piece.is_empty() {
                return Some(Ending::Served);
            }
            let ending = show_piece(guide, piece.as_slice(), progress, sink);
            drop(piece);
            ending
        }
        Err(fault) => Some(ending_of(fault)),
    }
}

/// Shows what is asked for of the entries that a started keeper stores.
pub(crate) fn show_all<K: Sink, P: CountedKeeper<L>, L: Ledger>(
    guide: &Guide<'_>,
    sink: &mut K,
    keeper: &mut P,
    steps: &mut Steps<L>,
) -> Ending
    requires readable { IsReadable (P.state keeper.old) }
    ensures shows { ShowsAll guide.now.catalog.now.names guide.now.excerpt.now result
        (P.state keeper.old) (P.state keeper.new) (K.written sink.old) (K.written sink.new)
        (K.faults sink.old) (K.faults sink.new) steps.old steps.new }
{
    let mut progress = Progress {
        number: 0,
        clock: None,
    };
    loop {
        match show_next(guide, &mut progress, sink, keeper, steps) {
            None => {}
            Some(ending) => return ending,
        }
    }
}
