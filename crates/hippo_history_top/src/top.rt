//! The top function: it shows what the words ask for of what a keeper stores, and returns the exit
//! status.
ghost use Rattle.std.specs.Prelude.{◌≡◌, ◌≢◌, ◌⊎◌, ◌+◌, ◌*◌, ◌≤◌, take, None, Some, true, false, Any};
ghost use Rattle.hippo_io.specs.Faults.{HasRisen};
ghost use Rattle.hippo_io.specs.Told.{Appends, AppendsFront};
ghost use Rattle.hippo_keeper.specs.Keeping.{IsReady, IsAfterCall};
ghost use Rattle.hippo_keeper.specs.Selecting.{stored_versions};
ghost use Rattle.hippo_keeper.specs.Telling.{TellsOnceStarted};
ghost use Rattle.hippo_policy.specs.Books.{BookRepresents};
ghost use Rattle.hippo_program_args.specs.Starting.{IsIdle};
ghost use Rattle.hippo_replay.specs.declared.state.State.{State as LoadedState};
ghost use Rattle.hippo_history_top.specs.declared.asking.View.TheVariants.{Rules as RulesView, Users as UsersView, Patient as PatientView};
ghost use Rattle.hippo_history_top.specs.Damage.{ShowsToDamage, BeginsToDamage};
ghost use Rattle.hippo_history_top.specs.Dating.{count_to, dated_line};
ghost use Rattle.hippo_history_top.specs.Granting.{grants_shown};
ghost use Rattle.hippo_history_top.specs.Inquiring.{inquiry_shown, KnowsPast};
ghost use Rattle.hippo_history_top.specs.Ruling.{rules_by_names};
ghost use Rattle.hippo_history_top.specs.Progress.{IsReadable, WritesPage, ShowsLoaded};
ghost use Rattle.hippo_history_top.specs.declared.asking.Call.{Call as AskedCall};
ghost use Rattle.hippo_history_top.specs.CommandLine.{asked_of};
ghost use Rattle.hippo_program_args.specs.Endings.{ending_as_call};
ghost use Rattle.hippo_history_top.specs.Endings.{showing_statuses, ends_showing};
ghost use Rattle.hippo_history_top.specs.Outcomes.{ShowsView, BeginsView, Ends};
ghost use Rattle.hippo_history_top.specs.Saying.{showing_usage, missing_line, Writes, CountsWrites};

use crate::asking::{Inquiry, Page, Roster, View};
use crate::carrying::show_carried;
use crate::damage::show_damaged;
use crate::digest::show_digest;
use crate::disclosing::{Sought, append_inquired};
use crate::endings::{ending_of, served_or};
use crate::gathering::gather_all;
use crate::moments::Moments;
use crate::printing::{miss, refuse, write_lines};
use crate::reading::asked_of;
use crate::rules::append_rules;
use crate::showing::{Guide, show_all};
use crate::stores::Stores;
use crate::users::{Grants, append_grants};
use hippo_audit_job::Past;
use hippo_history_formats::{Access, Grant};
use hippo_history_uses::Disclosures;
use hippo_io::Sink;
use hippo_keeper::{CountedKeeper, Steps};
use hippo_program_args::Ending;
use hippo_replay::{LoadFault, State, load};
use hippo_report::Format;
use hippo_values::{Memory, Moment, Txt};
use std::alloc::Global;
use std::sync::ledger::Ledger;

// Writes the rules that are in force.
fn write_rules<K: Sink>(
    alloc: Global,
    page: &Page,
    state: &State,
    moments: &[Moment],
    sink: &mut K,
) -> Option<Ending>
    ensures writes { WritesPage (BookRepresents state.now.book)
        (λ history. rules_by_names state.now.catalog.names
        (dated_line page.now.format moments.now) page.now.scope
        (take (count_to page.now.last moments.now) history)) result
        (K.written sink.old) (K.written sink.new) (K.faults sink.old) (K.faults sink.new) }
{
    let mut lines = Txt::new(alloc);
    match append_rules(
        alloc,
        &state.catalog,
        &state.book,
        moments,
        page,
        &mut lines,
    ) {
        Ok(()) => write_lines(sink, lines.as_str()),
        Err(Memory) => Some(Ending::NoMemory),
    }
}

// Shows the rules that are in force, and drops the state.
fn show_rules<K: Sink, P: CountedKeeper<L>, L: Ledger>(
    alloc: Global,
    page: &Page,
    state: State,
    sink: &mut K,
    keeper: &mut P,
    steps: &mut Steps<L>,
) -> Ending
    requires readable { IsReadable (P.state keeper.old) }
    ensures shows { ShowsLoaded state (RulesView page.now) result
        (P.state keeper.old) (P.state keeper.new) (K.written sink.old) (K.written sink.new)
        (K.faults sink.old) (K.faults sink.new) steps.old steps.new }
{
    let mut moments = Moments::new(alloc);
    match gather_all(alloc, &page.last, &mut moments, keeper, steps) {
        Ok(()) => {
            let cut = write_rules(alloc, page, &state, moments.as_slice(), sink);
            state.close();
            served_or(cut)
        }
        Err(fault) => {
            state.close();
            ending_of(fault)
        }
    }
}

// Writes the authorizations that are in force.
fn write_grants<K: Sink>(
    alloc: Global,
    format: Format,
    grants: &[Grant],
    sink: &mut K,
) -> Option<Ending>
    ensures writes { Writes (grants_shown format grants.now) result
        (K.written sink.old) (K.written sink.new) (K.faults sink.old) (K.faults sink.new) }
{
    let mut lines = Txt::new(alloc);
    match append_grants(alloc, format, grants, &mut lines) {
        Ok(()) => write_lines(sink, lines.as_str()),
        Err(Memory) => Some(Ending::NoMemory),
    }
}

// Shows the authorizations that are in force.
fn show_users<K: Sink, P: CountedKeeper<L>, L: Ledger>(
    alloc: Global,
    roster: &Roster,
    sink: &mut K,
    keeper: &mut P,
    steps: &mut Steps<L>,
) -> Ending
    requires readable { IsReadable (P.state keeper.old) }
    ensures shows { (state : LoadedState) → ShowsLoaded state (UsersView roster.now) result
        (P.state keeper.old) (P.state keeper.new) (K.written sink.old) (K.written sink.new)
        (K.faults sink.old) (K.faults sink.new) steps.old steps.new }
{
    let mut grants = Grants::new(alloc);
    match gather_all(alloc, &roster.last, &mut grants, keeper, steps) {
        Ok(()) => served_or(write_grants(alloc, roster.format, grants.as_slice(), sink)),
        Err(fault) => ending_of(fault),
    }
}

// Writes what was disclosed of a patient.
fn write_accesses<K: Sink>(
    alloc: Global,
    inquiry: &Inquiry,
    accesses: &[Access],
    sink: &mut K,
) -> Option<Ending>
    ensures writes { Writes (inquiry_shown inquiry.now accesses.now) result
        (K.written sink.old) (K.written sink.new) (K.faults sink.old) (K.faults sink.new) }
{
    let mut lines = Txt::new(alloc);
    match append_inquired(alloc, inquiry, accesses, &mut lines) {
        Ok(()) => write_lines(sink, lines.as_str()),
        Err(Memory) => Some(Ending::NoMemory),
    }
}

// Shows what was disclosed of a patient. What is known of the history is in `sought`.
fn show_sought<K: Sink, P: CountedKeeper<L>, L: Ledger>(
    alloc: Global,
    sought: &Sought<'_>,
    sink: &mut K,
    keeper: &mut P,
    steps: &mut Steps<L>,
) -> Ending
    requires readable { IsReadable (P.state keeper.old) }
    ensures shows { (state : LoadedState) → KnowsPast sought.now state
        → ShowsLoaded state (PatientView sought.now.inquiry.now) result
        (P.state keeper.old) (P.state keeper.new) (K.written sink.old) (K.written sink.new)
        (K.faults sink.old) (K.faults sink.new) steps.old steps.new }
{
    let inquiry = sought.inquiry;
    let mut found = Disclosures::new(alloc, inquiry.patient);
    match gather_all(alloc, sought, &mut found, keeper, steps) {
        Ok(()) => served_or(write_accesses(alloc, inquiry, found.accesses(), sink)),
        Err(fault) => ending_of(fault),
    }
}

// Shows what was disclosed of a patient, in the history that a state stands for.
fn show_patient<K: Sink, P: CountedKeeper<L>, L: Ledger>(
    alloc: Global,
    inquiry: &Inquiry,
    state: &State,
    sink: &mut K,
    keeper: &mut P,
    steps: &mut Steps<L>,
) -> Ending
    requires readable { IsReadable (P.state keeper.old) }
    ensures shows { ShowsLoaded state.now (PatientView inquiry.now) result
        (P.state keeper.old) (P.state keeper.new) (K.written sink.old) (K.written sink.new)
        (K.faults sink.old) (K.faults sink.new) steps.old steps.new }
{
    let sought = Sought {
        past: Past {
            catalog: &state.catalog,
            book: &state.book,
            count: state.count,
        },
        inquiry,
    };
    show_sought(alloc, &sought, sink, keeper, steps)
}

/// Shows what is asked for of the history that a state stands for, and drops the state.
pub(crate) fn show_view<K: Sink, P: CountedKeeper<L>, L: Ledger>(
    alloc: Global,
    view: &View,
    state: State,
    sink: &mut K,
    keeper: &mut P,
    steps: &mut Steps<L>,
) -> Ending
    requires readable { IsReadable (P.state keeper.old) }
    ensures shows { ShowsLoaded state view.now result
        (P.state keeper.old) (P.state keeper.new) (K.written sink.old) (K.written sink.new)
        (K.faults sink.old) (K.faults sink.new) steps.old steps.new }
{
    match view {
        View::Entries(excerpt) => {
            let guide = Guide {
                alloc,
                catalog: &state.catalog,
                excerpt,
            };
            let ending = show_all(&guide, sink, keeper, steps);
            state.close();
            ending
        }
        View::Rules(page) => show_rules(alloc, page, state, sink, keeper, steps),
        View::Users(roster) => {
            state.close();
            show_users(alloc, roster, sink, keeper, steps)
        }
        View::Digest(last) => {
            state.close();
            show_digest(alloc, *last, sink, keeper, steps)
        }
        View::Patient(inquiry) => {
            let ending = show_patient(alloc, inquiry, &state, sink, keeper, steps);
            state.close();
            ending
        }
        View::Carry => show_carried(alloc, state, sink, keeper, steps),
    }
}

// Loads the stored history, and shows what is asked for: of a damaged store, up to the damage.
fn show<K: Sink, P: CountedKeeper<L>, L: Ledger>(
    alloc: Global,
    store: &str,
    view: &View,
    sink: &mut K,
    keeper: &mut P,
    steps: &mut Steps<L>,
) -> Ending
    requires ready { IsReady false (P.state keeper.old) }
    ensures status { ends_showing (Some result) ≡ true }
    ensures call { IsAfterCall (P.state keeper.new).started (P.state keeper.new).closed
        (ending_as_call result)
        (P.state keeper.old) (P.state keeper.new) }
    ensures ends { (P.state keeper.new).tells → Ends result (sink.new ≡ sink.old) view.now store.now
        (P.state keeper.old) (P.state keeper.new) (K.written sink.old) (K.written sink.new) }
    ensures idle { (P.state keeper.new).tells
        → IsIdle store.now (P.state keeper.old) (P.state keeper.new) }
    ensures tells { TellsOnceStarted store.now (P.state keeper.old) (P.state keeper.new) }
    ensures writes { CountsWrites (Some result) (K.faults sink.old) (K.faults sink.new) }
    ensures steps { (P.state keeper.new).tells →
        steps.new ≤ steps.old + 2 * stored_versions (P.state keeper.new).kept }
{
    match load(keeper, alloc, store, steps) {
        Ok(state) => show_view(alloc, view, state, sink, keeper, steps),
        Err(LoadFault::Damaged(place)) => show_damaged(alloc, view, place, sink, keeper, steps),
        Err(LoadFault::Keeper) => Ending::KeeperFault,
        Err(LoadFault::Memory) => Ending::NoMemory,
    }
}

/// Runs the program and returns its exit status. `words` are the words after the program's name,
/// `stores` tells whether there is a store with a name, and `sink` is the program's output.
/// `keeper` stores a history, in the store that the words name; it must be neither started nor
/// spent nor closed.
///
/// - 0: exactly what is asked for of the stored history is written (`shown`).
/// - 2: the words ask for nothing (see [`asked_of`]). The usage line is written. If it cannot be
///   written, the status is 5 or 7 instead.
/// - 3: the keeper failed, and what is written is a prefix of what is asked for. Or there is no
///   store with this name: a line says so, and the keeper is not started.
/// - 5: the sink failed. What was written is a prefix of what was to be written.
/// - 6: the stored entries are those of no valid history. What is asked for of the entries before
///   the damage is written, and then the line `damaged PLACE`. PLACE, counted from 1, is that of the
///   first entry for which the entries up to and including it are those of no valid history.
/// - 7: memory ran out. What is written is a prefix of what is asked for, or of what status 6 says.
///
/// Once the keeper has started, the stored entries stay as they were found. They are read in
/// pieces. The first read loads the history, or finds its damage. A second read shows the entries or
/// computes their digest. For the rules in force it finds the moments of their entries, for the
/// authorizations in force the entries that gave them, and for a patient what was disclosed; these
/// are put together in memory and then written. Of a damaged store the second read copies the
/// entries before the damage into memory, and they are shown from there.
pub fn history_top<D: Stores, K: Sink, P: CountedKeeper<L>, L: Ledger>(
    alloc: Global,
    words: &[Txt],
    stores: &D,
    sink: &mut K,
    keeper: &mut P,
    steps: &mut Steps<L>,
) -> u8
    requires ready { IsReady false (P.state keeper.old) }
    ensures status { Any (λ status. result ≡ status) showing_statuses }

    // Words that ask for nothing are refused, and nothing is read.
    ensures refused { asked_of words.now ≡ None → ((result ≡ 2) ⊎ (result ≡ 5) ⊎ (result ≡ 7))
        × (keeper.new ≡ keeper.old) × (steps.new ≡ steps.old) }
    ensures accepted { (call : AskedCall) → asked_of words.now ≡ Some call → result ≢ 2 }
    ensures usage { result ≡ 2 → Appends (K.written sink.old) (K.written sink.new) showing_usage }
    ensures usage_cut { asked_of words.now ≡ None → result ≡ 5 →
        AppendsFront (K.written sink.old) (K.written sink.new) showing_usage }

    // On a clean disk the store's contents are known, if all that a start may find is nothing or a
    // history. In memory they are always known.
    ensures tells { (call : AskedCall) → asked_of words.now ≡ Some call →
        TellsOnceStarted call.store (P.state keeper.old) (P.state keeper.new) }

    // If there is no store with this name, a line says so, and no store is made.
    ensures looked { (call : AskedCall) → asked_of words.now ≡ Some call → result ≢ 7
        → D.Answers stores.now call.store true
        ⊎ (D.Answers stores.now call.store false × ((result ≡ 3) ⊎ (result ≡ 5))
        × (keeper.new ≡ keeper.old) × (steps.new ≡ steps.old)) }

    // What is shown, if the store's contents are known, of a history that a start may find.
    ensures shown { (call : AskedCall) → asked_of words.now ≡ Some call → result ≡ 0
        → (P.state keeper.new).tells →
        ShowsView call.view call.store
        (P.state keeper.old) (P.state keeper.new) (K.written sink.old) (K.written sink.new) }
    ensures keeper_cut { (call : AskedCall) → asked_of words.now ≡ Some call → result ≡ 3
        → (D.Answers stores.now call.store false × (keeper.new ≡ keeper.old)
        × Appends (K.written sink.old) (K.written sink.new) missing_line)
        ⊎ ((P.state keeper.new).tells →
        ((sink.new ≡ sink.old) × IsIdle call.store (P.state keeper.old) (P.state keeper.new))
        ⊎ BeginsView call.view call.store
        (P.state keeper.old) (P.state keeper.new) (K.written sink.old) (K.written sink.new)) }
    ensures write_cut { (call : AskedCall) → asked_of words.now ≡ Some call → result ≡ 5
        → (D.Answers stores.now call.store false × (keeper.new ≡ keeper.old)
        × AppendsFront (K.written sink.old) (K.written sink.new) missing_line)
        ⊎ ((P.state keeper.new).tells →
        BeginsToDamage call.view call.store
        (P.state keeper.old) (P.state keeper.new) (K.written sink.old) (K.written sink.new)
        ⊎ BeginsView call.view call.store
        (P.state keeper.old) (P.state keeper.new) (K.written sink.old) (K.written sink.new)) }
    ensures damaged { (call : AskedCall) → asked_of words.now ≡ Some call → result ≡ 6
        → (P.state keeper.new).tells →
        ShowsToDamage call.view call.store
        (P.state keeper.old) (P.state keeper.new) (K.written sink.old) (K.written sink.new) }
    ensures memory_cut { (call : AskedCall) → asked_of words.now ≡ Some call → result ≡ 7
        → (P.state keeper.new).tells →
        ((sink.new ≡ sink.old) × IsIdle call.store (P.state keeper.old) (P.state keeper.new))
        ⊎ (BeginsToDamage call.view call.store
        (P.state keeper.old) (P.state keeper.new) (K.written sink.old) (K.written sink.new)
        ⊎ BeginsView call.view call.store
        (P.state keeper.old) (P.state keeper.new) (K.written sink.old) (K.written sink.new)) }

    // What is stored stays as it was found, and each version in it is read at most twice.
    ensures same { (call : AskedCall) → asked_of words.now ≡ Some call
        → (P.state keeper.new).tells →
        IsIdle call.store (P.state keeper.old) (P.state keeper.new) }
    ensures steps { (P.state keeper.new).tells →
        steps.new ≤ steps.old + 2 * stored_versions (P.state keeper.new).kept }

    // A status for a fault is returned only when the count of the object that failed rose.
    ensures keeper_fault { result ≡ 3 → ((call : AskedCall) → asked_of words.now ≡ Some call
        → D.Answers stores.now call.store false)
        ⊎ (HasRisen (P.state keeper.old).faults (P.state keeper.new).faults
        × ((P.state keeper.new).spent ≡ true)) }
    ensures write_fault { result ≡ 5 → HasRisen (K.faults sink.old) (K.faults sink.new) }
    ensures unfailed_keeper { result ≢ 3
        → ((P.state keeper.new).faults ≡ (P.state keeper.old).faults)
        × ((P.state keeper.new).spent ≡ false) }
    ensures unfailed_write { result ≢ 5 → K.faults sink.new ≡ K.faults sink.old }
{
    let Ok(asked) = asked_of(alloc, words) else {
        return Ending::NoMemory.status();
    };
    let Some(call) = asked else {
        return refuse(sink).status();
    };
    let store = call.store.as_str();
    if !stores.has(store) {
        return miss(sink).status();
    }
    show(alloc, store, &call.view, sink, keeper, steps).status()
}
