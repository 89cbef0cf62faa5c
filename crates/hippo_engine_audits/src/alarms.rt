//! The alarms of all watches for a question that is asked now.
ghost use Rattle.std.specs.Prelude.{◌≡◌, ◌+◌, ◌<◌, ◌^◌, ◌++◌, ℕ, [], is_some, IfOk, OnOk};
ghost use Rattle.std.specs.List.{list_any};
ghost use Rattle.std.specs.Option.{option_map_or};
ghost use Rattle.hippo_model.specs.Terms.{History};
ghost use Rattle.hippo_typing.specs.Meanings.{meaning};
ghost use Rattle.hippo_watch.specs.Alarms.{AreOfSome};
ghost use Rattle.hippo_report_flags.specs.AlarmLines.{alarm_text};
ghost use Rattle.hippo_replay.specs.Standing.{Represents, IsSound};
ghost use Rattle.hippo_engine_world.specs.Holding.{world_of, WatchesFit};
ghost use Rattle.hippo_engine_checks.specs.Asking.{question_of};
ghost use Rattle.hippo_engine_checks.specs.Deeds.{Question as AskedQuestion};
ghost use Rattle.hippo_engine_audits.specs.Watching.{AddsAlarm, AddsAlarms, alarms_now};

use hippo_audit_job::Past;
use hippo_engine_checks::Asking;
use hippo_engine_world::World;
use hippo_model::{Pair, Query, SharedTuple};
use hippo_replay::State;
use hippo_report_flags::alarm_line;
use hippo_typing::read_meaning;
use hippo_values::{Memory, Txt};
use hippo_watch::{AskedNow, Watch};
use std::alloc::Global;

// Appends the alarm of a watch for the tuple that its audit shares with a question, if there is
// one.
fn append_found(
    number: u64,
    question: u64,
    found: Option<SharedTuple>,
    out: &mut Txt,
) -> Result<(), Memory>
    ensures { OnOk result (out.new ≡ out.old
        ++ option_map_or (alarm_text number question) found []) }
{
    match found {
        Some(shared) => {
            let printed = alarm_line(number, question, &shared, out);
            drop(shared);
            printed
        }
        None => Ok(()),
    }
}

// Appends the alarm of the watch at a number, if there is a watch and it flags the question that is
// asked now.
fn append_alarm(
    alloc: Global,
    asked: &AskedNow<'_>,
    number: u64,
    held: &Option<Watch>,
    out: &mut Txt,
) -> Result<(), Memory>
    requires some { AreOfSome asked.now.tables.now }
    requires below { asked.now.past.count + 1 < 2 ^ 63 }
    ensures { OnOk result (AddsAlarm asked.now number held.now out.old out.new) }
{
    match held {
        Some(watch) => {
            let found = watch.alarm(alloc, asked)?;
            append_found(number, asked.past.count + 1, found, out)
        }
        None => Ok(()),
    }
}

// Appends the alarms of all watches for a question that is asked now, in the order of their
// numbers.
fn append_alarms(
    alloc: Global,
    asked: &AskedNow<'_>,
    watches: &[Option<Watch>],
    out: &mut Txt,
) -> Result<(), Memory>
    requires some { AreOfSome asked.now.tables.now }
    requires below { asked.now.past.count + 1 < 2 ^ 63 }
    ensures { OnOk result (AddsAlarms asked.now watches.now out.old out.new) }
{
    let mut number = 0_u64;
    for held in watches {
        number += 1;
        append_alarm(alloc, asked, number, held, out)?;
    }
    Ok(())
}

// Whether there is a watch.
fn are_watching(watches: &[Option<Watch>]) -> bool
    ensures { result ≡ list_any is_some watches.now }
{
    for held in watches {
        if held.is_some() {
            return true;
        }
    }
    false
}

// Appends the alarms of all watches for a question with this purpose and recipient. `None` is the
// meaning of a text that means no query.
fn print_alarms(
    alloc: Global,
    state: &State,
    world: &World,
    pair: &Pair,
    meant: Option<Query>,
    out: &mut Txt,
) -> Result<(), Memory>
    requires sound { IsSound state.now }
    requires below { state.now.count + 1 < 2 ^ 63 }
    ensures { OnOk result ((history : History) (question : AskedQuestion)
        → Represents state.now history
        → WatchesFit history world.now → question.pair ≡ pair.now
        → meaning history question.text ≡ meant
        → out.new ≡ out.old ++ alarms_now history (world_of world.now) question) }
{
    match meant {
        Some(query) => {
            let past = Past {
                catalog: &state.catalog,
                book: &state.book,
                count: state.count,
            };
            let asked = AskedNow {
                past,
                tables: &state.tables,
                moment: world.clock,
                pair,
                query: &query,
            };
            let printed = append_alarms(alloc, &asked, world.watches.as_slice(), out);
            drop(query);
            printed
        }
        None => Ok(()),
    }
}

// Appends the alarms of all watches for a question. Parses the question's text again only if there
// is a watch.
fn tell_alarms(
    alloc: Global,
    state: &State,
    world: &World,
    asking: &Asking<'_>,
    out: &mut Txt,
) -> Result<(), Memory>
    requires sound { IsSound state.now }
    requires below { state.now.count + 1 < 2 ^ 63 }
    ensures { OnOk result ((session : ℕ) (history : History) → Represents state.now history
        → WatchesFit history world.now
        → out.new ≡ out.old ++ alarms_now history (world_of world.now)
        (question_of session asking.now)) }
{
    if are_watching(world.watches.as_slice()) {
        let meant = read_meaning(alloc, &state.catalog, asking.text)?;
        print_alarms(alloc, state, world, &asking.asker.pair, meant, out)
    } else {
        Ok(())
    }
}

/// The alarms of all watches for a question that is asked now, in the order of their numbers. Fails
/// when out of memory.
pub fn alarms_of(
    alloc: Global,
    state: &State,
    world: &World,
    asking: &Asking<'_>,
) -> Result<Txt, Memory>
    requires sound { IsSound state.now }
    requires below { state.now.count + 1 < 2 ^ 63 }
    ensures { IfOk result (λ said. (session : ℕ) (history : History) → Represents state.now history
        → WatchesFit history world.now
        → said ≡ alarms_now history (world_of world.now) (question_of session asking.now)) }
{
    let mut said = Txt::new(alloc);
    tell_alarms(alloc, state, world, asking, &mut said)?;
    Ok(said)
}
