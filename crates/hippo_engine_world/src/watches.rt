//! The changes of all watches by the act of the next entry.
ghost use Rattle.std.specs.Prelude.{◌≡◌, map, option_map};
ghost use Rattle.hippo_engine_world.specs.Auditing.{watched, WatchChanges, OneChanges, EachChanges};

use hippo_engine_sessions::Numbered;
use hippo_model::Act;
use hippo_tables::Tables;
use hippo_watch::Watch;

/// Whether the act of the next entry is added, or removed again.
#[derive(Clone, Copy)]
pub(crate) enum Way {
    In,
    Back,
}

fn change_watch(watch: &mut Watch, tables: &Tables, act: &Act, way: Way)
    ensures audit { watched watch.new ≡ watched watch.old }
    ensures changes { WatchChanges way tables.now act.now watch.old watch.new }
{
    match way {
        Way::In => watch.take_in(tables, act),
        Way::Back => watch.take_back(tables, act),
    }
}

fn change_one(held: &mut Option<Watch>, tables: &Tables, act: &Act, way: Way)
    ensures audit { option_map watched held.new ≡ option_map watched held.old }
    ensures changes { OneChanges way tables.now act.now held.old held.new }
{
    if let Some(watch) = held {
        change_watch(watch, tables, act, way);
    }
}

fn change_each(watches: &mut [Option<Watch>], tables: &Tables, act: &Act, way: Way)
    ensures audits { map (option_map watched) watches.new ≡ map (option_map watched) watches.old }
    ensures changes { EachChanges way tables.now act.now watches.old watches.new }
{
    for place in 0..watches.len() {
        change_one(&mut watches[place], tables, act, way);
    }
}

/// Changes the counts of each watch by the act of the next entry. `tables` are those before that
/// entry. Takes no memory.
pub(crate) fn take_in(watches: &mut Numbered<Watch>, tables: &Tables, act: &Act)
    ensures audits { map (option_map watched) watches.new ≡ map (option_map watched) watches.old }
    ensures follow { EachChanges Way.In tables.now act.now watches.old watches.new }
{
    change_each(&mut watches.places, tables, act, Way::In);
}

/// Reverts the last `take_in`, if its act is not added after all. `tables` are the same. Takes no
/// memory.
pub(crate) fn take_back(watches: &mut Numbered<Watch>, tables: &Tables, act: &Act)
    ensures audits { map (option_map watched) watches.new ≡ map (option_map watched) watches.old }
    ensures go_back { EachChanges Way.Back tables.now act.now watches.old watches.new }
{
    change_each(&mut watches.places, tables, act, Way::Back);
}
