//! Gathers the accesses to a patient's rows from the entries of a history, one after another.
ghost use Rattle.std.specs.Prelude.{◌≡◌, option_copied};
ghost use Rattle.hippo_history_uses.specs.Disclosing.{text_asked, IsAskedBy};

use crate::asked::AskedThen;
use crate::ordering::order_for;
use crate::searching::add_accesses;
use hippo_audit_job::Past;
use hippo_history_formats::Access;
use hippo_model::{Act, Entry, Query};
use hippo_tables::Tables;
use hippo_typing::read_meaning;
use hippo_values::{Memory, Sequence, Txt};
use std::alloc::Global;

/// The accesses to a patient's rows by the logged queries so far, and the tables as they are after
/// the entries so far.
#[derive(Drop)]
pub struct Disclosures {
    patient: i64,
    tables: Tables,
    accesses: Sequence<Access>,
}

// The text of a logged query; `None` for another act.
fn text_asked(act: &Act) -> Option<&Txt>
    ensures { option_copied result ≡ text_asked act.now }
{
    match act {
        Act::Asked { text, .. } => Some(text),
        _ => None,
    }
}

// A logged query with this meaning, as its own time knew it; `None` for an entry of another kind.
fn asked_then<'a>(
    past: &Past<'a>,
    entry: &'a Entry,
    query: &'a Query,
    patient: &i64,
) -> Option<AskedThen<'a>>
    ensures { IsAskedBy past.now entry.now query.now patient.now result }
{
    match &entry.act {
        Act::Asked {
            user,
            purpose,
            recipient,
            ..
        } => Some(AskedThen {
            book: past.book,
            number: entry.seq.saturating_sub(1),
            entry: entry.seq,
            moment: entry.moment,
            user,
            purpose,
            recipient,
            query,
            patient: *patient,
        }),
        _ => None,
    }
}

impl Disclosures {
    ghost use Rattle.std.specs.Prelude.{◌≡◌, [], Bool, true, OnOk};
    ghost use Rattle.hippo_model.specs.Terms.{History};
    ghost use Rattle.hippo_model.specs.declared.entry.Entry.{Entry as HistoryEntry};
    ghost use Rattle.hippo_history_uses.specs.Disclosing.{AreDisclosed, Discloses, DisclosesMeant, TakesInEntry};

    /// Nothing was read yet. Allocates nothing.
    pub fn new(alloc: Global, patient: i64) -> Disclosures
        ensures { (test : HistoryEntry → Bool) (history : History)
            → AreDisclosed patient test history [] result }
    {
        Disclosures {
            patient,
            tables: Tables::new(alloc),
            accesses: Sequence::new(alloc),
        }
    }

    /// The accesses, in the order of entries, tables and keys.
    pub fn accesses(&self) -> &[Access]
        ensures { result.now ≡ self.now.accesses }
    {
        self.accesses.as_slice()
    }

    // Adds the accesses of a logged query with this meaning.
    fn add_query(
        &mut self,
        alloc: Global,
        past: &Past<'_>,
        entry: &Entry,
        query: &Query,
    ) -> Result<(), Memory>
        ensures { OnOk result (DisclosesMeant past.now entry.now query.now self.old self.new) }
    {
        let Some(asked) = asked_then(past, entry, query, &self.patient) else {
            return Ok(());
        };
        order_for(&mut self.tables, alloc, query, &self.patient)?;
        add_accesses(alloc, &asked, &self.tables, &mut self.accesses)?;
        Ok(())
    }

    // Adds the accesses of an entry.
    fn add_entry(&mut self, alloc: Global, past: &Past<'_>, entry: &Entry) -> Result<(), Memory>
        ensures { OnOk result (Discloses past.now entry.now true self.old self.new) }
    {
        let Some(text) = text_asked(&entry.act) else {
            return Ok(());
        };
        match read_meaning(alloc, past.catalog, text.as_str()) {
            Ok(Some(query)) => {
                let added = self.add_query(alloc, past, entry, &query);
                drop(query);
                added
            }
            Ok(None) => Ok(()),
            Err(Memory) => Err(Memory),
        }
    }

    // Adds the accesses of an entry, if it counts.
    fn add_if(
        &mut self,
        alloc: Global,
        past: &Past<'_>,
        entry: &Entry,
        counts: bool,
    ) -> Result<(), Memory>
        ensures { OnOk result (Discloses past.now entry.now counts self.old self.new) }
    {
        if !counts {
            return Ok(());
        }
        self.add_entry(alloc, past, entry)?;
        Ok(())
    }

    /// Takes in the next entry: adds its accesses, if it is `within` the stretch that is asked for,
    /// and brings the tables forward. `past` is what is known of the whole history. Fails when out
    /// of memory.
    pub fn take_in(
        &mut self,
        alloc: Global,
        past: &Past<'_>,
        entry: &Entry,
        within: bool,
    ) -> Result<(), Memory>
        ensures { OnOk result (TakesInEntry past.now entry.now within self.old self.new) }
    {
        self.add_if(alloc, past, entry, within)?;
        self.tables.apply(alloc, entry)?;
        Ok(())
    }
}
