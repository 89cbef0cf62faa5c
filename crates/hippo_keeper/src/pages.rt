//! All entries that a keeper in memory holds, in pages.
ghost use Rattle.std.specs.Prelude.{◌≡◌, [], ◌∷◌, ◌++◌, filter, nat_lt, IfOk, OnOk, OnErr, ⊤};
ghost use Rattle.hippo_keeper.specs.Keeping.{RisesAbove};
ghost use Rattle.hippo_keeper.specs.Selecting.{is_selected, IsHandedOver};
ghost use Rattle.hippo_keeper.specs.Paging.{paged, AreFilled, with_picked};

use crate::page::Page;
use crate::selection::ReadQuery;
use hippo_model::{StoredEntry, StoredList};
use hippo_values::{Duplicate, Memory, Sequence};
use std::alloc::Global;
use std::marker::Model;

/// A sequence of entries.
#[derive(Drop)]
pub(crate) struct Pages {
    // Each page has exactly the memory that its entries take.
    full: Sequence<Page>,
    // The last entries. The memory of this page is reused for one page after another.
    last: Page,
}

impl Model for Pages {
    ghost use Rattle.std.specs.Prelude.{◌++◌};
    ghost use Rattle.hippo_keeper.specs.Keeping.{Store};

    ghost Value = { Store };

    ghost use Rattle.hippo_keeper.specs.Paging.{paged, AreFilled};

    ghost view = { λ pages. paged pages.full ++ pages.last };

    ghost invariant = { λ pages. AreFilled pages.full };
}

// If the last page is full, adds a copy of exactly its length to the full pages and empties it.
fn make_room(alloc: Global, full: &mut Sequence<Page>, last: &mut Page) -> Result<(), Memory>
    requires { AreFilled full.old }
    ensures filled { AreFilled full.new }
    ensures kept { paged full.new ++ last.new ≡ paged full.old ++ last.old }
{
    if last.is_full() {
        full.push(last.copy(alloc)?)?;
        last.clear();
    }
    Ok(())
}

// Drops the leading pages that have no entry above this number.
fn pages_above(pages: &[Page], after: u64) -> &[Page]
    requires filled { AreFilled pages.now }
    requires order { RisesAbove 0 (paged pages.now) }
    ensures { filter (λ entry. nat_lt after entry.seq) (paged result.now)
        ≡ filter (λ entry. nat_lt after entry.seq) (paged pages.now) }
{
    let place = pages.partition_point(|page| page.last_number() <= after);
    &pages[place..]
}

// Adds copies of the entries of these pages that a read asks for, up to the read's limit.
fn pick(
    pages: &[Page],
    alloc: Global,
    read_query: &ReadQuery<'_>,
    list: &mut StoredList,
) -> Result<(), Memory>
    ensures { OnOk result (list.new ≡ with_picked read_query.now list.old (paged pages.now)) }
{
    for page in pages {
        if list.len() as u64 >= read_query.max {
            break;
        }
        page.pick(alloc, read_query, list)?;
    }
    Ok(())
}

impl Pages {
    /// No entries. Allocates nothing.
    pub(crate) fn new(alloc: Global) -> Pages
        ensures { result ≡ [] }
    {
        Pages {
            full: Sequence::new(alloc),
            last: Page::new(alloc),
        }
    }

    /// Copies of these entries.
    pub(crate) fn of(alloc: Global, entries: &[StoredEntry]) -> Result<Pages, Memory>
        ensures { IfOk result (λ pages. pages ≡ entries.now) }
    {
        let mut pages = Pages::new(alloc);
        for entry in entries {
            pages.push(alloc, entry)?;
        }
        Ok(pages)
    }

    /// Adds a copy of an entry at the end. On an error the entries are unchanged.
    pub(crate) fn push(&mut self, alloc: Global, entry: &StoredEntry) -> Result<(), Memory>
        ensures ok { OnOk result (self.new ≡ self.old ++ entry.now ∷ []) }
        ensures err { OnErr result (self.new ≡ self.old) }
    {
        make_room(alloc, &mut self.full, &mut self.last)?;
        self.last.push(alloc, entry)
    }

    /// Copies of the entries that a read asks for.
    pub(crate) fn select(
        &self,
        alloc: Global,
        read_query: &ReadQuery<'_>,
    ) -> Result<StoredList, Memory>
        requires { RisesAbove 0 self.now }
        ensures { IfOk result (IsHandedOver ⊤ (is_selected read_query.now.selection)
            read_query.now.after read_query.now.max self.now) }
    {
        let mut list = StoredList::new(alloc);
        let pages = pages_above(self.full.as_slice(), read_query.after);
        pick(pages, alloc, read_query, &mut list)?;
        self.last.pick(alloc, read_query, &mut list)?;
        Ok(list)
    }
}
