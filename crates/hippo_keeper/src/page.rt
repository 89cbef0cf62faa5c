//! A page of entries: their heads, their bodies one after another, and each table name once.
ghost use Rattle.std.specs.Prelude.{◌≡◌, ◌+◌, ◌-◌, ◌<◌, ◌≤◌, true, [], ◌∷◌, ◌++◌, length, take, drop, position, slice_get, bytes_eq, Some, IfOk, OnOk, OnErr};
ghost use Rattle.hippo_keeper.specs.Keeping.{last_number};
ghost use Rattle.hippo_keeper.specs.Paging.{page_entries, AreWithinPage, with_picked};

use crate::head::Head;
use crate::selection::ReadQuery;
use hippo_model::{StoredEntry, StoredList};
use hippo_values::{Duplicate, Memory, Sequence, Txt};
use std::alloc::Global;
use std::marker::Model;

// A page is full when it has this many entries, or this many bytes in its bodies.
const ENTRY_LIMIT: usize = 256;

const BODY_LIMIT: usize = 32 * 1024;

/// A sequence of entries.
#[derive(Drop)]
pub(crate) struct Page {
    tables: Sequence<Txt>,
    heads: Sequence<Head>,
    bodies: Vec<u8>,
}

impl Model for Page {
    ghost use Rattle.std.specs.Prelude.{length};
    ghost use Rattle.hippo_keeper.specs.Keeping.{Store};

    ghost Value = { Store };

    ghost use Rattle.hippo_keeper.specs.Paging.{page_entries, AreWithinPage};

    ghost view = { λ page. page_entries page.tables page.bodies.items 0 page.heads };

    ghost invariant = { λ page. AreWithinPage (length page.tables) (length page.bodies.items) 0
        page.heads };
}

// The index of a name in a page's list of names, if it is there.
fn place_of(tables: &[Txt], name: &str) -> Option<usize>
    ensures { result ≡ position (λ table. bytes_eq table name.now) tables.now }
{
    tables.iter().position(|table| table.as_str() == name)
}

// The index of a name in a page's list of names. Adds the name if it is new.
fn place_in(alloc: Global, tables: &mut Sequence<Txt>, name: &str) -> Result<usize, Memory>
    ensures kept { take (length tables.old) tables.new ≡ tables.old }
    ensures place { IfOk result (λ place. slice_get tables.new place ≡ Some name.now) }
{
    if let Some(place) = place_of(tables.as_slice(), name) {
        return Ok(place);
    }
    let place = tables.len();
    tables.push(Txt::from_str(alloc, name)?)?;
    Ok(place)
}

// As above, as the `u16` that a head stores. A `u16` can count more names than a page has entries.
fn table_in(alloc: Global, tables: &mut Sequence<Txt>, name: &str) -> Result<u16, Memory>
    ensures kept { take (length tables.old) tables.new ≡ tables.old }
    ensures place { IfOk result (λ place. slice_get tables.new place ≡ Some name.now) }
{
    let place = place_in(alloc, tables, name)?;
    match u16::try_from(place) {
        Ok(place) => Ok(place),
        Err(_) => Err(Memory),
    }
}

// Where a body ends when it is added after the others. Answers `Memory` when the end does not fit a
// head, which takes about four gigabytes of bodies.
fn end_after(bodies: &[u8], body: &[u8]) -> Result<u32, Memory>
    ensures { IfOk result (λ end. end ≡ length bodies.now + length body.now) }
{
    match u32::try_from(bodies.len() + body.len()) {
        Ok(end) => Ok(end),
        Err(_) => Err(Memory),
    }
}

// Adds a head, and a body after the others. On an error neither is added.
fn put(
    heads: &mut Sequence<Head>,
    bodies: &mut Vec<u8>,
    head: &Head,
    body: &[u8],
) -> Result<(), Memory>
    ensures heads { OnOk result (heads.new ≡ heads.old ++ head.now ∷ []) }
    ensures bodies { OnOk result (bodies.new.items ≡ bodies.old.items ++ body.now) }
    ensures same_heads { OnErr result (heads.new ≡ heads.old) }
    ensures same_bodies { OnErr result (bodies.new.items ≡ bodies.old.items) }
{
    let len = bodies.len();
    bodies.extend_from_slice(body)?;
    if heads.push(*head).is_err() {
        bodies.truncate(len);
        return Err(Memory);
    }
    Ok(())
}

// The body between two offsets.
fn body_between(bodies: &[u8], start: usize, end: usize) -> &[u8]
    requires order { start ≤ end }
    requires range { end ≤ length bodies.now }
    ensures { result.now ≡ take (end - start) (drop start bodies.now) }
{
    &bodies[start..end]
}

// Adds copies of the entries that a read asks for, up to the read's limit.
fn pick(
    tables: &[Txt],
    bodies: &[u8],
    heads: &[Head],
    alloc: Global,
    read_query: &ReadQuery<'_>,
    list: &mut StoredList,
) -> Result<(), Memory>
    requires { AreWithinPage (length tables.now) (length bodies.now) 0 heads.now }
    ensures { OnOk result (list.new ≡ with_picked read_query.now list.old
        (page_entries tables.now bodies.now 0 heads.now)) }
{
    let mut start = 0;
    for head in heads {
        if list.len() as u64 >= read_query.max {
            break;
        }
        let end = head.end as usize;
        let table = tables[usize::from(head.table)].as_str();
        let body = body_between(bodies, start, end);
        head.pick(alloc, table, body, read_query, list)?;
        start = end;
    }
    Ok(())
}

impl Page {
    /// A page with no entries. Allocates nothing.
    pub(crate) fn new(alloc: Global) -> Page
        ensures { result ≡ [] }
    {
        Page {
            tables: Sequence::new(alloc),
            heads: Sequence::new(alloc),
            bodies: Vec::new(alloc),
        }
    }

    /// Whether the page must be closed before the next entry is added.
    pub(crate) fn is_full(&self) -> bool
        ensures { result ≡ true → 0 < length self.now }
    {
        let entries = self.heads.len();
        entries >= ENTRY_LIMIT || (entries > 0 && self.bodies.len() >= BODY_LIMIT)
    }

    /// The number of the last entry, or 0 if there is none.
    pub(crate) fn last_number(&self) -> u64
        ensures { result ≡ last_number 0 self.now }
    {
        match self.heads.as_slice().last() {
            Some(head) => head.seq,
            None => 0,
        }
    }

    /// Adds a copy of an entry at the end. On an error the page is unchanged.
    pub(crate) fn push(&mut self, alloc: Global, entry: &StoredEntry) -> Result<(), Memory>
        ensures ok { OnOk result (self.new ≡ self.old ++ entry.now ∷ []) }
        ensures err { OnErr result (self.new ≡ self.old) }
    {
        let body = entry.body.as_slice();
        let end = end_after(self.bodies.as_slice(), body)?;
        let table = table_in(alloc, &mut self.tables, entry.table.as_str())?;
        let head = Head::of(entry, end, table);
        put(&mut self.heads, &mut self.bodies, &head, body)?;
        Ok(())
    }

    /// Removes all entries and keeps the allocated memory.
    pub(crate) fn clear(&mut self)
        ensures { self.new ≡ [] }
    {
        self.tables.clear();
        self.heads.clear();
        self.bodies.clear();
    }

    /// Adds copies of the entries that a read asks for to the list, up to the read's limit.
    pub(crate) fn pick(
        &self,
        alloc: Global,
        read_query: &ReadQuery<'_>,
        list: &mut StoredList,
    ) -> Result<(), Memory>
        ensures { OnOk result (list.new ≡ with_picked read_query.now list.old self.now) }
    {
        pick(
            self.tables.as_slice(),
            self.bodies.as_slice(),
            self.heads.as_slice(),
            alloc,
            read_query,
            list,
        )
    }
}

/// The copy allocates exactly the memory that its entries take.
impl Duplicate for Page {
    fn copy(&self, alloc: Global) -> Result<Page, Memory> {
        let tables = self.tables.copy(alloc)?;
        let heads = Sequence::from_slice(alloc, self.heads.as_slice())?;
        let bodies = Vec::from_slice(alloc, self.bodies.as_slice())?;
        Ok(Page {
            tables,
            heads,
            bodies,
        })
    }
}
