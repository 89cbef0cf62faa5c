//! A long list held in pieces, so that an edit in its middle moves the members of one piece only.
ghost use Rattle.std.specs.Prelude.{◌≡◌, ◌+◌, ◌-◌, ◌^◌, ◌<◌, ◌≤◌, [], ◌∷◌, length, map, take, slice_get, slice_set, slice_index_or, option_copied, Some, IfSome, IsTrue, ◌↔◌, OnOk, OnErr, MatchOption};
ghost use Rattle.std.specs.List.{insert, remove};
ghost use Rattle.hippo_tables_keyed.specs.Pieces.{contents, all_members, start_of, IsMarked, AreFull, IsReached, IsCutInTwo};

use hippo_values::Memory;
use std::alloc::Global;
use std::marker::Model;
use std::mem;

// The maximum number of members in a piece of a short list, unless out of memory.
const PIECE_LIMIT: usize = 128;

// Consecutive members of a list, and the number of the list's members up to their end.
#[derive(Drop)]
pub(crate) struct Piece<T> {
    pub(crate) members: Vec<T>,
    pub(crate) end: usize,
}

/// A list whose lookups and edits by place stay fast when it is long.
#[derive(Drop)]
pub struct Pieces<T> {
    pub(crate) pieces: Vec<Piece<T>>,
    count: usize,
}

impl<T> Model for Pieces<T> {
    ghost use Rattle.std.specs.Prelude.{List};
    ghost use Rattle.hippo_tables_keyed.specs.Pieces.{contents, all_members, IsWhole};

    ghost Value = { List T };

    ghost view = { λ list. all_members (contents list.pieces.items) };

    ghost invariant = { λ list. IsWhole list.pieces.items list.count };
}

// The number of members before a piece.
pub(crate) fn start<T>(pieces: &[Piece<T>], index: usize) -> usize
    requires range { index ≤ length pieces.now }
    requires marked { IsMarked pieces.now }
    ensures { result ≡ start_of (contents pieces.now) index }
{
    if index == 0 { 0 } else { pieces[index - 1].end }
}

// The piece that is likely to hold a place, by interpolation. It is the right one if all pieces but
// the last have the same length, as when members were added in order.
fn likely<T>(pieces: &[Piece<T>], place: usize) -> usize
    requires { IsMarked pieces.now }
    ensures { result ≤ length pieces.now }
{
    let last = pieces.len().saturating_sub(1);
    let before_last = start(pieces, last);
    if place < before_last {
        last.min(place.saturating_mul(last) / before_last)
    } else {
        last
    }
}

// The piece that holds the member at a place, and the number of members before the piece; by binary
// search.
fn reaching_by_search<T>(pieces: &[Piece<T>], place: usize) -> (usize, usize)
    requires { IsMarked pieces.now }
    ensures { IsReached (contents pieces.now) place result.0 result.1 }
{
    let index = pieces.partition_point(|piece| piece.end <= place);
    (index, start(pieces, index))
}

// The piece that holds the member at a place, and the number of members before the piece. Tries the
// piece found by interpolation first. Not inlined, so that `reaching` stays short.
#[inline(never)]
fn reaching_by_share<T>(pieces: &[Piece<T>], place: usize) -> (usize, usize)
    requires { IsMarked pieces.now }
    ensures { IsReached (contents pieces.now) place result.0 result.1 }
{
    let index = likely(pieces, place);
    let start = start(pieces, index);
    match pieces.get(index) {
        Some(piece) if start <= place && place < piece.end => (index, start),
        _ => reaching_by_search(pieces, place),
    }
}

// The piece at an index and the number of members before it, if it holds the member at a place.
#[inline(always)]
fn holding<T>(pieces: &[Piece<T>], index: usize, place: usize) -> Option<(usize, usize)>
    requires { IsMarked pieces.now }
    ensures { IfSome result (λ held. IsReached (contents pieces.now) place held.0 held.1) }
{
    if index >= pieces.len() {
        return None;
    }
    let start = start(pieces, index);
    if start <= place && place < pieces[index].end {
        Some((index, start))
    } else {
        None
    }
}

// The piece that holds the member at a place, and the number of members before the piece. For
// speed, it first tries the piece that is right if every piece before it has the length limit of
// short lists, as when members were added in order.
#[inline(always)]
fn reaching<T>(pieces: &[Piece<T>], place: usize) -> (usize, usize)
    requires { IsMarked pieces.now }
    ensures { IsReached (contents pieces.now) place result.0 result.1 }
{
    match holding(pieces, place / PIECE_LIMIT, place) {
        Some(held) => held,
        None => reaching_by_share(pieces, place),
    }
}

// Recomputes the ends of the pieces, from one on.
fn mark<T>(pieces: &mut [Piece<T>], first: usize, start: usize)
    requires front { IsMarked (take first pieces.old) }
    requires begins { start ≡ start_of (contents pieces.old) first }
    requires fits { length (all_members (contents pieces.old)) < 2 ^ 64 }
    ensures marked { IsMarked pieces.new }
    ensures kept { contents pieces.new ≡ contents pieces.old }
{
    let mut end = start;
    for place in first..pieces.len() {
        end += pieces[place].members.len();
        pieces[place].end = end;
    }
}

// Adds the first piece, with the first member.
fn begin<T: Drop>(pieces: &mut Vec<Piece<T>>, member: T) -> Result<(), Memory>
    requires { pieces.old.items ≡ [] }
    ensures marked { OnOk result (IsMarked pieces.new.items) }
    ensures ok { OnOk result (contents pieces.new.items ≡ (member ∷ []) ∷ []) }
    ensures err { OnErr result (pieces.new.items ≡ pieces.old.items) }
{
    let mut members = Vec::new(*pieces.allocator());
    members.push(member)?;
    pieces.push(Piece { members, end: 1 })?;
    Ok(())
}

// The maximum number of members in a piece, unless out of memory. An edit moves the members of one
// piece and updates the ends of the pieces after it. So both may grow with the length of the list.
fn piece_limit(pieces: usize) -> usize
    ensures { 0 < result }
{
    PIECE_LIMIT.max(pieces.saturating_mul(2))
}

// Splits a piece that is too long, unless out of memory, and returns the upper part. The last piece
// keeps as many members as the limit allows, so that members added in order fill each piece. Any
// other piece is split in half. Spare capacity is freed.
fn cut<T>(piece: &mut Piece<T>, limit: usize, is_last: bool) -> Option<Piece<T>>
    requires some { 0 < limit }
    requires size { length piece.old.members.items ≤ piece.old.end }
    ensures { MatchOption result (piece.new ≡ piece.old)
        (λ upper. IsCutInTwo piece.old piece.new upper) }
{
    let len = piece.members.len();
    if len <= limit {
        return None;
    }
    let kept = if is_last { limit } else { len / 2 };
    let end = piece.end;
    let members = piece.members.split_off(kept).ok()?;
    piece.members.shrink_to_fit();
    piece.end = end - members.len();
    Some(Piece { members, end })
}

// Splits the piece at an index if it is too long and memory allows. The list's members stay the
// same.
fn split<T: Drop>(pieces: &mut Vec<Piece<T>>, index: usize)
    requires range { index < length pieces.old.items }
    requires marked { IsMarked pieces.old.items }
    requires full { AreFull (contents pieces.old.items) }
    ensures marked { IsMarked pieces.new.items }
    ensures full { AreFull (contents pieces.new.items) }
    ensures joined { all_members (contents pieces.new.items)
        ≡ all_members (contents pieces.old.items) }
{
    let Ok(()) = pieces.reserve(1) else {
        return;
    };
    let limit = piece_limit(pieces.len());
    let is_last = index + 1 == pieces.len();
    if let Some(upper) = cut(&mut pieces[index], limit, is_last) {
        let _ = pieces.insert(index + 1, upper);
    }
}

// Inserts a member into a piece.
fn put_in<T: Drop>(
    pieces: &mut Vec<Piece<T>>,
    index: usize,
    place: usize,
    member: T,
) -> Result<(), Memory>
    requires range { index < length pieces.old.items }
    requires inside { place ≤ length (slice_index_or (contents pieces.old.items) index []) }
    requires full { AreFull (contents pieces.old.items) }
    ensures len { length pieces.new.items ≡ length pieces.old.items }
    ensures front { take index pieces.new.items ≡ take index pieces.old.items }
    ensures full { AreFull (contents pieces.new.items) }
    ensures ok { OnOk result (all_members (contents pieces.new.items)
        ≡ insert (all_members (contents pieces.old.items))
        (start_of (contents pieces.old.items) index + place) member) }
    ensures ends { map (λ piece. piece.end) pieces.new.items
        ≡ map (λ piece. piece.end) pieces.old.items }
    ensures err { OnErr result (contents pieces.new.items ≡ contents pieces.old.items) }
{
    if let Err(_) = pieces[index].members.insert(place, member) {
        return Err(Memory);
    }
    Ok(())
}

// Removes a member from a piece. If the piece is then empty, it is removed too.
fn take_out<T: Drop>(pieces: &mut Vec<Piece<T>>, index: usize, place: usize)
    requires range { index < length pieces.old.items }
    requires inside { place < length (slice_index_or (contents pieces.old.items) index []) }
    requires full { AreFull (contents pieces.old.items) }
    ensures front { take index pieces.new.items ≡ take index pieces.old.items }
    ensures full { AreFull (contents pieces.new.items) }
    ensures joined { all_members (contents pieces.new.items)
        ≡ remove (all_members (contents pieces.old.items))
        (start_of (contents pieces.old.items) index + place) }
{
    let piece = &mut pieces[index];
    piece.members.remove(place);
    if piece.members.is_empty() {
        pieces.remove(index);
    }
}

// Replaces a member of a piece, and returns the old member.
fn exchange<T>(piece: &mut Piece<T>, place: usize, member: T) -> T
    requires { place < length piece.old.members.items }
    ensures end { piece.new.end ≡ piece.old.end }
    ensures members { piece.new.members.items ≡ slice_set piece.old.members.items place member }
    ensures old { slice_get piece.old.members.items place ≡ Some result }
{
    mem::replace(&mut piece.members[place], member)
}

impl<T> Pieces<T> {
    /// An empty list. Allocates no memory.
    pub fn new(alloc: Global) -> Pieces<T>
        ensures { result ≡ [] }
    {
        Pieces {
            pieces: Vec::new(alloc),
            count: 0,
        }
    }

    /// The number of members.
    pub fn len(&self) -> usize
        ensures { result ≡ length self.now }
    {
        self.count
    }

    pub fn is_empty(&self) -> bool
        ensures { IsTrue result ↔ (self.now ≡ []) }
    {
        self.count == 0
    }

    /// The member at a place, counted from 0.
    pub fn get(&self, place: usize) -> &T
        requires { place < length self.now }
        ensures { slice_get self.now place ≡ Some result.now }
    {
        let (index, start) = reaching(&self.pieces, place);
        &self.pieces[index].members[place - start]
    }

    // The first member, if there is one.
    pub(crate) fn first(&self) -> Option<&T> {
        self.pieces.first()?.members.first()
    }

    // The last member, if there is one.
    pub(crate) fn last(&self) -> Option<&T>
        ensures { option_copied result ≡ slice_get self.now (length self.now - 1) }
    {
        self.pieces.last()?.members.last()
    }
}

impl<T: Drop> Pieces<T> {
    /// Overwrites the member at a place.
    pub fn set(&mut self, place: usize, member: T)
        requires { place < length self.old }
        ensures { self.new ≡ slice_set self.old place member }
    {
        let (index, start) = reaching(&self.pieces, place);
        self.pieces[index].members[place - start] = member;
    }

    /// Replaces the member at a place, and returns the old member.
    pub fn replace(&mut self, place: usize, member: T) -> T
        requires { place < length self.old }
        ensures set { self.new ≡ slice_set self.old place member }
        ensures old { slice_get self.old place ≡ Some result }
    {
        let (index, start) = reaching(&self.pieces, place);
        exchange(&mut self.pieces[index], place - start, member)
    }

    /// Inserts a member before the one at a place, or at the end.
    pub fn insert(&mut self, place: usize, member: T) -> Result<(), Memory>
        requires { place ≤ length self.old }
        ensures ok { OnOk result (self.new ≡ insert self.old place member) }
        ensures err { OnErr result (self.new ≡ self.old) }
    {
        if self.count == usize::MAX {
            return Err(Memory);
        }
        if self.pieces.is_empty() {
            begin(&mut self.pieces, member)?;
            self.count = 1;
            return Ok(());
        }
        let (index, start) = reaching(&self.pieces, place.saturating_sub(1));
        put_in(&mut self.pieces, index, place - start, member)?;
        self.count += 1;
        mark(&mut self.pieces, index, start);
        split(&mut self.pieces, index);
        Ok(())
    }

    /// Removes the member at a place.
    pub fn remove(&mut self, place: usize)
        requires { place < length self.old }
        ensures { self.new ≡ remove self.old place }
    {
        let (index, start) = reaching(&self.pieces, place);
        take_out(&mut self.pieces, index, place - start);
        self.count -= 1;
        mark(&mut self.pieces, index, start);
    }
}
