//! Slots with numbers from 1 on.
ghost use Rattle.std.specs.Prelude.{◌≡◌, ◌<◌, None, length, slice_get, slice_set, position, is_none, option_copied, IfOk, IfSome};
ghost use Rattle.std.specs.Option.{option_flatten};
ghost use Rattle.hippo_engine_sessions.specs.Worlds.{at_number, with_at, free_number, empty_slots};

use hippo_values::Memory;
use std::alloc::Global;
use std::marker::Model;
use std::mem;

/// Slots with numbers from 1 on. Each slot holds a value or is empty. Their count is fixed when
/// they are made.
#[derive(Drop)]
pub struct Numbered<T> {
    pub places: Vec<Option<T>>,
}

impl<T> Model for Numbered<T> {
    ghost use Rattle.std.specs.Prelude.{List, Option};
    ghost use Rattle.std.specs.Coded.{coded_list, coded_option};

    ghost Value = { List (Option T) };

    ghost coded = { coded_list (coded_option T.code) };

    ghost view = { λ numbered. numbered.places.items };
}

fn held_at<T>(places: &[Option<T>], place: usize) -> Option<&T>
    ensures { option_copied result ≡ option_flatten (slice_get places.now place) }
{
    places.get(place)?.as_ref()
}

fn put_at<T: Drop>(places: &mut [Option<T>], place: usize, held: Option<T>)
    ensures { places.new ≡ slice_set places.old place held }
{
    if place < places.len() {
        places[place] = held;
    }
}

fn take_at<T>(places: &mut [Option<T>], place: usize) -> Option<T>
    ensures taken { result ≡ option_flatten (slice_get places.old place) }
    ensures left { places.new ≡ slice_set places.old place None }
{
    if place < places.len() {
        mem::replace(&mut places[place], None)
    } else {
        None
    }
}

fn first_free<T>(places: &[Option<T>]) -> Option<usize>
    ensures free { result ≡ position is_none places.now }
    ensures within { IfSome result (λ place. place < length places.now) }
{
    places.iter().position(|held| held.is_none())
}

impl<T: Drop> Numbered<T> {
    /// `count` empty slots. Fails when out of memory.
    pub fn none(alloc: Global, count: usize) -> Result<Numbered<T>, Memory>
        ensures { IfOk result (λ made. made ≡ empty_slots count) }
    {
        let mut places = Vec::with_capacity(alloc, count)?;
        for _ in 0..count {
            places.push(None)?;
        }
        Ok(Numbered { places })
    }

    /// The value at a number; none if the slot is empty, or if there is no such number.
    pub fn at(&self, number: usize) -> Option<&T>
        ensures { option_copied result ≡ at_number self.now number }
    {
        if number == 0 {
            None
        } else {
            held_at(&self.places, number - 1)
        }
    }

    /// Puts a value at a number, or empties the slot. The old value is dropped. If there is no such
    /// number, `held` is dropped.
    pub fn put(&mut self, number: usize, held: Option<T>)
        ensures { self.new ≡ with_at self.old number held }
    {
        if number != 0 {
            put_at(&mut self.places, number - 1, held);
        }
    }

    /// Takes the value at a number, and leaves the slot empty.
    pub fn take(&mut self, number: usize) -> Option<T>
        ensures taken { result ≡ at_number self.old number }
        ensures left { self.new ≡ with_at self.old number None }
    {
        if number == 0 {
            None
        } else {
            take_at(&mut self.places, number - 1)
        }
    }

    /// The slots, in the order of their numbers.
    pub fn as_slice(&self) -> &[Option<T>]
        ensures { result.now ≡ self.now }
    {
        self.places.as_slice()
    }

    /// The lowest number whose slot is empty; none if all hold values.
    pub fn free(&self) -> Option<usize>
        ensures { result ≡ free_number self.now }
    {
        Some(first_free(&self.places)? + 1)
    }
}
