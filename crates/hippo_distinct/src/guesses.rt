//! Guesses for the places of rows among others, for speed alone. A guess may be wrong, so the row
//! at a guessed place is compared.

use hippo_eval::cell;
use hippo_model::{Cell, CellRow, ChoiceView, Combo, Expr};
use hippo_values::{Memory, Value};
use std::alloc::Global;

// The integer part of 2 to the 64th over the golden ratio (Knuth, The Art of Computer Programming,
// volume 3, section 6.4). Multiplying by it spreads numbers that are close together over the high
// bits.
const MULTIPLIER: u64 = 0x9e37_79b9_7f4a_7c15;

// At most this many bytes of a text are hashed.
const TEXT_FRONT: usize = 24;

// At first there are `FEW` guesses. Whenever there are more rows than half the guesses, their
// number is multiplied by `GROWTH`, up to `MOST`.
const FEW: usize = 256;

const GROWTH: usize = 8;

const MOST: usize = 131_072;

// The guess for a mark that was not seen.
const NOWHERE: u32 = u32::MAX;

fn mixed(mark: u64, number: u64) -> u64 {
    (mark ^ number).wrapping_mul(MULTIPLIER)
}

fn mixed_text(mark: u64, text: &str) -> u64 {
    let mut mark = mixed(mark, text.len() as u64);
    for byte in text.as_bytes().iter().take(TEXT_FRONT) {
        mark = mixed(mark, u64::from(*byte));
    }
    mark
}

#[inline(always)]
fn mixed_value(mark: u64, value: Option<&Value>) -> u64 {
    match value {
        Some(Value::Int(number)) => mixed(mark, number.cast_unsigned()),
        Some(Value::Text(text)) => mixed_text(mark, text.as_str()),
        Some(Value::Day(day)) => mixed(mark, u64::from(day.day().cast_unsigned())),
        _ => mixed(mark, 1),
    }
}

#[inline(always)]
fn mixed_item<C: ChoiceView>(mark: u64, item: &Expr, combo: &Combo<'_>, choices: &C) -> u64 {
    mixed_value(mark, cell(item, combo, choices).value())
}

/// A hash of the row that items make in a combination of rows: equal rows have the same one, and
/// few others share it. None if a rule masks one of the items, since its cell is expensive to
/// compute.
#[inline(always)]
pub(crate) fn mark_of<C: ChoiceView>(
    items: &[Expr],
    combo: &Combo<'_>,
    choices: &C,
) -> Option<u64> {
    let mut mark = 0;
    for item in items {
        match item {
            Expr::Keep(_) => mark = mixed_item(mark, item, combo, choices),
            _ => return None,
        }
    }
    Some(mark)
}

/// The number that `mark_of` gives for the items that make this row, if no rule masks one of them.
pub(crate) fn mark_of_row(row: &CellRow) -> u64 {
    let mut mark = 0;
    for cell in row.as_slice() {
        match cell {
            Cell::Shown(value) => mark = mixed_value(mark, Some(value)),
            Cell::Denied(_) => mark = mixed_value(mark, None),
        }
    }
    mark
}

/// The guessed places of rows, by their marks.
#[derive(Drop)]
pub(crate) struct Guesses {
    places: Vec<u32>,
}

impl Guesses {
    /// No guesses. Allocates no memory.
    pub(crate) fn new(alloc: Global) -> Guesses {
        Guesses {
            places: Vec::new(alloc),
        }
    }

    fn slot(&self, mark: u64) -> usize {
        (mark >> 32) as usize & self.places.len().saturating_sub(1)
    }

    /// The place where the row with a mark may be.
    #[inline(always)]
    pub(crate) fn place(&self, mark: u64) -> usize {
        *self.places.get(self.slot(mark)).unwrap_or(&NOWHERE) as usize
    }

    /// Stores the place of the row with a mark.
    pub(crate) fn keep(&mut self, mark: u64, place: usize) {
        let slot = self.slot(mark);
        if slot < self.places.len() {
            self.places[slot] = u32::try_from(place).unwrap_or(NOWHERE);
        }
    }

    /// Makes room for more guesses if they are few compared to these rows.
    #[inline(always)]
    pub(crate) fn grow(&mut self, alloc: Global, rows: &[CellRow]) -> Result<(), Memory> {
        if rows.len() <= self.places.len() / 2 || self.places.len() >= MOST {
            return Ok(());
        }
        self.grow_for(alloc, rows)
    }

    #[inline(never)]
    fn grow_for(&mut self, alloc: Global, rows: &[CellRow]) -> Result<(), Memory> {
        let count = self.places.len().saturating_mul(GROWTH).clamp(FEW, MOST);
        self.places = vec![in alloc; NOWHERE; count]?;
        for (place, row) in rows.iter().enumerate() {
            self.keep(mark_of_row(row), place);
        }
        Ok(())
    }
}
