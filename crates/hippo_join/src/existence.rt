//! Tests whether some combination of rows qualifies. Stops at the first one found.
ghost use Rattle.std.specs.Prelude.{◌≡◌, false, OnOk, length};
ghost use Rattle.std.specs.List.{All};
ghost use Rattle.hippo_model.specs.Masking.{masked_cell, is_shown_cell};
ghost use Rattle.hippo_join_stages.specs.Finding.{Covers};
ghost use Rattle.hippo_join_stages.specs.Stages.{IsStage};
ghost use Rattle.hippo_join_stages.specs.Walking.{CanWalk};
ghost use Rattle.hippo_join.specs.Existence.{are_shown, HasOne, Decides};

use crate::walking::{PlaceVisitor, Walk, are_there};
use hippo_eval::{Onward, cell};
use hippo_join_stages::{Side, Stage};
use hippo_model::{ChoiceView, Combo, Expr};
use hippo_values::Memory;
use std::alloc::Global;

fn shows<C: ChoiceView>(choices: &C, expr: &Expr, rows: &Combo<'_>) -> bool
    ensures { result ≡ is_shown_cell (masked_cell (C.choices choices.now) rows.now expr.now) }
{
    cell(expr, rows, choices).is_shown()
}

// Whether each of some expressions is a shown cell.
fn are_shown<C: ChoiceView>(choices: &C, seen: &[Expr], rows: &Combo<'_>) -> bool
    ensures { result ≡ are_shown (C.choices choices.now) seen.now rows.now }
{
    for expr in seen {
        if !shows(choices, expr, rows) {
            return false;
        }
    }
    true
}

// Searches for a combination of a side's rows in which all wanted cells are shown.
#[derive(Drop)]
pub(crate) struct Seeker<'w, 'a, C> {
    pub(crate) side: &'w Side<'a, C>,
    pub(crate) seen: &'w [Expr],
}

impl<'w, 'a, C: ChoiceView> PlaceVisitor for Seeker<'w, 'a, C> {
    ghost use Rattle.std.specs.Prelude.{◌≡◌};
    ghost use Rattle.std.specs.List.{list_any};
    ghost use Rattle.hippo_join_lookups.specs.Places.{chosen_rows};
    ghost use Rattle.hippo_join.specs.Existence.{are_shown};

    type State = bool;

    ghost Keeps = { λ seeker sets front visited is_found. is_found ≡ list_any (λ places.
        are_shown (C.choices seeker.side.now.choices.now) seeker.seen.now (chosen_rows sets places))
        visited };

    fn visit(
        &self,
        _alloc: Global,
        state: &mut bool,
        _slots: &[Option<usize>],
        rows: &Combo<'_>,
    ) -> Result<Onward, Memory> {
        if are_shown(self.side.choices, self.seen, rows) {
            *state = true;
            Ok(Onward::Enough)
        } else {
            Ok(Onward::More)
        }
    }
}

impl<'w, 'a, C: ChoiceView> Seeker<'w, 'a, C> {
    // Whether some qualifying combination has the chosen rows and shows each wanted cell. Walks
    // stages for the tables whose row is not chosen.
    pub(crate) fn has_along(
        &self,
        alloc: Global,
        stages: &[Stage],
        slots: &mut [Option<usize>],
    ) -> Result<bool, Memory>
        requires { CanWalk (C.choices self.now.side.now.choices.now) self.now.side.now.query.now
            self.now.side.now.sets.now false stages.now slots.old }
        ensures slots { OnOk result (slots.new ≡ slots.old) }
        ensures one { Decides (HasOne (C.choices self.now.side.now.choices.now)
            self.now.side.now.query.now self.now.seen.now self.now.side.now.sets.now slots.old)
            result }
    {
        if !are_there(self.side, slots) {
            return Ok(false);
        }
        let mut rows = self.side.rows(alloc, slots)?;
        let mut is_found = false;
        let walk = Walk {
            side: self.side,
            alloc,
            in_order: false,
            visitor: self,
        };
        let _onward = walk.walk(stages, slots, &mut rows, &mut is_found)?;
        Ok(is_found)
    }
}

/// Whether some qualifying combination has the chosen rows and shows each cell of `seen`. Requires
/// stages for all tables whose row is not chosen. Leaves the slots unchanged, unless out of memory.
pub fn has<C: ChoiceView>(
    side: &Side<'_, C>,
    alloc: Global,
    stages: &[Stage],
    seen: &[Expr],
    slots: &mut [Option<usize>],
) -> Result<bool, Memory>
    requires long { length slots.old ≡ length side.now.sets.now }
    requires stages { All (IsStage (C.choices side.now.choices.now) side.now.query.now
        side.now.sets.now)
        stages.now }
    requires covers { Covers stages.now slots.old }
    ensures slots { OnOk result (slots.new ≡ slots.old) }
    ensures one { Decides (HasOne (C.choices side.now.choices.now) side.now.query.now seen.now
        side.now.sets.now
        slots.old) result }
{
    let seeker = Seeker { side, seen };
    seeker.has_along(alloc, stages, slots)
}
