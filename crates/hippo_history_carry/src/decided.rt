//! The matters on which some entries decide.
ghost use Rattle.std.specs.Prelude.{◌≡◌, [], ◌∷◌, not, filter, IfOk, OnOk};
ghost use Rattle.hippo_model.specs.Terms.{History};
ghost use Rattle.hippo_history_carry.specs.Decisions.{IsDecidedBy, is_granted_in, is_chosen_in, is_ruled_in, is_born_in, AddsGrant, AddsChoice, AddsBirth, AddsCells};

use crate::keys::{CellKey, ChoiceKey, GrantKey, RowKey, Ruled};
use hippo_model::{Cells, Places};
use hippo_values::{Memory, Name};
use indexmap::IndexSet;
use std::alloc::Global;

/// The matters on which entries decide that were already looked at.
#[derive(Drop)]
pub(crate) struct Decided {
    grants: IndexSet<GrantKey>,
    choices: IndexSet<ChoiceKey>,
    cells: IndexSet<CellKey>,
    births: IndexSet<RowKey>,
}

impl Decided {
    /// No matters. Allocates nothing.
    pub(crate) fn new(alloc: Global) -> Decided
        ensures { (history : History) → IsDecidedBy history result [] }
    {
        Decided {
            grants: IndexSet::new(alloc),
            choices: IndexSet::new(alloc),
            cells: IndexSet::new(alloc),
            births: IndexSet::new(alloc),
        }
    }

    /// Takes in a word on a user's authorization. Returns whether it is the first one.
    pub(crate) fn add_grant(
        &mut self,
        alloc: Global,
        user: &Name,
        purpose: &Name,
        recipient: &Name,
    ) -> Result<bool, Memory>
        ensures first { IfOk result (λ first. first
            ≡ not (is_granted_in self.old user.now purpose.now recipient.now)) }
        ensures adds { OnOk result
            (AddsGrant self.old self.new user.now purpose.now recipient.now) }
    {
        let key = GrantKey::of(alloc, user, purpose, recipient)?;
        Ok(self.grants.insert(key)?)
    }

    /// Takes in a patient's choice on an item. Returns whether it is the first one.
    pub(crate) fn add_choice(
        &mut self,
        alloc: Global,
        subject: &i64,
        item: &Name,
    ) -> Result<bool, Memory>
        ensures first { IfOk result (λ first. first
            ≡ not (is_chosen_in self.old subject.now item.now)) }
        ensures adds { OnOk result (AddsChoice self.old self.new subject.now item.now) }
    {
        let key = ChoiceKey::of(alloc, subject, item)?;
        Ok(self.choices.insert(key)?)
    }

    /// Takes in an INSERT of a row with this key. Returns whether it is the first one.
    pub(crate) fn add_birth(
        &mut self,
        alloc: Global,
        table: &Name,
        key: &Cells,
    ) -> Result<bool, Memory>
        ensures first { IfOk result (λ first. first
            ≡ not (is_born_in self.old table.now key.now)) }
        ensures adds { OnOk result (AddsBirth self.old self.new table.now key.now) }
    {
        let key = RowKey::of(alloc, table, key)?;
        Ok(self.births.insert(key)?)
    }

    // Whether no rule was taken in on a column.
    fn is_open(&self, alloc: Global, ruled: &Ruled<'_>, column: usize) -> Result<bool, Memory>
        ensures { IfOk result (λ undecided. undecided ≡ not (is_ruled_in self.now ruled.now.purpose.now
            ruled.now.recipient.now ruled.now.table.now column)) }
    {
        let key = ruled.cell(alloc, column)?;
        let known = self.cells.contains(&key);
        drop(key);
        Ok(!known)
    }

    /// The columns of a rule on which no other was taken in.
    pub(crate) fn columns_left(
        &self,
        alloc: Global,
        ruled: &Ruled<'_>,
        columns: &[usize],
    ) -> Result<Places, Memory>
        ensures { IfOk result (λ left. left ≡ filter (λ column. not (is_ruled_in self.now
            ruled.now.purpose.now ruled.now.recipient.now ruled.now.table.now column))
            columns.now) }
    {
        let mut left = Places::new(alloc);
        for column in columns {
            if self.is_open(alloc, ruled, *column)? {
                left.push(*column)?;
            }
        }
        Ok(left)
    }

    fn add_cell(&mut self, alloc: Global, ruled: &Ruled<'_>, column: usize) -> Result<(), Memory>
        ensures adds { OnOk result (AddsCells self.old self.new ruled.now.purpose.now
            ruled.now.recipient.now ruled.now.table.now (column ∷ [])) }
    {
        let key = ruled.cell(alloc, column)?;
        self.cells.insert(key)?;
        Ok(())
    }

    /// Takes in a rule on these columns.
    pub(crate) fn add_rule(
        &mut self,
        alloc: Global,
        ruled: &Ruled<'_>,
        columns: &[usize],
    ) -> Result<(), Memory>
        ensures adds { OnOk result (AddsCells self.old self.new ruled.now.purpose.now
            ruled.now.recipient.now ruled.now.table.now columns.now) }
    {
        for column in columns {
            self.add_cell(alloc, ruled, *column)?;
        }
        Ok(())
    }
}
