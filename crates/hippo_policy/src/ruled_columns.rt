//! The rules of the columns of one table.
ghost use Rattle.std.specs.Prelude.{◌≡◌, [], nat_eq, option_copied, OnOk, OnErr};
ghost use Rattle.hippo_model.specs.Terms.{Place};
ghost use Rattle.hippo_policy.specs.Words.{with_word, without_word, latest};
ghost use Rattle.hippo_policy.specs.Cells.{column_words, words_in};

use crate::last_words::{Said, latest};
use crate::ruling::Ruling;
use crate::sayings::Sayings;
use hippo_values::{Duplicate, Memory};
use std::alloc::Global;

// A rule for a column at or above this limit fails with `Memory`.
const WIDTH_LIMIT: usize = 65_536;

/// For each column of a table, its rules in the order of the entries.
#[derive(Drop)]
pub struct RuledColumns {
    columns: Vec<Sayings<Ruling>>,
}

impl RuledColumns {
    /// Columns without rules. Takes no memory.
    pub fn new(alloc: Global) -> RuledColumns
        ensures { (column : Place) → column_words result column ≡ [] }
    {
        RuledColumns {
            columns: Vec::new(alloc),
        }
    }

    fn at(&self, n: u64, column: usize) -> Option<&Ruling>
        ensures { option_copied result ≡ latest n (column_words self.now column) }
    {
        match self.columns.get(column) {
            None => None,
            Some(words) => latest(words.as_slice(), n),
        }
    }

    // Adds empty columns up to and including this one.
    fn widen(&mut self, alloc: Global, column: usize) -> Result<(), Memory>
        ensures { (other : Place) → column_words self.new other ≡ column_words self.old other }
    {
        if column >= WIDTH_LIMIT {
            return Err(Memory);
        }
        for _ in self.columns.len()..column + 1 {
            self.columns.push(Sayings::new(alloc))?;
        }
        Ok(())
    }

    fn push(&mut self, alloc: Global, column: usize, said: Said<Ruling>) -> Result<(), Memory>
        ensures ok { OnOk result ((other : Place) → column_words self.new other
            ≡ with_word (nat_eq column other) said (column_words self.old other)) }
        ensures err { OnErr result ((other : Place)
            → column_words self.new other ≡ column_words self.old other) }
    {
        self.widen(alloc, column)?;
        match self.columns.get_mut(column) {
            None => Err(Memory),
            Some(words) => {
                words.push(said)?;
                Ok(())
            }
        }
    }

    /// Appends a copy of a rule for a column, with its entry's number. Fails when out of memory, or
    /// if the column is 65,536 or above, and leaves the rules unchanged.
    pub fn push_copy(
        &mut self,
        alloc: Global,
        column: usize,
        number: u64,
        word: &Ruling,
    ) -> Result<(), Memory>
        ensures ok { OnOk result ((other : Place) → column_words self.new other
            ≡ with_word (nat_eq column other) (record { number = number; word = word.now })
            (column_words self.old other)) }
        ensures err { OnErr result ((other : Place)
            → column_words self.new other ≡ column_words self.old other) }
    {
        let word = word.copy(alloc)?;
        self.push(alloc, column, Said { number, word })
    }

    /// Removes the last rule of a column.
    pub fn pop(&mut self, column: usize)
        ensures { (other : Place) → column_words self.new other
            ≡ without_word (nat_eq column other) (column_words self.old other) }
    {
        if let Some(words) = self.columns.get_mut(column) {
            words.pop();
        }
    }
}

/// The last rule of a column up to entry number `n`; none if the table has no rules.
pub fn latest_in(columns: Option<&RuledColumns>, n: u64, column: usize) -> Option<&Ruling>
    ensures { option_copied result ≡ latest n (words_in (option_copied columns.entry) column) }
{
    match columns {
        None => None,
        Some(columns) => columns.at(n, column),
    }
}
