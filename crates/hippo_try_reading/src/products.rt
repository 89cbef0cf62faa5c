//! Shows how many rows a query can answer.

use hippo_entry_hex::first_word;
use hippo_eval::{EvalFault, evaluate};
use hippo_model::{ChoiceView, CondOf, Expr, Exprs, Masked, Names, Ref};
use hippo_tables_rows::{RowSet, Sets};
use hippo_values::{Memory, Moment, Name, Sequence, Value};
use std::alloc::{AllocError, Global};

// No patient has made a choice.
#[derive(Drop)]
struct NoChoices;

impl ChoiceView for NoChoices {
    ghost use Rattle.std.specs.Prelude.{None};

    ghost choices = { λ view subject item. None };

    fn choice(&self, _subject: i64, _item: &Name) -> Option<bool> {
        None
    }
}

// A table with one column, which holds the numbers from 0.
fn numbers(alloc: Global, count: i64) -> Result<RowSet, Memory> {
    let mut key = Sequence::new(alloc);
    key.push(0)?;
    let mut set = RowSet::new(alloc, key);
    let born = Moment::new(0).ok_or(Memory)?;
    for number in 0..count {
        let mut row = Sequence::new(alloc);
        row.push(Value::Int(number))?;
        set.put(row, born)?;
    }
    Ok(set)
}

// The numbers of both tables, for each combination of their rows.
fn pairs(alloc: Global) -> Result<Exprs, Memory> {
    let mut items = Sequence::new(alloc);
    for table in 0..2 {
        items.push(Expr::Keep(Ref { table, column: 0 }))?;
    }
    Ok(items)
}

fn query(alloc: Global) -> Result<Masked, Memory> {
    let items = pairs(alloc)?;
    Ok(Masked {
        items,
        tables: Names::new(alloc),
        guards: Sequence::new(alloc),
        cond: CondOf::All(Sequence::new(alloc)),
    })
}

fn count_over(alloc: Global, first: &RowSet, second: &RowSet) -> Result<usize, EvalFault> {
    let mut sets = Sets::new(alloc);
    sets.push(first)?;
    sets.push(second)?;
    let query = query(alloc)?;
    let answer = evaluate(alloc, &query, &sets, &NoChoices);
    drop(query);
    Ok(answer?.len())
}

fn count(alloc: Global, first: i64, second: i64) -> Result<usize, EvalFault> {
    let first = numbers(alloc, first)?;
    let second = numbers(alloc, second)?;
    count_over(alloc, &first, &second)
}

/// Shows how many rows the product of two tables has, or why it has no answer. The text gives the
/// number of rows of each table.
pub fn product(alloc: Global, text: &str) -> Result<String, AllocError> {
    let (first, second) = first_word(text);
    let (first, second) = (first.parse().unwrap_or(0), second.parse().unwrap_or(0));
    let count = count(alloc, first, second);
    format!(in alloc; "{count:?}")
}
