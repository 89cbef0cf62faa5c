//! Shows that large values can be copied when there is ample memory.

use hippo_entry_hex::first_word;
use hippo_model::{
    Answer, Audit, Cell, CellRow, CondOf, Flag, Form, Operand, Out, Pair, Query, Ref, Shape,
    SharedRow,
};
use hippo_values::{CompareOp, Duplicate, Memory, Moment, Name, Sequence, Value};
use std::alloc::{AllocError, Global};

fn name(alloc: Global, word: &str) -> Result<Name, Memory> {
    Name::from_word(alloc, word)?.ok_or(Memory)
}

fn comparison() -> CondOf<Operand> {
    CondOf::Compare {
        op: CompareOp::Eq,
        left: Operand::Column(Ref {
            table: 0,
            column: 0,
        }),
        right: Operand::Literal(Value::Int(1)),
    }
}

fn condition(alloc: Global, count: usize) -> Result<CondOf<Operand>, Memory> {
    let mut parts = Sequence::new(alloc);
    for _ in 0..count {
        parts.push(comparison())?;
    }
    Ok(CondOf::Any(parts))
}

fn shape(alloc: Global) -> Result<Shape, Memory> {
    let mut outs = Sequence::new(alloc);
    outs.push(Out::Min(1))?;
    Ok(Shape { keys: 1, outs })
}

fn query(alloc: Global, count: usize) -> Result<Query, Memory> {
    let shape = shape(alloc)?;
    let cond = condition(alloc, count)?;
    Ok(Query {
        items: Sequence::new(alloc),
        tables: Sequence::new(alloc),
        cond,
        form: Form::Grouped(shape),
    })
}

fn audit(alloc: Global, count: usize) -> Result<Audit, Memory> {
    let moment = Moment::new(1).ok_or(Memory)?;
    let cond = condition(alloc, count)?;
    Ok(Audit {
        from: moment,
        to: moment,
        exempt: Sequence::new(alloc),
        shown: false,
        columns: Sequence::new(alloc),
        tables: Sequence::new(alloc),
        cond,
    })
}

fn shared_row(alloc: Global) -> Result<SharedRow, Memory> {
    let mut key = Sequence::new(alloc);
    key.push(Value::Int(1))?;
    let table = name(alloc, "ward")?;
    Ok(SharedRow { table, key })
}

fn pair(alloc: Global) -> Result<Pair, Memory> {
    let purpose = name(alloc, "treatment")?;
    let recipient = name(alloc, "nurse")?;
    Ok(Pair { purpose, recipient })
}

fn shared_rows(alloc: Global, count: usize) -> Result<Sequence<SharedRow>, Memory> {
    let mut shared = Sequence::new(alloc);
    for _ in 0..count {
        shared.push(shared_row(alloc)?)?;
    }
    Ok(shared)
}

fn flag(alloc: Global, count: usize) -> Result<Flag, Memory> {
    let moment = Moment::new(3).ok_or(Memory)?;
    let shared = shared_rows(alloc, count)?;
    let pair = pair(alloc)?;
    let user = name(alloc, "ann")?;
    Ok(Flag {
        seq: 9,
        moment,
        user,
        pair,
        shared,
    })
}

fn denied_row(alloc: Global) -> Result<CellRow, Memory> {
    let mut row = Sequence::new(alloc);
    row.push(Cell::Denied(1))?;
    Ok(row)
}

fn answer(alloc: Global, count: usize) -> Result<Answer, Memory> {
    let mut answer = Sequence::new(alloc);
    for _ in 0..count {
        answer.push(denied_row(alloc)?)?;
    }
    Ok(answer)
}

// Copies a value that was made. The proofs show that the copy equals its source.
fn copied<T: Duplicate + Drop>(alloc: Global, made: Result<T, Memory>) -> Result<(), Memory> {
    let made = made?;
    made.copy(alloc)?;
    Ok(())
}

fn copied_of_kind(alloc: Global, kind: &str, count: usize) -> Result<(), Memory> {
    match kind {
        "query" => copied(alloc, query(alloc, count)),
        "audit" => copied(alloc, audit(alloc, count)),
        "flag" => copied(alloc, flag(alloc, count)),
        _ => copied(alloc, answer(alloc, count)),
    }
}

/// Shows whether a value of a given size can be made and copied: a `query` or an `audit` whose
/// condition has this many parts, a `flag` with this many rows in common, or an `answer` with this
/// many rows.
pub fn shown_copy(alloc: Global, text: &str) -> Result<String, AllocError> {
    let (kind, count) = first_word(text);
    let copied = copied_of_kind(alloc, kind, count.parse().unwrap_or(0));
    format!(in alloc; "{copied:?}")
}
