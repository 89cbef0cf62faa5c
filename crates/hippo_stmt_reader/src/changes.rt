//! Reads INSERT, UPDATE and DELETE.
ghost use Rattle.std.specs.Prelude.{◌≡◌, ◌<◌, IfOk};
ghost use Rattle.hippo_spj_reader.specs.Promises.{Gives, Reads};
ghost use Rattle.hippo_spj_reader.specs.Front.{kinds};
ghost use Rattle.hippo_stmt_reader.specs.StatementGrammar.{assigned_columns, assigned_values};
ghost use Rattle.hippo_stmt_reader.specs.StatementFinder.{leading_assignment, leading_assigned, insert_of, update_of, delete_of};

use crate::parts::{name_after, with_end};
use hippo_lexer::{Keyword, Symbol, SyntaxFault, Token};
use hippo_model::{Cells, Names};
use hippo_spj_reader::{
    Commas, Part, Separator, after_keyword, expect_keyword, expect_symbol, list, literal, name,
};
use hippo_stmt_ast::Stmt;
use hippo_values::{Memory, Name, Sequence, Value};
use std::alloc::Global;

// The grammar rule of a literal.
struct LiteralPart;

impl Part for LiteralPart {
    ghost use Rattle.hippo_spj_reader.specs.Front.{leading_literal};

    type Reading = Value;

    ghost leading = { leading_literal };

    fn read(alloc: Global, tokens: &[Token]) -> Result<(Value, &[Token]), SyntaxFault> {
        literal(alloc, tokens)
    }
}

type Assignment = (Name, Value);

#[tactic(auto, unfolding(crate::specs::StatementFinder::leading_assignment))]
fn assignment(alloc: Global, tokens: &[Token]) -> Result<(Assignment, &[Token]), SyntaxFault>
    ensures { Reads leading_assignment tokens.now result }
{
    let (column, rest) = name(alloc, tokens)?;
    let rest = expect_symbol(rest, Symbol::Equal)?;
    let (value, rest) = literal(alloc, rest)?;
    Ok(((column, value), rest))
}

// The grammar rule of `c = literal`.
struct AssignmentPart;

impl Part for AssignmentPart {
    ghost use Rattle.hippo_stmt_reader.specs.StatementFinder.{leading_assignment};

    type Reading = Assignment;

    ghost leading = { leading_assignment };

    fn read(alloc: Global, tokens: &[Token]) -> Result<(Assignment, &[Token]), SyntaxFault> {
        assignment(alloc, tokens)
    }
}

// An AND between the columns of a key.
struct Ands;

impl Separator for Ands {
    ghost use Rattle.hippo_values.specs.declared.keywords.Keyword.TheVariants.{KAnd};
    ghost use Rattle.hippo_spj_reader.specs.Front.{after_keyword};

    ghost after = { after_keyword KAnd };

    fn pass(tokens: &[Token]) -> Option<&[Token]> {
        after_keyword(tokens, Keyword::KAnd)
    }
}

// Assignments, as a list of their columns and a list of their values.
#[derive(Drop)]
struct Assignments {
    columns: Names,
    values: Cells,
}

fn columns_and_values(
    alloc: Global,
    assignments: Sequence<Assignment>,
) -> Result<Assignments, Memory>
    ensures columns { IfOk result (λ made. made.columns ≡ assigned_columns assignments) }
    ensures values { IfOk result (λ made. made.values ≡ assigned_values assignments) }
{
    let mut columns = Sequence::new(alloc);
    let mut values = Sequence::new(alloc);
    for (column, value) in assignments.into_vec() {
        columns.push(column)?;
        values.push(value)?;
    }
    Ok(Assignments { columns, values })
}

// The columns and values of the assignments after a keyword, and the tokens after them. BadSyntax
// if the keyword and an assignment do not come first.
fn assigned<S: Separator>(
    alloc: Global,
    keyword: Keyword,
    tokens: &[Token],
) -> Result<(Assignments, &[Token]), SyntaxFault>
    ensures { Reads (leading_assigned keyword S.after) tokens.now result }
{
    let rest = expect_keyword(tokens, keyword)?;
    let (assignments, rest) = list::<AssignmentPart, S>(alloc, rest)?;
    Ok((columns_and_values(alloc, assignments)?, rest))
}

/// The statement that the tokens after INSERT form. BadSyntax if they form none.
#[tactic(auto, unfolding(crate::specs::StatementFinder::insert_of))]
pub fn insert(alloc: Global, tokens: &[Token]) -> Result<Stmt, SyntaxFault>
    ensures { Gives (λ s. s) result (insert_of (kinds tokens.now)) }
{
    let rest = expect_keyword(tokens, Keyword::KInto)?;
    let (table, rest) = name(alloc, rest)?;
    let rest = expect_keyword(rest, Keyword::KValues)?;
    let rest = expect_symbol(rest, Symbol::LeftParen)?;
    let (values, rest) = list::<LiteralPart, Commas>(alloc, rest)?;
    let rest = expect_symbol(rest, Symbol::RightParen)?;
    with_end(Stmt::Insert { table, values }, rest)
}

/// The statement that the tokens after UPDATE form. BadSyntax if they form none.
#[tactic(auto, unfolding(crate::specs::StatementFinder::update_of))]
pub fn update(alloc: Global, tokens: &[Token]) -> Result<Stmt, SyntaxFault>
    ensures { Gives (λ s. s) result (update_of (kinds tokens.now)) }
{
    let (table, rest) = name(alloc, tokens)?;
    let (set, rest) = assigned::<Commas>(alloc, Keyword::KSet, rest)?;
    let (key, rest) = assigned::<Ands>(alloc, Keyword::KWhere, rest)?;
    with_end(
        Stmt::Update {
            table,
            columns: set.columns,
            values: set.values,
            key_columns: key.columns,
            key_values: key.values,
        },
        rest,
    )
}

/// The statement that the tokens after DELETE form. BadSyntax if they form none.
#[tactic(auto, unfolding(crate::specs::StatementFinder::delete_of))]
pub fn delete(alloc: Global, tokens: &[Token]) -> Result<Stmt, SyntaxFault>
    ensures { Gives (λ s. s) result (delete_of (kinds tokens.now)) }
{
    let (table, rest) = name_after(alloc, Keyword::KFrom, tokens)?;
    let (key, rest) = assigned::<Ands>(alloc, Keyword::KWhere, rest)?;
    with_end(
        Stmt::Delete {
            table,
            key_columns: key.columns,
            key_values: key.values,
        },
        rest,
    )
}
