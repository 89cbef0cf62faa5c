//! What the text of a question means.
ghost use Rattle.std.specs.Prelude.{◌≡◌, ◌≢◌, Ok, IfOk, IfSome, IfNone};
ghost use Rattle.std.specs.Bool.{OnFalse};
ghost use Rattle.hippo_model.specs.declared.query.Query.{Query as MeantQuery};
ghost use Rattle.hippo_model.specs.declared.name_fault.NameFault.TheVariants as faults;
ghost use Rattle.hippo_lexer.specs.declared.faults.SyntaxFault.TheVariants as syntax;
ghost use Rattle.hippo_lexer.specs.Cutting.{outcome_of};
ghost use Rattle.hippo_typing.specs.Meanings.{Means, select_in, query_in, meaning_in};
ghost use Rattle.hippo_typing.specs.MeaningLaws.{MeaningIsThatOfTexts, AtMostOneMeaning};

use crate::selects::resolve_select;
use hippo_lexer::lexer::tokens;
use hippo_lexer::{LexFault, SyntaxFault, Tokens, check_words};
use hippo_model::{NameFault, Query};
use hippo_spj_reader::read_select;
use hippo_stmt_ast::RawSelect;
use hippo_typing_catalog::Catalog;
use hippo_values::Memory;
use std::alloc::Global;

// None, as no select was read; or out of memory.
fn no_select(fault: SyntaxFault) -> Result<Option<RawSelect>, Memory>
    ensures { IfOk result (λ found. (found ≡ None) × (fault ≢ syntax.Memory)) }
{
    match fault {
        SyntaxFault::Memory => Err(Memory),
        _ => Ok(None),
    }
}

// The select that the tokens form, or none.
fn whole_select(alloc: Global, tokens: &Tokens) -> Result<Option<RawSelect>, Memory>
    ensures { IfOk result (λ found. found ≡ select_in (Ok tokens.now)) }
{
    if check_words(tokens).is_err() {
        return Ok(None);
    }
    match read_select(alloc, tokens, 0, tokens.len()) {
        Ok(select) => Ok(Some(select)),
        Err(fault) => no_select(fault),
    }
}

// The select that a text is, or none.
fn select_in(alloc: Global, text: &str) -> Result<Option<RawSelect>, Memory>
    ensures { IfOk result (λ found. found ≡ select_in (outcome_of text.now)) }
{
    match tokens(alloc, text) {
        Ok(tokens) => whole_select(alloc, &tokens),
        Err(LexFault::Memory) => Err(Memory),
        Err(_) => Ok(None),
    }
}

fn is_memory(fault: &NameFault) -> bool
    ensures { OnFalse result (fault.now ≢ faults.Memory) }
{
    matches!(fault, NameFault::Memory)
}

// None, as a select was refused; or out of memory.
fn no_query(fault: NameFault) -> Result<Option<Query>, Memory>
    ensures { IfOk result (λ found. (found ≡ None) × (fault ≢ faults.Memory)) }
{
    let is_short = is_memory(&fault);
    drop(fault);
    if is_short {
        return Err(Memory);
    }
    Ok(None)
}

// The query that a select means, or none if the select is refused.
fn query_in(alloc: Global, catalog: &Catalog, select: &RawSelect) -> Result<Option<Query>, Memory>
    ensures { IfOk result (λ found. found ≡ query_in catalog.now.names select.now) }
{
    match resolve_select(alloc, catalog, select) {
        Ok(query) => Ok(Some(query)),
        Err(fault) => no_query(fault),
    }
}

// The query of a select that is not needed afterwards. The select is dropped here, in one call.
fn query_of(alloc: Global, catalog: &Catalog, select: RawSelect) -> Result<Option<Query>, Memory>
    ensures { IfOk result (λ found. found ≡ query_in catalog.now.names select) }
{
    let query = query_in(alloc, catalog, &select);
    drop(select);
    query
}

#[tactic(auto, unfolding(crate::specs::Meanings::meaning_in))]
fn meaning_in(alloc: Global, catalog: &Catalog, text: &str) -> Result<Option<Query>, Memory>
    ensures { IfOk result (λ found. found ≡ meaning_in catalog.now.names text.now) }
{
    match select_in(alloc, text)? {
        Some(select) => query_of(alloc, catalog, select),
        None => Ok(None),
    }
}

/// The query that a text means with a catalog's names: the text must be a select by the grammar,
/// and nothing of it may be refused. None exactly when the text means no query. The only error is
/// out of memory.
pub fn read_meaning(alloc: Global, catalog: &Catalog, text: &str) -> Result<Option<Query>, Memory>
    ensures found { IfOk result (λ found. IfSome found
        (λ query. Means catalog.now.names text.now query)) }
    ensures none { IfOk result
        (λ found. IfNone found ((query : MeantQuery) → ¬ Means catalog.now.names text.now query)) }
    ensures meaning { IfOk result (λ found. found ≡ meaning_in catalog.now.names text.now) }
{
    meaning_in(alloc, catalog, text)
}

/// A text's meaning after some entries is the query that it means by the grammar, with the names
/// that those entries create, if it means one.
pub fn meaning_is_that_of_texts()
    ensures { MeaningIsThatOfTexts }
{}

/// With some names known, a text has at most one meaning.
pub fn at_most_one_meaning()
    ensures { AtMostOneMeaning }
{}
