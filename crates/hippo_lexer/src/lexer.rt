//! Splits texts into tokens.

ghost use Rattle.std.specs.Prelude.{◌≡◌, ◌≤◌, ◌⊎◌, List, All, AllPairs, Result, IfOk, IfErr};
ghost use Rattle.hippo_lexer.specs.declared.kinds.Token.{Token};
ghost use Rattle.hippo_lexer.specs.declared.faults.LexFault.{LexFault};
ghost use Rattle.hippo_lexer.specs.Grammar.{IsOutcome, IsOnlyOutcome, IsSpan};
ghost use Rattle.hippo_lexer.specs.Cutting.{GivesOutcome, outcome_of};

use crate::faults::LexFault;
use crate::kinds::{Token, Tokens};
use crate::parts::{token_first, without_blanks};
use hippo_values::Sequence;
use std::alloc::Global;

// The approximate length in bytes of a token with the blanks before it.
const TOKEN_LENGTH: usize = 4;

// This many tokens take less than a kibibyte; allocators are slower above that size.
const FEW_TOKENS: usize = 11;

fn cut_tokens(alloc: Global, text: &str) -> Result<Tokens, LexFault>
    ensures { GivesOutcome result (outcome_of text.now) }
{
    let mut found = Sequence::with_capacity(alloc, FEW_TOKENS.max(text.len() / TOKEN_LENGTH))?;
    let mut rest = without_blanks(text);
    while !rest.is_empty() {
        let start = text.len() - rest.len();
        let (kind, len) = token_first(alloc, start, rest)?;
        found.push(Token {
            kind,
            start,
            end: start + len,
        })?;
        rest = without_blanks(&rest[len..]);
    }
    Ok(found)
}

/// Splits a text into tokens with their places. Each token is the longest possible.
///
/// `BadToken`, `NumberTooLarge` and `BadDate` have the place of the first fault in the text.
/// The only other error is out of memory. The time is linear in the length of the text.
pub fn tokens(alloc: Global, text: &str) -> Result<Tokens, LexFault>
    // By the grammar, these are the text's tokens, or this is its first fault.
    ensures found { IfOk result (λ tokens. IsOutcome text.now (Ok tokens)) }
    ensures fault { IfErr result (λ fault. (fault ≡ LexFault.Memory)
        ⊎ IsOutcome text.now (Err fault)) }

    // A text has exactly one outcome, and the call returns it unless it runs out of memory.
    ensures only { (outcome : Result (List Token) LexFault) → IsOutcome text.now outcome
        → (result ≡ outcome) ⊎ (result ≡ Err LexFault.Memory) }
    ensures one { IsOnlyOutcome text.now (outcome_of text.now) }
    ensures exact { GivesOutcome result (outcome_of text.now) }

    // Each token is at character boundaries, and each later token comes after it.
    ensures spans { IfOk result (All (IsSpan text.now)) }
    ensures order { IfOk result (AllPairs (λ a b. a.end ≤ b.start)) }
{
    cut_tokens(alloc, text)
}
