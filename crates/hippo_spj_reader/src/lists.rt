//! Grammar rules as types, lists of parts, and tokens that form one part and nothing more.
ghost use Rattle.std.specs.Prelude.{◌≡◌, [], ◌∷◌, IfOk};
ghost use Rattle.hippo_spj_reader.specs.Promises.{Gives, Reads, Passes, whole_of};
ghost use Rattle.hippo_spj_reader.specs.Front.{kinds};
ghost use Rattle.hippo_spj_reader.specs.ListFinder.{leading_list};

use crate::front::{after_symbol, name};
use hippo_lexer::{Symbol, SyntaxFault, Token};
use hippo_values::{Memory, Name, Sequence};
use std::alloc::Global;

/// A rule of the grammar.
pub trait Part {
    ghost use Rattle.hippo_spj_reader.specs.Front.{Finder};

    /// The result of reading a part.
    type Reading: Drop;

    ghost leading: { Finder Self.Reading };

    /// The part at the front of the tokens, and the tokens after it. BadSyntax if there is none.
    fn read(alloc: Global, tokens: &[Token]) -> Result<(Self::Reading, &[Token]), SyntaxFault>
        ensures { Reads leading tokens.now result };
}

/// The separator between the parts of a list.
pub trait Separator {
    ghost use Rattle.std.specs.Prelude.{List, Option};
    ghost use Rattle.hippo_lexer.specs.declared.kinds.TokenKind.{TokenKind};

    ghost after: { List TokenKind → Option (List TokenKind) };

    /// The tokens after the separator, or none if the separator does not come first.
    fn pass(tokens: &[Token]) -> Option<&[Token]>
        ensures { Passes after tokens.now result };
}

// A list of one part, with room for a second.
pub fn only<T: Drop>(alloc: Global, part: T) -> Result<Sequence<T>, Memory>
    ensures { IfOk result (λ parts. parts ≡ part ∷ []) }
{
    let mut parts = Sequence::with_capacity(alloc, 2)?;
    parts.push(part)?;
    Ok(parts)
}

/// The parts of the longest list at the front of the tokens, and the tokens after it. BadSyntax if
/// there is no list.
pub fn list<P: Part, S: Separator>(
    alloc: Global,
    tokens: &[Token],
) -> Result<(Sequence<P::Reading>, &[Token]), SyntaxFault>
    ensures { Reads (leading_list P.leading S.after) tokens.now result }
{
    let mut parts = Sequence::new(alloc);
    let (first, mut rest) = P::read(alloc, tokens)?;
    parts.push(first)?;
    while let Some(remaining) = S::pass(rest) {
        let (part, left) = P::read(alloc, remaining)?;
        parts.push(part)?;
        rest = left;
    }
    Ok((parts, rest))
}

/// The part that all of the tokens form by a rule. BadSyntax if they do not form exactly one part.
pub fn whole<P: Part>(alloc: Global, tokens: &[Token]) -> Result<P::Reading, SyntaxFault>
    ensures { Gives (λ x. x) result (whole_of (P.leading (kinds tokens.now))) }
{
    let (part, rest) = P::read(alloc, tokens)?;
    if rest.is_empty() {
        Ok(part)
    } else {
        Err(SyntaxFault::BadSyntax)
    }
}

/// A comma between parts.
pub struct Commas;

impl Separator for Commas {
    ghost use Rattle.hippo_lexer.specs.declared.kinds.Symbol.TheVariants.{Comma};
    ghost use Rattle.hippo_spj_reader.specs.Front.{after_symbol};

    ghost after = { after_symbol Comma };

    fn pass(tokens: &[Token]) -> Option<&[Token]> {
        after_symbol(tokens, Symbol::Comma)
    }
}

/// The grammar rule of a name.
pub struct NamePart;

impl Part for NamePart {
    ghost use Rattle.hippo_spj_reader.specs.Front.{leading_name};

    type Reading = Name;

    ghost leading = { leading_name };

    fn read(alloc: Global, tokens: &[Token]) -> Result<(Name, &[Token]), SyntaxFault> {
        name(alloc, tokens)
    }
}
