//! Keeps a value while the next part is read.
ghost use Rattle.std.specs.Prelude.{◌≡◌, MatchResult, Ok, Err};

use hippo_lexer::SyntaxFault;

// The value held, paired with what was read next.
pub fn beside<A: Drop, B: Drop>(
    held: A,
    read: Result<B, SyntaxFault>,
) -> Result<(A, B), SyntaxFault>
    ensures { MatchResult result (λ both. (both.0 ≡ held) × (read ≡ Ok both.1))
        (λ fault. read ≡ Err fault) }
{
    match read {
        Ok(read) => Ok((held, read)),
        Err(fault) => Err(fault),
    }
}
