//! A value paired with the result of a check.
ghost use Rattle.std.specs.Prelude.{◌≡◌};
ghost use Rattle.hippo_typing.specs.Pairs.{paired};

use hippo_model::NameFault;

/// The pair of two values, or the fault of the second.
pub fn paired<A: Drop, B: Drop>(first: A, second: Result<B, NameFault>) -> Result<(A, B), NameFault>
    ensures { result ≡ paired first second }
{
    match second {
        Ok(second) => Ok((first, second)),
        Err(fault) => Err(fault),
    }
}
