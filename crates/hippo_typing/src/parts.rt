//! The limits on the parts of a statement.
ghost use Rattle.hippo_typing_catalog.specs.Refusals.{Resolves};
ghost use Rattle.hippo_typing_catalog.specs.StatementLimits.{too_many};

use hippo_model::NameFault;

/// Refuses more parts than the limit.
pub fn check_count(limit: usize, count: usize) -> Result<(), NameFault>
    ensures { Resolves (too_many limit count) tt result }
{
    if count > limit {
        return Err(NameFault::TooManyParts(limit as u64));
    }
    Ok(())
}
