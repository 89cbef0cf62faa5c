//! What every examiner needs from the entry of a logged query, and how it returns its result.
ghost use Rattle.std.specs.Prelude.{◌≡◌, Ok as Good, IfOk, IfErr};
ghost use Rattle.hippo_backlog.specs.declared.faults.ReadFault.TheVariants.{Memory as NoMemory};
ghost use Rattle.hippo_combine.specs.Asked.{AreRulesAsked};

use hippo_backlog::ReadFault;
use hippo_model::{Act, Entry, LentSchemas, RulesInForce};
use hippo_policy::PolicyBook;
use hippo_values::Memory;
use std::alloc::Global;

/// Returns the rules in force of each table, by the first `number` entries, for the purpose, the
/// recipient and the moment of a logged query. `None` if the entry is not a logged query.
pub fn rules_asked(
    alloc: Global,
    book: &PolicyBook,
    number: u64,
    entry: &Entry,
    schemas: &LentSchemas<'_>,
) -> Result<Option<RulesInForce>, Memory>
    ensures { IfOk result (AreRulesAsked book.now number entry.now schemas.now) }
{
    let Act::Asked {
        purpose,
        recipient,
        ..
    } = &entry.act
    else {
        return Ok(None);
    };
    let rules = book.rules_in_force(alloc, number, entry.moment, purpose, recipient, schemas)?;
    Ok(Some(rules))
}

/// The result of an allocating call as that of a read. Its only fault is `Memory`.
pub fn as_read<T>(made: Result<T, Memory>) -> Result<T, ReadFault>
    ensures memory { IfErr result (λ fault. fault ≡ NoMemory) }
    ensures same { IfOk result (λ value. made ≡ Good value) }
{
    match made {
        Ok(value) => Ok(value),
        Err(Memory) => Err(ReadFault::Memory),
    }
}
