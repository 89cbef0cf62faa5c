//! Checks that purposes and recipients exist.
ghost use Rattle.hippo_typing_catalog.specs.Refusals.{Resolves, unknown_purpose, unknown_recipient, unknown_pair};

use crate::catalog::Catalog;
use crate::name_faults;
use hippo_model::NameFault;
use hippo_values::Name;
use std::alloc::Global;

fn check_purpose(alloc: Global, catalog: &Catalog, purpose: &Name) -> Result<(), NameFault>
    ensures { Resolves (unknown_purpose catalog.now.names purpose.now) tt result }
{
    if catalog.has_purpose(purpose) {
        return Ok(());
    }
    Err(name_faults::unknown_purpose(alloc, purpose))
}

fn check_recipient(alloc: Global, catalog: &Catalog, recipient: &Name) -> Result<(), NameFault>
    ensures { Resolves (unknown_recipient catalog.now.names recipient.now) tt result }
{
    if catalog.has_recipient(recipient) {
        return Ok(());
    }
    Err(name_faults::unknown_recipient(alloc, recipient))
}

/// Checks that a purpose and a recipient exist.
pub fn check_pair(
    alloc: Global,
    catalog: &Catalog,
    purpose: &Name,
    recipient: &Name,
) -> Result<(), NameFault>
    ensures { Resolves (unknown_pair catalog.now.names purpose.now recipient.now) tt result }
{
    check_purpose(alloc, catalog, purpose)?;
    check_recipient(alloc, catalog, recipient)
}
