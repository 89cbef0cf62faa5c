//! Checks for names that appear twice.
ghost use Rattle.std.specs.Prelude.{◌≡◌, bytes_eq};
ghost use Rattle.std.specs.List.{list_any};
ghost use Rattle.hippo_typing_catalog.specs.Refusals.{Resolves, repeated_names};

use crate::name_faults;
use hippo_model::NameFault;
use hippo_values::Name;
use indexmap::IndexSet;
use std::alloc::Global;

// Up to this many names, compare each with those before it: that is faster than a set.
const FEW_NAMES: usize = 8;

// Refuses a name that appears twice, for any number of names.
fn check_several(alloc: Global, names: &[Name]) -> Result<(), NameFault>
    ensures { Resolves (repeated_names names.now) tt result }
{
    let mut before = IndexSet::new(alloc);
    for name in names {
        if before.contains(&name) {
            return Err(name_faults::repeated_name(alloc, name));
        }
        before.insert(name)?;
    }
    Ok(())
}

fn stands_among(names: &[Name], name: &Name) -> bool
    ensures { result ≡ list_any (bytes_eq name.now) names.now }
{
    names.iter().any(|known| *name == *known)
}

// Refuses a name that appears twice, for few names.
fn check_few(alloc: Global, names: &[Name]) -> Result<(), NameFault>
    ensures { Resolves (repeated_names names.now) tt result }
{
    for (place, name) in names.iter().enumerate() {
        if stands_among(&names[..place], name) {
            return Err(name_faults::repeated_name(alloc, name));
        }
    }
    Ok(())
}

/// Refuses a list in which a name appears twice.
pub fn check_repeats(alloc: Global, names: &[Name]) -> Result<(), NameFault>
    ensures { Resolves (repeated_names names.now) tt result }
{
    if names.len() <= FEW_NAMES {
        return check_few(alloc, names);
    }
    check_several(alloc, names)
}
