//! Parts of a statement, and what they name in its tables.
ghost use Rattle.std.specs.Prelude.{map, flat_map};
ghost use Rattle.hippo_typing_catalog.specs.Refusals.{Resolves};

use hippo_model::NameFault;
use hippo_typing_catalog::StatementTables;
use hippo_values::Sequence;
use std::alloc::Global;

/// A part of a statement that names something in the statement's tables.
pub trait Written {
    ghost use Rattle.std.specs.Prelude.{List};
    ghost use Rattle.hippo_model.specs.declared.schema.Schema.{Schema};
    ghost use Rattle.hippo_model.specs.declared.name_fault.NameFault.{NameFault as Refused};
    ghost use Rattle.hippo_typing_catalog.specs.Refusals.{Resolves};

    /// The resolved part.
    type Found: Drop;

    ghost refused: { List Schema → Self → List Refused };

    ghost meant: { List Schema → Self → Self.Found };

    /// The part resolved in the statement's tables, or its first refusal.
    fn find(&self, alloc: Global, tables: &StatementTables<'_>) -> Result<Self::Found, NameFault>
        ensures { Resolves (refused tables.now self.now) (meant tables.now self.now) result };
}

/// Each member of a list resolved in the statement's tables, or the first refusal.
pub fn found_each<W: Written>(
    alloc: Global,
    tables: &StatementTables<'_>,
    written: &[W],
) -> Result<Sequence<W::Found>, NameFault>
    ensures { Resolves (flat_map (W.refused tables.now) written.now)
        (map (W.meant tables.now) written.now) result }
{
    let mut found = Sequence::with_capacity(alloc, written.len())?;
    for member in written {
        found.push(member.find(alloc, tables)?)?;
    }
    Ok(found)
}
