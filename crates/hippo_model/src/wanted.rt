//! Changes whose effect depends on the existing rows.
use crate::cells::Cells;
use crate::entry::Act;
use crate::schema::Places;
use hippo_values::Name;

/// A change with correct names and types. Its effect may still depend on the existing rows.
#[derive(Drop)]
pub enum Wanted {
    Ready(Act),
    Add {
        table: Name,
        row: Cells,
        key: Cells,
    },
    Set {
        table: Name,
        key: Cells,
        places: Places,
        values: Cells,
    },
    Remove {
        table: Name,
        key: Cells,
    },
}
