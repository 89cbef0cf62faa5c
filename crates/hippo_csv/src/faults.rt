//! Why the fields of a record are not a row.
ghost use Rattle.std.specs.Prelude.{◌≡◌};
ghost use Rattle.hippo_csv.specs.declared.faults.CsvFault.TheVariants as faults;

use hippo_values::Memory;

/// Why the fields of a record are not a row of a table.
#[derive(Clone, Copy, PartialEq, Eq)]
pub enum CsvFault {
    /// The number of fields is not the number of columns.
    Count,
    /// The field at this index, from 0, is the first that does not have its column's form.
    Field(usize),
    /// Out of memory.
    Memory,
}

impl From<Memory> for CsvFault {
    ghost from_gives = { λ _ fault. fault ≡ faults.Memory };

    fn from(_refused: Memory) -> CsvFault {
        CsvFault::Memory
    }
}
