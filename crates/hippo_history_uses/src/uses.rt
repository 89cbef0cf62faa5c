//! Whether a row is about a patient.
ghost use Rattle.std.specs.Prelude.{◌≡◌, option_copied};
ghost use Rattle.hippo_model.specs.Verdicts.{subject_of};
ghost use Rattle.hippo_history_uses.specs.Uses.{is_patients_row};

use hippo_model::{BornRow, Cells, Schema};
use hippo_values::Value;

// The number of the patient whom a row is about; none if the row names none.
fn subject_of<'a>(schema: &Schema, row: &'a Cells) -> Option<&'a i64>
    ensures { option_copied result ≡ subject_of schema.now row.now }
{
    match row.as_slice().get(schema.subject?) {
        Some(Value::Int(number)) => Some(number),
        _ => None,
    }
}

/// Whether a row is about the patient with this number.
pub(crate) fn is_patients_row(patient: &i64, schema: &Schema, kept: &BornRow) -> bool
    ensures { result ≡ is_patients_row patient.now schema.now kept.now }
{
    match subject_of(schema, &kept.row) {
        None => false,
        Some(number) => *patient == *number,
    }
}
