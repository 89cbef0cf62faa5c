//! An access as a CSV record (RFC 4180).
ghost use Rattle.std.specs.Prelude.{◌≡◌, ◌∷◌, ◌++◌, [], decimal, IfOk, OnOk};
ghost use Rattle.csv.specs.Records.{fields_of};
ghost use Rattle.hippo_values_text.specs.Printing.{value_text};
ghost use Rattle.hippo_history_formats.specs.Accesses.{seen_text, denied_text, listed_text, access_fields};

use crate::access::Access;
use crate::records::{push_entry, push_three};
use csv::StringRecord;
use hippo_report::{Printed, append_joined};
use hippo_values::{Memory, Txt};
use std::alloc::Global;

fn listed_text<T: Printed<0>>(alloc: Global, members: &[T]) -> Result<Txt, Memory>
    ensures { IfOk result (λ text. text ≡ listed_text T.text members.now) }
{
    let mut text = Txt::new(alloc);
    append_joined(", ", members, &mut text)?;
    Ok(text)
}

// Adds a field with a list in it.
fn push_listed<T: Printed<0>>(
    alloc: Global,
    fields: &mut StringRecord,
    members: &[T],
) -> Result<(), Memory>
    ensures { OnOk result (fields_of fields.new
        ≡ fields_of fields.old ++ (listed_text T.text members.now ∷ [])) }
{
    let text = listed_text(alloc, members)?;
    fields.push_field(text.as_str())?;
    Ok(())
}

// Adds the entry and the moment of the question, and who asked.
fn push_asker(fields: &mut StringRecord, access: &Access, moment: &str) -> Result<(), Memory>
    ensures { OnOk result (fields_of fields.new ≡ fields_of fields.old
        ++ (decimal access.now.entry ∷ moment.now ∷ access.now.user ∷ access.now.purpose
        ∷ access.now.recipient ∷ [])) }
{
    push_entry(fields, access.entry, moment)?;
    push_three(
        fields,
        access.user.as_str(),
        access.purpose.as_str(),
        access.recipient.as_str(),
    )?;
    Ok(())
}

// Adds the row, what the question saw of it, and what was denied to it.
fn push_row(alloc: Global, fields: &mut StringRecord, access: &Access) -> Result<(), Memory>
    ensures { OnOk result (fields_of fields.new ≡ fields_of fields.old
        ++ (access.now.table ∷ listed_text value_text access.now.key
        ∷ listed_text seen_text access.now.shown ∷ listed_text seen_text access.now.tested
        ∷ listed_text denied_text access.now.denied ∷ [])) }
{
    fields.push_field(access.table.as_str())?;
    push_listed(alloc, fields, access.key.as_slice())?;
    push_listed(alloc, fields, access.shown.as_slice())?;
    push_listed(alloc, fields, access.tested.as_slice())?;
    push_listed(alloc, fields, access.denied.as_slice())
}

/// Returns an access as a record.
pub(crate) fn access_record(
    alloc: Global,
    access: &Access,
    moment: &str,
) -> Result<StringRecord, Memory>
    ensures { IfOk result (λ made. fields_of made ≡ access_fields access.now moment.now) }
{
    let mut fields = StringRecord::new(alloc);
    push_asker(&mut fields, access, moment)?;
    push_row(alloc, &mut fields, access)?;
    Ok(fields)
}
