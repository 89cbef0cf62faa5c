//! Decodes the stored form of an entry.
ghost use Rattle.std.specs.Prelude.{◌≡◌, ◌↔◌, IsTrue, IfOk};
ghost use Rattle.std.specs.Bool.{then_some};
ghost use Rattle.std.specs.Result.{result_map_both};
ghost use Rattle.hippo_entry.specs.Forms.{HasForm, IsEntryOf};

use hippo_entry_codec::{Fault, Keepable, encode, read_entry};
use hippo_model::{Entry, StoredEntry};
use hippo_values::Memory;
use std::alloc::Global;

fn is_same(form: &StoredEntry, kept: &StoredEntry) -> bool
    ensures { IsTrue result ↔ (form.now ≡ kept.now) }
{
    form.seq == kept.seq
        && form.moment == kept.moment
        && form.kind == kept.kind
        && form.table.as_str() == kept.table.as_str()
        && form.body.as_slice() == kept.body.as_slice()
}

// What was read counts only if it can be stored and has exactly this stored form. No other spelling
// of an entry is accepted.
fn has_form(alloc: Global, entry: &Entry, kept: &StoredEntry) -> Result<bool, Memory>
    ensures { IfOk result (λ same. IsTrue same ↔ HasForm kept.now entry.now) }
{
    if !entry.is_keepable() {
        return Ok(false);
    }
    let form = encode(alloc, entry)?;
    Ok(is_same(&form, kept))
}

// The value, if the test holds.
fn only_if<T: Drop>(test: Result<bool, Memory>, value: T) -> Result<Option<T>, Memory>
    ensures { result ≡ result_map_both (λ holds. then_some holds value) (λ fault. fault) test }
{
    if test? { Ok(Some(value)) } else { Ok(None) }
}

/// The entry that can be stored and has this stored form; none exactly when no entry has it. The
/// only error is out of memory. The time is linear in the length of the form. A count in the form
/// never allocates memory before the bytes that it counts are present.
pub fn decode(alloc: Global, kept: &StoredEntry) -> Result<Option<Entry>, Memory>
    ensures found { IfOk result (IsEntryOf kept.now) }
{
    match read_entry(alloc, kept.body.as_slice()) {
        Ok((entry, _)) => only_if(has_form(alloc, &entry, kept), entry),
        Err(Fault::NoPart) => Ok(None),
        Err(Fault::Memory) => Err(Memory),
    }
}
