//! What was disclosed of a patient, as an HTML page.
ghost use Rattle.std.specs.Prelude.{◌≡◌, ◌++◌, length, map, flat_map, OnOk, codes, decimal};
ghost use Rattle.std.specs.Fmt.{signed_decimal};
ghost use Rattle.hippo_history_page.specs.Pages.{entry_words, page_title, page_period, page_head, asker_row, day_row, access_row, askers_part, days_part, records_part, page};

use crate::counting::{DayCount, days, firsts};
use crate::escaping::append_escaped;
use crate::rows::{append_access, append_asker, append_day};
use crate::words::{
    askers_start, days_start, heading_start, page_close, period_end, period_middle, period_start,
    records_start, title_start,
};
use hippo_history_formats::Access;
use hippo_values::{Memory, Txt};
use itoa::Buffer;
use std::alloc::Global;

// The highest number of an entry.
const LAST_ENTRY: u64 = 4_000_000;

/// What a page is about: the number of a patient, and the ends of the stretch of entries, in words.
#[derive(Clone, Copy)]
pub struct Asked<'a> {
    pub patient: i64,
    pub first: &'a str,
    pub last: &'a str,
}

fn append_entry(number: u64, out: &mut Txt) -> Result<(), Memory>
    ensures { OnOk result (out.new ≡ out.old ++ (codes "entry " ++ decimal number)) }
{
    out.append("entry ")?;
    out.append(Buffer::new().format(number))
}

/// Appends an end of a stretch of entries by its number, in words. The highest number is that of
/// the last entry.
pub fn append_entry_words(number: u64, out: &mut Txt) -> Result<(), Memory>
    ensures { OnOk result (out.new ≡ out.old ++ entry_words number) }
{
    if number == LAST_ENTRY {
        out.append("the last entry")
    } else {
        append_entry(number, out)
    }
}

fn append_number(number: i64, out: &mut Txt) -> Result<(), Memory>
    ensures { OnOk result (out.new ≡ out.old ++ signed_decimal number) }
{
    out.append(Buffer::new().format(number))
}

// Appends the title and the heading, which name the patient.
fn append_title(patient: i64, out: &mut Txt) -> Result<(), Memory>
    ensures { OnOk result (out.new ≡ out.old ++ page_title patient) }
{
    out.append(title_start())?;
    append_number(patient, out)?;
    out.append(heading_start())?;
    append_number(patient, out)
}

// Appends the ends of the stretch of entries, and the number of accesses.
fn append_period(first: &str, last: &str, count: usize, out: &mut Txt) -> Result<(), Memory>
    ensures { OnOk result (out.new ≡ out.old ++ page_period first.now last.now count) }
{
    out.append(period_start())?;
    append_escaped(first, out)?;
    out.append(period_middle())?;
    append_escaped(last, out)?;
    out.append(period_end())?;
    out.append(Buffer::new().format(count))
}

fn append_head(asked: &Asked<'_>, count: usize, out: &mut Txt) -> Result<(), Memory>
    ensures { OnOk result (out.new ≡ out.old
        ++ page_head asked.now.patient asked.now.first.now asked.now.last.now count) }
{
    append_title(asked.patient, out)?;
    append_period(asked.first, asked.last, count, out)
}

fn append_asker_rows(accesses: &[Access], firsts: &[&Access], out: &mut Txt) -> Result<(), Memory>
    ensures { OnOk result (out.new ≡ out.old
        ++ flat_map (asker_row accesses.now) (map (λ one. one.now) firsts.now)) }
{
    for first in firsts {
        append_asker(accesses, first, out)?;
    }
    Ok(())
}

fn append_askers(alloc: Global, accesses: &[Access], out: &mut Txt) -> Result<(), Memory>
    ensures { OnOk result (out.new ≡ out.old ++ askers_part accesses.now) }
{
    let found = firsts(alloc, accesses)?;
    out.append(askers_start())?;
    append_asker_rows(accesses, &found, out)
}

fn append_day_rows(accesses: &[Access], counted: &[DayCount], out: &mut Txt) -> Result<(), Memory>
    ensures { OnOk result (out.new ≡ out.old
        ++ flat_map (day_row accesses.now) (map (λ one. (one.day, one.count)) counted.now)) }
{
    for one in counted {
        append_day(accesses, one, out)?;
    }
    Ok(())
}

fn append_days(alloc: Global, accesses: &[Access], out: &mut Txt) -> Result<(), Memory>
    ensures { OnOk result (out.new ≡ out.old ++ days_part accesses.now) }
{
    let counted = days(alloc, accesses)?;
    out.append(days_start())?;
    append_day_rows(accesses, counted.as_slice(), out)
}

fn append_access_rows(alloc: Global, accesses: &[Access], out: &mut Txt) -> Result<(), Memory>
    ensures { OnOk result (out.new ≡ out.old ++ flat_map access_row accesses.now) }
{
    for access in accesses {
        append_access(alloc, access, out)?;
    }
    Ok(())
}

fn append_records(alloc: Global, accesses: &[Access], out: &mut Txt) -> Result<(), Memory>
    ensures { OnOk result (out.new ≡ out.old ++ records_part accesses.now) }
{
    out.append(records_start())?;
    append_access_rows(alloc, accesses, out)
}

/// Appends the page about these accesses, which are in the order of their moments.
pub fn append_page(
    alloc: Global,
    asked: &Asked<'_>,
    accesses: &[Access],
    out: &mut Txt,
) -> Result<(), Memory>
    ensures { OnOk result (out.new ≡ out.old
        ++ page asked.now.patient asked.now.first.now asked.now.last.now accesses.now) }
{
    append_head(asked, accesses.len(), out)?;
    append_askers(alloc, accesses, out)?;
    append_days(alloc, accesses, out)?;
    append_records(alloc, accesses, out)?;
    out.append(page_close())
}
