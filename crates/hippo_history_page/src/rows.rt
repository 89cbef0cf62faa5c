//! Rows of a page's tables.
ghost use Rattle.std.specs.Prelude.{◌≡◌, [], ◌∷◌, ◌++◌, map, IfOk, OnOk};
ghost use Rattle.hippo_values_text.specs.Dates.{day_text};
ghost use Rattle.hippo_history_formats.specs.Accesses.{listed_text};
ghost use Rattle.hippo_history_page.specs.Pages.{text_cells, text_row, bar_cell, count_row, asker_row, day_row, access_row};

use crate::counting::{DayCount, asker_count};
use crate::escaping::append_escaped;
use crate::words::{bar_end, bar_middle, bar_start, cell_end, cell_start, row_end, row_start};
use hippo_history_formats::{Access, append_moment};
use hippo_report::{Printed, append_joined, ascii_text};
use hippo_values::{Memory, Txt};
use hippo_values_text::day_text;
use itoa::Buffer;
use std::alloc::Global;

fn append_cells(texts: &[&str], out: &mut Txt) -> Result<(), Memory>
    ensures { OnOk result (out.new ≡ out.old ++ text_cells (map (λ text. text.now) texts.now)) }
{
    for text in texts {
        out.append(cell_start())?;
        append_escaped(text, out)?;
        out.append(cell_end())?;
    }
    Ok(())
}

fn append_row(texts: &[&str], out: &mut Txt) -> Result<(), Memory>
    ensures { OnOk result (out.new ≡ out.old ++ text_row (map (λ text. text.now) texts.now)) }
{
    out.append(row_start())?;
    append_cells(texts, out)?;
    out.append(row_end())
}

fn append_bar(total: usize, count: usize, out: &mut Txt) -> Result<(), Memory>
    ensures { OnOk result (out.new ≡ out.old ++ bar_cell total count) }
{
    out.append(bar_start())?;
    out.append(Buffer::new().format(total))?;
    out.append(bar_middle())?;
    out.append(Buffer::new().format(count))?;
    out.append(bar_end())
}

// Appends a row of texts, with how many accesses of all it stands for.
fn append_counted(texts: &[&str], total: usize, count: usize, out: &mut Txt) -> Result<(), Memory>
    ensures { OnOk result (out.new
        ≡ out.old ++ count_row (map (λ text. text.now) texts.now) total count) }
{
    out.append(row_start())?;
    append_cells(texts, out)?;
    append_cells(&[Buffer::new().format(count)], out)?;
    append_bar(total, count, out)?;
    out.append(row_end())
}

/// Appends the row of a user and a purpose, by one of their accesses.
#[tactic(auto, unfolding(crate::specs::Pages::asker_row))]
pub(crate) fn append_asker(
    accesses: &[Access],
    access: &Access,
    out: &mut Txt,
) -> Result<(), Memory>
    ensures { OnOk result (out.new ≡ out.old ++ asker_row accesses.now access.now) }
{
    let count = asker_count(accesses, access);
    append_counted(
        &[access.user.as_str(), access.purpose.as_str()],
        accesses.len(),
        count,
        out,
    )
}

/// Appends the row of a day.
#[tactic(auto, unfolding(crate::specs::Pages::day_row))]
pub(crate) fn append_day(
    accesses: &[Access],
    counted: &DayCount,
    out: &mut Txt,
) -> Result<(), Memory>
    ensures { OnOk result (out.new
        ≡ out.old ++ day_row accesses.now (counted.now.day, counted.now.count)) }
{
    let day = day_text(counted.day);
    append_counted(&[ascii_text(&day)], accesses.len(), counted.count, out)
}

// The members of a list with commas between them.
fn listed<T: Printed<0>>(alloc: Global, members: &[T]) -> Result<Txt, Memory>
    ensures { IfOk result (λ text. text ≡ listed_text T.text members.now) }
{
    let mut text = Txt::new(alloc);
    append_joined(", ", members, &mut text)?;
    Ok(text)
}

/// Appends the row of an access.
#[tactic(auto, unfolding(crate::specs::Pages::access_row))]
pub(crate) fn append_access(alloc: Global, access: &Access, out: &mut Txt) -> Result<(), Memory>
    ensures { OnOk result (out.new ≡ out.old ++ access_row access.now) }
{
    let mut moment = Txt::new(alloc);
    append_moment(&access.moment, &mut moment)?;
    let key = listed(alloc, access.key.as_slice())?;
    let shown = listed(alloc, access.shown.as_slice())?;
    let tested = listed(alloc, access.tested.as_slice())?;
    let denied = listed(alloc, access.denied.as_slice())?;
    append_row(
        &[
            Buffer::new().format(access.entry),
            moment.as_str(),
            access.user.as_str(),
            access.purpose.as_str(),
            access.recipient.as_str(),
            access.table.as_str(),
            key.as_str(),
            shown.as_str(),
            tested.as_str(),
            denied.as_str(),
        ],
        out,
    )
}
