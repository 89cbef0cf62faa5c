//! What was disclosed of a patient, one line for each access or as a page.
ghost use Rattle.std.specs.Prelude.{◌≡◌, ◌++◌, [], ◌∷◌, flat_map, IfOk, OnOk};
ghost use Rattle.hippo_model.specs.Terms.{History};
ghost use Rattle.hippo_history_formats.specs.Accesses.{access_line};
ghost use Rattle.hippo_history_page.specs.Pages.{page};
ghost use Rattle.hippo_history_top.specs.Inquiring.{is_inquired, accesses_shown, bound_words, inquiry_shown, FindsAccesses};

use crate::asking::{Bound, Inquiry, Layout};
use crate::gathering::Gather;
use crate::scope::{is_from, is_to};
use hippo_audit_job::Past;
use hippo_history_formats::{Access, access_header, append_access, append_moment};
use hippo_history_page::{Asked, append_entry_words, append_page};
use hippo_history_uses::Disclosures;
use hippo_model::Entry;
use hippo_report::Format;
use hippo_values::{Memory, Txt};
use std::alloc::Global;

/// What is searched for: the accesses that an inquiry asks for, in a history of which this is known.
#[derive(Clone, Copy)]
pub(crate) struct Sought<'a> {
    pub past: Past<'a>,
    pub inquiry: &'a Inquiry,
}

fn is_inquired(inquiry: &Inquiry, entry: &Entry) -> bool
    ensures { result ≡ is_inquired inquiry.now entry.now }
{
    is_from(inquiry.first, entry) && is_to(inquiry.last, entry)
}

// Goes on over the next entry.
fn add(
    alloc: Global,
    sought: &Sought<'_>,
    entry: &Entry,
    found: &mut Disclosures,
) -> Result<(), Memory>
    ensures covers { OnOk result ((read : History) → FindsAccesses sought.now found.old read
        → FindsAccesses sought.now found.new (read ++ entry.now ∷ [])) }
{
    let within = is_inquired(sought.inquiry, entry);
    found.take_in(alloc, &sought.past, entry, within)
}

impl<'a> Gather<Sought<'a>> for Disclosures {
    ghost use Rattle.hippo_history_page.specs.Pages.{page};
    ghost use Rattle.hippo_history_top.specs.Inquiring.{FindsAccesses};

    ghost Covers = { λ found sought read. FindsAccesses sought found read };

    fn cover(&mut self, alloc: Global, asked: &Sought<'a>, entry: &Entry) -> Result<(), Memory> {
        add(alloc, asked, entry, self)
    }
}

fn append_lines(
    alloc: Global,
    format: Format,
    accesses: &[Access],
    out: &mut Txt,
) -> Result<(), Memory>
    ensures { OnOk result (out.new ≡ out.old ++ flat_map (access_line format) accesses.now) }
{
    for access in accesses {
        append_access(alloc, format, access, out)?;
    }
    Ok(())
}

// Appends what stands before all lines, and then a line for each access.
fn append_accesses(
    alloc: Global,
    format: Format,
    accesses: &[Access],
    out: &mut Txt,
) -> Result<(), Memory>
    ensures { OnOk result (out.new ≡ out.old ++ accesses_shown format accesses.now) }
{
    out.append(access_header(format))?;
    append_lines(alloc, format, accesses, out)
}

// An end of a stretch of entries, in words.
fn bound_words(alloc: Global, bound: &Bound) -> Result<Txt, Memory>
    ensures { IfOk result (λ text. text ≡ bound_words bound.now) }
{
    let mut text = Txt::new(alloc);
    match bound {
        Bound::Number(number) => append_entry_words(*number, &mut text)?,
        Bound::At(moment) => append_moment(moment, &mut text)?,
    }
    Ok(text)
}

// Appends the page about the accesses.
fn append_html(
    alloc: Global,
    inquiry: &Inquiry,
    accesses: &[Access],
    out: &mut Txt,
) -> Result<(), Memory>
    ensures { OnOk result (out.new ≡ out.old ++ page inquiry.now.patient
        (bound_words inquiry.now.first) (bound_words inquiry.now.last) accesses.now) }
{
    let first = bound_words(alloc, &inquiry.first)?;
    let last = bound_words(alloc, &inquiry.last)?;
    let asked = Asked {
        patient: inquiry.patient,
        first: first.as_str(),
        last: last.as_str(),
    };
    append_page(alloc, &asked, accesses, out)
}

/// Appends the accesses as an inquiry asks for them.
pub(crate) fn append_inquired(
    alloc: Global,
    inquiry: &Inquiry,
    accesses: &[Access],
    out: &mut Txt,
) -> Result<(), Memory>
    ensures { OnOk result (out.new ≡ out.old ++ inquiry_shown inquiry.now accesses.now) }
{
    match inquiry.layout {
        Layout::Lines(format) => append_accesses(alloc, format, accesses, out),
        Layout::Html => append_html(alloc, inquiry, accesses, out),
    }
}
