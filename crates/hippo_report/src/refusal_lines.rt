//! The reply to a line that is not carried out.
ghost use Rattle.std.specs.Prelude.{◌≡◌, None, Some};
ghost use Rattle.hippo_report.specs.Adding.{AddsWithin};
ghost use Rattle.hippo_report.specs.Refusals.{fault_said, refusal_said, detail_text, said_of, refusal_line};

use crate::pieces::{append_pieces, ascii_text};
use crate::refusal::{Detail, Refusal};
use crate::speaker::Speaker;
use hippo_model::NameFault;
use hippo_values::{Memory, RoomyTxt};
use hippo_values_text::moment_text;
use itoa::Buffer;

// The code and name of a refusal of a meaningless statement, and what the refusal names.
fn fault_said(fault: &NameFault) -> (&'static str, Detail<'_>)
    ensures title { result.0.now ≡ (fault_said fault.now).0 }
    ensures detail { detail_text result.1 ≡ (fault_said fault.now).1 }
{
    match fault {
        NameFault::UnknownTable(name) => ("30 UnknownTable", Detail::Text(name.get().as_str())),
        NameFault::UnknownColumn(text) => ("31 UnknownColumn", Detail::Text(text.as_str())),
        NameFault::AmbiguousColumn(name) => (
            "32 AmbiguousColumn",
            Detail::Text(name.get().as_str()),
        ),
        NameFault::UnknownPurpose(name) => ("33 UnknownPurpose", Detail::Text(name.get().as_str())),
        NameFault::UnknownRecipient(name) => (
            "34 UnknownRecipient",
            Detail::Text(name.get().as_str()),
        ),
        NameFault::UnknownItem(name) => ("35 UnknownItem", Detail::Text(name.get().as_str())),
        NameFault::AlreadyThere(name) => ("36 AlreadyThere", Detail::Text(name.get().as_str())),
        NameFault::RepeatedName(name) => ("37 RepeatedName", Detail::Text(name.get().as_str())),
        NameFault::TypeMismatch => ("40 TypeMismatch", Detail::Nothing),
        NameFault::NullNotAllowed(name) => ("41 NullNotAllowed", Detail::Text(name.get().as_str())),
        NameFault::WrongCount(number) => ("42 WrongCount", Detail::Number(*number)),
        NameFault::KeyChanged(name) => ("45 KeyChanged", Detail::Text(name.get().as_str())),
        NameFault::NoSubject(name) => ("46 NoSubject", Detail::Text(name.get().as_str())),
        NameFault::BadText => ("47 BadText", Detail::Nothing),
        NameFault::NotTheKey => ("48 NotTheKey", Detail::Nothing),
        NameFault::TooManyParts(number) => ("50 TooManyParts", Detail::Number(*number)),
        NameFault::BadMoment => ("18 BadMoment", Detail::Nothing),
        NameFault::PeriodBack => ("56 PeriodBack", Detail::Nothing),
        NameFault::NotGrouped(name) => ("60 NotGrouped", Detail::Text(name.get().as_str())),
        NameFault::Memory => ("90 Memory", Detail::Nothing),
    }
}

// The code and name of a refusal, and what it names.
fn refusal_said(refusal: &Refusal) -> (&'static str, Detail<'_>)
    ensures title { result.0.now ≡ (refusal_said refusal.now).0 }
    ensures detail { detail_text result.1 ≡ (refusal_said refusal.now).1 }
{
    match refusal {
        Refusal::BadLine => ("10 BadLine", Detail::Nothing),
        Refusal::LineTooLong => ("11 LineTooLong", Detail::Nothing),
        Refusal::BadToken(place) => ("12 BadToken", Detail::Number(*place as u64)),
        Refusal::BadSyntax => ("13 BadSyntax", Detail::Nothing),
        Refusal::Unsupported(word) => ("14 Unsupported", Detail::Text(word.as_str())),
        Refusal::TooDeep => ("15 TooDeep", Detail::Nothing),
        Refusal::NumberTooLarge(place) => ("16 NumberTooLarge", Detail::Number(*place as u64)),
        Refusal::BadDate(place) => ("17 BadDate", Detail::Number(*place as u64)),
        Refusal::BadMoment => ("18 BadMoment", Detail::Nothing),
        Refusal::MomentBack(moment) => ("19 MomentBack", Detail::Moment(*moment)),
        Refusal::NoSession => ("20 NoSession", Detail::Nothing),
        Refusal::SessionOpen => ("21 SessionOpen", Detail::Nothing),
        Refusal::NotAuthorized(number) => ("23 NotAuthorized", Detail::Number(*number)),
        Refusal::ConsoleOnly => ("24 ConsoleOnly", Detail::Nothing),
        Refusal::SessionsOnly => ("25 SessionsOnly", Detail::Nothing),
        Refusal::Meaningless(fault) => fault_said(fault),
        Refusal::KeyThere(number) => ("43 KeyThere", Detail::Number(*number)),
        Refusal::KeyMissing => ("44 KeyMissing", Detail::Nothing),
        Refusal::TooManyRows => ("51 TooManyRows", Detail::Nothing),
        Refusal::CursorLimit => ("52 CursorLimit", Detail::Nothing),
        Refusal::NoCursor(number) => ("53 NoCursor", Detail::Number(*number)),
        Refusal::JobLimit => ("54 JobLimit", Detail::Nothing),
        Refusal::NoJob(number) => ("55 NoJob", Detail::Number(*number)),
        Refusal::HistoryFull => ("57 HistoryFull", Detail::Nothing),
        Refusal::NoSuchQuery(number) => ("58 NoSuchQuery", Detail::Integer(*number)),
        Refusal::BadRecord => ("61 BadRecord", Detail::Nothing),
        Refusal::BadField(name) => ("62 BadField", Detail::Text(name.get().as_str())),
        Refusal::WatchLimit => ("63 WatchLimit", Detail::Nothing),
        Refusal::NoWatch(number) => ("64 NoWatch", Detail::Number(*number)),
        Refusal::Memory => ("90 Memory", Detail::Nothing),
    }
}

// A refusal that names nothing.
#[tactic(auto, unfolding(crate::specs::Refusals::said_of))]
fn append_plain<const ROOM: usize>(
    who: &str,
    title: &str,
    out: &mut RoomyTxt<ROOM>,
) -> Result<(), Memory>
    ensures { AddsWithin ROOM (said_of who.now title.now None) result out.old out.new }
{
    append_pieces(&[who, " no ", title, "\n"], out)
}

// A refusal that names something.
#[tactic(auto, unfolding(crate::specs::Refusals::said_of))]
fn append_naming<const ROOM: usize>(
    who: &str,
    title: &str,
    detail: &str,
    out: &mut RoomyTxt<ROOM>,
) -> Result<(), Memory>
    ensures { AddsWithin ROOM (said_of who.now title.now (Some detail.now)) result out.old out.new }
{
    append_pieces(&[who, " no ", title, " ", detail, "\n"], out)
}

fn append_said<const ROOM: usize>(
    who: &str,
    title: &str,
    detail: &Detail<'_>,
    out: &mut RoomyTxt<ROOM>,
) -> Result<(), Memory>
    ensures { AddsWithin ROOM (said_of who.now title.now (detail_text detail.now))
        result out.old out.new }
{
    match detail {
        Detail::Nothing => append_plain(who, title, out),
        Detail::Text(text) => append_naming(who, title, text, out),
        Detail::Number(number) => append_naming(who, title, Buffer::new().format(*number), out),
        Detail::Integer(number) => append_naming(who, title, Buffer::new().format(*number), out),
        Detail::Moment(moment) => append_naming(who, title, ascii_text(&moment_text(*moment)), out),
    }
}

fn append_refusal<const ROOM: usize>(
    who: &str,
    refusal: &Refusal,
    out: &mut RoomyTxt<ROOM>,
) -> Result<(), Memory>
    ensures { AddsWithin ROOM (said_of who.now (refusal_said refusal.now).0
        (refusal_said refusal.now).1) result out.old out.new }
{
    let (title, detail) = refusal_said(refusal);
    append_said(who, title, &detail, out)
}

/// Appends the reply to a line that is not carried out: `N no CODE NAME`, followed by what the
/// refusal names. N is the session's number, 0 for the console, and `-` if the line names no
/// session. When out of memory the text is unchanged; within its guaranteed capacity this never
/// happens.
pub fn refusal_line<const ROOM: usize>(
    who: Speaker,
    refusal: &Refusal,
    out: &mut RoomyTxt<ROOM>,
) -> Result<(), Memory>
    ensures { AddsWithin ROOM (refusal_line who refusal.now) result out.old out.new }
{
    match who {
        Speaker::Nobody => append_refusal("-", refusal, out),
        Speaker::Console => append_refusal("0", refusal, out),
        Speaker::Session(number) => append_refusal(Buffer::new().format(number), refusal, out),
    }
}
