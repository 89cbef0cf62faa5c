//! An authorization as a line in each format.
ghost use Rattle.std.specs.Prelude.{◌≡◌, ◌++◌, OnOk, codes};
ghost use Rattle.hippo_history_formats.specs.Formats.{grant_words, grant_line};

use crate::objects::grant_json;
use crate::records::{append_record, grant_record};
use crate::told::{append_text_line, moment_of};
use hippo_report::Format;
use hippo_values::{Memory, Moment, Name, Txt};
use itoa::Buffer;
use std::alloc::Global;

/// An authorization: the number and the moment of the entry that gave it, and who may ask for which
/// purpose and recipient.
#[derive(Drop)]
pub struct Grant {
    pub entry: u64,
    pub moment: Moment,
    pub user: Name,
    pub purpose: Name,
    pub recipient: Name,
}

/// Appends a space and a word.
pub(crate) fn append_word(word: &str, out: &mut Txt) -> Result<(), Memory>
    ensures { OnOk result (out.new ≡ out.old ++ (codes " " ++ word.now)) }
{
    out.append(" ")?;
    out.append(word)
}

fn append_text(grant: &Grant, moment: &str, out: &mut Txt) -> Result<(), Memory>
    ensures { OnOk result (out.new ≡ out.old ++ grant_words grant.now.entry moment.now
        grant.now.user grant.now.purpose grant.now.recipient) }
{
    out.append(Buffer::new().format(grant.entry))?;
    append_word(moment, out)?;
    append_word(grant.user.as_str(), out)?;
    append_word(grant.purpose.as_str(), out)?;
    append_word(grant.recipient.as_str(), out)?;
    out.append("\n")
}

/// Appends an authorization as a line in a format.
pub fn append_grant(
    alloc: Global,
    format: Format,
    grant: &Grant,
    out: &mut Txt,
) -> Result<(), Memory>
    ensures { OnOk result (out.new ≡ out.old
        ++ grant_line format grant.now.entry grant.now.moment grant.now.user grant.now.purpose
        grant.now.recipient) }
{
    let moment = moment_of(alloc, &grant.moment)?;
    match format {
        Format::Text => append_text(grant, moment.as_str(), out),
        Format::Json => {
            let text = grant_json(alloc, grant, moment.as_str())?;
            append_text_line(text.as_str(), out)
        }
        Format::Csv => {
            let fields = grant_record(alloc, grant, moment.as_str())?;
            append_record(alloc, &fields, out)
        }
    }
}
