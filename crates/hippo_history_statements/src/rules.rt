//! Users, rules, choices and questions.
ghost use Rattle.std.specs.Prelude.{◌≡◌, ◌++◌, option_copied};
ghost use Rattle.hippo_values_text.specs.Printing.{AppendsText};
ghost use Rattle.hippo_history_statements.specs.Telling.{item_kind_text, item_text, grant_text, rule_text, with_text, retention_text, allow_text, agreed_text, choice_text, asked_text};

use crate::columns::{append_listed, append_named};
use hippo_model::{Column, ItemKind};
use hippo_values::{Memory, Name, RoomyTxt, Txt};
use itoa::Buffer;

fn item_kind_text(kind: ItemKind) -> &'static str
    ensures { result.now ≡ item_kind_text kind }
{
    match kind {
        ItemKind::OptIn => " OPT IN",
        ItemKind::OptOut => " OPT OUT",
    }
}

fn append_ended<const ROOM: usize>(
    words: &str,
    name: &Name,
    remaining: &str,
    out: &mut RoomyTxt<ROOM>,
) -> Result<(), Memory>
    ensures adds { AppendsText (words.now ++ (name.now ++ remaining.now)) result out.old out.new }
{
    append_named(words, name, out)?;
    out.append(remaining)
}

/// Appends a CREATE ITEM.
pub fn append_item<const ROOM: usize>(
    item: &Name,
    kind: ItemKind,
    out: &mut RoomyTxt<ROOM>,
) -> Result<(), Memory>
    ensures adds { AppendsText (item_text item.now kind) result out.old out.new }
{
    append_ended("CREATE ITEM ", item, item_kind_text(kind), out)
}

/// Appends a word, and the user, purpose and recipient of a grant that is made or taken back.
pub fn append_grant<const ROOM: usize>(
    word: &str,
    user: &Name,
    purpose: &Name,
    recipient: &Name,
    out: &mut RoomyTxt<ROOM>,
) -> Result<(), Memory>
    ensures adds { AppendsText (word.now ++ grant_text user.now purpose.now recipient.now)
        result out.old out.new }
{
    append_named(word, user, out)?;
    append_named(" FOR ", purpose, out)?;
    append_named(", ", recipient, out)
}

/// The names in a rule.
#[derive(Clone, Copy)]
pub struct Rule<'a> {
    pub purpose: &'a Name,
    pub recipient: &'a Name,
    pub table: &'a Name,
    pub places: &'a [usize],
}

impl<'a> Rule<'a> {
    /// A rule with these names.
    pub fn new(
        purpose: &'a Name,
        recipient: &'a Name,
        table: &'a Name,
        places: &'a [usize],
    ) -> Rule<'a>
        ensures names { result.purpose.now ≡ purpose.now × result.recipient.now ≡ recipient.now
            × result.table.now ≡ table.now × result.places.now ≡ places.now }
    {
        Rule {
            purpose,
            recipient,
            table,
            places,
        }
    }
}

/// Appends a word and the names in a rule. When out of memory, a prefix of these is appended.
pub fn append_rule<const ROOM: usize>(
    word: &str,
    columns: &[Column],
    rule: &Rule<'_>,
    out: &mut RoomyTxt<ROOM>,
) -> Result<(), Memory>
    ensures adds { AppendsText (word.now
        ++ rule_text columns.now rule.now.purpose.now rule.now.recipient.now rule.now.table.now
        rule.now.places.now) result out.old out.new }
{
    append_named(word, rule.purpose, out)?;
    append_named(" TO ", rule.recipient, out)?;
    append_named(" ON ", rule.table, out)?;
    append_listed(" (", columns, rule.places, ")", out)
}

// Appends the item of a rule, if it has one.
fn append_with<const ROOM: usize>(
    item: Option<&Name>,
    out: &mut RoomyTxt<ROOM>,
) -> Result<(), Memory>
    ensures adds { AppendsText (with_text (option_copied item.entry)) result out.old out.new }
{
    match item {
        None => Ok(()),
        Some(item) => append_named(" WITH ", item, out),
    }
}

// Appends for how many days a rule shows a row's cells, if it has an end.
fn append_retention<const ROOM: usize>(
    days: Option<u32>,
    out: &mut RoomyTxt<ROOM>,
) -> Result<(), Memory>
    ensures adds { AppendsText (retention_text days) result out.old out.new }
{
    match days {
        None => Ok(()),
        Some(days) => {
            out.append(" RETAIN ")?;
            out.append(Buffer::new().format(days))?;
            out.append(" DAYS")
        }
    }
}

/// Appends an ALLOW. When out of memory, a prefix of it is appended.
pub fn append_allow<const ROOM: usize>(
    columns: &[Column],
    rule: &Rule<'_>,
    item: Option<&Name>,
    days: Option<u32>,
    out: &mut RoomyTxt<ROOM>,
) -> Result<(), Memory>
    ensures adds { AppendsText (allow_text columns.now rule.now.purpose.now rule.now.recipient.now
        rule.now.table.now rule.now.places.now (option_copied item.entry) days)
        result out.old out.new }
{
    append_rule("ALLOW ", columns, rule, out)?;
    append_with(item, out)?;
    append_retention(days, out)
}

fn agreed_text(agreed: bool) -> &'static str
    ensures { result.now ≡ agreed_text agreed }
{
    if agreed { " IS YES" } else { " IS NO" }
}

/// Appends the CHOICE of a patient.
pub fn append_choice<const ROOM: usize>(
    subject: &i64,
    item: &Name,
    agreed: bool,
    out: &mut RoomyTxt<ROOM>,
) -> Result<(), Memory>
    ensures adds { AppendsText (choice_text subject.now item.now agreed) result out.old out.new }
{
    out.append("CHOICE ")?;
    out.append(Buffer::new().format(*subject))?;
    append_named(" ON ", item, out)?;
    out.append(agreed_text(agreed))
}

/// Appends a question: its user, its purpose and recipient, and its text.
pub fn append_asked<const ROOM: usize>(
    user: &Name,
    purpose: &Name,
    recipient: &Name,
    text: &Txt,
    out: &mut RoomyTxt<ROOM>,
) -> Result<(), Memory>
    ensures adds { AppendsText (asked_text user.now purpose.now recipient.now text.now)
        result out.old out.new }
{
    append_named("", user, out)?;
    append_named(" ", purpose, out)?;
    append_named(" ", recipient, out)?;
    out.append(" ")?;
    out.append(text.as_str())
}
