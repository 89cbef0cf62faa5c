//! Whether an entry can be stored: the checks that the types of its parts do not make.
ghost use Rattle.std.specs.Prelude.{◌≡◌, ◌&&◌, nat_le, nat_lt};
ghost use Rattle.std.specs.List.{list_all};
ghost use Rattle.hippo_values.specs.Moments.{is_day, is_moment, is_signed_number};
ghost use Rattle.hippo_model.specs.Keepable.{is_folded_name, is_text, cells_are_keepable, columns_are_keepable};
ghost use Rattle.hippo_model.specs.Keepable.{key_is_keepable, subject_is_keepable, days_are_keepable, item_is_keepable};
ghost use Rattle.hippo_model.specs.Keepable.{places_are_keepable, question_is_keepable};
ghost use Rattle.hippo_entry_codec.specs.Names.{names_are_keepable};

use crate::names::three_names;
use hippo_model::{Act, Cells, Column, Columns, Entry, Places, Schema};
use hippo_values::{
    COLUMN_LIMIT, DayNumber, LINE_LIMIT, Moment, Name, Sequence, TEXT_LIMIT, Txt, Value,
};

// The most members of a list: its count is one byte.
const COUNT_LIMIT: usize = 255;

/// A part of an entry that may not fit in the stored form.
pub trait Keepable {
    ghost use Rattle.std.specs.Prelude.{◌≡◌, Bool};

    ghost keepable: { Self → Bool };

    /// Whether the part can be stored.
    fn is_keepable(&self) -> bool
        ensures { result ≡ keepable self.now };
}

fn are_keepable<T: Keepable>(members: &[T]) -> bool
    ensures { result ≡ list_all T.keepable members.now }
{
    members.iter().all(|member| member.is_keepable())
}

impl<T: Keepable> Keepable for Sequence<T> {
    ghost use Rattle.std.specs.Prelude.{◌&&◌};
    ghost use Rattle.std.specs.List.{list_all};
    ghost use Rattle.hippo_model.specs.Keepable.{has_count};

    ghost keepable = { λ members. has_count members && list_all T.keepable members };

    fn is_keepable(&self) -> bool {
        self.len() <= COUNT_LIMIT && are_keepable(self.as_slice())
    }
}

fn is_short(length: usize) -> bool
    ensures { result ≡ nat_le 1 length && nat_le length 64 }
{
    length >= 1 && length <= COLUMN_LIMIT
}

// The types guarantee that a name is in lower case, a day or moment is of the years 0001 to 9999, a
// text is UTF-8, a number has 64 bits and a number of days 32. Where the definition requires no
// more, there is nothing to check.
impl Keepable for Name {
    ghost use Rattle.hippo_model.specs.Keepable.{is_folded_name};

    ghost keepable = { is_folded_name };

    fn is_keepable(&self) -> bool {
        let _word = self.as_str();
        true
    }
}

impl Keepable for usize {
    ghost use Rattle.hippo_model.specs.Keepable.{is_place};

    ghost keepable = { is_place };

    fn is_keepable(&self) -> bool {
        *self <= COUNT_LIMIT
    }
}

fn is_text(limit: usize, text: &str) -> bool
    ensures { result ≡ is_text limit text.now }
{
    text.len() <= limit
}

fn is_number(_number: i64) -> bool
    ensures { result ≡ is_signed_number _number }
{
    true
}

fn is_count(_number: u64) -> bool
    ensures { result ≡ nat_lt _number 18446744073709551616 }
{
    true
}

fn days_are_keepable(days: Option<u32>) -> bool
    ensures { result ≡ days_are_keepable days }
{
    match days {
        None | Some(_) => true,
    }
}

fn is_day(day: DayNumber) -> bool
    ensures { result ≡ is_day day }
{
    let _number = day.day();
    true
}

fn is_moment(moment: Moment) -> bool
    ensures { result ≡ is_moment moment }
{
    let _seconds = moment.seconds();
    true
}

impl Keepable for Value {
    ghost use Rattle.hippo_model.specs.Keepable.{value_is_keepable};

    ghost keepable = { value_is_keepable };

    fn is_keepable(&self) -> bool {
        match self {
            Value::Null => true,
            Value::Int(number) => is_number(*number),
            Value::Text(text) => is_text(TEXT_LIMIT, text.as_str()),
            Value::Day(day) => is_day(*day),
        }
    }
}

impl Keepable for Column {
    ghost use Rattle.hippo_model.specs.Keepable.{is_folded_name};

    ghost keepable = { λ column. is_folded_name column.name };

    fn is_keepable(&self) -> bool {
        self.name.is_keepable()
    }
}

fn columns_are_keepable(columns: &Columns) -> bool
    ensures { result ≡ columns_are_keepable columns.now }
{
    is_short(columns.len()) && are_keepable(columns.as_slice())
}

fn key_is_keepable(key: &Places) -> bool
    ensures { result ≡ key_is_keepable key.now }
{
    is_short(key.len()) && are_keepable(key.as_slice())
}

fn subject_is_keepable(subject: Option<usize>) -> bool
    ensures { result ≡ subject_is_keepable subject }
{
    match subject {
        None => true,
        Some(place) => place < COUNT_LIMIT,
    }
}

impl Keepable for Schema {
    ghost use Rattle.hippo_model.specs.Keepable.{schema_is_keepable};

    ghost keepable = { schema_is_keepable };

    fn is_keepable(&self) -> bool {
        self.name.is_keepable()
            && columns_are_keepable(&self.columns)
            && key_is_keepable(&self.key)
            && subject_is_keepable(self.subject)
    }
}

fn row_is_keepable(table: &Name, row: &Cells) -> bool
    ensures { result ≡ is_folded_name table.now && cells_are_keepable row.now }
{
    table.is_keepable() && row.is_keepable()
}

fn item_is_keepable(item: &Option<Name>) -> bool
    ensures { result ≡ item_is_keepable item.now }
{
    match item {
        None => true,
        Some(name) => name.is_keepable(),
    }
}

fn question_is_keepable(text: &Txt) -> bool
    ensures { result ≡ question_is_keepable text.now }
{
    text.len() >= 1 && is_text(LINE_LIMIT, text.as_str())
}

fn are_names(first: &Name, second: &Name, third: &Name) -> bool
    ensures { result ≡ is_folded_name first.now && is_folded_name second.now
        && is_folded_name third.now }
{
    first.is_keepable() && second.is_keepable() && third.is_keepable()
}

// Whether the three names that come first in an act can be stored, if it has them.
fn names_are_keepable(act: &Act) -> bool
    ensures { result ≡ names_are_keepable act.now }
{
    match three_names(act) {
        None => true,
        Some((first, second, third)) => are_names(first, second, third),
    }
}

fn rule_is_keepable(act: &Act, columns: &Places) -> bool
    ensures { result ≡ names_are_keepable act.now && places_are_keepable columns.now }
{
    names_are_keepable(act) && columns.is_keepable()
}

impl Keepable for Act {
    ghost use Rattle.hippo_model.specs.Keepable.{act_is_keepable};

    ghost keepable = { act_is_keepable };

    fn is_keepable(&self) -> bool {
        match self {
            Act::Create(schema) => schema.is_keepable(),
            Act::Insert { table, row } | Act::Update { table, row } => row_is_keepable(table, row),
            Act::Delete { table, key } => row_is_keepable(table, key),
            Act::Purpose(name) | Act::Recipient(name) => name.is_keepable(),
            Act::Item { item, .. } => item.is_keepable(),
            Act::Authorize { .. } | Act::Deauthorize { .. } => names_are_keepable(self),
            Act::Allow {
                columns,
                item,
                days,
                ..
            } => {
                rule_is_keepable(self, columns)
                    && item_is_keepable(item)
                    && days_are_keepable(*days)
            }
            Act::Revoke { columns, .. } => rule_is_keepable(self, columns),
            Act::Choice { subject, item, .. } => is_number(*subject) && item.is_keepable(),
            Act::Asked { text, .. } => names_are_keepable(self) && question_is_keepable(text),
        }
    }
}

impl Keepable for Entry {
    ghost use Rattle.hippo_model.specs.Keepable.{is_keepable};

    ghost keepable = { is_keepable };

    fn is_keepable(&self) -> bool {
        is_count(self.seq) && is_moment(self.moment) && self.act.is_keepable()
    }
}
