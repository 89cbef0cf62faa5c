//! Values, names, texts and moments, and the lists that hold them.
#![tactic(auto)]

mod boxed;
mod cell_texts;
mod keywords;
mod limits;
mod memory;
mod moments;
mod names;
mod sequence;
mod texts;
mod truths;
mod values;
mod words;

pub use boxed::Boxed;
pub use cell_texts::CellText;
pub use keywords::{Keyword, Reserved, reserved_of};
pub use limits::{
    COLUMN_LIMIT, CURSOR_LIMIT, DEPTH_LIMIT, FETCH_LIMIT, FROM_LIMIT, ITEM_LIMIT, JOB_LIMIT,
    LINE_LIMIT, NAME_LIMIT, PAIR_LIMIT, RETENTION_LIMIT, SESSION_LIMIT, STEP_LIMIT, TABLE_LIMIT,
    TEXT_LIMIT, WATCH_LIMIT,
};
pub use memory::{Duplicate, Memory};
pub use moments::{DayNumber, Moment};
pub use names::{Name, is_name};
pub use sequence::Sequence;
pub use texts::{RoomyTxt, Txt, keeps_text_rule};
pub use truths::{CompareOp, Truth, compare, is_allowed, truth_and, truth_not, truth_or};
pub use values::Value;
pub use words::{Word, read_word};

/// Bytes of any kind.
pub type Bytes = Sequence<u8>;

/// A list of call numbers; calls are counted from 1.
pub type Calls = Sequence<u64>;
