//! Why a parsed statement has no meaning in a history.
ghost use Rattle.std.specs.Prelude.{◌≡◌};
ghost use Rattle.hippo_model.specs.declared.name_fault.NameFault.TheVariants as faults;

use hippo_values::{Boxed, Memory, Name, Txt};
use std::alloc::{AllocError, AllocFailed};

/// Why a grammatical statement has no meaning after the entries so far, with what its refusal
/// names. Names are boxed because results with faults are passed on often.
#[derive(Drop)]
pub enum NameFault {
    /// The table does not exist.
    UnknownTable(Boxed<Name>),
    /// None of the tables that may have the column has it; the column as written, in lower case.
    UnknownColumn(Txt),
    /// The column is written without its table, and more than one of the statement's tables has it.
    AmbiguousColumn(Boxed<Name>),
    /// The purpose does not exist.
    UnknownPurpose(Boxed<Name>),
    /// The recipient does not exist.
    UnknownRecipient(Boxed<Name>),
    /// The item does not exist.
    UnknownItem(Boxed<Name>),
    /// The name is already used by something of the same kind.
    AlreadyThere(Boxed<Name>),
    /// The name appears twice where names must differ.
    RepeatedName(Boxed<Name>),
    /// A literal is not of its column's kind, compared operands differ in kind, or a SUBJECT is not
    /// INTEGER.
    TypeMismatch,
    /// NULL is given for this NOT NULL column.
    NullNotAllowed(Boxed<Name>),
    /// The number of values differs from the table's number of columns, which is given here.
    WrongCount(u64),
    /// The statement sets this column of the key.
    KeyChanged(Boxed<Name>),
    /// A rule names an item for this table, which has no SUBJECT.
    NoSubject(Boxed<Name>),
    /// A quoted text is too long for a column, or has a control character.
    BadText,
    /// The columns in WHERE are not those of the key, each once.
    NotTheKey,
    /// There are more such parts than this limit.
    TooManyParts(u64),
    /// A text in an audit's period is not a moment.
    BadMoment,
    /// An audit's period ends before it begins.
    PeriodBack,
    /// This column is selected but not in GROUP BY, or in GROUP BY but not selected.
    NotGrouped(Boxed<Name>),
    /// Out of memory.
    Memory,
}

impl From<Memory> for NameFault {
    ghost from_gives = { λ _ fault. fault ≡ faults.Memory };

    fn from(_refused: Memory) -> NameFault {
        NameFault::Memory
    }
}

impl From<AllocError> for NameFault {
    ghost from_gives = { λ _ fault. fault ≡ faults.Memory };

    fn from(_refused: AllocError) -> NameFault {
        NameFault::Memory
    }
}

impl<T: Drop> From<AllocFailed<T>> for NameFault {
    ghost from_gives = { λ _ fault. fault ≡ faults.Memory };

    fn from(_refused: AllocFailed<T>) -> NameFault {
        NameFault::Memory
    }
}
