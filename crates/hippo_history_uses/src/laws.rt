//! Laws on the accesses to a patient's rows: whose they are, and which audits flag them.
ghost use Rattle.hippo_history_uses.specs.UseLaws.{AccessesAreByQuestions, AccessesAreInEntryOrder, ColumnsAreThoseSeen, FlagsSayWhatIsSeen, AuditsFlagAccesses};

use hippo_audit_search::laws::audit_needs_what_it_has;

/// Each access is by a logged query of the stretch that is asked for.
pub fn accesses_are_by_questions()
    ensures { AccessesAreByQuestions }
{}

/// The accesses of a valid history are in the order of their entries.
pub fn accesses_are_in_entry_order()
    ensures { AccessesAreInEntryOrder }
{}

/// An access has a column among `shown` or `tested` exactly where the query names the column and is
/// shown the cell.
pub fn columns_are_those_seen()
    ensures { ColumnsAreThoseSeen }
{}

/// `DURING .. AUDIT SHOWN column FROM table WHERE ..` with the key of a row flags a query of its
/// period exactly where the query names the column, used the row, and was shown the cell.
pub fn flags_say_what_is_seen()
    ensures { FlagsSayWhatIsSeen }
{
    audit_needs_what_it_has();
}

/// For a valid history: an access by a logged query of the stretch to a patient's row has a column
/// among `shown` or `tested` exactly where `DURING .. AUDIT SHOWN column FROM table WHERE ..` with
/// the key of the row flags the query.
pub fn audits_flag_accesses()
    ensures { AuditsFlagAccesses }
{
    audit_needs_what_it_has();
}
