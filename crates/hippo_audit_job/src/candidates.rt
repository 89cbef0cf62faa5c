//! Which logged queries an audit examines.
ghost use Rattle.std.specs.Prelude.{◌≡◌};
ghost use Rattle.hippo_model.specs.Columns.{names_all};
ghost use Rattle.hippo_model.specs.Audits.{in_period, is_exempt};

use hippo_model::{Audit, Query, names_column, table_name};
use hippo_values::{Moment, Name};

/// Whether a moment is in an audit's period. Both ends are included.
pub fn in_period(audit: &Audit, moment: Moment) -> bool
    ensures { result ≡ in_period audit.now moment }
{
    audit.from <= moment && moment <= audit.to
}

/// Whether an audit exempts this purpose and recipient: their queries are never flagged.
pub fn is_exempt(audit: &Audit, purpose: &Name, recipient: &Name) -> bool
    ensures { result ≡ is_exempt audit.now purpose.now recipient.now }
{
    for pair in audit.exempt.as_slice() {
        if pair.purpose == *purpose && pair.recipient == *recipient {
            return true;
        }
    }
    false
}

/// Whether a query names every audited column: in its select list, as an argument, in GROUP BY, in
/// ON or in WHERE.
pub fn names_all(query: &Query, audit: &Audit) -> bool
    ensures { result ≡ names_all query.now audit.now }
{
    for column in audit.columns.as_slice() {
        let table = table_name(&audit.tables, column.table);
        if !names_column(query, table, column.column) {
            return false;
        }
    }
    true
}
