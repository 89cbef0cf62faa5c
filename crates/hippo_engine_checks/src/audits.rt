//! Checks of the console's audit expressions: what each means, or why it is refused.
ghost use Rattle.std.specs.Prelude.{◌≡◌, [], bytes_eq, IfOk};
ghost use Rattle.std.specs.List.{IsDistinct};
ghost use Rattle.hippo_model.specs.Terms.{History};
ghost use Rattle.hippo_audit_job.specs.Examining.{IsAuditOf};
ghost use Rattle.hippo_report.specs.declared.speaker.Speaker.TheVariants.{Console};
ghost use Rattle.hippo_replay.specs.Standing.{Represents, IsSound};
ghost use Rattle.hippo_typing_catalog.specs.AuditExpressions.{audit_refused, audit_of};
ghost use Rattle.hippo_stmt_lines.specs.Moments.{period_in};
ghost use Rattle.hippo_engine_checks.specs.Checks.{Finds, unless_refused};
ghost use Rattle.hippo_engine_checks.specs.Judging.{audit_in};

use crate::refusals::{boxed, name_refusal};
use hippo_model::Audit;
use hippo_replay::State;
use hippo_report::Refusal;
use hippo_stmt_ast::RawAudit;
use hippo_typing::resolve_audit;
use hippo_typing_catalog::Catalog;
use hippo_values::Boxed;
use std::alloc::Global;

// The audit that an audit expression means, after a check of its names, types and period.
fn meaning(alloc: Global, catalog: &Catalog, written: &RawAudit) -> Result<Boxed<Audit>, Refusal>
    ensures found { let period = period_in written.now in Finds (λ audit. audit)
        (unless_refused (audit_refused catalog.now.names period written.now)
        (audit_of catalog.now.names period written.now)) result }
    ensures unrefused { let period = period_in written.now in IfOk result (λ audit.
        (audit_refused catalog.now.names period written.now ≡ [])
        × (audit ≡ audit_of catalog.now.names period written.now)) }
{
    match resolve_audit(alloc, catalog, written) {
        Ok(audit) => boxed(alloc, audit),
        Err(fault) => Err(name_refusal(fault)),
    }
}

/// The audit that an audit expression of the console means, or its first refusal: its names, types
/// or period are wrong. It may also be refused when out of memory.
pub(crate) fn audit_in(
    alloc: Global,
    state: &State,
    written: &RawAudit,
) -> Result<Boxed<Audit>, Refusal>
    requires sound { IsSound state.now }
    ensures found { (history : History) → Represents state.now history
        → Finds (λ audit. audit) (audit_in history Console written.now) result }
    ensures audit { IfOk result (λ audit. (history : History) → Represents state.now history
        → IsAuditOf history audit) }
    ensures differ { IfOk result (λ audit. IsDistinct bytes_eq audit.tables) }
{
    meaning(alloc, &state.catalog, written)
}
