//! Checks that a cell could hold the texts of a condition.
ghost use Rattle.std.specs.Prelude.{◌≡◌};
ghost use Rattle.std.specs.List.{list_any};
ghost use Rattle.hippo_typing_catalog.specs.Refusals.{Resolves};
ghost use Rattle.hippo_typing_catalog.specs.Kinds.{is_bad_text};
ghost use Rattle.hippo_typing_catalog.specs.Comparisons.{comparisons, has_bad_text, texts_refused};

use hippo_model::{CondOf, NameFault, Operand, Operands};
use hippo_values::{Sequence, Value, keeps_text_rule};

/// Whether a value is a text that a cell may not hold.
pub fn is_bad_text(value: &Value) -> bool
    ensures { result ≡ is_bad_text value.now }
{
    match value {
        Value::Text(text) => !keeps_text_rule(text.as_str()),
        _ => false,
    }
}

fn has_bad_text(operand: &Operand) -> bool
    ensures { result ≡ has_bad_text operand.now }
{
    match operand {
        Operand::Column(_) => false,
        Operand::Literal(value) => is_bad_text(value),
    }
}

fn any_has_bad_text(list: &Operands) -> bool
    ensures { result ≡ list_any has_bad_text list.now }
{
    for operand in list.as_slice() {
        if has_bad_text(operand) {
            return true;
        }
    }
    false
}

// Whether a literal of a condition is a text that a cell may not hold.
#[cycle(is_badly_written)]
#[tactic(auto, using(crate::proofs::ComparedOperands::any_comparison))]
fn is_badly_written(condition: &CondOf<Operand>) -> bool
    ensures { result ≡ list_any (list_any has_bad_text) (comparisons condition.now) }
{
    match condition {
        CondOf::All(parts) => any_is_badly_written(parts),
        CondOf::Any(parts) => any_is_badly_written(parts),
        CondOf::Not(part) => is_badly_written(part.get()),
        CondOf::Compare { left, right, .. } => has_bad_text(left) || has_bad_text(right),
        CondOf::Between { value, low, high } => {
            has_bad_text(value) || has_bad_text(low) || has_bad_text(high)
        }
        CondOf::Among { value, list } => has_bad_text(value) || any_has_bad_text(list),
        CondOf::Missing { value } => has_bad_text(value),
    }
}

#[cycle(is_badly_written)]
fn any_is_badly_written(parts: &Sequence<CondOf<Operand>>) -> bool
    ensures { result ≡ list_any (λ part. list_any (list_any has_bad_text) (comparisons part))
        parts.now }
{
    for part in parts.as_slice() {
        if is_badly_written(part) {
            return true;
        }
    }
    false
}

/// Refuses a condition with a text that a cell may not hold.
pub fn check_texts(condition: &CondOf<Operand>) -> Result<(), NameFault>
    ensures { Resolves (texts_refused condition.now) tt result }
{
    if is_badly_written(condition) {
        return Err(NameFault::BadText);
    }
    Ok(())
}
