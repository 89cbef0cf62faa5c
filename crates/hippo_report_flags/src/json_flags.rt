//! Flags as JSON (RFC 8259).
ghost use Rattle.std.specs.Prelude.{◌≡◌, map, IfOk, string_bytes};
ghost use Rattle.serde_json.specs.Data.{string, array};
ghost use Rattle.serde_json.specs.View.{view, items_of};
ghost use Rattle.serde_json.specs.Written.{compact_text};
ghost use Rattle.hippo_values_text.specs.Dates.{day_text, moment_text};
ghost use Rattle.hippo_report_flags.specs.Flags.{shared_data, flag_data};

use hippo_model::{Flag, SharedRow};
use hippo_report::ascii_text;
use hippo_values::{DayNumber, Value};
use hippo_values_text::{day_text, moment_text};
use serde_json::json;
use std::alloc::{AllocError, Global};

fn day_data(alloc: Global, day: DayNumber) -> Result<serde_json::Value, AllocError>
    ensures { IfOk result (λ made. view made ≡ string (day_text day)) }
{
    serde_json::Value::try_from_str(alloc, ascii_text(&day_text(day)))
}

// Something with a JSON form.
trait JsonForm {
    ghost use Rattle.serde_json.specs.Data.{Data};
    ghost use Rattle.serde_json.specs.View.{view};
    ghost use Rattle.std.specs.Prelude.{◌≡◌, IfOk};

    ghost form: { Self → Data };

    fn data(&self, alloc: Global) -> Result<serde_json::Value, AllocError>
        ensures { IfOk result (λ made. view made ≡ form self.now) };
}

impl JsonForm for Value {
    ghost use Rattle.hippo_report_flags.specs.Flags.{value_data};

    ghost form = { value_data };

    fn data(&self, alloc: Global) -> Result<serde_json::Value, AllocError> {
        match self {
            Value::Null => Ok(serde_json::Value::Null),
            Value::Int(number) => Ok(serde_json::Value::from(*number)),
            Value::Text(text) => serde_json::Value::try_from_str(alloc, text.as_str()),
            Value::Day(day) => day_data(alloc, *day),
        }
    }
}

fn items_data<T: JsonForm>(
    alloc: Global,
    members: &[T],
) -> Result<Vec<serde_json::Value>, AllocError>
    ensures { IfOk result (λ made. map view made.items ≡ map T.form members.now) }
{
    let mut items = Vec::new(alloc);
    for member in members {
        items.push(member.data(alloc)?)?;
    }
    Ok(items)
}

impl JsonForm for SharedRow {
    ghost use Rattle.hippo_report_flags.specs.Flags.{shared_data};

    ghost form = { shared_data };

    fn data(&self, alloc: Global) -> Result<serde_json::Value, AllocError> {
        let key = serde_json::Value::Array(items_data(alloc, self.key.as_slice())?);
        json!(in alloc; [self.table.as_str(), key])
    }
}

fn object_data(
    alloc: Global,
    flag: &Flag,
    moment: &str,
    shared: serde_json::Value,
) -> Result<serde_json::Value, AllocError>
    requires moment { moment.now ≡ moment_text flag.now.moment }
    requires shared { view shared ≡ array (items_of (map shared_data flag.now.shared)) }
    ensures { IfOk result (λ made. view made ≡ flag_data flag.now) }
{
    json!(in alloc; {
        "moment": moment,
        "pair": [flag.pair.purpose.as_str(), flag.pair.recipient.as_str()],
        "query": flag.seq,
        "shared": shared,
        "user": flag.user.as_str()
    })
}

/// A flag as a JSON object, without spaces. Fails only when out of memory.
#[tactic(auto, using(crate::proofs::JsonLemmas::flag_has_no_float))]
pub fn flag_json(alloc: Global, flag: &Flag, moment: &str) -> Result<String, AllocError>
    requires { moment.now ≡ moment_text flag.now.moment }
    ensures { IfOk result (λ text. string_bytes text ≡ compact_text (flag_data flag.now)) }
{
    let shared = serde_json::Value::Array(items_data(alloc, flag.shared.as_slice())?);
    object_data(alloc, flag, moment, shared)?.to_string(alloc)
}
