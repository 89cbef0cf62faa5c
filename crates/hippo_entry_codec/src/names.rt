//! The names that come first in an act that has three.
ghost use Rattle.std.specs.Prelude.{◌≡◌, option_map};
ghost use Rattle.hippo_entry_codec.specs.Names.{three_names};

use hippo_model::Act;
use hippo_values::Name;

/// The three names that come first in an act: user, purpose and recipient of a grant or a query;
/// purpose, recipient and table of a rule.
pub fn three_names(act: &Act) -> Option<(&Name, &Name, &Name)>
    ensures { option_map (λ names. (names.0.now, names.1.now, names.2.now)) result
        ≡ three_names act.now }
{
    match act {
        Act::Authorize {
            user,
            purpose,
            recipient,
        }
        | Act::Deauthorize {
            user,
            purpose,
            recipient,
        }
        | Act::Asked {
            user,
            purpose,
            recipient,
            ..
        } => Some((user, purpose, recipient)),
        Act::Allow {
            purpose,
            recipient,
            table,
            ..
        }
        | Act::Revoke {
            purpose,
            recipient,
            table,
            ..
        } => Some((purpose, recipient, table)),
        _ => None,
    }
}
