//! What the types of moments and names guarantee. These functions look at no value.
ghost use Rattle.std.specs.Prelude.{◌≡◌, true};
ghost use Rattle.hippo_values.specs.Moments.{is_moment};
ghost use Rattle.hippo_model.specs.Keepable.{is_folded_name};

use hippo_values::{Moment, Name};

/// The type of a moment guarantees that it lies in the years 0001 to 9999.
pub fn moment_fits(moment: Moment)
    ensures { is_moment moment ≡ true }
{
    let _seconds = moment.seconds();
}

/// The type of a name guarantees that it is in lower case.
pub fn name_fits(name: &Name)
    ensures { is_folded_name name.now ≡ true }
{
    let _word = name.as_str();
}
