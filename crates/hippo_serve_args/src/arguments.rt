//! The command's arguments, and the values given for them.
ghost use Rattle.std.specs.Prelude.{◌≡◌, IfOk};
ghost use Rattle.clap.specs.Words.{rows_of, found_of, first_of};
ghost use Rattle.hippo_program_args.specs.Arguments.{number_or};

use clap::ArgMatches;
use hippo_program_args::{Argument, number_or};
use hippo_values::Memory;

/// The arguments that the command takes.
pub(crate) const ARGUMENTS: [Argument<'static>; 8] = [
    Argument::Word("job"),
    Argument::Text("store"),
    Argument::Entry("history"),
    Argument::Number("size", 2, 20_000),
    Argument::Number("number", 0, 999),
    Argument::Text("format"),
    Argument::Text("table"),
    Argument::Text("moment"),
];

/// The number given after this name, or `otherwise` if there is none. A number of more than 32 bits
/// has already been refused.
pub(crate) fn short_or(matches: &ArgMatches<'_>, name: &str, otherwise: u32) -> Result<u32, Memory>
    ensures { IfOk result (λ number.
        number ≡ number_or otherwise (first_of name.now (rows_of (found_of matches.now)))) }
{
    let number = number_or(matches, name, u64::from(otherwise))?;
    u32::try_from(number).map_err(|_| Memory)
}
