//! The command's arguments, and the values given for them.
ghost use Rattle.std.specs.Prelude.{◌≡◌};
ghost use Rattle.clap.specs.Words.{rows_of, found_of};
ghost use Rattle.hippo_history_top.specs.CommandLine.{is_on};

use clap::ArgMatches;
use hippo_program_args::{Argument, text_of};

/// The arguments that the command takes.
pub(crate) const ARGUMENTS: [Argument<'static>; 14] = [
    Argument::Needed("store"),
    Argument::Entry("entry"),
    Argument::Text("from"),
    Argument::Text("to"),
    Argument::Text("at"),
    Argument::Text("table"),
    Argument::Flag("tables"),
    Argument::Flag("script"),
    Argument::Flag("rules"),
    Argument::Flag("users"),
    Argument::Flag("digest"),
    Argument::Text("patient"),
    Argument::Flag("carry"),
    Argument::Text("format"),
];

/// Whether a flag, a name without a value, is given.
pub(crate) fn is_on(matches: &ArgMatches<'_>, name: &str) -> bool
    ensures { result ≡ is_on name.now (rows_of (found_of matches.now)) }
{
    match text_of(matches, name) {
        None => false,
        Some(text) => text == "true",
    }
}
