//! A command, as clap is given it.
ghost use Rattle.std.specs.Prelude.{◌≡◌, [], false, map, IfOk};
ghost use Rattle.clap.specs.Words.{app_of, rule_of};
ghost use Rattle.hippo_program_args.specs.Arguments.{text_option, number_option, rule_by, command_with};

use clap::builder::ValueParser;
use clap::{Arg, ArgAction, Command};
use hippo_values::Memory;
use std::alloc::Global;

/// An argument of a command line, by its name.
#[derive(Clone, Copy)]
pub enum Argument<'a> {
    /// A word that is required.
    Word(&'a str),
    /// A text with a name, `--NAME TEXT` or `--NAME=TEXT`.
    Text(&'a str),
    /// A text with a name that is required.
    Needed(&'a str),
    /// A number with a name, within bounds.
    Number(&'a str, u64, u64),
    /// A number with a name, within the bounds of an entry's number.
    Entry(&'a str),
    /// A name alone, `--NAME`.
    Flag(&'a str),
}

fn text_option<'a>(alloc: Global, name: &'a str) -> Arg<'a>
    ensures rule { rule_of result ≡ text_option name.now }
    ensures local { result.global ≡ false }
{
    Arg::new(alloc, name).long(name)
}

fn number_option<'a>(alloc: Global, name: &'a str, least: u64, most: u64) -> Arg<'a>
    ensures rule { rule_of result ≡ number_option name.now least most }
    ensures local { result.global ≡ false }
{
    text_option(alloc, name).value_parser(ValueParser::Unsigned(least, most))
}

fn arg_of<'a>(alloc: Global, argument: &Argument<'a>) -> Arg<'a>
    ensures rule { rule_of result ≡ rule_by argument.now }
    ensures local { result.global ≡ false }
{
    match *argument {
        Argument::Word(name) => Arg::new(alloc, name).required(true),
        Argument::Text(name) => text_option(alloc, name),
        Argument::Needed(name) => text_option(alloc, name).required(true),
        Argument::Number(name, least, most) => number_option(alloc, name, least, most),
        Argument::Entry(name) => number_option(alloc, name, 1, 4_000_000),
        Argument::Flag(name) => text_option(alloc, name).action(ArgAction::SetTrue),
    }
}

fn no_arguments<'a>(alloc: Global, name: &'a str) -> Command<'a>
    ensures { app_of result ≡ command_with name.now [] }
{
    Command::new(alloc, name)
        .no_binary_name(true)
        .disable_help_flag(true)
}

/// A program's command, with these arguments. Its first word is not the program's name, and it has
/// no help.
pub(crate) fn command_of<'a>(
    alloc: Global,
    name: &'a str,
    arguments: &[Argument<'a>],
) -> Result<Command<'a>, Memory>
    ensures { IfOk result (λ command. app_of command
        ≡ command_with name.now (map rule_by arguments.now)) }
{
    let mut command = no_arguments(alloc, name);
    for argument in arguments {
        command = command.arg(arg_of(alloc, argument))?;
    }
    Ok(command)
}
