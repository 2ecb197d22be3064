//! Building the command line of a table, by `clap`.
ghost use Rattle.std.specs.Prelude.{◌≡◌, false, map};
ghost use Rattle.std.specs.List.{fold};
ghost use Rattle.clap.specs.Words.{app_of, new_app, rule_of};
ghost use Rattle.clap.specs.declared.builder.Command.TheViews.{out-Command as fields_of};
ghost use Rattle.command_line.specs.CommandLine.{HasApp, HasNoGlobals, command_app, flag, kind_rule, named_app, number, option, program_app, repeated, rule_in, value, with_command, with_rules};

use crate::table::{Argument, CommandText, Kind, Need, ProgramText};
use crate::version::VERSION;
use clap::{Arg, ArgAction, Command};
use std::alloc::{AllocError, Global};

/// The flag `--ID`.
fn flag<'a>(alloc: Global, id: &'a str) -> Arg<'a>
    ensures rule { rule_of result ≡ flag id.entry.now }
    ensures local { result.global ≡ false }
{
    Arg::new(alloc, id).long(id).action(ArgAction::SetTrue)
}

/// The argument `VALUE`.
fn positional<'a>(alloc: Global, id: &'a str, value_name: &'a str) -> Arg<'a>
    ensures rule { rule_of result ≡ value id.entry.now }
    ensures local { result.global ≡ false }
{
    Arg::new(alloc, id)
        .value_name(value_name)
        .action(ArgAction::Set)
}

/// The option `--ID VALUE`.
fn option<'a>(alloc: Global, id: &'a str, value_name: &'a str) -> Arg<'a>
    ensures rule { rule_of result ≡ option id.entry.now }
    ensures local { result.global ≡ false }
{
    positional(alloc, id, value_name).long(id)
}

/// The option `--ID VALUE`, which may be repeated.
fn repeated<'a>(alloc: Global, id: &'a str, value_name: &'a str) -> Arg<'a>
    ensures rule { rule_of result ≡ repeated id.entry.now }
    ensures local { result.global ≡ false }
{
    option(alloc, id, value_name).action(ArgAction::Append)
}

/// The option `--ID VALUE`, if the value is a number in this range.
fn number<'a>(alloc: Global, id: &'a str, value_name: &'a str, least: u32, most: u32) -> Arg<'a>
    ensures rule { rule_of result ≡ number id.entry.now least most }
    ensures local { result.global ≡ false }
{
    let range = i64::from(least)..=i64::from(most);
    option(alloc, id, value_name).value_parser(clap::value_parser!(u32).range(range))
}

/// An argument that may be left out, without its help.
fn optional<'a>(alloc: Global, argument: &Argument<'a>) -> Arg<'a>
    ensures rule { rule_of result ≡ kind_rule argument.now.id.now argument.now.kind }
    ensures local { result.global ≡ false }
{
    match argument.kind {
        Kind::Flag => flag(alloc, argument.id),
        Kind::Single => option(alloc, argument.id, argument.value_name),
        Kind::Repeated => repeated(alloc, argument.id, argument.value_name),
        Kind::Number(least, most) => {
            number(alloc, argument.id, argument.value_name, least, most)
        }
        Kind::Positional => positional(alloc, argument.id, argument.value_name),
    }
}

/// An argument.
fn arg<'a>(alloc: Global, argument: &Argument<'a>) -> Arg<'a>
    ensures rule { rule_of result ≡ rule_in argument.now }
    ensures local { result.global ≡ false }
{
    let arg = optional(alloc, argument).help(argument.help);
    match argument.need {
        Need::Optional => arg,
        Need::Required => arg.required(true),
        Need::Default(text) => arg.default_value(text),
    }
}

/// Adds arguments after the existing ones.
fn with_arguments<'a>(
    alloc: Global,
    command: Command<'a>,
    arguments: &[Argument<'a>],
) -> Result<Command<'a>, AllocError>
    requires local { (fields_of command).has_globals ≡ false }
    ensures app { HasApp result (with_rules (app_of command.entry) (map rule_in arguments.now)) }
    ensures local { HasNoGlobals result }
{
    let mut command = command;
    for argument in arguments {
        command = command.arg(arg(alloc, argument))?;
    }
    Ok(command)
}

/// A command with this name and these texts, without its arguments.
fn described<'a>(alloc: Global, text: &CommandText<'_, 'a>) -> Command<'a>
    ensures app { app_of result ≡ new_app text.now.name.now }
    ensures local { (fields_of result).has_globals ≡ false }
{
    Command::new(alloc, text.name)
        .about(text.about)
        .after_help(text.details)
}

/// A subcommand.
fn subcommand<'a>(alloc: Global, text: &CommandText<'_, 'a>) -> Result<Command<'a>, AllocError>
    ensures app { HasApp result (command_app text.now) }
    ensures local { HasNoGlobals result }
{
    with_arguments(alloc, described(alloc, text), text.arguments)
}

/// Adds a subcommand after the existing ones.
fn with_subcommand<'a>(
    alloc: Global,
    command: Command<'a>,
    text: &CommandText<'_, 'a>,
) -> Result<Command<'a>, AllocError>
    ensures { HasApp result (with_command (app_of command.entry) text.now) }
{
    let added = subcommand(alloc, text)?;
    command.subcommand(added)
}

/// Adds subcommands after the existing ones.
fn with_subcommands<'a>(
    alloc: Global,
    command: Command<'a>,
    commands: &[CommandText<'_, 'a>],
) -> Result<Command<'a>, AllocError>
    ensures { HasApp result (fold with_command (app_of command.entry) commands.now) }
{
    let mut command = command;
    for text in commands {
        command = with_subcommand(alloc, command, text)?;
    }
    Ok(command)
}

/// A program, without its arguments. These do not include the name, so the usage is given it.
fn named<'a>(
    alloc: Global,
    text: &CommandText<'_, 'a>,
    needs_subcommand: bool,
) -> Result<Command<'a>, AllocError>
    ensures app { HasApp result (named_app text.now.name.now needs_subcommand) }
    ensures local { HasNoGlobals result }
{
    described(alloc, text)
        .version(VERSION)
        .no_binary_name(true)
        .subcommand_required(needs_subcommand)
        .bin_name(text.name)
}

/// The command line of a program.
pub(crate) fn program<'a>(
    alloc: Global,
    text: &ProgramText<'_, 'a>,
) -> Result<Command<'a>, AllocError>
    ensures { HasApp result (program_app text.now) }
{
    let bare = named(alloc, &text.command, !text.subcommands.is_empty())?;
    let alone = with_arguments(alloc, bare, text.command.arguments)?;
    with_subcommands(alloc, alone, text.subcommands)
}
