//! What the command line of a filter may hold.
ghost use Rattle.std.specs.Prelude.{◌≡◌, false, map};
ghost use Rattle.command_line.specs.CommandLine.{flag as flag_rule, named_app, program_app, rule_in, with_rules};
ghost use Rattle.filter.specs.FilterLine.{filter_rules};

use crate::text::{FilterFlag, FilterText};
use arrayvec::ArrayVec;
use command_line::{Argument, CommandText, Kind, Need, ProgramText};

/// The argument `[FILE]`.
const SOURCE: Argument<'static> = Argument {
    id: "file",
    kind: Kind::Positional,
    value_name: "FILE",
    need: Need::Optional,
    help: "The file to read; standard input without it",
};

/// A flag.
fn flag_argument<'a>(flag: FilterFlag<'a>) -> Argument<'a>
    ensures { rule_in result ≡ flag_rule flag.entry.name.now }
{
    Argument {
        id: flag.name,
        kind: Kind::Flag,
        value_name: "",
        need: Need::Optional,
        help: flag.help,
    }
}

/// The arguments of a filter: a file, and the flags that it has.
pub(crate) fn arguments_of<'a>(text: FilterText<'a>) -> ArrayVec<Argument<'a>, 3>
    ensures { map rule_in result.items ≡ filter_rules text.entry }
{
    let mut arguments = ArrayVec::new();
    arguments.push(SOURCE);
    if let Some(flag) = text.flag {
        arguments.push(flag_argument(flag));
    }
    if let Some(flag) = text.second_flag {
        arguments.push(flag_argument(flag));
    }
    arguments
}

/// The program, with these arguments.
pub(crate) fn program_text<'t, 'a>(
    text: FilterText<'a>,
    arguments: &'t [Argument<'a>],
) -> ProgramText<'t, 'a>
    ensures { program_app result
        ≡ with_rules (named_app text.entry.name.now false) (map rule_in arguments.now) }
{
    ProgramText {
        command: CommandText {
            name: text.name,
            about: text.about,
            details: text.details,
            arguments,
        },
        subcommands: &[],
    }
}
