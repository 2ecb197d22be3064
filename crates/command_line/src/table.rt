//! What a command line may hold, as a table.
ghost use Rattle.std.specs.Prelude.{◌≡◌};
ghost use Rattle.command_line.specs.declared.table.Kind.TheVariants.{Flag};

/// A program.
#[derive(Clone, Copy)]
pub struct ProgramText<'t, 'a> {
    /// Its name, texts and arguments.
    pub command: CommandText<'t, 'a>,
    /// Its subcommands, one of which has to be given if there are any.
    pub subcommands: &'t [CommandText<'t, 'a>],
}

/// A program or one of its subcommands.
#[derive(Clone, Copy)]
pub struct CommandText<'t, 'a> {
    /// Its name.
    pub name: &'a str,
    /// What it does, in one line.
    pub about: &'a str,
    /// What follows the arguments in the help.
    pub details: &'a str,
    /// Its arguments, in the order of the help.
    pub arguments: &'t [Argument<'a>],
}

/// An argument.
#[derive(Clone, Copy)]
pub struct Argument<'a> {
    /// Its id: the name of an option or a flag after the two dashes.
    pub id: &'a str,
    /// What is given.
    pub kind: Kind,
    /// The name of the value in the help. A flag has none.
    pub value_name: &'a str,
    /// Whether it has to be given.
    pub need: Need<'a>,
    /// What it is, in one line.
    pub help: &'a str,
}

/// What is given for an argument.
#[derive(Clone, Copy)]
pub enum Kind {
    /// `--ID`.
    Flag,
    /// `--ID VALUE`.
    Single,
    /// `--ID VALUE`, as often as wanted.
    Repeated,
    /// `--ID VALUE`, a number from the first to the second.
    Number(u32, u32),
    /// `VALUE`, at its position.
    Positional,
}

/// Whether an argument has to be given.
#[derive(Clone, Copy)]
pub enum Need<'a> {
    /// It may be left out.
    Optional,
    /// It has to be given.
    Required,
    /// It may be left out, and then has this value.
    Default(&'a str),
}

/// A flag without a name, for lists of a fixed room.
impl<'a> Default for Argument<'a> {
    ghost is_default = { λ argument. argument.kind ≡ Flag };

    fn default() -> Argument<'a> {
        Argument {
            id: "",
            kind: Kind::Flag,
            value_name: "",
            need: Need::Optional,
            help: "",
        }
    }
}

/// The option `--roster FILE`.
pub const ROSTER: Argument<'static> = Argument {
    id: "roster",
    kind: Kind::Single,
    value_name: "FILE",
    need: Need::Optional,
    help: "The decoders of the layout, as TOML; without it there are none",
};
