//! What the command line of `station` may hold.
ghost use Rattle.std.specs.Prelude.{◌≡◌};
ghost use Rattle.command_line.specs.CommandLine.{program_app};
ghost use Rattle.station_orders.specs.StationLine.{station_app};

use command_line::{Argument, CommandText, Kind, Need, ProgramText, ROSTER};

/// Returns the table of the program, which requires a subcommand.
pub(crate) fn station() -> &'static ProgramText<'static, 'static>
    ensures { program_app result.now ≡ station_app }
{
    &STATION
}

static STATION: ProgramText<'static, 'static> = ProgramText {
    command: CommandText {
        name: "station",
        about: "A LocoNet command station, with the DCC decoders on its track",
        details: "With no words it replays a script from standard input: station < session.script",
        arguments: &[],
    },
    subcommands: &[
        CommandText {
            name: "replay",
            about: "Plays a script from standard input and prints replies, packets and decoders",
            details: "Example: station replay --roster layout.toml < session.script",
            arguments: &[LINES, ROSTER],
        },
        CommandText {
            name: "monitor",
            about: "Prints the messages in captured bytes",
            details: "Example: station monitor capture.hex",
            arguments: &[FILE],
        },
        CommandText {
            name: "serve",
            about: "Serves throttles over TCP, one connection after another",
            details: "Example: station serve --port 5550 --roster layout.toml --turns 4",
            arguments: &[PORT, ROSTER, TURNS, READS, CONNECTIONS],
        },
    ],
};

const LINES: Argument<'static> = Argument {
    id: "lines",
    kind: Kind::Number(1, 8),
    value_name: "N",
    need: Need::Default("1"),
    help: "The lines of the station, 1 to 8",
};

const FILE: Argument<'static> = Argument {
    id: "file",
    kind: Kind::Positional,
    value_name: "FILE",
    need: Need::Required,
    help: "The captured bytes, as pairs of hexadecimal digits",
};

const PORT: Argument<'static> = Argument {
    id: "port",
    kind: Kind::Number(1, 65_535),
    value_name: "P",
    need: Need::Required,
    help: "The TCP port on 127.0.0.1, 1 to 65535",
};

const TURNS: Argument<'static> = Argument {
    id: "turns",
    kind: Kind::Number(0, 255),
    value_name: "T",
    need: Need::Default("1"),
    help: "Track turns after each byte, 0 to 255",
};

const READS: Argument<'static> = Argument {
    id: "reads",
    kind: Kind::Number(1, u32::MAX),
    value_name: "R",
    need: Need::Default("100000"),
    help: "The most reads of one connection",
};

const CONNECTIONS: Argument<'static> = Argument {
    id: "connections",
    kind: Kind::Number(1, 1000),
    value_name: "C",
    need: Need::Default("1"),
    help: "How many connections are served, one after another, 1 to 1000",
};
