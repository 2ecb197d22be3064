//! What the command line of `lbserver` may hold.
ghost use Rattle.std.specs.Prelude.{◌≡◌};
ghost use Rattle.command_line.specs.CommandLine.{program_app};
ghost use Rattle.server_orders.specs.ServerLine.{server_app};

use command_line::{Argument, CommandText, Kind, Need, ProgramText, ROSTER};

/// Returns the table of the program.
pub(crate) fn lbserver() -> &'static ProgramText<'static, 'static>
    ensures { program_app result.now ≡ server_app }
{
    &LBSERVER
}

static LBSERVER: ProgramText<'static, 'static> = ProgramText {
    command: CommandText {
        name: "lbserver",
        about: "A LocoNet command station for clients of LocoNet over TCP, up to eight at once",
        details: "Example: lbserver --roster layout.toml --port 1234 --track",
        arguments: &[
            ADDRESS, PORT, ROSTER, PLAN, PROGRAMMER, TURNS, RATE, CLIENTS, TRACK, QUIET, TIMES,
            PAGE, PAGE_FILE, HOST, LOSE, SEED,
        ],
    },
    subcommands: &[],
};

const ADDRESS: Argument<'static> = Argument {
    id: "address",
    kind: Kind::Single,
    value_name: "A",
    need: Need::Default("127.0.0.1"),
    help: "The IPv4 address to listen on: anybody who can reach it can drive",
};

const PORT: Argument<'static> = Argument {
    id: "port",
    kind: Kind::Number(0, 65_535),
    value_name: "P",
    need: Need::Default("1234"),
    help: "The TCP port, 0 to 65535; with 0 a free one, which the line `listening` names",
};

const PLAN: Argument<'static> = Argument {
    id: "plan",
    kind: Kind::Single,
    value_name: "FILE",
    need: Need::Optional,
    help: "The track plan, on which the trains of the roster run and sensors report; without it no train moves",
};

const PROGRAMMER: Argument<'static> = Argument {
    id: "programmer",
    kind: Kind::Single,
    value_name: "FILE",
    need: Need::Optional,
    help: "A roster whose first locomotive stands on a programming track, to read and write its variables; without it there is no such track",
};

const TURNS: Argument<'static> = Argument {
    id: "turns",
    kind: Kind::Number(0, 255),
    value_name: "T",
    need: Need::Optional,
    help: "Track turns after each message, 0 to 255; without it the track runs in real time",
};

const RATE: Argument<'static> = Argument {
    id: "rate",
    kind: Kind::Number(1, 100),
    value_name: "R",
    need: Need::Optional,
    help: "How many times as fast time passes, for track and trains, 1 to 100, without --turns; 1 without it",
};

const CLIENTS: Argument<'static> = Argument {
    id: "clients",
    kind: Kind::Number(0, u32::MAX),
    value_name: "C",
    need: Need::Optional,
    help: "Ends once this many clients have disconnected, with 0 at once; without it there is no end",
};

const TRACK: Argument<'static> = Argument {
    id: "track",
    kind: Kind::Flag,
    value_name: "",
    need: Need::Optional,
    help: "Prints the packets on the track",
};

const QUIET: Argument<'static> = Argument {
    id: "quiet",
    kind: Kind::Flag,
    value_name: "",
    need: Need::Optional,
    help: "Prints nothing but the addresses, with --track too",
};

const TIMES: Argument<'static> = Argument {
    id: "times",
    kind: Kind::Flag,
    value_name: "",
    need: Need::Optional,
    help: "Begins each line of the log with the track time since the start, as 0:00:12.345",
};

const PAGE: Argument<'static> = Argument {
    id: "page",
    kind: Kind::Number(0, 65_535),
    value_name: "PORT",
    need: Need::Optional,
    help: "The TCP port of a page for browsers, to drive and to watch, 0 to 65535, 0 for a free one; without it there is none",
};

const PAGE_FILE: Argument<'static> = Argument {
    id: "page-file",
    kind: Kind::Single,
    value_name: "FILE",
    need: Need::Optional,
    help: "The file that the page is; pages/throttle.html without it",
};

const HOST: Argument<'static> = Argument {
    id: "host",
    kind: Kind::Repeated,
    value_name: "NAME",
    need: Need::Optional,
    help: "A name by which browsers reach the page, besides localhost and IP addresses; may be repeated",
};

const LOSE: Argument<'static> = Argument {
    id: "lose",
    kind: Kind::Repeated,
    value_name: "N",
    need: Need::Optional,
    help: "How many of 100 packets each decoder misses, 0 to 99, or NAME=N for one; may be repeated; 0 without it",
};

const SEED: Argument<'static> = Argument {
    id: "seed",
    kind: Kind::Number(0, u32::MAX),
    value_name: "S",
    need: Need::Default("0"),
    help: "What the draw of the missed packets begins with, 0 to 4294967295",
};
