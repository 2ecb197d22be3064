//! The lines that report where a server listens.
ghost use Rattle.std.specs.Prelude.{◌∷◌, ◌++◌, [], OnOk};
ghost use Rattle.std.specs.Io.KnownBytes.{Appends};
ghost use Rattle.std.specs.Net.Text.{socket_text};
ghost use Rattle.console.specs.Printed.{lines_text};
ghost use Rattle.bus_log.specs.Listening.{bus_line, page_lines};

use console::WriteError;
use std::io::Write;
use std::net::SocketAddr;

/// Prints the address and the port for programs, and then those of the page, if one is served.
///
/// # Errors
///
/// `WriteError` if the output fails. The number of bytes written is then not known.
pub fn print_listening<O: Write>(
    output: &mut O,
    bus: SocketAddr,
    page: Option<SocketAddr>,
) -> Result<(), WriteError>
    ensures { OnOk result
        (Appends (O.contents output.old) (O.contents output.new)
        (lines_text (bus_line bus ∷ page_lines page))) }
{
    print_address(output, "listening ", bus, "")?;
    match page {
        Some(page) => print_address(output, "page http://", page, "/"),
        None => Ok(()),
    }
}

/// Prints an address and its port between two texts.
fn print_address<O: Write>(
    output: &mut O,
    before: &str,
    address: SocketAddr,
    behind: &str,
) -> Result<(), WriteError>
    ensures { OnOk result
        (Appends (O.contents output.old) (O.contents output.new)
        (lines_text ((before.now ++ socket_text address ++ behind.now) ∷ []))) }
{
    writeln!(output, "{before}{address}{behind}").map_err(|_| WriteError)
}
