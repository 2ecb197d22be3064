//! Running the program on its arguments, its port and its clock.
ghost use Rattle.std.specs.Prelude.{◌≡◌, ◌⊎◌, ◌≤◌, IfErr, None, OnOk, [], false, is_some, map, true};
ghost use Rattle.roster.specs.Decoders.{entries_of};
ghost use Rattle.bus_log.specs.Verbosities.{verbosity_of};
ghost use Rattle.bus_server.specs.Running.{run_snapshot};
ghost use Rattle.bus_server.specs.Snapshots.{state_of};
ghost use Rattle.bus_server.specs.SoFar.{IsBeginning};
ghost use Rattle.console.specs.Files.{IsRosterOf};
ghost use Rattle.lbserver.specs.Execution.{AreNoOrder, HasPace, IsEnd, IsOpened, IsReady, IsStopped, IsUnserved, NameFile, NamePart, RunsWords, ServesBy, ServesLogged, ServesOrder, ServesPlan, ServesProgrammer, clients_of, entries_in, is_of_file, logs_of, names_file, names_part, pace_of, status_of};
ghost use Rattle.server_orders.specs.declared.words.ServerOrder.{ServerOrder as OrderValue};

use crate::answering::answer;
use crate::device_logs::DeviceLogs;
use crate::fault::ServerFault;
use crate::files::read_file;
use crate::plan_file::read_railway;
use crate::programmer_file::read_programming;
use crate::reach::reachable;
use crate::roster_file::read_roster;
use crate::roster_line::NAME;
use crate::shares::{check_names, shares_of};
use crate::standard_output::{STANDARD_OUTPUT, StandardOutput};
use bus_log::{LogQueue, Printer, Verbosity, decoders, print_listening, write_queued};
use bus_server::{AfterRound, Losses, Pace, Server, Stop, TimeSource, Transport};
use command_line::FileName;
use programming_track::ProgrammingBench;
use railway::Railway;
use roster::Roster;
use server_orders::{ServerOrder, server_order};
use sockets::{Sockets, Ticking};
use std::convert::Infallible;
use std::io::Write;
use std::mem;
use std::net::SocketAddr;
use std::time::Duration;

/// The page that is served by default.
const PAGE_FILE: &'static str = "pages/throttle.html";

/// The longest page, in bytes.
const LONGEST_PAGE: usize = 1_048_576;

/// How long the last lines wait for a reader that accepts none, in milliseconds.
const LAST_WAIT_MILLIS: u64 = 1_000;

/// Runs the program on the arguments after its name, and returns its exit status, 0 to 7.
///
/// If the status is not 0, one line `lbserver: ..`, or the text of `clap` for the command line, is
/// written to `faults`.
pub(crate) fn execute<O: Write, E: Write>(
    rt: &HostRuntime,
    words: &[&str],
    output: &mut StandardOutput<O>,
    faults: &mut E,
    logs: &mut DeviceLogs,
) -> u8
    requires works { output.old.failed ≡ false }
    requires new { IsUnserved logs.old }
    ensures most { result ≤ 7 }
    // Status 0 is returned only after a whole run of the order, by which the logs of its sockets and
    // its clock grew, or where the arguments ask for help or the version, which is written to `output`.
    ensures serves { result ≡ 0 → RunsWords (map (λ word. word.now) words.entry.now)
        (O.contents output.old.writer) (O.contents output.new.writer) logs.new }
    // Status 7 as well, but a write of the log failed meanwhile.
    ensures lost { result ≡ 7 → (output.new.failed ≡ true)
        × RunsWords (map (λ word. word.now) words.entry.now) (O.contents output.old.writer)
        (O.contents output.new.writer) logs.new }
    // Status 1 only where the arguments are those of no order, 2 only where they name a file or ask for
    // the page, and 3 only there or where they name a decoder that misses packets.
    ensures refuses { result ≡ 1 → AreNoOrder (map (λ word. word.now) words.entry.now) }
    ensures unread { (result ≡ 2) ⊎ (result ≡ 3)
        → NamePart (map (λ word. word.now) words.entry.now) }
    ensures unopened { result ≡ 2 → NameFile (map (λ word. word.now) words.entry.now) }
    // Status 4 only where a call of the system failed in a run of an order, or where the text that
    // the arguments ask for could not be written.
    ensures stopped { result ≡ 4
        → IsStopped (map (λ word. word.now) words.entry.now) output.new.failed logs.new }
    // Status 6 only before anything is served or printed. That the allocator refused is in no log.
    ensures starved { result ≡ 6 → (output.new ≡ output.old) × IsUnserved logs.new }
    ensures quiet { result ≡ 0 → faults.new ≡ faults.old }
    // No write of the output failed if the status is 0; if one failed, the status is 4 or 7.
    ensures written { result ≡ 0 → output.new.failed ≡ false }
    ensures unwritten { output.new.failed ≡ true → (result ≡ 4) ⊎ (result ≡ 7) }
{
    match run(rt, words, output, logs) {
        Ok(()) => end_status(output.failed, faults),
        Err(fault) => fault.report(faults),
    }
}

/// Returns the status of a run that was carried out. If a write of the log failed, it reports that.
fn end_status<E: Write>(failed: bool, faults: &mut E) -> u8
    ensures whole { failed ≡ false → (result ≡ 0) × (faults.new ≡ faults.old) }
    ensures lost { failed ≡ true → result ≡ 7 }
{
    if !failed {
        return 0;
    }
    let _ = writeln!(faults, "{NAME}: lines of the log may be missing");
    7
}

/// Carries out the order of the arguments, or writes the text that they ask for.
///
/// Each of the following functions creates one thing and passes a borrow of it to the next, because
/// a function that returns early with a value to drop is hard to prove.
fn run<O: Write>(
    rt: &HostRuntime,
    words: &[&str],
    output: &mut StandardOutput<O>,
    logs: &mut DeviceLogs,
) -> Result<(), ServerFault>
    requires works { output.old.failed ≡ false }
    requires new { IsUnserved logs.old }
    ensures serves { OnOk result (RunsWords (map (λ word. word.now) words.entry.now)
        (O.contents output.old.writer) (O.contents output.new.writer) logs.new) }
    ensures refuses { IfErr result (λ fault. status_of fault ≡ 1
        → AreNoOrder (map (λ word. word.now) words.entry.now)) }
    ensures unread { IfErr result (λ fault. is_of_file fault ≡ true
        → NamePart (map (λ word. word.now) words.entry.now)) }
    ensures unopened { IfErr result (λ fault. status_of fault ≡ 2
        → NameFile (map (λ word. word.now) words.entry.now)) }
    ensures stopped { IfErr result (λ fault. status_of fault ≡ 4
        → IsStopped (map (λ word. word.now) words.entry.now) output.new.failed logs.new) }
    ensures unwritten { IfErr result (λ fault. output.new.failed ≡ true
        → status_of fault ≡ 4) }
    ensures starved { IfErr result (λ fault. status_of fault ≡ 6
        → (output.new ≡ output.old) × IsUnserved logs.new) }
{
    match server_order(rt.alloc(), words) {
        Ok(mut order) => with_roster(rt, &mut order, output, logs),
        Err(fault) => answer(rt.alloc(), fault, output),
    }
}

/// Continues with the roster of the order.
fn with_roster<O: Write>(
    rt: &HostRuntime,
    order: &mut ServerOrder,
    output: &mut StandardOutput<O>,
    logs: &mut DeviceLogs,
) -> Result<(), ServerFault>
    requires works { output.old.failed ≡ false }
    requires new { IsUnserved logs.old }
    requires pace { HasPace order.old }
    ensures serves { OnOk result
        ((roster : _) × IsRosterOf order.old.roster roster
        × ServesPlan order.old (entries_in roster) logs.new) }
    ensures end { IsEnd (names_part order.old) output.new.failed logs.new.faults.failed result }
    ensures opened { IsOpened (names_file order.old) result }
    ensures starved { IfErr result (λ fault. status_of fault ≡ 6
        → (output.new ≡ output.old) × IsUnserved logs.new) }
{
    let roster = read_roster(rt, order.roster.take())?;
    with_plan(rt, order, roster.as_ref(), output, logs)
}

/// Continues with the railway of the order's plan, if the roster has the decoders that the order names.
fn with_plan<O: Write>(
    rt: &HostRuntime,
    order: &mut ServerOrder,
    roster: Option<&Roster>,
    output: &mut StandardOutput<O>,
    logs: &mut DeviceLogs,
) -> Result<(), ServerFault>
    requires works { output.old.failed ≡ false }
    requires new { IsUnserved logs.old }
    requires pace { HasPace order.old }
    ensures serves { OnOk result (ServesPlan order.old (entries_of roster.entry) logs.new) }
    ensures end { IsEnd (names_part order.old) output.new.failed logs.new.faults.failed result }
    ensures opened { IsOpened (names_file order.old) result }
    ensures starved { IfErr result (λ fault. status_of fault ≡ 6
        → (output.new ≡ output.old) × IsUnserved logs.new) }
{
    check_names(rt.alloc(), order.lose.as_slice(), roster)?;
    let railway = read_railway(rt, order.plan.take(), roster)?;
    with_programming(rt, order, roster, railway, output, logs)
}

/// Continues with the programming track of the order's decoders.
fn with_programming<O: Write>(
    rt: &HostRuntime,
    order: &mut ServerOrder,
    roster: Option<&Roster>,
    railway: Option<Railway>,
    output: &mut StandardOutput<O>,
    logs: &mut DeviceLogs,
) -> Result<(), ServerFault>
    requires works { output.old.failed ≡ false }
    requires new { IsUnserved logs.old }
    requires pace { HasPace order.old }
    ensures serves { OnOk result
        (ServesProgrammer order.old (entries_of roster.entry) railway logs.new) }
    ensures end { IsEnd (names_file order.old) output.new.failed logs.new.faults.failed result }
    ensures starved { IfErr result (λ fault. status_of fault ≡ 6
        → (output.new ≡ output.old) × IsUnserved logs.new) }
{
    let programming = read_programming(rt, order.programmer.take())?;
    with_server(rt, order, roster, railway, programming, output, logs)
}

/// Continues with a server for the decoders of this roster, with this railway and programming track.
fn with_server<O: Write>(
    rt: &HostRuntime,
    order: &mut ServerOrder,
    roster: Option<&Roster>,
    railway: Option<Railway>,
    programming: Option<ProgrammingBench>,
    output: &mut StandardOutput<O>,
    logs: &mut DeviceLogs,
) -> Result<(), ServerFault>
    requires works { output.old.failed ≡ false }
    requires new { IsUnserved logs.old }
    requires pace { HasPace order.old }
    ensures serves { OnOk result
        (ServesOrder order.old (entries_of roster.entry) railway programming logs.new) }
    ensures end { IsEnd (names_file order.old) output.new.failed logs.new.faults.failed result }
    ensures starved { IfErr result (λ fault. status_of fault ≡ 6
        → (output.new ≡ output.old) × IsUnserved logs.new) }
{
    let shares = shares_of(order.lose.as_slice(), roster);
    let losses = Losses::new(shares, u64::from(order.seed));
    let pace = pace_of(order.turns, order.rate);
    let mut server = Server::new(
        rt.alloc(),
        decoders(roster),
        railway,
        programming,
        pace,
        losses,
    )?;
    with_sockets(rt, order, roster, &mut server, output, logs)
}

/// Continues with the sockets of the clients.
fn with_sockets<O: Write>(
    rt: &HostRuntime,
    order: &mut ServerOrder,
    roster: Option<&Roster>,
    server: &mut Server,
    output: &mut StandardOutput<O>,
    logs: &mut DeviceLogs,
) -> Result<(), ServerFault>
    requires works { output.old.failed ≡ false }
    requires new { IsUnserved logs.old }
    requires ready { IsReady order.old (entries_of roster) server.old.hub }
    ensures serves { OnOk result (ServesOrder order.old (entries_of roster.entry)
        (state_of server.old.hub).railway (state_of server.old.hub).programming logs.new) }
    ensures end { IsEnd (names_file order.old) output.new.failed logs.new.faults.failed result }
    ensures starved { IfErr result (λ fault. status_of fault ≡ 6
        → (output.new ≡ output.old) × IsUnserved logs.new) }
{
    let address = SocketAddr::from((order.address, order.port));
    let mut sockets = match Sockets::bind(rt, address) {
        Ok(sockets) => sockets,
        Err(fault) => return Err(ServerFault::of_bind(address, fault, logs)),
    };
    sockets.wake_on(&STANDARD_OUTPUT);
    let served = with_log(rt, order, roster, server, &mut sockets, output, logs);
    logs.sockets = sockets.close_all();
    served
}

/// Serves, with the page, if the order has one, and a queue for the lines of the log, of which the first
/// reports the addresses. At the end the rest of them is written.
fn with_log<O: Write>(
    rt: &HostRuntime,
    order: &mut ServerOrder,
    roster: Option<&Roster>,
    server: &mut Server,
    sockets: &mut Sockets<'_, HostRuntime>,
    output: &mut StandardOutput<O>,
    logs: &mut DeviceLogs,
) -> Result<(), ServerFault>
    requires works { output.old.failed ≡ false }
    requires readings { logs.old.clock.readings ≡ [] }
    requires ready { IsReady order.old (entries_of roster) server.old.hub }
    requires new { sockets.old.log.events ≡ [] }
    ensures serves { OnOk result (ServesBy order.old (entries_of roster.entry)
        (state_of server.old.hub).railway (state_of server.old.hub).programming
        sockets.new.log.events logs.new.clock.readings) }
    ensures end { IsEnd (names_file order.old) output.new.failed logs.new.faults.failed result }
    ensures starved { IfErr result (λ fault. status_of fault ≡ 6 → (output.new ≡ output.old)
        × (sockets.new.log.events ≡ []) × (logs.new.clock.readings ≡ [])) }
{
    open_page(rt, order, sockets, logs)?;
    let (bus, page) = addresses(rt, sockets, logs)?;
    let mut log = LogQueue::new(rt.alloc())?;
    // The queue takes all bytes.
    let _ = print_listening(&mut log, bus, page);
    // The output notes a failed write; the lines stay queued.
    let _ = write_queued(&mut log, output, Duration::ZERO);
    let verbosity = Verbosity::of(order.track, order.quiet, order.times);
    let mut printer = Printer::new(log, roster, verbosity, server.world(), server.railway());
    let served = serve(rt, order, server, sockets, &mut printer, output, logs);
    // A reader that accepts nothing for this long is not waited for.
    let _ = printer.write_queued(output, Duration::from_millis(LAST_WAIT_MILLIS));
    served
}

/// Serves the page of an order, if it has one, by its names.
fn open_page(
    rt: &HostRuntime,
    order: &mut ServerOrder,
    sockets: &mut Sockets<'_, HostRuntime>,
    logs: &mut DeviceLogs,
) -> Result<(), ServerFault>
    ensures order { order.new
        ≡ record order.old { hosts = order.new.hosts; page_file = order.new.page_file } }
    ensures log { sockets.new.log ≡ sockets.old.log }
    ensures end { IsEnd (is_some order.old.page) false logs.new.faults.failed result }
    ensures calls { logs.new.clock ≡ logs.old.clock }
{
    let Some(page) = order.page else {
        return Ok(());
    };
    let address = SocketAddr::from((order.address, page));
    let names = mem::replace(&mut order.hosts, Vec::new(rt.alloc()));
    bind_page(rt, sockets, address, order.page_file.take(), names, logs)
}

/// Reads a page, and serves it by these names.
fn bind_page(
    rt: &HostRuntime,
    sockets: &mut Sockets<'_, HostRuntime>,
    address: SocketAddr,
    file: Option<FileName>,
    names: Vec<String>,
    logs: &mut DeviceLogs,
) -> Result<(), ServerFault>
    ensures log { sockets.new.log ≡ sockets.old.log }
    ensures end { IsEnd true false logs.new.faults.failed result }
    ensures calls { logs.new.clock ≡ logs.old.clock }
{
    let page = read_page(rt, file)?;
    match sockets.bind_page(address, page.as_slice(), names) {
        Ok(()) => Ok(()),
        Err(fault) => Err(ServerFault::of_bind(address, fault, logs)),
    }
}

/// Returns the page of this file, or that of the repository.
fn read_page(rt: &HostRuntime, file: Option<FileName>) -> Result<Vec<u8>, ServerFault>
    ensures { IsEnd true false false result }
{
    let file = match file {
        Some(file) => file,
        None => FileName::new(rt.alloc(), PAGE_FILE)?,
    };
    read_file(rt, file, LONGEST_PAGE)
}

/// Returns the bound addresses and ports: of the page, if there is one, one that other machines reach.
fn addresses(
    rt: &HostRuntime,
    sockets: &Sockets<'_, HostRuntime>,
    logs: &mut DeviceLogs,
) -> Result<(SocketAddr, Option<SocketAddr>), ServerFault>
    ensures end { IsEnd false false logs.new.faults.failed result }
    ensures status { IfErr result (λ fault. status_of fault ≡ 4) }
    ensures calls { logs.new.clock ≡ logs.old.clock }
{
    let (bus, page) = match sockets.addresses() {
        Ok(addresses) => addresses,
        Err(fault) => return Err(ServerFault::of_system(fault, logs)),
    };
    let page = match page {
        Some(page) => Some(reachable(rt, page)),
        None => None,
    };
    Ok((bus, page))
}

/// Serves an order until the given number of clients have disconnected; without a number for ever,
/// which is 2 ^ 64 rounds.
fn serve<O: Write>(
    rt: &HostRuntime,
    order: &ServerOrder,
    server: &mut Server,
    sockets: &mut Sockets<'_, HostRuntime>,
    printer: &mut Printer<'_>,
    output: &mut StandardOutput<O>,
    logs: &mut DeviceLogs,
) -> Result<(), ServerFault>
    requires ready { IsReady order.now (entries_of printer.old.roster) server.old.hub }
    requires verbosity { printer.old.verbosity
        ≡ verbosity_of order.now.track order.now.quiet order.now.times }
    requires new { sockets.old.log.events ≡ [] }
    ensures serves { OnOk result (ServesBy order.now (entries_of printer.old.roster)
        (state_of server.old.hub).railway (state_of server.old.hub).programming
        sockets.new.log.events logs.new.clock.readings) }
    ensures status { IfErr result (λ fault. status_of fault ≡ 4) }
    ensures recorded { IfErr result (λ _. logs.new.faults.failed ≡ true) }
{
    let mut clock = match Ticking::new(rt) {
        Ok(clock) => clock,
        Err(fault) => return Err(ServerFault::of_system(fault, logs)),
    };
    let served = serve_on(order, server, sockets, &mut clock, printer, output);
    logs.clock = clock.into_log();
    match served {
        Ok(()) => Ok(()),
        Err(Stop::Transport(fault)) | Err(Stop::Clock(fault)) => {
            Err(ServerFault::of_system(fault, logs))
        }
        Err(Stop::Observer(never)) | Err(Stop::AfterRound(never)) => match never {},
    }
}

/// Serves an order by these devices, whatever they are: that a run was one of the order is promised of
/// what each of them logged.
fn serve_on<'p, W: Transport, C: TimeSource, A: AfterRound<W, Printer<'p>>>(
    order: &ServerOrder,
    server: &mut Server,
    transport: &mut W,
    clock: &mut C,
    printer: &mut Printer<'p>,
    after_round: &mut A,
) -> Result<(), Stop<W::Fault, C::Fault, Infallible, A::Fault>>
    // What follows a round knows the beginning of no other run.
    requires begun { IsBeginning (A.begun after_round.old)
        (run_snapshot (W.log transport.old) (C.readings clock.old) None
        (A.shown after_round.old) server.old.hub) }
    requires ready { IsReady order.now (entries_of printer.old.roster) server.old.hub }
    requires verbosity { printer.old.verbosity
        ≡ verbosity_of order.now.track order.now.quiet order.now.times }
    ensures serves { OnOk result (ServesLogged order.now (entries_of printer.old.roster)
        (state_of server.old.hub).railway (state_of server.old.hub).programming
        (logs_of (W.log transport.old) (C.readings clock.old) (A.shown after_round.old))
        (logs_of (W.log transport.new) (C.readings clock.new) (A.shown after_round.new))) }
{
    let most = most_clients(order.clients);
    server.run(transport, clock, printer, after_round, most)
}

/// Returns what turns follow: messages, if the number after each is given, else time at this rate.
fn pace_of(turns: Option<u8>, rate: Option<u8>) -> Pace
    ensures { result ≡ pace_of turns rate }
{
    match turns {
        Some(turns) => Pace::AfterMessages { turns },
        None => Pace::RealTime {
            rate: rate.unwrap_or(1),
        },
    }
}

/// Returns how many clients have to disconnect before the server ends.
fn most_clients(clients: Option<u32>) -> u64
    ensures { result ≡ clients_of clients }
{
    match clients {
        Some(clients) => u64::from(clients),
        None => u64::MAX,
    }
}
