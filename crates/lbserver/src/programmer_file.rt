//! Reading the decoders of the programming track from their file.
ghost use Rattle.std.specs.Prelude.{◌≡◌, ◌≤◌, ◌<◌, ◌+◌, Ok, Some, IfErr, IfOk, is_some, false, length, slice_get, true};
ghost use Rattle.toml.specs.View.{table_view};
ghost use Rattle.roster.specs.Decoders.{decoder_name};
ghost use Rattle.roster.specs.Format.{roster_in};
ghost use Rattle.roster.specs.Toml.{table_in};
ghost use Rattle.roster.specs.Variables.{variables_at};
ghost use Rattle.programming_track.specs.Bench.{BenchState, first_mounted};
ghost use Rattle.lbserver.specs.Execution.{IsEnd, status_of};
ghost use Rattle.lbserver.specs.Programmers.{AddsNode, HasNodes, IsProgrammingIn, IsProgrammingOf};

use crate::fault::ServerFault;
use crate::files::read_file;
use crate::roster_file::roster_of;
use command_line::FileName;
use console::{LONGEST_ROSTER, RunFault};
use cv_memory::CvMemory;
use programming_track::ProgrammingBench;
use roster::{Roster, decoder_name, read_toml, variables};
use std::alloc::{AllocError, Global};
use toml::Table;

/// Returns the programming track of this file, if a file is given, with the locomotives of the roster
/// in it: the first stands there.
///
/// # Errors
///
/// `Roster` with the first fault of the text; those of [`read_file`], also if the file has more than
/// 65,536 bytes.
pub(crate) fn read_programming(
    rt: &HostRuntime,
    file: Option<FileName>,
) -> Result<Option<ProgrammingBench>, ServerFault>
    ensures programming { IfOk result (λ programming. IsProgrammingOf file programming) }
    ensures end { IsEnd (is_some file) false false result }
{
    let Some(file) = file else {
        return Ok(None);
    };
    let name = FileName::new(rt.alloc(), file.as_str())?;
    let text = read_file(rt, file, LONGEST_ROSTER)?;
    Ok(Some(programming_of(rt.alloc(), name, text.as_slice())?))
}

/// Returns the programming track of a text, which is that of the file of this name.
fn programming_of(
    alloc: Global,
    file: FileName,
    text: &[u8],
) -> Result<ProgrammingBench, ServerFault>
    ensures programming { IfOk result (λ bench. IsProgrammingIn text.now bench) }
    ensures end { IsEnd true false false result }
{
    let roster = roster_of(alloc, file, text)?;
    match read_toml(alloc, text) {
        Ok(table) => Ok(bench_of(alloc, &table, &roster)?),
        // A roster is TOML.
        Err(_) => Err(ServerFault::Run(RunFault::NoMemory)),
    }
}

/// Returns a bench with the locomotives of a roster, the first of which stands on the track.
fn bench_of(alloc: Global, table: &Table, roster: &Roster) -> Result<ProgrammingBench, AllocError>
    ensures { IfOk result (λ bench. (all : BenchState)
        × HasNodes (table_view table.now) roster.now (length roster.now) all
        × (bench ≡ first_mounted all)) }
{
    let mut bench = all_on_bench(alloc, table, roster)?;
    bench.mount_first();
    Ok(bench)
}

/// Returns a bench with the locomotives of a roster, none of which stands on the track.
fn all_on_bench(
    alloc: Global,
    table: &Table,
    roster: &Roster,
) -> Result<ProgrammingBench, AllocError>
    ensures { IfOk result
        (λ bench. HasNodes (table_view table.now) roster.now (length roster.now) bench) }
{
    let mut bench = ProgrammingBench::new(alloc);
    for before in 0..roster.len() {
        add_node(&mut bench, table, roster, before)?;
    }
    Ok(bench)
}

/// Adds a node of a roster to a bench, if it is a locomotive.
fn add_node(
    bench: &mut ProgrammingBench,
    table: &Table,
    roster: &Roster,
    before: usize,
) -> Result<(), AllocError>
    requires few { before < 64 }
    requires room { length bench.old.names ≤ before }
    ensures added { IfOk result (λ _. AddsNode (decoder_name (slice_get roster.now before))
        (variables_at (table_view table.now) (before + 1)) bench.old bench.new) }
    ensures room { IfOk result (λ _. length bench.new.names ≤ before + 1) }
{
    let Some(pairs) = variables(table, before as u8 + 1) else {
        return Ok(());
    };
    let name = decoder_name(Some(roster), before);
    bench.add(name, CvMemory::of_list(pairs.as_slice()))
}
