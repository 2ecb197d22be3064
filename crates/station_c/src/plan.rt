//! Layouts with a track plan: trains, and sensors that report where they are.
ghost use Rattle.std.specs.Prelude.{◌≡◌, ◌≢◌, ◌⊎◌, Ok, Some, false, is_some, true};
ghost use Rattle.roster.specs.Format.{roster_in};
ghost use Rattle.station_c.specs.Found.{Overwrites};
ghost use Rattle.station_c.specs.Layout.{IsUnchanged, nodes_of, railway_at, railway_of, station_of};
ghost use Rattle.station_c.specs.Plan.{HasPlan, IsPlanStatus, has_railway, level_in, railway_after, sensed_by, train_of};

use crate::contents::Contents;
use crate::found::overwrite;
use crate::layout::Layout;
use crate::train::{Train, told};
use crate::{ALREADY_MADE, BAD_DECODERS, BAD_PLAN, NO_MEMORY, make};
use railway::{Railway, SensorReport};
use railway_plan::read_railway;
use roster::{Roster, RosterFaultKind};
use std::alloc::Global;

/// Makes a layout with `lines` lines, the decoders of a roster, and the trains and sensors of a track
/// plan; there must be none yet.
///
/// Returns 0 if it was made. Otherwise the layout is unchanged: 4 if there is one already, else 2 if
/// the roster has a fault, else 5 if the plan has one, else 1 unless `lines` is 1 to 8; 3 if out of
/// memory.
#[unsafe(no_mangle)]
pub extern "C" fn station_plan(
    alloc: Global,
    layout: &mut Layout,
    lines: u8,
    roster: &[u8],
    plan: &[u8],
) -> u8
    ensures status { IsPlanStatus layout.old.made (roster_in roster.now) plan.now lines result
        ⊎ ((layout.old.made ≡ false) × (result ≡ 3)) }
    ensures made { result ≡ 0 → HasPlan lines (roster_in roster.now) plan.now layout.new }
    ensures untouched { result ≢ 0 → layout.new ≡ layout.old }
{
    if layout.made {
        return ALREADY_MADE;
    }
    match roster::read(alloc, roster) {
        Ok(roster) => make_planned(alloc, layout, lines, &roster, plan),
        Err(fault) if fault.why == RosterFaultKind::NoMemory => NO_MEMORY,
        Err(_) => BAD_DECODERS,
    }
}

/// The same with a roster that was read.
fn make_planned(alloc: Global, layout: &mut Layout, lines: u8, roster: &Roster, plan: &[u8]) -> u8
    requires none { layout.old.made ≡ false }
    ensures status { IsPlanStatus false (Ok roster.now) plan.now lines result ⊎ (result ≡ 3) }
    ensures made { result ≡ 0 → HasPlan lines (Ok roster.now) plan.now layout.new }
    ensures untouched { result ≢ 0 → layout.new ≡ layout.old }
{
    match read_railway(alloc, plan, roster) {
        Ok(railway) => make(alloc, layout, lines, roster.nodes(), Some(railway)),
        Err(fault) => match fault.why {
            railway_plan::Reason::NoMemory => NO_MEMORY,
            _ => BAD_PLAN,
        },
    }
}

/// Lets `micros` microseconds pass in which the decoders do what they do now: trains run and turnouts
/// move, while the track has power.
///
/// Returns false, and does nothing, if there is no layout with a track plan.
#[unsafe(no_mangle)]
pub extern "C" fn station_elapse(alloc: Global, layout: &mut Layout, micros: u32) -> bool
    ensures done { result ≡ has_railway layout.old }
    ensures made { layout.new.made ≡ layout.old.made }
    ensures railway { result ≡ true → railway_of layout.new
        ≡ railway_after (railway_of layout.old) micros (station_of layout.old).powered.power
        (nodes_of layout.old) }
    ensures station { result ≡ true → station_of layout.new ≡ station_of layout.old }
    ensures nodes { result ≡ true → nodes_of layout.new ≡ nodes_of layout.old }
    ensures untouched { result ≡ false → IsUnchanged layout.old layout.new }
{
    let Some(mut contents) = layout.take(alloc) else {
        return false;
    };
    let is_planned = run(&mut contents, micros);
    layout.put(contents);
    is_planned
}

/// Lets the trains run, if there are any.
fn run(contents: &mut Contents, micros: u32) -> bool
    ensures done { result ≡ is_some contents.old.railway }
    ensures railway { contents.new.railway
        ≡ railway_after contents.old.railway micros contents.old.world.station.powered.power
        contents.old.world.nodes }
    ensures world { contents.new.world ≡ contents.old.world }
{
    let Some(railway) = &mut contents.railway else {
        return false;
    };
    let _ = railway.elapse(micros, &contents.world);
    true
}

/// Writes whether a sensor, 1 to 4096, finds its block occupied to `occupied`.
///
/// Returns false, and writes nothing, if no block of the track plan has the sensor, or there is no
/// layout with a plan.
#[unsafe(no_mangle)]
pub extern "C" fn station_sensor(
    alloc: Global,
    layout: &mut Layout,
    sensor: u16,
    occupied: &mut bool,
) -> bool
    ensures sensed { Overwrites (sensed_by (railway_at layout.old) sensor) result occupied.old
        occupied.new }
    ensures untouched { IsUnchanged layout.old layout.new }
{
    let level = layout.find(
        alloc,
        |railway| level_in(railway.report_all().as_slice(), sensor),
    );
    overwrite(occupied, level)
}

/// Returns what the first of these reports says of a sensor.
fn level_in(reports: &[SensorReport], sensor: u16) -> Option<bool>
    ensures { result ≡ level_in reports.now sensor }
{
    for report in reports {
        if report.sensor == sensor {
            return Some(report.occupied);
        }
    }
    None
}

/// Writes where train i of the track plan is, counted from 0, and how fast it runs to `train`.
///
/// Returns false, and writes nothing, if there is no such train, or no layout with a plan.
#[unsafe(no_mangle)]
pub extern "C" fn station_train_of(
    alloc: Global,
    layout: &mut Layout,
    i: usize,
    train: &mut Train,
) -> bool
    ensures told { Overwrites (train_of (railway_at layout.old) i) result train.old train.new }
    ensures untouched { IsUnchanged layout.old layout.new }
{
    overwrite(train, layout.find(alloc, |railway| train_of(railway, i)))
}

/// Returns where the train of an index is, if there is one.
fn train_of(railway: &Railway, i: usize) -> Option<Train>
    ensures { result ≡ train_of (Some railway.now) i }
{
    let train = railway.trains().get(i)?;
    Some(told(train, railway.speed(i)))
}
