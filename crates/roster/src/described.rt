//! What the table of a node says of its decoder.
ghost use Rattle.std.specs.Prelude.{◌≡◌, option_map};
ghost use Rattle.toml.specs.View.{table_view};
ghost use Rattle.roster.specs.Details.{cv_fault_of};
ghost use Rattle.roster.specs.Format.{accessory_in, decoder_of, described_as, loco_in_keys, loco_in_list, variables_in};
ghost use Rattle.roster.specs.Variables.{variables_of};

use crate::decoder::accessory;
use crate::fault::RosterFaultKind;
use crate::four_variables::FourVariables;
use crate::pairs::{CvPairs, Pairs};
use crate::table::{integer_at, integer_or, knows_only, value_at};
use crate::version::Version;
use decoder_cv::CvFault;
use decoder_node::NodeSpec;
use toml::Table;

/// What the table of a node says of its decoder, whatever its values are.
#[derive(Drop)]
pub(crate) enum Described<'a> {
    /// A locomotive decoder with these configuration variables (version 1).
    Loco { values: FourVariables<i64> },
    /// A locomotive decoder with this list of them (version 2).
    Listed { pairs: Pairs<'a> },
    /// The accessory decoder of this module.
    Accessory { module: i64 },
}

impl<'a> Described<'a> {
    /// What the table says, with `kind` the value at that key, or `BadShape`.
    pub(crate) fn read(
        version: Version,
        kind: &str,
        table: &'a Table,
    ) -> Result<Described<'a>, RosterFaultKind>
        ensures { result ≡ described_as version kind.now (table_view table.now) }
    {
        match kind {
            "loco" => match version {
                Version::One => read_keys(table),
                Version::Two => read_list(table),
            },
            "accessory" => read_accessory(table),
            _ => Err(RosterFaultKind::BadShape),
        }
    }

    /// The decoder that these values make, or `BadCv`, `BadCvList` or `BadModule`.
    pub(crate) fn spec(self) -> Result<NodeSpec, RosterFaultKind>
        ensures { result ≡ decoder_of self.entry }
    {
        match self {
            Described::Loco { values } => values.decoder(),
            Described::Listed { pairs } => pairs.decoder(),
            Described::Accessory { module } => accessory(module),
        }
    }

    /// The variables of a locomotive, if their numbers and values fit.
    pub(crate) fn variables(&self) -> Option<CvPairs>
        ensures { option_map (λ pairs. pairs.items) result ≡ variables_of self.now }
    {
        match self {
            Described::Loco { values } => values.variables(),
            Described::Listed { pairs } => pairs.variables(),
            Described::Accessory { .. } => None,
        }
    }

    /// What is wrong with the variables, if they are bytes.
    pub(crate) fn cv_fault(&self) -> Option<CvFault>
        ensures { result ≡ cv_fault_of self.now }
    {
        match self {
            Described::Loco { values } => values.cv_fault(),
            Described::Listed { pairs } => pairs.cv_fault(),
            Described::Accessory { .. } => None,
        }
    }
}

/// A locomotive of version 1, with a key for each variable.
fn read_keys<'a>(table: &'a Table) -> Result<Described<'a>, RosterFaultKind>
    ensures { result ≡ loco_in_keys (table_view table.now) }
{
    if !knows_only(table, &["name", "kind", "cv1", "cv17", "cv18", "cv29"]) {
        return Err(RosterFaultKind::BadShape);
    }
    read_variables(table)
}

/// The variables of a locomotive of version 1, of which two have a default.
fn read_variables<'a>(table: &'a Table) -> Result<Described<'a>, RosterFaultKind>
    ensures { result ≡ variables_in (table_view table.now) }
{
    let values = (
        integer_at(table, "cv1"),
        integer_or(table, "cv17", 192),
        integer_or(table, "cv18", 0),
        integer_at(table, "cv29"),
    );
    match values {
        (Some(cv1), Some(cv17), Some(cv18), Some(cv29)) => Ok(Described::Loco {
            values: FourVariables {
                cv1,
                cv17,
                cv18,
                cv29,
            },
        }),
        _ => Err(RosterFaultKind::BadShape),
    }
}

/// A locomotive of version 2, with a list of variables.
fn read_list<'a>(table: &'a Table) -> Result<Described<'a>, RosterFaultKind>
    ensures { result ≡ loco_in_list (table_view table.now) }
{
    if !knows_only(table, &["name", "kind", "cvs"]) {
        return Err(RosterFaultKind::BadShape);
    }
    let Some(value) = value_at(table, "cvs") else {
        return Err(RosterFaultKind::BadShape);
    };
    let pairs = Pairs::read(value)?;
    Ok(Described::Listed { pairs })
}

fn read_accessory<'a>(table: &'a Table) -> Result<Described<'a>, RosterFaultKind>
    ensures { result ≡ accessory_in (table_view table.now) }
{
    if !knows_only(table, &["name", "kind", "module"]) {
        return Err(RosterFaultKind::BadShape);
    }
    match integer_at(table, "module") {
        Some(module) => Ok(Described::Accessory { module }),
        None => Err(RosterFaultKind::BadShape),
    }
}
