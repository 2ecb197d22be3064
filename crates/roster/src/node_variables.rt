//! The variables that a roster lists.
ghost use Rattle.std.specs.Prelude.{◌≡◌, option_map};
ghost use Rattle.toml.specs.View.{table_view};
ghost use Rattle.roster.specs.Variables.{variables_at};

use crate::locating::{described_in, node_table};
use crate::pairs::CvPairs;
use toml::Table;

/// Returns the variables of a node, from 1, in the order of the table of a roster, or `None` if it is
/// no locomotive or one of its numbers or values does not fit.
///
/// A roster of version 1 gives CV1, CV17, CV18 and CV29.
pub fn variables(whole: &Table, node: u8) -> Option<CvPairs>
    ensures { option_map (λ pairs. pairs.items) result
        ≡ variables_at (table_view whole.now) node }
{
    let table = node_table(whole, node)?;
    match described_in(whole, table) {
        Ok(described) => described.variables(),
        Err(_) => None,
    }
}
