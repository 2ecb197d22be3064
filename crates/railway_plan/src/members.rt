//! The members of an array of a plan's text.
ghost use Rattle.std.specs.Prelude.{◌≡◌, ◌≤◌, ℕ, List, [], Result, Ok, Err, MatchResult, length, map};
ghost use Rattle.toml.specs.Data.{Members};
ghost use Rattle.toml.specs.View.{items_view, view};
ghost use Rattle.roster.specs.Entry.{name_of};
ghost use Rattle.railway_plan.specs.declared.fault.Section.{Section as SectionOf};
ghost use Rattle.railway_plan.specs.declared.fault.Section.TheVariants as section;
ghost use Rattle.railway_plan.specs.declared.fault.Reason.{Reason as ReasonOf};
ghost use Rattle.railway_plan.specs.Format.{joint_in, part_of, parts_after, train_in, turnout_in};
ghost use Rattle.railway_plan.specs.Entries.{names_of};

use crate::fault::{PlanTextFault, Reason, Section};
use crate::parts::{joint, train, turnout};
use arrayvec::ArrayVec;
use railway::{Block, Joint, Train, Turnout};
use roster::Roster;
use toml::Value;

/// A member of an array, which may name decoders of a roster and blocks of the plan.
pub(crate) trait Member: Default + Drop {
    /// What a table says, given the names of the decoders and of the blocks.
    ghost said: { List (List ℕ) → List (List ℕ) → Members → Result Self ReasonOf };

    /// The place of the member of this number.
    ghost place: { ℕ → SectionOf };

    /// Returns the member that a value says, with the names of the roster's decoders and of the
    /// plan's blocks: what its table says, or `NotTable` if it is none.
    fn read(roster: &Roster, blocks: &[Block], value: &Value) -> Result<Self, Reason>
        requires { length blocks.now ≤ 64 }
        ensures { result
            ≡ part_of (said (map name_of roster.now) (names_of blocks.now)) (view value.now) };

    /// Returns the place of the member of this number, from 1.
    fn section(number: usize) -> Section
        ensures { result ≡ place number };
}

impl Member for Joint {
    ghost said = { λ _ blocks. joint_in blocks };

    ghost place = { section.Joint };

    fn read(_roster: &Roster, blocks: &[Block], value: &Value) -> Result<Joint, Reason> {
        joint(blocks, value)
    }

    fn section(number: usize) -> Section {
        Section::Joint(number)
    }
}

impl Member for Turnout {
    ghost said = { λ _ blocks. turnout_in blocks };

    ghost place = { section.Turnout };

    fn read(_roster: &Roster, blocks: &[Block], value: &Value) -> Result<Turnout, Reason> {
        turnout(blocks, value)
    }

    fn section(number: usize) -> Section {
        Section::Turnout(number)
    }
}

impl Member for Train {
    ghost said = { train_in };

    ghost place = { section.Train };

    fn read(roster: &Roster, blocks: &[Block], value: &Value) -> Result<Train, Reason> {
        train(roster, blocks, value)
    }

    fn section(number: usize) -> Section {
        Section::Train(number)
    }
}

/// Returns the members that the values of an array say, in order, or the first fault.
pub(crate) fn read_members<M: Member, const MOST: usize>(
    roster: &Roster,
    blocks: &[Block],
    values: &[Value],
) -> Result<ArrayVec<M, MOST>, PlanTextFault>
    requires few { length values.now ≤ MOST }
    requires blocks { length blocks.now ≤ 64 }
    ensures { MatchResult result
        (λ members. parts_after (M.said (map name_of roster.now) (names_of blocks.now)) M.place []
        (items_view values.now) ≡ Ok members.items)
        (λ fault. parts_after (M.said (map name_of roster.now) (names_of blocks.now)) M.place []
        (items_view values.now) ≡ Err fault) }
{
    let mut members = ArrayVec::new();
    for (i, value) in values.iter().enumerate() {
        match M::read(roster, blocks, value) {
            Ok(member) => members.push(member),
            Err(why) => {
                return Err(PlanTextFault {
                    section: M::section(i + 1),
                    why,
                    names: None,
                });
            }
        }
    }
    Ok(members)
}
