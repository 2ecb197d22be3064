//! Why a roster is refused.
ghost use Rattle.std.specs.Prelude.{◌≡◌, ◌≤◌, length};
ghost use Rattle.roster.specs.FaultWords.{words_of};

/// Why a roster is refused, by the number that `station` reports, unless memory ran out.
#[derive(Clone, Copy, Debug, PartialEq, Eq)]
pub enum RosterFaultKind {
    /// The text is not TOML, or not UTF-8.
    NotToml = 1,
    /// A key is missing or unknown, a value is of a wrong type, or it is another `kind` or
    /// `version`.
    BadShape = 2,
    /// There are more than 64 nodes.
    TooMany = 3,
    /// A name is not 1 to 16 ASCII letters, digits, `-` or `_`, or an earlier node has it.
    BadName = 4,
    /// The value of a configuration variable is outside 0 to 255, or they make no locomotive
    /// decoder.
    BadCv = 5,
    /// A module is outside 1 to 510.
    BadModule = 6,
    /// There is no node.
    Empty = 7,
    /// A growth was refused.
    NoMemory = 8,
    /// The variables of a locomotive in version 2 are no legal list: a number is outside 1 to 1024
    /// or appears twice, or 1 or 29 is missing.
    BadCvList = 9,
}

impl RosterFaultKind {
    /// Returns what is wrong, in words.
    #[tactic(auto, unfolding(crate::specs::FaultWords::words_of))]
    pub fn words(self) -> &'static str
        ensures text { result.now ≡ words_of self }
        ensures len { length result.now ≤ 90 }
    {
        match self {
            RosterFaultKind::NotToml => "the text is not TOML, or not UTF-8",
            RosterFaultKind::BadShape => "a key is missing or unknown, or a value has another type",
            RosterFaultKind::TooMany => "more than 64 nodes",
            RosterFaultKind::BadName =>
                "a name is not 1 to 16 letters, digits, - or _, or another node has it",
            RosterFaultKind::BadCv => {
                "a configuration variable is not 0 to 255, or the values make no locomotive decoder"
            }
            RosterFaultKind::BadModule => "a module is not 1 to 510",
            RosterFaultKind::Empty => "no node",
            RosterFaultKind::NoMemory => "no memory",
            RosterFaultKind::BadCvList =>
                "cvs has a number outside 1 to 1024, or one twice, or lacks 1 or 29",
        }
    }
}

/// The first fault of a roster, and its node: nodes count from 1, and 0 is the whole.
#[derive(Clone, Copy, Debug, PartialEq, Eq)]
pub struct RosterFault {
    /// What is wrong.
    pub why: RosterFaultKind,
    /// The node, 1 to 64, or 0.
    pub node: u8,
}
