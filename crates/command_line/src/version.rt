//! The version of the programs.

/// The version that `--version` prints: the one with which `CHANGELOG.md` begins, and the first
/// twelve digits of the checksum of the program's sources. `build` puts these in place of the zeros
/// when the program is built.
pub const VERSION: &'static str = "1.1.0 (sources 000000000000)";
