//! Blocks and decoders by their names.
ghost use Rattle.std.specs.Prelude.{◌≡◌, ◌≤◌, ◌++◌, length, map};
ghost use Rattle.std.specs.Str.{bytes_eq};
ghost use Rattle.roster.specs.Entry.{name_of};
ghost use Rattle.railway_plan.specs.Format.{end_from, end_named, index_from};
ghost use Rattle.railway_plan.specs.Entries.{names_of};

use arrayvec::ArrayString;
use railway::{Block, BlockEnd, End, LONGEST_NAME, Name};
use roster::Roster;

/// The longest spelling of an end, in bytes.
const LONGEST_END: usize = LONGEST_NAME + 2;

/// Returns the end that is spelled so: the name of a block, and `.a` or `.b`.
pub(crate) fn block_end(blocks: &[Block], text: &str) -> Option<BlockEnd>
    requires { length blocks.now ≤ 64 }
    ensures { result ≡ end_from 0 (names_of blocks.now) text.now }
{
    for (i, block) in blocks.iter().enumerate() {
        if let Some(end) = end_of(block, text) {
            return Some(BlockEnd {
                block: i as u8,
                end,
            });
        }
    }
    None
}

/// Returns the end of a block that is spelled so.
fn end_of(block: &Block, text: &str) -> Option<End>
    ensures { result ≡ end_named block.now.name.bytes text.now }
{
    if is_spelled(text, &block.name, ".a") {
        Some(End::A)
    } else if is_spelled(text, &block.name, ".b") {
        Some(End::B)
    } else {
        None
    }
}

fn is_spelled(text: &str, name: &Name, suffix: &str) -> bool
    requires { length suffix.now ≡ 2 }
    ensures { result ≡ bytes_eq text.now (name.now.bytes ++ suffix.now) }
{
    let mut spelled: ArrayString<LONGEST_END> = ArrayString::new();
    spelled.push_str(name.as_str());
    spelled.push_str(suffix);
    text == spelled.as_str()
}

/// Returns the index of the first block with this name.
pub(crate) fn block_index(blocks: &[Block], name: &str) -> Option<u8>
    requires { length blocks.now ≤ 64 }
    ensures { result ≡ index_from 0 (names_of blocks.now) name.now }
{
    for (i, block) in blocks.iter().enumerate() {
        if name == block.name.as_str() {
            return Some(i as u8);
        }
    }
    None
}

/// Returns the index of the decoder with this name.
pub(crate) fn decoder_index(roster: &Roster, name: &str) -> Option<u8>
    ensures { result ≡ index_from 0 (map name_of roster.now) name.now }
{
    for i in 0..roster.len() {
        if name == roster.name(i) {
            return Some(i as u8);
        }
    }
    None
}
