//! The blocks of a track plan, and their ends.
ghost use Rattle.std.specs.Prelude.{◌≡◌, ◌*◌, ◌≤◌, length, slice_get};
ghost use Rattle.railway.specs.Blocks.{block_name, other, same_block_end, same_end};

use arrayvec::ArrayString;

/// The longest name of a block, in bytes.
pub const LONGEST_NAME: usize = 32;

/// The name of a block.
pub type Name = ArrayString<LONGEST_NAME>;

/// The longest block, in millimetres.
pub const LONGEST_BLOCK: u32 = 100_000;

/// The femtometres of a millimetre.
pub const MILLIMETRE: u64 = 1_000_000_000_000;

/// A point of a drawing of the plan.
#[derive(Clone, Copy, PartialEq, Eq)]
pub struct Point {
    pub x: i32,
    pub y: i32,
}

/// A block: a piece of track with two ends, which is occupied as one.
#[derive(Clone, Copy)]
pub struct Block {
    /// Its name, which no other block of the plan has.
    pub name: Name,
    /// Its length in millimetres, 1 to 100,000.
    pub length: u32,
    /// The sensor that reports whether it is occupied, 1 to 4096. No other block has it.
    pub sensor: Option<u16>,
    /// Where end A is drawn.
    pub point_a: Option<Point>,
    /// Where end B is drawn.
    pub point_b: Option<Point>,
}

/// One of the two ends of a block.
#[derive(Clone, Copy, Debug, PartialEq, Eq)]
pub enum End {
    A,
    B,
}

/// An end of a block of the plan.
#[derive(Clone, Copy, PartialEq, Eq)]
pub struct BlockEnd {
    /// The index of the block in the plan, from 0.
    pub block: u8,
    pub end: End,
}

impl Block {
    /// Returns its length in femtometres.
    pub(crate) fn femtometres(&self) -> u64
        requires { self.now.length ≤ 100000 }
        ensures { result ≡ self.now.length * 1000000000000 }
    {
        u64::from(self.length) * MILLIMETRE
    }
}

impl Default for Block {
    ghost is_default = { λ block. block.length ≡ 1 };

    /// A block of one millimetre, with no name, no sensor and no points.
    fn default() -> Block {
        Block {
            name: Name::new(),
            length: 1,
            sensor: None,
            point_a: None,
            point_b: None,
        }
    }
}

impl End {
    /// Returns the other end.
    pub fn other(self) -> End
        ensures other { result ≡ other self }
    {
        match self {
            End::A => End::B,
            End::B => End::A,
        }
    }

    /// Whether it is this end.
    pub fn is(self, end: End) -> bool
        ensures same { result ≡ same_end self end }
    {
        match (self, end) {
            (End::A, End::A) | (End::B, End::B) => true,
            _ => false,
        }
    }
}

impl BlockEnd {
    /// Whether it is this end of this block.
    pub fn is(self, end: BlockEnd) -> bool
        ensures same { result ≡ same_block_end self end }
    {
        self.block == end.block && self.end.is(end.end)
    }
}

impl Default for BlockEnd {
    ghost use Rattle.railway.specs.Blocks.{default_end};

    ghost is_default = { λ end. end ≡ default_end };

    /// End A of the first block.
    fn default() -> BlockEnd {
        BlockEnd {
            block: 0,
            end: End::A,
        }
    }
}

/// Returns the name of a block by its index in a plan, from 0; an empty text if there is no such
/// block.
pub fn block_name<'a>(blocks: &'a [Block], i: usize) -> &'a str
    ensures name { result.now ≡ block_name (slice_get blocks.now i) }
    ensures most { length result.now ≤ 32 }
{
    match blocks.get(i) {
        Some(block) => block.name.as_str(),
        None => "",
    }
}
