//! A process with little memory left. It needs the allocator of the C library, which is used by
//! `rt test` and not by `rt try`.

use std::alloc::{AllocError, Global};

/// The blocks of a reserve, and the bytes of each: few enough for the allocator to place them side
/// by side.
const RESERVE_BLOCKS: usize = 256;

const BLOCK: usize = 65_536;

/// The length from which a block is returned to the allocator's common memory; shorter blocks are
/// kept for calls of just their length.
const LONG: usize = 2048;

/// The memory that is taken, until it is dropped.
#[derive(Drop)]
pub struct Taken {
    blocks: Vec<Vec<u8>>,
}

/// Takes all memory that the process can still have: blocks of half the size wherever one is
/// refused.
fn take_all(alloc: Global, blocks: &mut Vec<Vec<u8>>) {
    let mut size = 1usize << 46;
    for _ in 0..1_000_000u32 {
        if size < 16 || blocks.len() >= blocks.capacity() {
            return;
        }
        match Vec::with_capacity(alloc, size) {
            Ok(block) => {
                if blocks.push(block).is_err() {
                    return;
                }
            }
            Err(_) => size /= 2,
        }
    }
}

/// Takes all memory except `room` bytes.
///
/// # Errors
///
/// Fewer bytes were left.
pub fn take_all_but(alloc: Global, room: usize) -> Result<Taken, AllocError> {
    let mut blocks = Vec::with_capacity(alloc, 60_000)?;
    let left: Vec<u8> = Vec::with_capacity(alloc, room)?;
    take_all(alloc, &mut blocks);
    drop(left);
    Ok(Taken { blocks })
}

/// A process whose memory is taken except a reserve, and of that repeatedly all except a number of
/// bytes: to take only the reserve is a thousand times faster than to take all memory.
#[derive(Drop)]
pub struct Scarcity {
    alloc: Global,
    taken: Vec<Vec<u8>>,
    filled: Vec<Vec<u8>>,
}

impl Scarcity {
    /// Takes all memory except the reserve.
    ///
    /// # Errors
    ///
    /// There was less than the reserve.
    pub fn new(alloc: Global) -> Result<Scarcity, AllocError> {
        let mut taken = Vec::with_capacity(alloc, 60_000)?;
        let filled = Vec::with_capacity(alloc, 4000)?;
        let mut reserve: Vec<Vec<u8>> = Vec::with_capacity(alloc, RESERVE_BLOCKS)?;
        for _ in 0..RESERVE_BLOCKS {
            reserve.push(Vec::with_capacity(alloc, BLOCK)?)?;
        }
        take_all(alloc, &mut taken);
        drop(reserve);
        Ok(Scarcity {
            alloc,
            taken,
            filled,
        })
    }

    /// Takes the reserve except `room` bytes.
    ///
    /// # Errors
    ///
    /// Fewer bytes were left.
    pub fn leave(&mut self, room: usize) -> Result<(), AllocError> {
        self.filled.clear();
        let left: Vec<u8> = Vec::with_capacity(self.alloc, room.saturating_add(LONG))?;
        take_all(self.alloc, &mut self.filled);
        drop(left);
        self.filled.push(Vec::with_capacity(self.alloc, LONG)?)?;
        Ok(())
    }

    /// Returns the reserve to the allocator.
    pub fn relax(&mut self) {
        self.filled.clear();
    }
}
