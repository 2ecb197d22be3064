//! A count that exists in proofs only.
ghost use Rattle.std.specs.Prelude.{◌≡◌, ℕ, ◌+◌};

use std::marker::{Model, PhantomData};

/// A number that only proofs see. It takes no memory.
#[derive(Drop)]
pub(crate) struct GhostCount {
    marker: PhantomData<u8>,
    pub(crate) ghost count: { ℕ },
}

impl Model for GhostCount {
    ghost use Rattle.std.specs.Borrow.{ftrue};

    ghost also_owns = { λ _. ftrue };
}

impl GhostCount {
    /// A count of zero.
    pub(crate) fn new() -> GhostCount
        ensures { result.count ≡ 0 }
    {
        GhostCount {
            marker: PhantomData,
        }
    }

    /// Adds one. It does nothing at run time.
    pub(crate) fn step(&mut self)
        ensures { self.new.count ≡ self.old.count + 1 }
    {}
}
