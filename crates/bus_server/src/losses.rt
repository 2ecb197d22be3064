//! The packets that decoders miss.
ghost use Rattle.std.specs.Prelude.{◌≡◌, ℕ, ◌≤◌, ◌&&◌, nat_lt, if◌then◌else◌};
ghost use Rattle.std.specs.Int.{bit_at};
ghost use Rattle.bus_server.specs.Generator.{first_generator, generator_after, is_missed, loses_none, next_generator, share_at, word_at, word_of};

use arrayvec::ArrayVec;
use decoder_node::MAX_NODES;
use rand_core::SeedableRng;
use rand_core::utils::NextWord;
use rand_pcg::Pcg32;

/// How many of 100 packets decoders miss, each 0 to 99, in the order of the decoders, at most 64.
pub type Shares = ArrayVec<u8, MAX_NODES>;

/// Draws the packets that decoders miss, as they do where wheels or rails are dirty. Equal seeds draw equal losses.
#[derive(Drop)]
pub struct Losses {
    shares: Shares,
    generator: Pcg32,
}

impl Losses {
    ghost use Rattle.bus_server.specs.Losses.{IsDraw, IsSeeded};

    /// Losses of these shares, drawn from a seed. A decoder without one misses nothing.
    #[tactic(auto, unfolding(crate::specs::Generator::first_generator))]
    pub fn new(shares: Shares, seed: u64) -> Losses
        ensures { IsSeeded shares.items seed result }
    {
        Losses {
            shares,
            generator: Pcg32::seed_from_u64(seed),
        }
    }

    /// Draws which of `nodes` decoders, at most 64, miss a turn: bit i stands for decoder i, and each is drawn by itself.
    /// Draws nothing if none is to miss anything.
    pub fn draw(&mut self, nodes: usize) -> u64
        requires { nodes ≤ 64 }
        ensures draw { IsDraw nodes result self.old self.new }
        ensures above { (node : ℕ) → nodes ≤ node → bit_at result node ≡ 0 }
    {
        if self.loses_none() {
            return 0;
        }
        let mut missed = 0;
        for node in 0..nodes {
            if self.misses(node) {
                missed |= 1 << node;
            }
        }
        missed
    }

    /// Whether no decoder is to miss anything.
    fn loses_none(&self) -> bool
        ensures { result ≡ loses_none self.now.shares.items }
    {
        self.shares.iter().all(|share| *share == 0)
    }

    /// How many of 100 packets a decoder misses.
    fn share(&self, node: usize) -> u8
        ensures { result ≡ share_at self.now.shares.items node }
    {
        match self.shares.get(node) {
            Some(share) => *share,
            None => 0,
        }
    }

    /// Draws whether one decoder misses a turn.
    // 2 ^ 32 words are no multiple of 100, which makes a difference of one in 40 million.
    #[tactic(auto, unfolding(crate::specs::Generator::word_of, crate::specs::Generator::next_generator))]
    fn misses(&mut self, node: usize) -> bool
        ensures drawn { result
            ≡ is_missed (share_at self.old.shares.items node) (word_of self.old.generator) }
        ensures shares { self.new.shares ≡ self.old.shares }
        ensures generator { self.new.generator ≡ next_generator self.old.generator }
    {
        self.generator.next_word() % 100 < u32::from(self.share(node))
    }
}
