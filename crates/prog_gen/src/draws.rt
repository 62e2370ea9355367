//! The generator of programs and valuations.
ghost use Rattle.std.specs.Prelude.{◌≡◌, ◌<◌, ◌^◌};
ghost use Rattle.prog_gen.specs.Draws.{lcg_next, lcg_output};

use std::marker::Model;

/// A generator: Knuth's linear congruential one of 64 bits (MMIX). A draw returns the upper 31 bits of its new word.
#[derive(Debug, Drop)]
pub struct Draws {
    word: u64,
}

impl Model for Draws {
    ghost use Rattle.std.specs.Prelude.{ℕ};

    ghost Value = { ℕ };

    ghost view = { λ draws. draws.word };
}

impl Draws {
    /// A generator that starts with this word.
    pub fn from(word: u64) -> Draws
        ensures { result ≡ word }
    {
        Draws { word }
    }

    /// The next number.
    #[tactic(auto, unfolding(crate::specs::Draws::lcg_next, crate::specs::Draws::lcg_output))]
    pub fn draw(&mut self) -> u64
        ensures after { self.new ≡ lcg_next self.old }
        ensures number { result ≡ lcg_output self.new }
        ensures small { result < 2 ^ 31 }
    {
        let next = self
            .word
            .wrapping_mul(6364136223846793005)
            .wrapping_add(1442695040888963407);
        self.word = next;
        next >> 33
    }
}
