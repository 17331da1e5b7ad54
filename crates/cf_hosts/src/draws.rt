//! The draws that decide what becomes of the segments of a world.
ghost use Rattle.std.specs.Prelude.{◌≡◌, ◌<◌, ◌+◌, ℕ};
ghost use Rattle.cf_hosts.specs.Draws.{draw_at, drawn};

use rand_core::SeedableRng;
use rand_core::utils::NextWord;
use rand_pcg::Pcg32;
use std::marker::Model;

/// The draws of a seed: the words of PCG32 in their order, modulo 8. Contracts see its generator. Takes no memory.
#[derive(Drop)]
pub struct Draws {
    generator: Pcg32,
}

impl Model for Draws {
    ghost use Rattle.rand_pcg.specs.Lcg.{Lcg};

    ghost Value = { Lcg };

    ghost view = { λ d. d.generator };
}

impl Draws {
    /// The draws of this seed, of which none was made.
    pub fn new(seed: u64) -> Draws
        ensures { result ≡ drawn seed 0 }
    {
        Draws {
            generator: Pcg32::seed_from_u64(seed),
        }
    }

    /// The next draw, from 0 to 7.
    pub fn draw(&mut self) -> u8
        ensures draw { (seed count : ℕ) → self.old ≡ drawn seed count → result ≡ draw_at seed count }
        ensures next { (seed count : ℕ) → self.old ≡ drawn seed count → self.new ≡ drawn seed (count + 1) }
        ensures small { result < 8 }
    {
        (self.generator.next_word() % 8) as u8
    }
}
