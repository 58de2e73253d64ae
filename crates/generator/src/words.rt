//! The words of a seed, one after another.

ghost use Rattle.std.specs.Prelude.{◌≡◌, ◌+◌, ℕ};
ghost use Rattle.rand_pcg.specs.Pcg.{pcg32};
ghost use Rattle.bus_model.specs.Turns.{seeded_word};
ghost use Rattle.generator.specs.Words.{generator_after};

use rand_core::SeedableRng;
use rand_core::utils::NextWord;
use rand_pcg::Lcg64Xsh32;

/// The generator of a seed.
pub fn seeded(seed: u64) -> Lcg64Xsh32
    ensures { result ≡ generator_after seed 0 }
{
    Lcg64Xsh32::seed_from_u64(seed)
}

/// The next word of a generator.
pub fn next_word(generator: &mut Lcg64Xsh32) -> u32
    ensures step { (result, generator.new) ≡ pcg32 generator.old }
    ensures word { (seed words : ℕ) → generator.old ≡ generator_after seed words
        → result ≡ seeded_word seed words }
    ensures next { (seed words : ℕ) → generator.old ≡ generator_after seed words
        → generator.new ≡ generator_after seed (words + 1) }
{
    generator.next_word()
}
