//! Where words come from.
ghost use Rattle.std.specs.Prelude.{◌≡◌, ℕ, List, [], ◌∷◌};
ghost use Rattle.fate_words.specs.Drawing.{GivesAlone, GivesItself, GivesNext, pcg_at};
ghost use Rattle.rand_core.specs.Pcg32Seed.{pcg32_seed};
ghost use Rattle.rand_pcg.specs.Pcg.{pcg64, pcg64_of_seed};

use rand_core::SeedableRng;
use rand_core::utils::NextWord;
use rand_pcg::Lcg128Xsl64;
use std::marker::Model;

/// Gives words, which make the choices of a run: any 64 bits, if it gives them where it stands. Takes no memory.
pub trait Chooser {
    /// Where it stands, in numbers of its own.
    ghost at: { Self → List ℕ };

    /// Which words it gives where it stands, and where it stands then.
    ghost gives: { List ℕ → ℕ → List ℕ → Type 0 };

    fn word(&mut self) -> u64
        ensures given { gives (at self.old) result (at self.new) };
}

/// Gives 0 and nothing else, by which every message goes on, the oldest first.
#[derive(Clone, Copy, PartialEq, Eq, Debug, Drop)]
pub struct Calm;

impl Chooser for Calm {
    ghost at = { λ _. [] };

    ghost gives = { GivesAlone 0 };

    fn word(&mut self) -> u64 {
        0
    }
}

/// Gives one word and no other.
#[derive(Clone, Copy, PartialEq, Eq, Debug, Drop)]
pub struct Fixed {
    word: u64,
}

impl Fixed {
    /// The chooser that gives this word.
    pub fn new(word: u64) -> Fixed
        ensures { result.word ≡ word }
    {
        Fixed { word }
    }
}

impl Chooser for Fixed {
    ghost at = { λ fixed. fixed.word ∷ [] };

    ghost gives = { GivesItself };

    /// The word that it was made with.
    fn word(&mut self) -> u64
        ensures given { ⟦<Fixed as Chooser>⟧.gives (⟦<Fixed as Chooser>⟧.at self.old) result (⟦<Fixed as Chooser>⟧.at self.new) }
        ensures word { result ≡ self.old.word }
        ensures stays { self.new ≡ self.old }
    {
        self.word
    }
}

/// Gives the words of a PCG generator (XSL RR 128/64), from a seed. Contracts see it as that
/// generator.
#[derive(Drop)]
pub struct Seeded {
    generator: Lcg128Xsl64,
}

impl Model for Seeded {
    ghost use Rattle.rand_pcg.specs.Lcg.{Lcg};

    ghost Value = { Lcg };

    ghost view = { λ s. s.generator };
}

impl Seeded {
    /// The generator that the seed is expanded to.
    pub fn new(seed: u64) -> Seeded
        ensures { result ≡ pcg64_of_seed (pcg32_seed 32 seed) }
    {
        Seeded {
            generator: Lcg128Xsl64::seed_from_u64(seed),
        }
    }
}

impl Chooser for Seeded {
    ghost at = { pcg_at };

    ghost gives = { GivesNext };

    /// The generator's next 64 bits.
    fn word(&mut self) -> u64
        ensures given { ⟦<Seeded as Chooser>⟧.gives (⟦<Seeded as Chooser>⟧.at self.old) result (⟦<Seeded as Chooser>⟧.at self.new) }
        ensures next { (result, self.new) ≡ pcg64 self.old }
    {
        self.generator.next_word()
    }
}
