//! Lets only a random sample of the lines of an input pass.
ghost use Rattle.std.specs.Prelude.{◌≡◌, IsTrue, None};
ghost use Rattle.cadence_words.specs.Samples.{IsPassed};

use cadence_value::chance::Chance;
use rand_core::Rng;
use std::io;
use std::io::Read;

/// Chooses lines at random: each with a chance, or all if there is none.
#[derive(Drop)]
pub struct Sampler<R: Rng + Drop> {
    chance: Option<(Chance, R)>,
}

impl<R: Rng + Drop> Sampler<R> {
    /// Returns a sampler that chooses every line.
    pub fn all() -> Sampler<R> {
        Sampler { chance: None }
    }

    /// Returns a sampler that chooses a line if the next number of the generator is below the chance.
    pub fn new(chance: Chance, rng: R) -> Sampler<R> {
        Sampler {
            chance: Some((chance, rng)),
        }
    }

    /// Returns whether the next line is chosen.
    pub fn chooses(&mut self) -> bool
        ensures { self.old.chance ≡ None → IsTrue result }
    {
        match &mut self.chance {
            Some((chance, rng)) => chance.is_above(rng.next_u64()),
            None => true,
        }
    }
}

/// A reader that lets the lines pass that a sampler chooses. Each byte of another line becomes a space, so that the
/// line has no words. Its newline stays, so that the lines keep their numbers.
#[derive(Drop)]
pub struct SampledReader<I: Read + Drop, R: Rng + Drop> {
    input: I,
    sampler: Sampler<R>,
    is_at_start: bool,
    is_chosen: bool,
}

impl<I: Read + Drop, R: Rng + Drop> SampledReader<I, R> {
    /// Returns a reader of the lines of this input that the sampler chooses.
    pub fn new(input: I, sampler: Sampler<R>) -> SampledReader<I, R> {
        SampledReader {
            input,
            sampler,
            is_at_start: true,
            is_chosen: true,
        }
    }

    // Returns what the next byte of the input becomes. A line is chosen at its first byte.
    fn pass(&mut self, byte: u8) -> u8
        ensures { IsPassed byte result }
    {
        if self.is_at_start {
            self.is_chosen = self.sampler.chooses();
        }
        self.is_at_start = byte == b'\n';
        if self.is_chosen || self.is_at_start {
            return byte;
        }
        b' '
    }
}

impl<I: Read + Drop, R: Rng + Drop> Read for SampledReader<I, R> {
    fn read(&mut self, buffer: &mut [u8]) -> io::Result<usize> {
        let count = self.input.read(buffer)?;
        if self.sampler.chance.is_none() {
            return Ok(count);
        }
        for byte in &mut buffer[..count] {
            *byte = self.pass(*byte);
        }
        Ok(count)
    }
}
