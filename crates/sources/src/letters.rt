ghost use Rattle.std.specs.Prelude.{◌≡◌, ℕ, ◌+◌, ◌<◌, slice_index};
ghost use Rattle.sources.specs.LetterMap.{byte_of, eight, letter_at};

use std::array;
use tables::get_or;

// Up to 64 letters, a byte each, eight to a number: the letter at place 8 * i + j is byte j of number i, the lowest byte first.
#[derive(Clone, Copy)]
pub(crate) struct LetterMap {
    places_0: u64,
    places_8: u64,
    places_16: u64,
    places_24: u64,
    places_32: u64,
    places_40: u64,
    places_48: u64,
    places_56: u64,
}

// The eight letters from a place on, 0 for those that the list lacks.
fn pack(letters: &[u8], from: usize) -> u64
    requires { from < 64 }
    ensures { (k : ℕ) → k < 8 → byte_of result k ≡ slice_index letters.now (from + k) }
{
    u64::from_le_bytes(array::from_fn(|k| get_or(letters, from + k, &0)))
}

impl LetterMap {
    // The letters of a list, as many of them as there is room for.
    pub(crate) fn of(letters: &[u8]) -> LetterMap
        ensures { (k : ℕ) → k < 64 → letter_at result k ≡ slice_index letters.now k }
    {
        LetterMap {
            places_0: pack(letters, 0),
            places_8: pack(letters, 8),
            places_16: pack(letters, 16),
            places_24: pack(letters, 24),
            places_32: pack(letters, 32),
            places_40: pack(letters, 40),
            places_48: pack(letters, 48),
            places_56: pack(letters, 56),
        }
    }

    // The number that holds the places from 8 times j on.
    fn eight(&self, j: u8) -> u64
        ensures { result ≡ eight self.now j }
    {
        match j {
            0 => self.places_0,
            1 => self.places_8,
            2 => self.places_16,
            3 => self.places_24,
            4 => self.places_32,
            5 => self.places_40,
            6 => self.places_48,
            _ => self.places_56,
        }
    }

    // The letter at a place.
    pub(crate) fn letter(&self, at: u8) -> u8
        ensures { result ≡ letter_at self.now at }
    {
        self.eight(at / 8).to_le_bytes()[usize::from(at) % 8]
    }
}
