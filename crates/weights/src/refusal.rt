ghost use Rattle.std.specs.Prelude.{◌≡◌, Some};
ghost use Rattle.std.specs.Option.{option_to_list};
ghost use Rattle.weights.specs.Refusal.{told, told_text};

use std::error::Error;
use std::fmt;

// Why a call was not taken. Each has its number; `told` in specs/ lists them.
#[derive(Clone, Copy, PartialEq, Eq, Debug)]
pub enum Refusal {
    // the letters are not 1 to 64, or are ruled after a state
    Letters,
    // no such state
    NoState,
    // no such letter
    NoLetter,
    // no such letter, at this index of a list of letters
    NoLetterAt(usize),
    // no element of the kind has this code
    NoCode,
    // the book has all its states, or a memory is too short for one more
    NoRoom,
    // a memory is too short for the whole
    ShortMemory,
    // a field of a draft file is not well formed
    BadField,
    // the number of states is out of range
    StateCount,
    // two sources have unequal letters
    UnequalLetters,
    // the state and letter already have an arc
    SecondArc,
}

impl Refusal {
    // The number by which the refusal is known.
    pub fn number(self) -> u8
        ensures { result ≡ (told self).number }
    {
        match self {
            Refusal::Letters => 1,
            Refusal::NoState => 2,
            Refusal::NoLetter => 3,
            Refusal::NoLetterAt(_) => 3,
            Refusal::NoCode => 4,
            Refusal::NoRoom => 5,
            Refusal::ShortMemory => 6,
            Refusal::BadField => 7,
            Refusal::StateCount => 8,
            Refusal::UnequalLetters => 9,
            Refusal::SecondArc => 10,
        }
    }

    // The index that goes with the refusal, if one does.
    pub fn index(self) -> Option<usize>
        ensures { option_to_list result ≡ (told self).values }
    {
        match self {
            Refusal::NoLetterAt(index) => Some(index),
            _ => None,
        }
    }
}

impl fmt::Display for Refusal {
    ghost output = { λ r. Some (told_text (told r)) };

    fn fmt<W: fmt::Write>(&self, f: &mut fmt::Formatter<W>) -> fmt::Result {
        let number = self.number();
        match self.index() {
            Some(index) => write!(f, "{number} at index {index}"),
            None => write!(f, "{number}"),
        }
    }
}

impl Error for Refusal {}
