// What a list of calls comes to in size, told without making it.
ghost use Rattle.std.specs.Prelude.{◌≡◌};
ghost use Rattle.tables.specs.Made.{calls_of, HasSize};
ghost use Rattle.tables.specs.Sizes.{size_left, size_over};
ghost use Rattle.tables.specs.Sketch.{blank, sketch_of};

use crate::call::Call;
use crate::made::Made;
use crate::memory::has_room;
use crate::words::is_letter_count;
use weights::Weight;

// The letters and the states of a table that is drawn, the off state not among them.
#[derive(Clone, Copy, PartialEq, Eq, Debug)]
pub struct DrawnSize {
    pub letters: u8,
    pub states: u16,
}

// The letters and states that a list of calls comes to on a new book over memories of those lengths.
pub fn drawn_size<W: Weight>(
    targets: usize,
    weights: usize,
    marks: usize,
    made: &[Made<W>],
) -> DrawnSize
    ensures { HasSize (sketch_of (record { targets = targets; weights = weights; marks = marks }) blank (calls_of made.now)) result }
{
    let mut size = DrawnSize {
        letters: 1,
        states: 0,
    };
    for one in made {
        size = size_after(targets, weights, marks, size, one.call);
    }
    size
}

// The size that one call leaves, taken or refused.
fn size_after<W: Weight>(
    targets: usize,
    weights: usize,
    marks: usize,
    size: DrawnSize,
    call: Call<W>,
) -> DrawnSize
    ensures { size_over (record { targets = targets; weights = weights; marks = marks }) result ≡ size_left (size_over (record { targets = targets; weights = weights; marks = marks }) size) call }
{
    match call {
        Call::Rule { letters } => {
            if size.states == 0 && is_letter_count(letters) {
                DrawnSize { letters, ..size }
            } else {
                size
            }
        }
        Call::State { .. } => {
            if has_room(targets, weights, marks, size.letters, size.states) {
                DrawnSize {
                    states: size.states + 1,
                    ..size
                }
            } else {
                size
            }
        }
        Call::Arc { .. } | Call::Start { .. } => size,
    }
}
