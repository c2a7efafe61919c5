ghost use Rattle.std.specs.Prelude.{◌≡◌, ◌+◌, ◌≤◌, Some, length, slice_get, slice_index_or, slice_set};
ghost use Rattle.tables.specs.Book.{cleared, laid, place, size_of};
ghost use Rattle.tables.specs.Call.{has_places, has_room};
ghost use Rattle.tables.specs.Sheet.{mean_at};

use weights::Weight;

// A target that is not set.
pub(crate) const UNSET: u16 = 65535;

// The place of an arc where there are that many letters.
pub(crate) fn arc_place(letters: u8, state: u16, letter: u8) -> usize
    ensures { result ≡ place letters state letter }
{
    1 + usize::from(state) * usize::from(letters) + usize::from(letter)
}

// Writes a place, if it exists.
pub(crate) fn put<T: Copy>(memory: &mut [T], at: usize, value: &T)
    ensures { memory.new ≡ slice_set memory.old at value.now }
{
    if at < memory.len() {
        memory[at] = *value;
    }
}

// The value at a place, or another where the place does not exist.
pub fn get_or<T: Copy>(memory: &[T], at: usize, default: &T) -> T
    ensures { result ≡ slice_index_or memory.now at default.now }
{
    memory.get(at).copied().unwrap_or(*default)
}

// The element at a place, one where the place does not exist.
pub fn element_in<W: Weight>(elements: &[W], at: usize) -> W
    ensures meaning { W.kind.mean result ≡ mean_at W.kind elements.now at }
    ensures element { (x : W) → slice_get elements.now at ≡ Some x → result ≡ x }
{
    get_or(elements, at, &W::one())
}

// Whether memories of those lengths have the places of so many states.
pub(crate) fn are_long_enough(
    targets: usize,
    weights: usize,
    marks: usize,
    letters: u8,
    states: u16,
) -> bool
    ensures { result ≡ has_places (record { targets = targets; weights = weights; marks = marks; letters = letters; count = states }) }
{
    let places = arc_place(letters, states, 0);
    targets >= places && weights >= places && marks >= usize::from(states)
}

// Whether a book of so many states over memories of those lengths has room for one more.
pub(crate) fn has_room(
    targets: usize,
    weights: usize,
    marks: usize,
    letters: u8,
    states: u16,
) -> bool
    ensures { result ≡ has_room (record { targets = targets; weights = weights; marks = marks; letters = letters; count = states }) }
{
    states < 4095 && are_long_enough(targets, weights, marks, letters, states + 1)
}

// Whether three memories have the places of so many states. They are given one by one, as `Sheet` holds them.
pub(crate) fn has_places<W>(
    targets: &[u16],
    weights: &[W],
    marks: &[u8],
    letters: u8,
    states: u16,
) -> bool
    ensures { result ≡ has_places (size_of (laid targets.now weights.now marks.now letters states)) }
{
    are_long_enough(targets.len(), weights.len(), marks.len(), letters, states)
}

// Makes that many places unset.
pub(crate) fn clear(targets: &mut [u16], from: usize, count: usize)
    requires { from + count ≤ length targets.old }
    ensures { targets.new ≡ cleared targets.old from count }
{
    targets[from..from + count].fill(UNSET);
}
