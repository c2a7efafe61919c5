ghost use Rattle.std.specs.Prelude.{◌≡◌, ◌<◌};
ghost use Rattle.tables.specs.Book.{place};
ghost use Rattle.minimize.specs.Rows.{Laid, rows_table};
ghost use Rattle.minimize.specs.Slices.{laid_rows};

use weights::Weight;

// In place of a target, a number, a distance, a label or a leader: none.
pub(crate) const NONE: u16 = 65535;

// A table that lies in three slices in the layout of a book, without an off state: all of its arcs lead to states of its own.
#[derive(Clone, Copy)]
pub(crate) struct Rows<'a, W> {
    pub(crate) targets: &'a [u16],
    pub(crate) weights: &'a [W],
    pub(crate) marks: &'a [u8],
    pub(crate) letters: u8,
    pub(crate) count: u16,
}

impl<W: Weight> Rows<'_, W> {
    // Whether a state is final.
    pub(crate) fn is_final(&self, state: u16) -> bool
        requires laid { Laid W.kind (laid_rows self.now) }
        requires inside { state < self.now.count }
        ensures { result ≡ (rows_table W.kind (laid_rows self.now)).final state }
    {
        self.marks[usize::from(state)] % 2 == 1
    }

    // Where an arc leads.
    pub(crate) fn target(&self, state: u16, letter: u8) -> u16
        requires laid { Laid W.kind (laid_rows self.now) }
        requires inside { state < self.now.count }
        requires letter { letter < self.now.letters }
        ensures value { result ≡ (rows_table W.kind (laid_rows self.now)).target state letter }
        ensures stays { result < self.now.count }
    {
        self.targets[place(self.letters, state, letter)]
    }

    // What an arc weighs.
    pub(crate) fn weight(&self, state: u16, letter: u8) -> W
        requires laid { Laid W.kind (laid_rows self.now) }
        requires inside { state < self.now.count }
        requires letter { letter < self.now.letters }
        ensures { W.kind.mean result ≡ (rows_table W.kind (laid_rows self.now)).weight state letter }
    {
        self.weights[place(self.letters, state, letter)]
    }
}

// The place of an arc.
pub(crate) fn place(letters: u8, state: u16, letter: u8) -> usize
    ensures { result ≡ place letters state letter }
{
    1 + usize::from(state) * usize::from(letters) + usize::from(letter)
}
