ghost use Rattle.std.specs.Prelude.{◌≡◌};
ghost use Rattle.weights.specs.Group.{Kind};
ghost use Rattle.tables.specs.Table.{Table, Lawful, meant, final_at, target_at, weight_at};

use weights::Weight;

// A source, which means one table. Its questions answer what that table has, and nothing for a state or a letter that it lacks.
pub trait Source<W: Weight> {
    // the table, by what the elements mean
    ghost table: { Self → (K : Kind W) → Table K.group.Mean };

    // its sizes are such as a table may have, and its start and arcs lead to its states
    ghost lawful: { (x : Self) (K : Kind W) → Lawful (table x K) };

    fn states(&self) -> u16
        ensures { result ≡ (table self.now W.kind).states };

    fn letters(&self) -> u8
        ensures { result ≡ (table self.now W.kind).letters };

    fn start(&self) -> u16
        ensures { result ≡ (table self.now W.kind).start };

    fn start_weight(&self) -> W
        ensures { W.kind.mean result ≡ (table self.now W.kind).start_weight };

    fn is_final(&self, state: u16) -> Option<bool>
        ensures { result ≡ final_at (table self.now W.kind) state };

    fn target(&self, state: u16, letter: u8) -> Option<u16>
        ensures { result ≡ target_at (table self.now W.kind) state letter };

    fn weight(&self, state: u16, letter: u8) -> Option<W>
        ensures { meant W.kind result ≡ weight_at (table self.now W.kind) state letter };
}
