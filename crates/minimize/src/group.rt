ghost use Rattle.std.specs.Prelude.{◌≡◌, ◌+◌, ◌*◌, ◌<◌, ◌≤◌, length, Decides, MatchOption, slice_index};
ghost use Rattle.minimize.specs.Group.{Grouped};
ghost use Rattle.minimize.specs.Grouping.{mixed, same_rows, SamePlaces, HasRow, slot_of, chains_of, grouped_rows, NoneBefore, Leads};

use weights::Weight;

// Rows that are compared: row q has a key, and labels and elements at places q * letters + a.
#[derive(Clone, Copy)]
struct Signatures<'a, W> {
    keys: &'a [u16],
    labels: &'a [u16],
    elements: &'a [W],
    letters: u8,
}

// A hash of a hash and a label.
fn mix(hash: u32, label: u16) -> u32
    ensures { result ≡ mixed hash label }
{
    (hash ^ u32::from(label)).wrapping_mul(0x0100_0193)
}

impl<W: Weight> Signatures<'_, W> {
    // Whether labels and elements at two places are equal.
    fn same_places(&self, i: usize, j: usize) -> bool
        requires labels { (i < length self.now.labels.now) × (j < length self.now.labels.now) }
        requires elements { (i < length self.now.elements.now) × (j < length self.now.elements.now) }
        ensures { Decides result (SamePlaces W.kind self.now i j) }
    {
        self.labels[i] == self.labels[j] && self.elements[i].same(self.elements[j])
    }

    // Whether two rows are equal.
    fn same_rows(&self, q: u16, p: u16) -> bool
        requires first { HasRow self.now q }
        requires second { HasRow self.now p }
        ensures { Decides result (same_rows W.kind self.now q p) }
    {
        if self.keys[usize::from(q)] != self.keys[usize::from(p)] {
            return false;
        }
        let letters = usize::from(self.letters);
        let from = usize::from(q) * letters;
        let other = usize::from(p) * letters;
        for letter in 0..letters {
            if !self.same_places(from + letter, other + letter) {
                return false;
            }
        }
        true
    }

    // The bucket of a row: equal rows have one bucket.
    fn slot(&self, row: u16, buckets: usize) -> usize
        requires inside { HasRow self.now row }
        requires some_bucket { 1 ≤ buckets }
        ensures value { result ≡ slot_of self.now buckets row }
        ensures inside { result < buckets }
    {
        let letters = usize::from(self.letters);
        let from = usize::from(row) * letters;
        // The key is mixed in before the labels, since it may be near to them: a state next to its target would cancel it.
        let key = mix(0x811C_9DC5, self.keys[usize::from(row)]);
        let hash = self.labels[from..from + letters]
            .iter()
            .fold(key, |hash, label| mix(hash, *label));
        hash as usize % buckets
    }

    // The row before a row that is equal to it and the first of its kind. Link 0 ends a chain, and link p + 1 leads to row p.
    fn leader(&self, row: u16, slot: usize, heads: &[u16], links: &[u16]) -> Option<u16>
        requires inside { HasRow self.now row }
        requires slot { slot ≡ slot_of self.now (length heads.now) row }
        requires some_bucket { slot < length heads.now }
        requires linked { row ≤ length links.now }
        requires chains { chains_of W.kind self.now row heads.now links.now }
        ensures { MatchOption result (NoneBefore W.kind self.now row) (Leads W.kind self.now row) }
    {
        let mut link = heads[slot];
        while link > 0 {
            let earlier = link - 1;
            if self.same_rows(row, earlier) {
                return Some(earlier);
            }
            link = links[usize::from(earlier)];
        }
        None
    }

    // Gives a row the first row that is equal to it, and tells how many rows up to it are the first of their kind.
    fn group_row(
        &self,
        row: u16,
        kinds: u16,
        heads: &mut [u16],
        links: &mut [u16],
        firsts: &mut [u16],
    ) -> u16
        requires inside { HasRow self.now row }
        requires few { row < 4096 }
        requires some_bucket { 1 ≤ length heads.old }
        requires linked { row < length links.old }
        requires told { row < length firsts.old }
        requires chains { chains_of W.kind self.now row heads.old links.old }
        requires grouped { grouped_rows W.kind self.now row firsts.old kinds }
        ensures chains { chains_of W.kind self.now (row + 1) heads.new links.new }
        ensures grouped { grouped_rows W.kind self.now (row + 1) firsts.new result }
        ensures lengths { (length heads.new ≡ length heads.old) × (length links.new ≡ length links.old) × (length firsts.new ≡ length firsts.old) }
    {
        let slot = self.slot(row, heads.len());
        match self.leader(row, slot, heads, links) {
            Some(first) => {
                firsts[usize::from(row)] = first;
                kinds
            }
            None => {
                firsts[usize::from(row)] = row;
                links[usize::from(row)] = heads[slot];
                heads[slot] = row + 1;
                kinds + 1
            }
        }
    }
}

// Gives each row the first row that is equal to it, and tells how many rows are the first of their kind.
pub(crate) fn group<W: Weight>(
    letters: u8,
    count: u16,
    keys: &[u16],
    labels: &[u16],
    elements: &[W],
    heads: &mut [u16],
    links: &mut [u16],
    firsts: &mut [u16],
) -> u16
    requires label_room { count * letters ≤ length labels.now }
    requires element_room { count * letters ≤ length elements.now }
    requires key_room { count ≤ length keys.now }
    requires link_room { count ≤ length links.old }
    requires first_room { count ≤ length firsts.old }
    requires some_bucket { 1 ≤ length heads.old }
    requires some_row { 1 ≤ count }
    requires few_rows { count ≤ 4096 }
    ensures grouped { Grouped W.kind letters count keys.now labels.now elements.now (slice_index firsts.new) result }
    ensures heads { length heads.new ≡ length heads.old }
    ensures links { length links.new ≡ length links.old }
    ensures firsts { length firsts.new ≡ length firsts.old }
{
    let rows = Signatures {
        keys,
        labels,
        elements,
        letters,
    };
    heads.fill(0);
    let mut kinds = 0;
    for row in 0..count {
        kinds = rows.group_row(row, kinds, heads, links, firsts);
    }
    kinds
}
